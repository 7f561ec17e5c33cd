//! The versions of a graph, and the history of the accepted steps.

ghost use Rattle.std.specs.Prelude.{◌≡◌, Ok, ◌+◌, ◌^◌, ◌≤◌, ◌<◌, if◌then◌else◌, IfOk, IfErr, IfSome, MatchOption, None, OnOk, List, ℕ, is_some, length, vec_len, vec_capacity};
ghost use Rattle.std.specs.Option.{option_copied};
ghost use Rattle.indexmap.specs.IndexMap.{IsUnchanged, index_map_len};
ghost use Rattle.tree_batch.specs.declared.batch.Entry.{Entry};
ghost use Rattle.tree_batch.specs.Edge.{misfits};
ghost use Rattle.tree_batch.specs.Digraph.{graph_after};
ghost use Rattle.version_list.specs.declared.error.VersionError.TheVariants.{VertexRange, NotHeld, HistoryFull, NoMemory};
ghost use Rattle.version_list.specs.declared.step.Step.TheVariants.{Commit, Acquire, Release};
ghost use Rattle.version_list.specs.declared.step.Reply.TheVariants as reply;
ghost use Rattle.edge_differences.specs.Listed.{AreAscending, AreSameBut, is_listed};
ghost use Rattle.edge_differences.specs.Named.{named_in_all};
ghost use Rattle.version_list.specs.Machine.{lacks_room, lacks_steps, newest_graph, newest_number, number_asked, version_graph, is_kept, kept_graph, ticket_graph, ticket_version, is_open, reply_to};
ghost use Rattle.version_list.specs.Timeline.{IsLegal, replay, Opens, Accepts, Answers, Runs};
ghost use Rattle.version_list.specs.inside.Timeline.{Takes};
ghost use Rattle.version_list.specs.Prepared.{IsPrepared, IsPreparedAcquire, Prepares};
ghost use Rattle.version_list.specs.Trims.{PreparesTrim, Trims};
ghost use Rattle.version_list.specs.inside.Held.{HasRoom};
ghost use Rattle.version_list.specs.Kept.{IsHeld};
ghost use Rattle.version_list.specs.Since.{batches_since, lists_since};

use crate::base::Base;
use crate::error::VersionError;
use crate::held::HeldVersions;
use crate::prepared::{Prepared, PreparedAcquire, PreparedTrim};
use crate::since::{named_by_steps, start_of_last};
use crate::step::{Done, Reply, Step, Ticket, Which};
use edge_differences::sorted_ends;
use std::alloc::{AllocError, Global};
use std::marker::Model;
use std::thread::Threads;
use tree_batch::{Batch, Graph, Quiet};

/// The greatest number of entries that a history may have.
pub const MAX_HISTORY: u64 = 16_777_216;

/// The versions of a graph that are kept, and the history of the steps that were accepted since the
/// opening or since the last trim. All accepted steps since the opening are counted, trims too: a step
/// after which that count, with the releases of the open tickets, would pass 2^64 - 1 is refused as one
/// for which the history has no room.
#[derive(Debug)]
pub struct Versions {
    newest: Graph,
    number: u64,
    room: u64,
    /// The state in which the history begins.
    base: Base,
    history: Vec<Done>,
    /// How many steps were accepted since the opening.
    steps: u64,
    given: u64,
    held: HeldVersions,
    /// For how many entries memory is reserved, beside those of releases: 1 for a commit that was
    /// prepared, 2 for a hold, else 0.
    reserved: u64,
}

impl Drop for Versions {
    fn drop(self) {
        let Versions {
            newest: _,
            number: _,
            room: _,
            base: _,
            history: _,
            steps: _,
            given: _,
            held: _,
            reserved: _,
        } = self;
    }
}

impl Model for Versions {
    ghost use Rattle.version_list.specs.Timeline.{Timeline};

    ghost Value = { Timeline };

    ghost use Rattle.version_list.specs.inside.Fields.{timeline, IsFaithful};

    ghost view = { timeline };

    ghost invariant = { IsFaithful };
}

impl Versions {
    /// Version 0 of a graph with this many vertices, 1 to 16,777,216, and no edges; the chunk
    /// size is that of [`Graph::new`]. The history has room for [`MAX_HISTORY`] entries.
    ///
    /// Errors: `VertexRange` for another number of vertices, else `BadChunkSize` for another
    /// chunk size, else `NoMemory`.
    ///
    /// # Example
    ///
    /// ```
    /// let mut versions = Versions::new(alloc, VERTICES, CHUNK_SIZE)?;
    /// ```
    pub fn new(alloc: Global, vertices: u32, chunk_size: u32) -> Result<Versions, VersionError>
        ensures { Opens vertices chunk_size 16777216 result }
    {
        Versions::with_room(alloc, vertices, chunk_size, MAX_HISTORY)
    }

    /// A list of versions with room for at most `room` entries in the history; a larger room than
    /// [`MAX_HISTORY`] is taken as that. The errors are those of [`Versions::new`].
    pub fn with_room(
        alloc: Global,
        vertices: u32,
        chunk_size: u32,
        room: u64,
    ) -> Result<Versions, VersionError>
        ensures { Opens vertices chunk_size room result }
    {
        Ok(Versions {
            newest: Graph::new(vertices, chunk_size)?,
            number: 0,
            room: room.min(MAX_HISTORY),
            base: Base::at(&(vertices, room)),
            history: Vec::new(alloc),
            steps: 0,
            given: 0,
            held: HeldVersions::new(alloc),
            reserved: 0,
        })
    }

    /// Makes the next version by a batch, also by an empty one, and answers its number.
    ///
    /// Errors: `VertexRange` where the newest version's graph refuses the batch (see [`Graph::apply`]), else
    /// `HistoryFull` where the history has no room, else `NoMemory`. After an error the versions
    /// and the history are as before, and the batch is gone.
    ///
    /// # Example
    ///
    /// ```
    /// let shorter = batch(alloc, &[Entry::Remove(1, 2), Entry::Add(0, 3, 1)])?;
    /// versions.commit(alloc, shorter)?;
    /// ```
    pub fn commit(&mut self, alloc: Global, batch: Batch) -> Result<u64, VersionError>
        ensures { Answers self.old (Commit batch) reply.Version result self.new }
    {
        if self.lacks_room(1) {
            return Err(refusal_when_full(&batch, self.newest.vertices()));
        }
        let graph = self.newest.apply(alloc, &batch)?;
        let prepared = self.reserve_entry(batch, graph)?;
        Ok(self.finish(prepared))
    }

    /// As [`Versions::commit`], by [`Graph::apply_forked`] with halves on two threads at so many
    /// levels, at most 6. The answer is that of `commit` whatever `forks` is.
    ///
    /// Errors: those of `commit`.
    pub fn commit_forked<R: Threads + Sync>(
        &mut self,
        rt: &R,
        alloc: Global,
        batch: Batch,
        forks: u32,
    ) -> Result<u64, VersionError>
        ensures { Answers self.old (Commit batch) reply.Version result self.new }
    {
        let prepared = self.prepare(rt, alloc, batch, forks)?;
        Ok(self.finish(prepared))
    }

    /// Takes the memory of a commit, and makes the next version's graph, by
    /// [`Graph::apply_forked`]. Neither the versions nor the history are changed before
    /// [`Versions::finish`].
    ///
    /// Errors: those of [`Versions::commit`].
    pub fn prepare<R: Threads + Sync>(
        &mut self,
        rt: &R,
        alloc: Global,
        batch: Batch,
        forks: u32,
    ) -> Result<Prepared, VersionError>
        ensures { Prepares self.old (Commit batch) 1 (λ t p. IsPrepared t batch p) result self.new }
    {
        if self.lacks_room(1) {
            return Err(refusal_when_full(&batch, self.newest.vertices()));
        }
        let graph = self.newest.apply_forked(rt, alloc, &batch, forks, &Quiet)?;
        self.reserve_entry(batch, graph)
    }

    /// Commits what was prepared, where no step was accepted since, and answers the new version's
    /// number. Takes no memory, and cannot be refused.
    pub fn finish(&mut self, prepared: Prepared) -> u64
        requires { (batch : List Entry) × IsPrepared self.old batch prepared }
        ensures accepted { Accepts self.old prepared.done.step prepared.done.reply self.new }
        ensures number { result ≡ prepared.number }
    {
        let Prepared {
            done,
            number,
            graph,
        } = prepared;
        self.history.push_reserved(done);
        self.newest = graph;
        self.number = number;
        self.steps += 1;
        self.reserved = 0;
        number
    }

    /// Holds a version by a new ticket, and answers the ticket and the version's graph, which
    /// shares its memory with the version. Tickets are numbered from 1. Takes the time of a
    /// map's look-up.
    ///
    /// Errors: `NotKept` where the version asked for is neither the newest nor held, else
    /// `HistoryFull` where the history has no room for this step and for the ticket's release,
    /// else `NoMemory`. After an error the versions and the history are as before.
    ///
    /// # Example
    ///
    /// ```
    /// let (ticket, held) = versions.acquire(Which::Newest)?;
    /// ```
    pub fn acquire(&mut self, which: Which) -> Result<(Ticket, Graph), VersionError>
        ensures answer { let version = number_asked self.old.state which in
            Answers self.old (Acquire which) (λ r. reply.Ticket r.0.number version)
            result self.new }
        ensures graph { let version = number_asked self.old.state which in
            IfOk result (λ r. r.1 ≡ version_graph self.old.state version) }
    {
        let prepared = self.prepare_acquire(which)?;
        Ok(self.finish_acquire(prepared))
    }

    /// Takes the memory of a hold, and of the release of its ticket. Neither the versions nor the
    /// history are changed before [`Versions::finish_acquire`].
    ///
    /// Errors: those of [`Versions::acquire`].
    pub fn prepare_acquire(&mut self, which: Which) -> Result<PreparedAcquire, VersionError>
        ensures { Prepares self.old (Acquire which) 2 (λ t p. IsPreparedAcquire t which p) result self.new }
    {
        let version = self.number_asked(which);
        let Some(found) = self.kept_graph(version) else {
            return Err(VersionError::NotKept);
        };
        if self.lacks_room(2) {
            return Err(VersionError::HistoryFull);
        }
        let graph = found.clone()?;
        let kept = graph.clone()?;
        reserve_ticket(&mut self.history, &mut self.held)?;
        self.reserved = 2;
        let ticket = Ticket {
            number: self.given + 1,
        };
        Ok(PreparedAcquire {
            which,
            ticket,
            version,
            graph,
            kept,
        })
    }

    /// Holds the version that was prepared, where no step was accepted since, and answers the
    /// ticket and the version's graph. Takes no memory, and cannot be refused.
    pub fn finish_acquire(&mut self, prepared: PreparedAcquire) -> (Ticket, Graph)
        requires { IsPreparedAcquire self.old prepared.which prepared }
        ensures accepted { Accepts self.old (Acquire prepared.which)
            (reply.Ticket prepared.ticket.number prepared.version) self.new }
        ensures ticket { result.0 ≡ prepared.ticket }
        ensures graph { result.1 ≡ prepared.graph }
    {
        let PreparedAcquire {
            which,
            ticket,
            version,
            graph,
            kept,
        } = prepared;
        self.held.open(ticket.number, version, kept);
        self.history.push_reserved(Done {
            step: Step::Acquire(which),
            reply: Reply::Ticket(ticket.number, version),
        });
        self.given = ticket.number;
        self.steps += 1;
        self.reserved = 0;
        (ticket, graph)
    }

    /// Closes a ticket. Its version is dropped where no other ticket holds it and it is not the
    /// newest. Takes no memory, and the time of a map's look-up.
    ///
    /// Errors: `NotHeld` where the ticket is not open, and then the versions and the history are
    /// as before. There is no other: room and memory were kept for it when the ticket was given.
    ///
    /// # Example
    ///
    /// ```
    /// versions.release(ticket)?;
    /// ```
    pub fn release(&mut self, ticket: Ticket) -> Result<(), VersionError>
        ensures answer { Answers self.old (Release ticket.number) (λ _. reply.Released)
            result self.new }
        ensures only_not_held { IfErr result (λ e. e ≡ NotHeld) }
    {
        if !self.held.is_open(ticket.number) {
            return Err(VersionError::NotHeld);
        }
        self.held.close(ticket.number);
        self.history.push_reserved(Done {
            step: Step::Release(ticket.number),
            reply: Reply::Released,
        });
        self.steps += 1;
        self.reserved = 0;
        Ok(())
    }

    /// Drops the entries of the history, and answers how many there were. What is kept stays as it is:
    /// the versions, their numbers and graphs, the open tickets, and the room and the memory for their
    /// releases. The history begins anew in the present state, with room for as many entries as at the
    /// opening. Takes no memory.
    ///
    /// Errors: `HistoryFull` where no more steps can be counted, and then nothing is changed. Want of
    /// room in the history is no reason.
    pub fn trim(&mut self) -> Result<u64, VersionError>
        ensures { Trims self.old result self.new }
    {
        let prepared = self.prepare_trim()?;
        Ok(self.finish_trim(prepared))
    }

    /// Asks for a trim, without a change before [`Versions::finish_trim`]. Takes no memory.
    ///
    /// Errors: those of [`Versions::trim`].
    pub fn prepare_trim(&self) -> Result<PreparedTrim, VersionError>
        ensures { PreparesTrim self.now result }
    {
        if self.lacks_steps(1) {
            return Err(VersionError::HistoryFull);
        }
        Ok(PreparedTrim {
            count: self.history.len() as u64,
        })
    }

    /// Makes the trim that was prepared, where no step was accepted since, and answers how many entries
    /// were dropped. Takes no memory, and cannot be refused.
    pub fn finish_trim(&mut self, prepared: PreparedTrim) -> u64
        requires { PreparesTrim self.old (Ok prepared) }
        ensures count { result ≡ prepared.count }
        ensures trimmed { Trims self.old (Ok prepared.count) self.new }
    {
        self.base = Base::at(&*self);
        self.history.clear();
        self.steps += 1;
        self.reserved = 0;
        prepared.count
    }

    /// Takes steps one after another, and answers what each is answered. A step that is refused
    /// changes nothing, and the next one follows.
    ///
    /// Errors: `NoMemory`, after which the versions and the history are those after the steps
    /// before some step.
    pub fn run(&mut self, alloc: Global, steps: &[Step]) -> Result<Vec<Reply>, VersionError>
        ensures { Runs self.old steps.now (λ v. v.items) result self.new }
    {
        let mut replies = Vec::with_capacity(alloc, steps.len())?;
        for step in steps {
            let reply = self.answer(alloc, step)?;
            replies.push_reserved(reply);
        }
        Ok(replies)
    }

    /// Whether the ticket is open, so that its release is not refused. Takes no memory.
    pub fn is_open(&self, ticket: Ticket) -> bool
        ensures { result ≡ is_open self.now.state ticket.number }
    {
        self.held.is_open(ticket.number)
    }

    /// The number of the version that a ticket holds, or `None` where the ticket is not open.
    /// Takes no memory, and the time of a map's look-up.
    pub fn version(&self, ticket: Ticket) -> Option<u64>
        ensures version { result ≡ ticket_version self.now.state.open_tickets ticket.number }
        ensures made { IfSome result (λ k. k ≤ newest_number self.now.state) }
    {
        self.held.version(ticket.number)
    }

    /// The number and the graph of the version that a ticket holds, or `None` where the ticket is not
    /// open. Takes no memory, and the time of two look-ups in maps.
    pub fn kept(&self, ticket: Ticket) -> Option<(u64, &Graph)>
        ensures { MatchOption result (ticket_version self.now.state.open_tickets ticket.number ≡ None)
            (λ v. IsHeld self.now.state ticket.number v.0 v.1.now) }
    {
        let held = self.held.version(ticket.number)?;
        match self.held.graph(held) {
            Some(graph) => Some((held, graph)),
            None => None,
        }
    }

    /// Whether a version is kept: it is the newest, or an open ticket holds it. Takes no memory,
    /// and the time of a map's look-up.
    pub fn is_kept(&self, version: u64) -> bool
        ensures { result ≡ is_kept self.now.state version }
    {
        self.kept_graph(version).is_some()
    }

    /// The graph of the version that a ticket holds, or `None` where the ticket is not open.
    /// Takes no memory.
    pub fn graph(&self, ticket: Ticket) -> Option<&Graph>
        ensures { option_copied result ≡ ticket_graph self.now.state ticket.number }
    {
        let version = self.held.version(ticket.number)?;
        self.held.graph(version)
    }

    /// The newest version's number and graph. Takes no memory.
    ///
    /// # Example
    ///
    /// ```
    /// let (newest, graph) = versions.newest();
    /// ```
    pub fn newest(&self) -> (u64, &Graph)
        ensures number { result.0 ≡ newest_number self.now.state }
        ensures graph { result.1.now ≡ version_graph self.now.state (newest_number self.now.state) }
    {
        (self.number, &self.newest)
    }

    /// The steps that were accepted since the opening or the last trim in order, each with its reply: a
    /// legal history, whose replay from the base is the state. Takes no memory.
    pub fn history(&self) -> &[Done]
        ensures entries { result.now ≡ self.now.history }
        ensures legal { IsLegal self.now.base result.now }
        ensures replays { replay self.now.base result.now ≡ self.now.state }
        ensures few { length result.now ≤ 16777216 }
    {
        &self.history
    }

    /// The ends of the edges in which the newest version may differ from an earlier one: those that the batches since then
    /// name, ascending by source and then by destination, each once. It is `None` if there is no such version, if a trim
    /// dropped one of these batches, if one of them asks for a number of vertices, or if they have more than `most` entries
    /// in all. It takes the time of a walk over the entries of the history since then, and of a sort of the entries of the
    /// batches.
    ///
    /// The only error is out of memory.
    pub fn edges_since(
        &self,
        alloc: Global,
        version: u64,
        most: usize,
    ) -> Result<Option<Vec<(u32, u32)>>, AllocError>
        ensures edges { IfOk result (λ found. IfSome found (λ edges. (version ≤ newest_number self.now.state)
            × AreSameBut edges.items (newest_graph self.now.state).edges (version_graph self.now.state version).edges)) }
        ensures vertices { IfOk result (λ found. IfSome found (λ _.
            (newest_graph self.now.state).vertices ≡ (version_graph self.now.state version).vertices)) }
        ensures named { IfOk result (λ found. IfSome found (λ edges. AreAscending edges.items
            × ((u v : ℕ) → is_listed edges.items u v ≡ is_listed (named_in_all (batches_since self.now.state version)) u v))) }
        ensures listed { IfOk result (λ found. is_some found ≡ lists_since self.now version most) }
    {
        let Some(batches) = self.number.checked_sub(version) else {
            return Ok(None);
        };
        let Some(start) = start_of_last(&self.history, batches) else {
            return Ok(None);
        };
        match named_by_steps(alloc, &self.history[start..], most)? {
            Some(named) => Ok(Some(sorted_ends(alloc, &named)?)),
            None => Ok(None),
        }
    }

    /// Takes a step, and answers what it is answered, a refusal too.
    ///
    /// Errors: `NoMemory`, and then nothing is changed.
    fn answer(&mut self, alloc: Global, step: &Step) -> Result<Reply, VersionError>
        ensures { Takes self.old step.now result self.new }
    {
        let answer = match step {
            Step::Commit(batch) => self.commit(alloc, batch.clone()?).map(Reply::Version),
            Step::Acquire(which) => {
                let version = self.number_asked(*which);
                self.acquire(*which)
                    .map(|(ticket, _)| Reply::Ticket(ticket.number, version))
            }
            Step::Release(number) => {
                let ticket = Ticket { number: *number };
                self.release(ticket).map(|()| Reply::Released)
            }
            Step::Trim => self.trim().map(Reply::Trimmed),
        };
        match answer {
            Err(VersionError::NoMemory) => Err(VersionError::NoMemory),
            Err(refusal) => Ok(Reply::Refused(refusal.number())),
            Ok(reply) => Ok(reply),
        }
    }

    /// Takes the memory of a commit's entry.
    fn reserve_entry(&mut self, batch: Batch, graph: Graph) -> Result<Prepared, VersionError>
        requires answer { reply_to self.old.state (Commit batch) ≡ reply.Version (newest_number self.old.state + 1) }
        requires graph { graph ≡ graph_after (version_graph self.old.state (newest_number self.old.state)) batch }
        ensures ok { IfOk result (λ p. (self.new ≡ record self.old { reserved = 1 }) × IsPrepared self.new batch p) }
        ensures err { IfErr result (λ e. (e ≡ NoMemory) × (self.new ≡ self.old)) }
    {
        self.history.reserve(self.held.ticket_count() + 1)?;
        self.reserved = 1;
        let number = self.number + 1;
        let done = Done {
            step: Step::Commit(batch),
            reply: Reply::Version(number),
        };
        Ok(Prepared {
            done,
            number,
            graph,
        })
    }

    /// The number of the version that is asked for.
    fn number_asked(&self, which: Which) -> u64
        ensures { result ≡ number_asked self.now.state which }
    {
        match which {
            Which::Newest => self.number,
            Which::At(number) => number,
        }
    }

    /// The graph of a version, where it is the newest or held.
    fn kept_graph(&self, version: u64) -> Option<&Graph>
        ensures graph { option_copied result ≡ kept_graph self.now.state version }
        ensures made { IfSome result (λ _. version ≤ newest_number self.now.state) }
    {
        if version == self.number {
            Some(&self.newest)
        } else {
            self.held.graph(version)
        }
    }

    /// Whether the history has no room for so many more entries beside the release of each open
    /// ticket, or so many more steps cannot be counted.
    fn lacks_room(&self, more: u64) -> bool
        requires { more ≤ 2 }
        ensures { result ≡ lacks_room self.now.state more }
    {
        let used = self.history.len() as u64 + self.held.ticket_count() as u64;
        used + more > self.room || self.lacks_steps(more)
    }

    /// Whether so many more steps beside the release of each open ticket cannot be counted.
    fn lacks_steps(&self, more: u64) -> bool
        requires { more ≤ 2 }
        ensures { result ≡ lacks_steps self.now.state more }
    {
        u64::MAX - self.steps < self.held.ticket_count() as u64 + more
    }
}

/// Takes the memory that a new ticket and its release will need.
fn reserve_ticket(history: &mut Vec<Done>, held: &mut HeldVersions) -> Result<(), AllocError>
    requires { index_map_len held.old.tickets + 2 < 2 ^ 64 }
    ensures entries { history.new.items ≡ history.old.items }
    ensures capacity { vec_capacity history.old ≤ vec_capacity history.new }
    ensures tickets { IsUnchanged held.old.tickets held.new.tickets }
    ensures versions { IsUnchanged held.old.versions held.new.versions }
    ensures room { OnOk result (HasRoom held.new) }
    ensures kept_room { HasRoom held.old → HasRoom held.new }
    ensures entry_room { OnOk result
        (vec_len history.new + index_map_len held.new.tickets + 2 ≤ vec_capacity history.new) }
{
    history.reserve(held.ticket_count() + 2)?;
    held.reserve()
}

/// Why a commit is refused where the history is full.
fn refusal_when_full(batch: &Batch, vertices: u32) -> VersionError
    ensures { result ≡ (if misfits vertices batch.now then VertexRange else HistoryFull) }
{
    if batch.misfits(vertices) {
        VersionError::VertexRange
    } else {
        VersionError::HistoryFull
    }
}
