//! The state of a script once a graph is open, and the commands on it.
ghost use Rattle.std.specs.Prelude.{◌≡◌, ◌<◌, [], false, Err, IfErr, IfOk, IfSome, MatchOption, None, OnOk, Some, length};
ghost use Rattle.std.specs.List.{slice_get};
ghost use Rattle.std.specs.Option.{option_map};
ghost use Rattle.algorithm_meaning.specs.ProgramTree.{ProgramTree};
ghost use Rattle.version_list.specs.declared.step.Step.TheVariants as step;
ghost use Rattle.version_flats.specs.VersionFlats.{IsKept};
ghost use Rattle.version_records.specs.VersionRecords.{AreRecordsOf, MayLose};
ghost use Rattle.replies.specs.declared.send_error.SendError.TheVariants.{NoMemory};
ghost use Rattle.scripts.specs.Replies.{on_open, joined, stepping, which_of, graph_of, listing, running, program_of};
ghost use Rattle.replies.specs.ReplyText.{line_text};
ghost use Rattle.replies.specs.Sending.{Emits};
ghost use Rattle.scripts.specs.inside.Stepping.{IsAnswered, refusal_of};

use crate::commands::Command;
use crate::host::Host;
use crate::programs::{ProgramRun, Programs};
use apply_options::MAX_WORKERS;
use devices::Drain;
use refusal_numbers::{BAD_LINE, BAD_WORKERS, NO_PROGRAM};
use replies::{LineReply, ReplyWriter, SendError, is_fault};
use std::alloc::{AllocError, Global};
use std::marker::Model;
use std::mem;
use tree_batch::{Batch, Entry, Graph};
use version_flats::VersionFlats;
use version_list::{Ticket, VersionError, Versions, Which};
use version_records::VersionRecords;

/// What a `run` line asks: the program of a number, which counts from 1, within a bound of turns, by so many workers, on the
/// version that a ticket holds, or on the newest.
#[derive(Clone, Copy)]
struct RunLine {
    program: u64,
    turns: u64,
    workers: u64,
    ticket: Option<u64>,
}

/// The versions of a graph with the flats of kept ones that were run on, the entries that the next
/// commit takes, and whether some run on it has ended by a fault.
pub(crate) struct OpenGraph {
    versions: Versions,
    flats: VersionFlats,
    pending: Batch,
    faulted: bool,
}

impl Model for OpenGraph {
    ghost use Rattle.scripts.specs.Replies.{OpenState};

    ghost Value = { OpenState };

    ghost view = { λ o. record {
      versions = o.versions.state;
      pending = o.pending;
      faulted = o.faulted;
    } };

    ghost use Rattle.version_flats.specs.VersionFlats.{AreOf};

    ghost invariant = { λ o. AreOf o.versions.state o.flats };
}

impl Drop for OpenGraph {
    fn drop(self) {
        let OpenGraph {
            versions: _,
            flats: _,
            pending: _,
            faulted: _,
        } = self;
    }
}

impl OpenGraph {
    /// New versions, with no entry pending and no run so far.
    pub(crate) fn new(alloc: Global, versions: Versions) -> OpenGraph
        ensures { result ≡ record { versions = versions.state; pending = []; faulted = false } }
    {
        OpenGraph {
            versions,
            flats: VersionFlats::new(alloc),
            pending: Batch::new(alloc),
            faulted: false,
        }
    }

    /// Whether some run has ended by a fault.
    pub(crate) fn has_faulted(&self) -> bool
        ensures { result ≡ self.now.faulted }
    {
        self.faulted
    }

    /// Does a command and sends its reply. After `NoMemory` pending entries may be gone.
    pub(crate) fn answer<P: Programs, W: Drain>(
        &mut self,
        host: &Host<'_, P>,
        command: Command,
        records: &mut VersionRecords<P::Record>,
        replies: &mut ReplyWriter<'_, W>,
    ) -> Result<(), SendError>
        requires ready { P.are_ready host.now.programs.now }
        requires records { AreRecordsOf (P.is_record host.now.programs.now) self.old.versions records.old }
        ensures emits { Emits replies.old replies.new
            (on_open (P.trees host.now.programs.now) self.old command).text result }
        ensures state { OnOk result
            (self.new ≡ (on_open (P.trees host.now.programs.now) self.old command).state) }
        ensures records { AreRecordsOf (P.is_record host.now.programs.now) self.old.versions records.new }
    {
        match command {
            Command::Vertices { .. } => host.refuse(BAD_LINE, replies),
            Command::Add {
                source,
                destination,
                weight,
            } => self.join(Entry::Add(source, destination, weight)),
            Command::Remove {
                source,
                destination,
            } => self.join(Entry::Remove(source, destination)),
            Command::Grow { vertices } => self.join(Entry::Grow(vertices)),
            Command::Commit => host.reply(self.commit(host.alloc, records), replies),
            Command::Hold { version } => host.reply(self.hold(version), replies),
            Command::Release { ticket } => host.reply(self.release(ticket, records), replies),
            Command::Edges { ticket } => self.list(host, ticket, replies),
            Command::Run {
                program,
                turns,
                workers,
                ticket,
            } => {
                let line = RunLine {
                    program,
                    turns,
                    workers,
                    ticket,
                };
                self.run_numbered(host, line, records, replies)
            }
        }
    }

    fn join(&mut self, entry: Entry) -> Result<(), SendError>
        ensures state { OnOk result (self.new ≡ (joined self.old entry).state) }
        ensures err { IfErr result (λ e. e ≡ NoMemory) }
    {
        match self.pending.push(entry) {
            Ok(()) => Ok(()),
            Err(_) => Err(SendError::NoMemory),
        }
    }

    fn commit<R: Drop>(
        &mut self,
        alloc: Global,
        records: &mut VersionRecords<R>,
    ) -> Result<LineReply, AllocError>
        ensures answered { IfOk result (IsAnswered self.new
            (stepping self.old (step.Commit self.old.pending) [])) }
        ensures records { MayLose records.old records.new }
    {
        let (before, _) = self.versions.newest();
        let batch = mem::replace(&mut self.pending, Batch::new(alloc));
        let entries = batch.len();
        match self.versions.commit(alloc, batch) {
            Ok(number) => {
                self.flats.let_go(&self.versions, before);
                records.after_commit(&self.versions, entries);
                Ok(LineReply::Version(number))
            }
            Err(error) => refusal(error),
        }
    }

    fn hold(&mut self, version: Option<u64>) -> Result<LineReply, AllocError>
        ensures { IfOk result (IsAnswered self.new
            (stepping self.old (step.Acquire (which_of version)) self.old.pending)) }
    {
        let which = version.map_or(Which::Newest, Which::At);
        let prepared = match self.versions.prepare_acquire(which) {
            Ok(prepared) => prepared,
            Err(error) => return refusal(error),
        };
        let held = prepared.version;
        let (ticket, _) = self.versions.finish_acquire(prepared);
        Ok(LineReply::Ticket(ticket.number, held))
    }

    fn release<R: Drop>(
        &mut self,
        number: u64,
        records: &mut VersionRecords<R>,
    ) -> Result<LineReply, AllocError>
        ensures answered { IfOk result (IsAnswered self.new
            (stepping self.old (step.Release number) self.old.pending)) }
        ensures records { MayLose records.old records.new }
    {
        let ticket = Ticket { number };
        let Some((version, _)) = self.versions.kept(ticket) else {
            return refusal(VersionError::NotHeld);
        };
        match self.versions.release(ticket) {
            Ok(()) => {
                self.flats.let_go(&self.versions, version);
                records.after_release(&self.versions, version);
                Ok(LineReply::Released(number))
            }
            Err(error) => refusal(error),
        }
    }

    /// Sends the edges of the newest version, or of the one that a ticket holds.
    fn list<P: Programs, W: Drain>(
        &self,
        host: &Host<'_, P>,
        ticket: Option<u64>,
        replies: &mut ReplyWriter<'_, W>,
    ) -> Result<(), SendError>
        ensures { Emits replies.old replies.new
            (listing self.now (graph_of self.now.versions ticket)).text result }
    {
        match version_of(&self.versions, ticket) {
            Some((_, graph)) => replies.send_edges(graph),
            None => host.refuse(VersionError::NotHeld.number(), replies),
        }
    }

    /// Runs the program that a line asks for, after which no reply is kept, or refuses its number.
    fn run_numbered<P: Programs, W: Drain>(
        &mut self,
        host: &Host<'_, P>,
        line: RunLine,
        records: &mut VersionRecords<P::Record>,
        replies: &mut ReplyWriter<'_, W>,
    ) -> Result<(), SendError>
        requires ready { P.are_ready host.now.programs.now }
        requires records { AreRecordsOf (P.is_record host.now.programs.now) self.old.versions records.old }
        ensures emits { Emits replies.old replies.new (running self.old line.turns line.workers
            (program_of (P.trees host.now.programs.now) line.program) (graph_of self.old.versions line.ticket)).text result }
        ensures state { OnOk result (self.new ≡ (running self.old line.turns line.workers
            (program_of (P.trees host.now.programs.now) line.program) (graph_of self.old.versions line.ticket)).state) }
        ensures records { AreRecordsOf (P.is_record host.now.programs.now) self.old.versions records.new }
        ensures written { (program : ProgramTree) → program_of (P.trees host.now.programs.now) line.program ≡ Some program
            → OnOk result (replies.new.kept ≡ []) }
    {
        let Some(index) = index_of(host.programs, line.program) else {
            return host.refuse(NO_PROGRAM, replies);
        };
        self.run(host, index, line, records, replies)
    }

    /// Runs the program at an index as a line asks, and writes what the run shows: no reply is kept after it.
    fn run<P: Programs, W: Drain>(
        &mut self,
        host: &Host<'_, P>,
        index: usize,
        line: RunLine,
        records: &mut VersionRecords<P::Record>,
        replies: &mut ReplyWriter<'_, W>,
    ) -> Result<(), SendError>
        requires ready { P.are_ready host.now.programs.now }
        requires index { index < length (P.trees host.now.programs.now) }
        requires records { AreRecordsOf (P.is_record host.now.programs.now) self.old.versions records.old }
        ensures emits { Emits replies.old replies.new (running self.old line.turns line.workers
            (slice_get (P.trees host.now.programs.now) index) (graph_of self.old.versions line.ticket)).text result }
        ensures state { OnOk result (self.new ≡ (running self.old line.turns line.workers
            (slice_get (P.trees host.now.programs.now) index) (graph_of self.old.versions line.ticket)).state) }
        ensures records { AreRecordsOf (P.is_record host.now.programs.now) self.old.versions records.new }
        ensures written { OnOk result (replies.new.kept ≡ []) }
    {
        self.send_run(host, index, line, records, replies)?;
        replies.flush()
    }

    /// Runs the program at an index as a line asks, and sends what the run shows.
    fn send_run<P: Programs, W: Drain>(
        &mut self,
        host: &Host<'_, P>,
        index: usize,
        line: RunLine,
        records: &mut VersionRecords<P::Record>,
        replies: &mut ReplyWriter<'_, W>,
    ) -> Result<(), SendError>
        requires ready { P.are_ready host.now.programs.now }
        requires index { index < length (P.trees host.now.programs.now) }
        requires records { AreRecordsOf (P.is_record host.now.programs.now) self.old.versions records.old }
        ensures emits { Emits replies.old replies.new (running self.old line.turns line.workers
            (slice_get (P.trees host.now.programs.now) index) (graph_of self.old.versions line.ticket)).text result }
        ensures state { OnOk result (self.new ≡ (running self.old line.turns line.workers
            (slice_get (P.trees host.now.programs.now) index) (graph_of self.old.versions line.ticket)).state) }
        ensures records { AreRecordsOf (P.is_record host.now.programs.now) self.old.versions records.new }
    {
        let RunLine {
            turns,
            workers,
            ticket,
            ..
        } = line;
        let Some((version, graph)) = version_of(&self.versions, ticket) else {
            return host.refuse(VersionError::NotHeld.number(), replies);
        };
        if workers == 0 || workers > MAX_WORKERS as u64 {
            return host.refuse(BAD_WORKERS, replies);
        }
        let flat = self.flats.flat(host.alloc, &self.versions, version, graph)?;
        let program = index as u64;
        let former = records.predecessor(host.alloc, &self.versions, program, version);
        let ran = host
            .programs
            .run(host.alloc, index, &flat, turns, workers, former)?;
        let ProgramRun {
            outcome,
            run_record,
        } = ran;
        records.keep(&self.versions, program, version, run_record);
        self.faulted = self.faulted || is_fault(outcome.end);
        replies.send_outcome(&outcome)
    }
}

/// The newest version, or the one that a ticket holds, where it is open: its number and its graph.
fn version_of(versions: &Versions, ticket: Option<u64>) -> Option<(u64, &Graph)>
    ensures graph { option_map (λ v. v.1.now) result ≡ graph_of versions.now.state ticket }
    ensures kept { IfSome result (λ v. IsKept versions.now.state v.0 v.1.now) }
{
    match ticket {
        None => Some(versions.newest()),
        Some(number) => versions.kept(Ticket { number }),
    }
}

/// The index, from 0, of the program of this number, which counts from 1.
fn index_of<P: Programs>(programs: &P, number: u64) -> Option<usize>
    ensures within { IfSome result (λ index. index < length (P.trees programs.now)) }
    ensures program { MatchOption result (program_of (P.trees programs.now) number ≡ None)
        (λ index. program_of (P.trees programs.now) number ≡ slice_get (P.trees programs.now) index) }
{
    let index = usize::try_from(number.checked_sub(1)?).ok()?;
    (index < programs.count()).then_some(index)
}

/// The reply to a step that was refused. `NoMemory` has no reply, and gives `AllocError`.
pub(crate) fn refusal(error: VersionError) -> Result<LineReply, AllocError>
    ensures { result ≡ refusal_of error }
{
    match error {
        VersionError::NoMemory => Err(AllocError),
        _ => Ok(LineReply::Refused(error.number())),
    }
}
