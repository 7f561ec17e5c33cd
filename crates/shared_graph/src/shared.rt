//! Graphs that threads share.

ghost use Rattle.std.specs.Prelude.{◌≡◌, ◌+◌, ◌<◌, ◌≤◌, ◌∷◌, [], ◌++◌, true, IfOk};
ghost use Rattle.tree_batch.specs.Digraph.{is_vertex_count};
ghost use Rattle.version_list.specs.declared.step.Step.TheVariants.{Commit, Acquire, Trim};
ghost use Rattle.version_list.specs.declared.step.Reply.TheVariants as reply;
ghost use Rattle.version_list.specs.Machine.{opened};
ghost use Rattle.version_list.specs.Timeline.{beginning};
ghost use Rattle.shared_graph.specs.Histories.{state_at, fresh_readers};
ghost use Rattle.shared_graph.specs.Holding.{HoldsVersion};
ghost use Rattle.shared_graph.specs.Outcome.{Answers, AnswersRelease, Opens};

use crate::book::Opening;
use crate::error::SharedError;
use crate::held::{Held, Unreleased};
use crate::locked_state::LockedState;
use crate::naming::Naming;
use crate::published_log::{HistoryStart, PublishedLog};
use crate::reader::Reader;
use std::alloc::Global;
use std::sync::{Arc, Mutex, Wait};
use std::thread::Threads;
use tree_batch::Batch;
use version_list::{MAX_HISTORY, VersionError, Versions, Which};

/// The most readers of a shared graph.
pub const MAX_READERS: usize = 64;

/// Versions of a graph that many threads read while some commit, hold and release. Its readers take
/// the newest version without it, by [`Reader::latest`]. Dropped, it waits for readers that are in
/// the midst of that, and publishes nothing any more.
pub struct SharedGraph<J: Naming, R: Wait + Drop> {
    locked_state: Mutex<LockedState<J, R>>,
}

impl<J: Naming, R: Wait + Drop> Drop for SharedGraph<J, R> {
    fn drop(self) {
        let SharedGraph { locked_state: _ } = self;
    }
}

impl<J: Naming, R: Wait + Drop> SharedGraph<J, R> {
    /// Version 0 of a graph with this many vertices, 1 to 16,777,216, and no edges, in chunks of a
    /// power of two from 1 to 256, with n readers, 1 to 64, numbered from 0, which have shown
    /// nothing. The history has room for [`MAX_HISTORY`] entries. `rt` is what publishing waits by.
    ///
    /// Errors: `VertexRange` for another number of vertices, else `BadChunkSize` for another chunk
    /// size, else `BadSeats` for another number of readers, else `NoMemory`.
    ///
    /// # Example
    ///
    /// ```
    /// let (graph, mut readers) = SharedGraph::<J, &T>::open(
    ///     threads, alloc, opening, VERTICES, 64, 2,
    /// )?;
    /// let mut writer = readers.pop().ok_or(SharedError::BadSeats)?;
    /// ```
    pub fn open(
        rt: R,
        alloc: Global,
        opening: Opening,
        vertices: u32,
        chunk_size: u32,
        readers: usize,
    ) -> Result<(SharedGraph<J, R>, Vec<Reader<J>>), SharedError>
        requires book { opening ≡ J.book }
        requires vertices { J.vertices ≡ vertices }
        requires room { J.room ≡ 16777216 }
        ensures { Opens vertices chunk_size readers (λ r. r.1.items) result }
    {
        SharedGraph::open_with_room(
            rt,
            alloc,
            opening,
            vertices,
            chunk_size,
            readers,
            MAX_HISTORY,
        )
    }

    /// Opens a graph with room for at most `room` entries in the history; a larger room than
    /// [`MAX_HISTORY`] is taken as that. The errors are those of [`SharedGraph::open`].
    pub fn open_with_room(
        rt: R,
        alloc: Global,
        opening: Opening,
        vertices: u32,
        chunk_size: u32,
        readers: usize,
        room: u64,
    ) -> Result<(SharedGraph<J, R>, Vec<Reader<J>>), SharedError>
        requires book { opening ≡ J.book }
        requires vertices { J.vertices ≡ vertices }
        requires room { J.room ≡ room }
        ensures { Opens vertices chunk_size readers (λ r. r.1.items) result }
    {
        let (graph, others, last) = SharedGraph::open_apart(
            rt, alloc, opening, vertices, chunk_size, readers, room,
        )?;
        let mut readers = others;
        readers.push(last)?;
        Ok((graph, readers))
    }

    /// Opens a graph as [`SharedGraph::open`] does, with one reader more than `others`, which is the
    /// last and apart from the others: that of a caller who commits while the others read.
    ///
    /// # Example
    ///
    /// ```
    /// let (graph, readers, writer) = SharedGraph::<J, &T>::open_with_writer(
    ///     rt, alloc, opening, vertices, chunk_size, programs.plans.len(),
    /// )?;
    /// ```
    pub fn open_with_writer(
        rt: R,
        alloc: Global,
        opening: Opening,
        vertices: u32,
        chunk_size: u32,
        others: usize,
    ) -> Result<(SharedGraph<J, R>, Vec<Reader<J>>, Reader<J>), SharedError>
        requires book { opening ≡ J.book }
        requires vertices { J.vertices ≡ vertices }
        requires room { J.room ≡ 16777216 }
        ensures { Opens vertices chunk_size (others + 1) (λ r. r.1.items ++ r.2 ∷ []) result }
    {
        let (readers, room) = (others.saturating_add(1), MAX_HISTORY);
        SharedGraph::open_apart(rt, alloc, opening, vertices, chunk_size, readers, room)
    }

    // Opens a graph, with the last of its readers apart from the others.
    fn open_apart(
        rt: R,
        alloc: Global,
        opening: Opening,
        vertices: u32,
        chunk_size: u32,
        readers: usize,
        room: u64,
    ) -> Result<(SharedGraph<J, R>, Vec<Reader<J>>, Reader<J>), SharedError>
        requires book { opening ≡ J.book }
        requires vertices { J.vertices ≡ vertices }
        requires room { J.room ≡ room }
        ensures { Opens vertices chunk_size readers (λ r. r.1.items ++ r.2 ∷ []) result }
    {
        let versions = versions_for(alloc, vertices, chunk_size, readers, room)?;
        let graph = Arc::new(alloc, versions.newest().1.clone()?)?;
        let start = HistoryStart { vertices, room };
        let (published_log, others, last) = PublishedLog::open(
            rt, alloc, opening, start, graph, readers,
        )?;
        let locked_state = Mutex::new(LockedState::new(versions, published_log));
        Ok((SharedGraph { locked_state }, others, last))
    }

    /// Makes the next version by a batch, also by an empty one, in the name of a reader, and answers
    /// its number. The history that the reader shows afterwards extends the one before and ends in
    /// this commit.
    ///
    /// Errors: `VertexRange` where the newest version's graph refuses the batch (see [`Graph::apply`]), else
    /// `HistoryFull` where the history has no room, at the end of the history that the reader then
    /// shows; else `NoMemory`, and then graph and reader are as they were. The batch is gone.
    ///
    /// # Example
    ///
    /// ```
    /// newest = graph.commit(threads, alloc, writer, batch)?;
    /// ```
    pub fn commit<T: Threads + Wait + Sync>(
        &self,
        rt: &T,
        alloc: Global,
        me: &mut Reader<J>,
        batch: Batch,
    ) -> Result<u64, SharedError>
        ensures { Answers (opened J.vertices J.room) me.old (Commit batch) reply.Version result me.new }
    {
        self.locked_state.lock(rt).commit(rt, alloc, me, batch)
    }

    /// Holds a version by a new ticket in the name of a reader: of the newest all batches of the
    /// history that the reader then shows, folded, of an older one those up to its number. That
    /// history extends the one before and ends in this hold, and what is held keeps it.
    ///
    /// Errors: `NotKept` where the version asked for is neither the newest nor held, else
    /// `HistoryFull` where the history has no room for this step and for the ticket's release, at
    /// the end of the history that the reader then shows; else `NoMemory`, and then graph and reader
    /// are as they were.
    ///
    /// # Example
    ///
    /// ```
    /// match graph.hold(rt, alloc, me, Which::Newest) {
    /// ```
    pub fn hold<T: Wait>(
        &self,
        rt: &T,
        alloc: Global,
        me: &mut Reader<J>,
        which: Which,
    ) -> Result<Held<J>, SharedError>
        ensures answer { Answers (opened J.vertices J.room) me.old (Acquire which) (λ h. reply.Ticket h.ticket h.version) result me.new }
        ensures version { IfOk result (HoldsVersion (state_at (opened J.vertices J.room) me.new.shown) which) }
        ensures history { IfOk result (λ h. h.history ≡ me.new.shown) }
    {
        self.locked_state.lock(rt).hold(rt, alloc, me, which)
    }

    /// Closes the ticket of a held version in the name of a reader. The history that the reader shows
    /// afterwards extends the one before and ends in this release.
    ///
    /// Errors, which give the held version back: `NotHeld` where its ticket is not open, at the end
    /// of the history that the reader then shows; else `NoMemory`, and then graph and reader are as
    /// they were.
    pub fn release<T: Wait>(
        &self,
        rt: &T,
        me: &mut Reader<J>,
        held: Held<J>,
    ) -> Result<(), Unreleased<J>>
        ensures { AnswersRelease (opened J.vertices J.room) me.old held result me.new }
    {
        self.locked_state.lock(rt).release(rt, me, held)
    }

    /// Drops the entries that the versions keep under the lock, in the name of a reader, and answers
    /// how many there were: the accepted steps since the last trim or since the opening. Versions,
    /// their numbers and tickets stay as they are, and there is room for as many entries as at the
    /// opening. The history that the reader shows afterwards has all entries; it extends the one before
    /// and ends in this trim. May wait for readers.
    ///
    /// Errors: `HistoryFull` where no more steps can be counted, at the end of the history that the
    /// reader then shows; else `NoMemory`, where the newest graph cannot be shared once more, and then
    /// graph and reader are as they were.
    pub fn trim<T: Wait>(&self, rt: &T, me: &mut Reader<J>) -> Result<u64, SharedError>
        ensures { Answers (opened J.vertices J.room) me.old Trim reply.Trimmed result me.new }
    {
        self.locked_state.lock(rt).trim(rt, me)
    }
}

// The versions of a graph that is opened with so many readers. The errors are those of [`SharedGraph::open`].
fn versions_for(
    alloc: Global,
    vertices: u32,
    chunk_size: u32,
    readers: usize,
    room: u64,
) -> Result<Versions, SharedError>
    ensures opens { Opens vertices chunk_size readers (λ _. fresh_readers readers) result }
    ensures versions { IfOk result (λ v. v ≡ beginning (opened vertices room)) }
    ensures count { IfOk result (λ _. is_vertex_count vertices ≡ true) }
    ensures readers { IfOk result (λ _. (0 < readers) × (readers ≤ 64)) }
{
    let are_readers = 1 <= readers && readers <= MAX_READERS;
    match Versions::with_room(alloc, vertices, chunk_size, room) {
        Ok(versions) if are_readers => Ok(versions),
        Ok(_) => Err(SharedError::BadSeats),
        Err(VersionError::NoMemory) if !are_readers => Err(SharedError::BadSeats),
        Err(error) => Err(SharedError::from(error)),
    }
}
