//! The shared history as the lock keeps it: what was published, and how many steps each reader made.

ghost use Rattle.std.specs.Prelude.{◌≡◌, ◌<◌, ◌≤◌, ◌+◌, ◌++◌, ◌∷◌, [], true, length, slice_index, IfOk};
ghost use Rattle.std.specs.Arc.{arc_value};
ghost use mathlib.Core.List.{IsPrefix};
ghost use Rattle.tree_batch.specs.Digraph.{is_vertex_count};
ghost use Rattle.version_list.specs.Machine.{committed_by, newest_number, opened, state_after};
ghost use Rattle.version_list.specs.Timeline.{IsLegal};
ghost use Rattle.shared_graph.specs.Histories.{own, steps_of, state_at, IsNewest, HasMade, fresh_readers};
ghost use Rattle.shared_graph.specs.inside.Histories.{MayFollow};
ghost use Rattle.shared_graph.specs.inside.Locked.{AreCounts, ShowsRefusal};
ghost use Rattle.shared_graph.specs.inside.Recent.{AreRecent, IsNewestVersion};
ghost use Rattle.shared_graph.specs.inside.Refusal.{from_version};

use crate::book::{Book, Opening};
use crate::error::SharedError;
use crate::history_prefix::HistoryPrefix;
use crate::naming::Naming;
use crate::never::never;
use crate::newest_version::NewestVersion;
use crate::publisher::Publisher;
use crate::reader::Reader;
use crate::recent_edges::RecentEdges;
use crate::shown::Shown;
use crate::snapshot::Snapshot;
use std::alloc::{AllocError, Global};
use std::marker::Model;
use std::sync::{Arc, Wait};
use tree_batch::Graph;
use version_list::{Done, Step, VersionError};

/// What a history begins with: so many vertices, and room for so many entries.
#[derive(Clone, Copy)]
pub(crate) struct HistoryStart {
    pub(crate) vertices: u32,
    pub(crate) room: u64,
}

/// The shared history, which is the one that was published, and how many of its entries each reader
/// made. Contracts see it as the history.
pub(crate) struct PublishedLog<J: Naming, R: Wait + Drop> {
    vertices: u32,
    room: u64,
    book: Book<J>,
    history_prefix: HistoryPrefix<J>,
    counts: Vec<u64>,
    publisher: Publisher<R>,
}

impl<J: Naming, R: Wait + Drop> Drop for PublishedLog<J, R> {
    fn drop(self) {
        let PublishedLog {
            vertices: _,
            room: _,
            book: _,
            history_prefix: _,
            counts: _,
            publisher: _,
        } = self;
    }
}

impl<J: Naming, R: Wait + Drop> Model for PublishedLog<J, R> {
    ghost use Rattle.std.specs.Prelude.{◌≡◌, true, List};
    ghost use Rattle.tree_batch.specs.Digraph.{is_vertex_count};
    ghost use Rattle.version_list.specs.Machine.{opened};
    ghost use Rattle.shared_graph.specs.declared.entry.Entry.{Entry};
    ghost use Rattle.shared_graph.specs.inside.Locked.{AreCounts};

    ghost Value = { List Entry };

    ghost view = { λ l. l.history_prefix };

    ghost invariant = { λ l. (opened J.vertices J.room ≡ opened l.vertices l.room) × AreCounts l.history_prefix l.counts.items
        × (l.publisher ≡ record { book = J.book; base = opened J.vertices J.room; log = l.history_prefix })
        × (is_vertex_count l.vertices ≡ true) };
}

impl<J: Naming, R: Wait + Drop> PublishedLog<J, R> {
    /// The log of a history that has not begun, with its readers, 1 to 64, to whom version 0 is
    /// published. The last of the readers is apart from the others.
    ///
    /// Errors: `AllocError` where there is no memory, or no place for a reader.
    pub(crate) fn open(
        rt: R,
        alloc: Global,
        opening: Opening,
        start: HistoryStart,
        graph: Arc<Graph>,
        readers: usize,
    ) -> Result<(PublishedLog<J, R>, Vec<Reader<J>>, Reader<J>), AllocError>
        requires book { opening ≡ J.book }
        requires base { opened J.vertices J.room ≡ opened start.vertices start.room }
        requires count { is_vertex_count start.vertices ≡ true }
        requires newest { IsNewest (state_at (opened J.vertices J.room) []) 0 (arc_value graph) }
        requires readers { (0 < readers) × (readers ≤ 64) }
        ensures published_log { IfOk result (λ r. r.0 ≡ []) }
        ensures readers { IfOk result (λ r. r.1.items ++ r.2 ∷ [] ≡ fresh_readers readers) }
    {
        let HistoryStart { vertices, room } = start;
        let (book, history_prefix) = opening.named::<J>();
        let recent = Arc::new(alloc, RecentEdges::none_since(alloc, 0))?;
        let snapshot = Snapshot { number: 0, graph };
        let newest = NewestVersion { snapshot, recent };
        let shown = Shown::new(vertices, room, newest, &history_prefix);
        let mut publisher = Publisher::new(alloc, rt, shown, readers)?;
        let others = fresh_readers(alloc, &mut publisher, &history_prefix, readers - 1)?;
        let last = Reader::new(readers as u64 - 1, publisher.reader()?, &history_prefix);
        let counts = Vec::from_elem(alloc, 0, readers)?;
        let published_log = PublishedLog {
            vertices,
            room,
            book,
            history_prefix,
            counts,
            publisher,
        };
        Ok((published_log, others, last))
    }

    /// The newest version, which is the one that is published.
    ///
    /// Errors: `AllocError` where it cannot be shared once more.
    pub(crate) fn newest(&self) -> Result<NewestVersion, AllocError>
        ensures { IfOk result (IsNewestVersion (state_at (opened J.vertices J.room) self.now)) }
    {
        self.publisher.published().newest_version()
    }

    /// The edges that the last commits name after one more step, which makes the version of this
    /// number if it commits. The only error is out of memory.
    pub(crate) fn recent_after(
        &self,
        alloc: Global,
        version: u64,
        step: &Step,
    ) -> Result<Arc<RecentEdges>, AllocError>
        requires { newest_number (state_at (opened J.vertices J.room) self.now) + 1 ≡ version }
        ensures { IfOk result (λ r. AreRecent ((state_at (opened J.vertices J.room) self.now).batches ++ committed_by step.now) (arc_value r)) }
    {
        let recent = self
            .publisher
            .published()
            .recent_after(alloc, version, step)?;
        Ok(Arc::new(alloc, recent)?)
    }

    /// What a hold needs before its step: the newest version, to be published again, and the held graph once more.
    ///
    /// Errors: `AllocError` where one of them cannot be shared once more.
    pub(crate) fn before_hold(
        &self,
        alloc: Global,
        graph: &Graph,
    ) -> Result<(NewestVersion, Arc<Graph>), AllocError>
        ensures newest { IfOk result (λ r. IsNewestVersion (state_at (opened J.vertices J.room) self.now) r.0) }
        ensures graph { IfOk result (λ r. arc_value r.1 ≡ graph.now) }
    {
        let newest = self.newest()?;
        let graph = Arc::new(alloc, graph.clone()?)?;
        Ok((newest, graph))
    }

    /// Puts a reader's step at the end of the history and publishes the newest version after it. Takes
    /// no memory; waits for readers.
    pub(crate) fn record<T: Wait>(
        &mut self,
        rt: &T,
        me: &mut Reader<J>,
        done: &Done,
        newest: NewestVersion,
    )
        requires follows { MayFollow (opened J.vertices J.room) self.old done.now }
        requires newest { IsNewestVersion (state_after (state_at (opened J.vertices J.room) self.old) done.now.step) newest }
        ensures log { self.new ≡ self.old ++ record { by = me.old.number; done = done.now } ∷ [] }
        ensures made { HasMade (opened J.vertices J.room) me.old done.now.step done.now.reply me.new }
        ensures shown { me.new.shown ≡ self.new }
    {
        make_step(
            rt,
            &self.book,
            &mut self.history_prefix,
            &mut self.counts,
            me,
            done,
        );
        let shown = Shown::new(self.vertices, self.room, newest, &self.history_prefix);
        self.publisher.publish(shown);
        me.has_made(&self.history_prefix);
    }

    /// Why the versions refused a reader's step, at the end of the history that the reader then shows.
    /// Where memory ran out, the reader is as it was.
    pub(crate) fn refuse<T: Wait>(
        &self,
        rt: &T,
        me: &mut Reader<J>,
        error: VersionError,
    ) -> SharedError
        ensures error { result ≡ from_version error }
        ensures shown { ShowsRefusal (opened J.vertices J.room) error me.old self.now me.new }
    {
        if error != VersionError::NoMemory {
            meet(rt, &self.history_prefix, &self.counts, me);
            me.show(&self.history_prefix);
        }
        SharedError::from(error)
    }
}

// The reader's place in the counts and its count, where it is a reader of this graph that has shown
// nothing but beginnings of this history. It is; were it not, the call would not return.
fn meet<J: Naming, T: Wait>(
    rt: &T,
    history_prefix: &HistoryPrefix<J>,
    counts: &[u64],
    me: &Reader<J>,
) -> (usize, u64)
    requires { AreCounts history_prefix.now counts.now }
    ensures place { (result.0 ≡ me.now.number) × (result.0 < length counts.now) }
    ensures steps { (result.1 ≡ length (own me.now.number history_prefix.now)) × (result.1 ≡ slice_index counts.now result.0) }
    ensures begins { IsPrefix me.now.shown history_prefix.now }
    ensures own { own me.now.number history_prefix.now ≡ own me.now.number me.now.last }
    ensures legal { IsLegal (opened J.vertices J.room) (steps_of history_prefix.now) }
{
    let (number, steps) = me.account();
    let place = number as usize;
    if place >= counts.len()
        || counts[place] != steps
        || !me.history_prefix().begins(history_prefix)
    {
        never(rt);
    }
    history_prefix.len();
    (place, steps)
}

// Puts a reader's step at the end of the history, and counts it.
fn make_step<J: Naming, T: Wait>(
    rt: &T,
    book: &Book<J>,
    history_prefix: &mut HistoryPrefix<J>,
    counts: &mut Vec<u64>,
    me: &Reader<J>,
    done: &Done,
)
    requires follows { MayFollow (opened J.vertices J.room) history_prefix.old done.now }
    requires counts { AreCounts history_prefix.old counts.old.items }
    ensures history_prefix { history_prefix.new ≡ history_prefix.old ++ record { by = me.now.number; done = done.now } ∷ [] }
    ensures counts { AreCounts history_prefix.new counts.new.items }
    ensures made { HasMade (opened J.vertices J.room) me.now done.now.step done.now.reply
        (record me.now { shown = history_prefix.new; last = history_prefix.new }) }
{
    let (place, steps) = meet(rt, history_prefix, counts, me);
    extend(rt, book, history_prefix, place, done);
    counts[place] = steps + 1;
}

// Puts a reader's step at the end of the history, all of which was seen, under the lock; had it not
// been, the call would not return.
fn extend<J: Naming, T: Wait>(
    rt: &T,
    book: &Book<J>,
    history_prefix: &mut HistoryPrefix<J>,
    reader: usize,
    done: &Done,
)
    requires follows { MayFollow (opened J.vertices J.room) history_prefix.old done.now }
    ensures { history_prefix.new ≡ history_prefix.old ++ record { by = reader; done = done.now } ∷ [] }
{
    if !history_prefix.add(book, reader as u64, done) {
        never(rt);
    }
}

// So many readers, numbered from 0, that have shown nothing.
fn fresh_readers<J: Naming, R: Wait + Drop>(
    alloc: Global,
    publisher: &mut Publisher<R>,
    first: &HistoryPrefix<J>,
    readers: usize,
) -> Result<Vec<Reader<J>>, AllocError>
    requires first { first.now ≡ [] }
    requires book { (publisher.old.book ≡ J.book) × (publisher.old.base ≡ opened J.vertices J.room) }
    ensures same { publisher.new ≡ publisher.old }
    ensures fresh { IfOk result (λ v. v.items ≡ fresh_readers readers) }
{
    let mut passes = Vec::with_capacity(alloc, readers)?;
    for number in 0..readers {
        let read = publisher.reader()?;
        passes.push_reserved(Reader::new(number as u64, read, first));
    }
    Ok(passes)
}
