//! Readers, and what they tell one another.

ghost use Rattle.std.specs.Prelude.{◌≡◌, ◌<◌, ◌+◌, ◌^◌, ◌++◌, ◌∷◌, [], true, length, IfOk, IfSome, MatchBool, OnErr, Some};
ghost use Rattle.std.specs.Arc.{arc_value};
ghost use mathlib.Core.List.{IsPrefix};
ghost use Rattle.left_right.specs.Sides.{view as view_of};
ghost use Rattle.tree_batch.specs.Digraph.{is_vertex_count};
ghost use Rattle.version_list.specs.Machine.{opened};
ghost use Rattle.version_list.specs.Timeline.{IsLegal};
ghost use Rattle.shared_graph.specs.Differences.{AreEdgesSince};
ghost use Rattle.shared_graph.specs.Histories.{steps_of, own, state_at, IsNewest, fresh_reader, Shows};
ghost use Rattle.shared_graph.specs.inside.Publishing.{Knows};
ghost use Rattle.shared_graph.specs.inside.Recent.{AreRecent};

use crate::error::LatestError;
use crate::history_prefix::HistoryPrefix;
use crate::naming::Naming;
use crate::publisher::{Seeing, ShownReader};
use crate::recent_edges::RecentEdges;
use crate::shown::Shown;
use crate::snapshot::Snapshot;
use core::mem::replace_with;
use std::alloc::Global;
use std::marker::Model;
use std::sync::Arc;

/// One of the readers of a shared graph, and the one by whose name its owner commits and holds.
/// Contracts see it as the history that it shows, of accepted steps with their replies and the
/// reader that made each, which only grows at its end.
pub struct Reader<J: Naming> {
    number: u64,
    read: ShownReader,
    history_prefix: HistoryPrefix<J>,
    last: HistoryPrefix<J>,
    steps: u64,
}

impl<J: Naming> Drop for Reader<J> {
    fn drop(self) {
        let Reader {
            number: _,
            read: _,
            history_prefix: _,
            last: _,
            steps: _,
        } = self;
    }
}

impl<J: Naming> Model for Reader<J> {
    ghost use Rattle.std.specs.Prelude.{◌≡◌, length};
    ghost use mathlib.Core.List.{IsPrefix};
    ghost use Rattle.left_right.specs.Sides.{view as view_of};
    ghost use Rattle.version_list.specs.Machine.{opened};
    ghost use Rattle.shared_graph.specs.Histories.{own, ReaderState};
    ghost use Rattle.shared_graph.specs.inside.Publishing.{Knows};

    ghost Value = { ReaderState };

    ghost view = { λ r. record { number = r.number; shown = r.history_prefix; last = r.last } };

    ghost invariant = { λ r. (r.steps ≡ length (own r.number r.last)) × IsPrefix r.last r.history_prefix
        × Knows J.book (opened J.vertices J.room) (view_of r.read.place) };
}

impl<J: Naming> Reader<J> {
    /// A reader that has shown nothing.
    pub(crate) fn new(number: u64, read: ShownReader, first: &HistoryPrefix<J>) -> Reader<J>
        requires first { first.now ≡ [] }
        requires read { Knows J.book (opened J.vertices J.room) (view_of read.place) }
        ensures { result ≡ fresh_reader number }
    {
        Reader {
            number,
            read,
            history_prefix: first.again(),
            last: first.again(),
            steps: 0,
        }
    }

    /// The newest version that is published. Takes no lock and waits for nobody: it has no bound by
    /// which it could. It costs a guard and the clone of one counted pointer.
    ///
    /// The history shown afterwards is legal and begins with the one before; the snapshot's number is
    /// the count of its commits, and the graph is their batches, folded.
    ///
    /// Errors: `Closed` where nothing is published, as after the shared graph was dropped, and
    /// `NoMemory` where the graph cannot be shared once more. The reader is then as it was.
    pub fn latest(&mut self) -> Result<Snapshot, LatestError>
        ensures shows { IfOk result (λ s. Shows (opened J.vertices J.room) self.old self.new) }
        ensures newest { IfOk result (λ s. IsNewest (state_at (opened J.vertices J.room) self.new.shown) s.number (arc_value s.graph)) }
        ensures err { OnErr result (self.new ≡ self.old) }
        ensures legal { IsLegal (opened J.vertices J.room) (steps_of self.new.shown) }
    {
        let (snapshot, _) = self.newest(false)?;
        Ok(snapshot)
    }

    /// The newest version that is published, as [`Reader::latest`] gives it, and the ends of the edges
    /// in which it may differ from an earlier version: those that the batches since then name,
    /// ascending by source and then by destination, each once. In place of the edges it is `None` if
    /// there is no such version, if a batch since then asks for a number of vertices, if the batches
    /// since then are too many for the edges to be kept, or if memory is refused for them. Takes no
    /// lock and waits for nobody. It takes the time of a sort of at most 1,024 edges.
    ///
    /// The history shown afterwards is as after [`Reader::latest`], and so are the errors.
    ///
    /// # Example
    ///
    /// ```
    /// let (snapshot, edges) = reader.latest_since(alloc, version)?;
    /// ```
    pub fn latest_since(
        &mut self,
        alloc: Global,
        version: u64,
    ) -> Result<(Snapshot, Option<Vec<(u32, u32)>>), LatestError>
        ensures shows { IfOk result (λ r. Shows (opened J.vertices J.room) self.old self.new) }
        ensures newest { IfOk result (λ r. IsNewest (state_at (opened J.vertices J.room) self.new.shown) r.0.number (arc_value r.0.graph)) }
        ensures edges { IfOk result (λ r. IfSome r.1 (λ edges. AreEdgesSince (state_at (opened J.vertices J.room) self.new.shown) version edges.items)) }
        ensures err { OnErr result (self.new ≡ self.old) }
        ensures legal { IsLegal (opened J.vertices J.room) (steps_of self.new.shown) }
    {
        let (snapshot, recent) = self.newest(true)?;
        let edges = match recent {
            Some(recent) => recent.since(alloc, version, snapshot.number),
            None => None,
        };
        Ok((snapshot, edges))
    }

    // The newest version that is published, with the edges that the last commits named if they are
    // asked for. The errors are those of `latest`.
    fn newest(
        &mut self,
        with_recent: bool,
    ) -> Result<(Snapshot, Option<Arc<RecentEdges>>), LatestError>
        ensures shows { IfOk result (λ r. Shows (opened J.vertices J.room) self.old self.new) }
        ensures newest { IfOk result (λ r. IsNewest (state_at (opened J.vertices J.room) self.new.shown) r.0.number (arc_value r.0.graph)) }
        ensures recent { IfOk result (λ r. IfSome r.1 (λ edges. AreRecent (state_at (opened J.vertices J.room) self.new.shown).batches (arc_value edges))) }
        ensures count { IfOk result (λ r. is_vertex_count J.vertices ≡ true) }
        ensures err { OnErr result (self.new ≡ self.old) }
        ensures legal { IsLegal (opened J.vertices J.room) (steps_of self.new.shown) }
    {
        self.history_prefix.len();
        let query = LatestQuery {
            history_prefix: &self.history_prefix,
            with_recent,
        };
        let ShownVersion {
            snapshot,
            recent,
            history_prefix,
        } = replace_with(&mut self.read, query, read_shown::<J>)?;
        self.history_prefix = history_prefix;
        Ok((snapshot, recent))
    }

    /// What this reader showed after its last accepted step, or the empty history before the first,
    /// for others to [`Reader::learn`]. Takes no memory.
    pub fn token(&self) -> Token<J>
        ensures { result ≡ self.now.last }
    {
        Token {
            history_prefix: self.last.again(),
        }
    }

    /// The history that this reader shows, as a token. Takes no memory.
    ///
    /// # Example
    ///
    /// ```
    /// let history = reader.history();
    /// ```
    pub fn history(&self) -> Token<J>
        ensures { result ≡ self.now.shown }
    {
        Token {
            history_prefix: self.history_prefix.again(),
        }
    }

    /// Whether the history that this reader shows begins with the token's; else the token's begins
    /// with it. It is so after [`Reader::learn`].
    ///
    /// # Example
    ///
    /// ```
    /// if reader.knows(&history) {
    /// ```
    pub fn knows(&self, token: &Token<J>) -> bool
        ensures { MatchBool result (IsPrefix token.now self.now.shown) (IsPrefix self.now.shown token.now) }
    {
        token.history_prefix.begins(&self.history_prefix)
    }

    /// Takes in what a token tells: the history shown afterwards begins with the one before and with
    /// the token's. Takes no memory, and is not refused.
    ///
    /// # Example
    ///
    /// ```
    /// reader.learn(&writer.token());
    /// ```
    pub fn learn(&mut self, token: &Token<J>)
        ensures number { self.new.number ≡ self.old.number }
        ensures last { self.new.last ≡ self.old.last }
        ensures shown { IsPrefix self.old.shown self.new.shown }
        ensures told { IsPrefix token.now self.new.shown }
        ensures legal { IsLegal (opened J.vertices J.room) (steps_of self.new.shown) }
    {
        self.history_prefix = self.history_prefix.longer(&token.history_prefix);
    }

    /// The reader's number, and how many steps it made.
    pub(crate) fn account(&self) -> (u64, u64)
        ensures number { result.0 ≡ self.now.number }
        ensures steps { result.1 ≡ length (own self.now.number self.now.last) }
        ensures last { IsPrefix self.now.last self.now.shown }
    {
        (self.number, self.steps)
    }

    /// What it shows.
    pub(crate) fn history_prefix(&self) -> &HistoryPrefix<J>
        ensures { result.now ≡ self.now.shown }
    {
        &self.history_prefix
    }

    /// Shows a history that begins with the one shown.
    pub(crate) fn show(&mut self, history_prefix: &HistoryPrefix<J>)
        requires { IsPrefix self.old.shown history_prefix.now }
        ensures { self.new ≡ record self.old { shown = history_prefix.now } }
    {
        self.history_prefix = history_prefix.again();
    }

    /// Shows a history that ends in a step of this reader.
    pub(crate) fn has_made(&mut self, history_prefix: &HistoryPrefix<J>)
        requires own { length (own self.old.number history_prefix.now) ≡ length (own self.old.number self.old.last) + 1 }
        requires few { length (own self.old.number history_prefix.now) < 2 ^ 64 }
        ensures { self.new ≡ record self.old { shown = history_prefix.now; last = history_prefix.now } }
    {
        self.history_prefix = history_prefix.again();
        self.last = history_prefix.again();
        self.steps += 1;
    }
}

/// A history that a reader showed, for other readers of the same graph to learn.
#[derive(Drop)]
pub struct Token<J: Naming> {
    history_prefix: HistoryPrefix<J>,
}

impl<J: Naming> Model for Token<J> {
    ghost use Rattle.std.specs.Prelude.{List};
    ghost use Rattle.shared_graph.specs.declared.entry.Entry.{Entry};

    ghost Value = { List Entry };

    ghost view = { λ t. t.history_prefix };
}

impl<J: Naming> Token<J> {
    /// A history as a token.
    pub(crate) fn of(history_prefix: &HistoryPrefix<J>) -> Token<J>
        ensures { result ≡ history_prefix.now }
    {
        Token {
            history_prefix: history_prefix.again(),
        }
    }

    /// Whether the other history begins with this one; else this one begins with the other, since both
    /// are of one graph. Takes no memory.
    pub fn begins(&self, other: &Token<J>) -> bool
        ensures { MatchBool result (IsPrefix self.now other.now) (IsPrefix other.now self.now) }
    {
        self.history_prefix.begins(&other.history_prefix)
    }
}

// What is asked of the value that is shown: a history that begins with this one, and whether the edges
// that the last commits named are asked for too.
#[derive(Drop)]
struct LatestQuery<'a, J: Naming> {
    history_prefix: &'a HistoryPrefix<J>,
    with_recent: bool,
}

// The version that is shown, the edges that the last commits named, and the history that made it.
#[derive(Drop)]
struct ShownVersion<J: Naming> {
    snapshot: Snapshot,
    recent: Option<Arc<RecentEdges>>,
    history_prefix: HistoryPrefix<J>,
}

// What is shown, as `see` has it, and the reader with which it was read.
fn read_shown<J: Naming>(
    reader: ShownReader,
    query: LatestQuery<'_, J>,
) -> (ShownReader, Result<ShownVersion<J>, LatestError>)
    requires { Knows J.book (opened J.vertices J.room) (view_of reader.place) }
    ensures knows { Knows J.book (opened J.vertices J.room) (view_of result.0.place) }
    ensures seen { IfOk result.1 (λ v. IsPrefix query.entry.history_prefix.now v.history_prefix
        × IsLegal (opened J.vertices J.room) (steps_of v.history_prefix) × (is_vertex_count J.vertices ≡ true)) }
    ensures newest { IfOk result.1 (λ v. IsNewest (state_at (opened J.vertices J.room) v.history_prefix) v.snapshot.number (arc_value v.snapshot.graph)) }
    ensures recent { IfOk result.1 (λ v. IfSome v.recent (λ edges. AreRecent (state_at (opened J.vertices J.room) v.history_prefix).batches (arc_value edges))) }
{
    match reader.enter_as::<Seeing>() {
        Ok(reading) => {
            let seen = see(reading.get(), &query);
            (reading.leave(), seen)
        }
        Err(reader) => (reader, Err(LatestError::Closed)),
    }
}

// The version that is shown, where its history begins with the one that is asked for.
fn see<J: Naming>(shown: &Shown, query: &LatestQuery<'_, J>) -> Result<ShownVersion<J>, LatestError>
    requires { (shown.now.book ≡ J.book) × (shown.now.base ≡ opened J.vertices J.room) }
    ensures seen { IfOk result (λ v. IsPrefix query.now.history_prefix.now v.history_prefix
        × IsLegal (opened J.vertices J.room) (steps_of v.history_prefix) × (is_vertex_count J.vertices ≡ true)) }
    ensures newest { IfOk result (λ v. IsNewest (state_at (opened J.vertices J.room) v.history_prefix) v.snapshot.number (arc_value v.snapshot.graph)) }
    ensures recent { IfOk result (λ v. IfSome v.recent (λ edges. AreRecent (state_at (opened J.vertices J.room) v.history_prefix).batches (arc_value edges))) }
{
    let history_prefix = shown.history_prefix::<J>();
    if !query.history_prefix.begins(&history_prefix) {
        return Err(LatestError::Closed);
    }
    let snapshot = shown.snapshot()?;
    let recent = if query.with_recent {
        Some(shown.recent()?)
    } else {
        None
    };
    Ok(ShownVersion {
        snapshot,
        recent,
        history_prefix,
    })
}
