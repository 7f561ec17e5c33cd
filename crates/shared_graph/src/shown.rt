//! Published values: the newest version, the edges that the last commits named, and the history that made it.

ghost use Rattle.std.specs.Prelude.{◌≡◌, ◌+◌, ◌++◌, true, IfOk, IfErr, length};
ghost use Rattle.std.specs.Arc.{arc_value};
ghost use Rattle.tree_batch.specs.Digraph.{is_vertex_count};
ghost use Rattle.version_list.specs.Machine.{opened, committed_by};
ghost use Rattle.version_list.specs.Timeline.{IsLegal};
ghost use Rattle.shared_graph.specs.Histories.{steps_of, state_at, IsNewest};
ghost use Rattle.shared_graph.specs.inside.Recent.{AreRecent, IsNewestVersion};

use crate::book::Law;
use crate::entry::Entry;
use crate::history_prefix::HistoryPrefix;
use crate::naming::Naming;
use crate::newest_version::NewestVersion;
use crate::recent_edges::RecentEdges;
use crate::snapshot::Snapshot;
use left_right::Absorb;
use logbook::Seen;
use std::alloc::{AllocError, Global};
use std::marker::Model;
use std::sync::Arc;
use version_list::Step;

/// The newest version with the edges that the last commits named, and the history that made it.
/// Contracts see it as its history, with the book of that history and the state in which it began.
pub(crate) struct Shown {
    newest: NewestVersion,
    vertices: u32,
    room: u64,
    count: u64,
    seen: Seen<Entry, u64, Law>,
}

impl Drop for Shown {
    fn drop(self) {
        let Shown {
            newest: _,
            vertices: _,
            room: _,
            count: _,
            seen: _,
        } = self;
    }
}

impl Model for Shown {
    ghost use Rattle.std.specs.Prelude.{◌≡◌, true, length};
    ghost use Rattle.tree_batch.specs.Digraph.{is_vertex_count};
    ghost use Rattle.version_list.specs.Machine.{opened};
    ghost use Rattle.version_list.specs.Timeline.{IsLegal};
    ghost use Rattle.shared_graph.specs.Histories.{steps_of, state_at};
    ghost use Rattle.shared_graph.specs.inside.Publishing.{Published};
    ghost use Rattle.shared_graph.specs.inside.Recent.{IsNewestVersion};

    ghost Value = { Published };

    ghost view = { λ s. record { book = s.seen.book; base = opened s.vertices s.room; log = s.seen.log } };

    ghost invariant = { λ s. (s.count ≡ length s.seen.log)
        × IsLegal (opened s.vertices s.room) (steps_of s.seen.log)
        × IsNewestVersion (state_at (opened s.vertices s.room) s.seen.log) s.newest
        × (is_vertex_count s.vertices ≡ true) };
}

impl Shown {
    /// The newest version at the end of a history of a graph that was opened with n vertices
    /// and so much room.
    pub(crate) fn new<J: Naming>(
        vertices: u32,
        room: u64,
        newest: NewestVersion,
        history_prefix: &HistoryPrefix<J>,
    ) -> Shown
        requires base { opened J.vertices J.room ≡ opened vertices room }
        requires count { is_vertex_count vertices ≡ true }
        requires newest { IsNewestVersion (state_at (opened J.vertices J.room) history_prefix.now) newest }
        ensures { result ≡ record { book = J.book; base = opened J.vertices J.room; log = history_prefix.now } }
    {
        Shown {
            newest,
            vertices,
            room,
            count: history_prefix.len(),
            seen: history_prefix.seen(),
        }
    }

    /// This value once more, with the version shared.
    ///
    /// Errors: `AllocError` where the version cannot be shared once more.
    pub(crate) fn again(&self) -> Result<Shown, AllocError>
        ensures { IfOk result (λ s. s ≡ self.now) }
    {
        let newest = self.newest.again()?;
        Ok(Shown {
            newest,
            vertices: self.vertices,
            room: self.room,
            count: self.count,
            seen: self.seen.again(),
        })
    }

    /// The newest version.
    ///
    /// Errors: `AllocError` where the graph cannot be shared once more.
    pub(crate) fn snapshot(&self) -> Result<Snapshot, AllocError>
        ensures { IfOk result (λ s. IsNewest (state_at self.now.base self.now.log) s.number (arc_value s.graph)) }
    {
        self.newest.snapshot.again()
    }

    /// The edges that the last commits named.
    ///
    /// Errors: `AllocError` where they cannot be shared once more.
    pub(crate) fn recent(&self) -> Result<Arc<RecentEdges>, AllocError>
        ensures { IfOk result (λ r. AreRecent (state_at self.now.base self.now.log).batches (arc_value r)) }
    {
        Arc::try_clone(&self.newest.recent)
    }

    /// The edges that the last commits name after one more step, which makes the version of this
    /// number if it commits. The only error is out of memory.
    pub(crate) fn recent_after(
        &self,
        alloc: Global,
        version: u64,
        step: &Step,
    ) -> Result<RecentEdges, AllocError>
        requires { length (state_at self.now.base self.now.log).batches + 1 ≡ version }
        ensures { IfOk result (AreRecent ((state_at self.now.base self.now.log).batches ++ committed_by step.now)) }
    {
        self.newest.recent.after(alloc, version, step)
    }

    /// The newest version, with the edges that the last commits named.
    ///
    /// Errors: `AllocError` where it cannot be shared once more.
    pub(crate) fn newest_version(&self) -> Result<NewestVersion, AllocError>
        ensures { IfOk result (IsNewestVersion (state_at self.now.base self.now.log)) }
    {
        self.newest.again()
    }

    /// The history.
    pub(crate) fn history_prefix<J: Naming>(&self) -> HistoryPrefix<J>
        requires { (self.now.book ≡ J.book) × (self.now.base ≡ opened J.vertices J.room) }
        ensures history_prefix { result ≡ self.now.log }
        ensures count { is_vertex_count J.vertices ≡ true }
        ensures legal { IsLegal (opened J.vertices J.room) (steps_of result) }
    {
        HistoryPrefix::of_seen(self.seen.again(), self.count)
    }
}

impl Absorb<Shown> for Shown {
    ghost use Rattle.shared_graph.specs.inside.Publishing.{latest};

    type State = Shown;

    ghost state = { λ s. s };

    ghost applied = { latest };

    fn absorb_first(&mut self, operation: &Shown, _other: &Shown) -> Result<(), AllocError> {
        *self = operation.again()?;
        Ok(())
    }

    fn absorb_second(&mut self, operation: Shown, _other: &Shown) -> Result<(), Shown> {
        *self = operation;
        Ok(())
    }
}
