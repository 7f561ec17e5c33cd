//! Programs that a script may run.
ghost use Rattle.std.specs.Prelude.{◌≡◌, ◌<◌, ℕ, List, Bool, true, Some, IfOk, IfSome, length};
ghost use Rattle.std.specs.Arc.{arc_value};
ghost use Rattle.std.specs.List.{slice_get};
ghost use Rattle.algorithm_meaning.specs.ProgramTree.{ProgramTree};
ghost use Rattle.flat_snapshot.specs.Digraph.{Digraph};
ghost use Rattle.version_records.specs.VersionRecords.{IsPredecessor};
ghost use Rattle.scripts.specs.Replies.{is_worker_count, meaning_on};

use algorithm_meaning::Outcome;
use flat_snapshot::Flat;
use std::alloc::{AllocError, Global};
use std::sync::Arc;
use version_records::Predecessor;

/// What a run shows, and its record, if one was kept.
#[derive(Drop)]
pub struct ProgramRun<R> {
    pub outcome: Outcome,
    pub run_record: Option<R>,
}

/// Programs that a script may run, in the order of their numbers, and how a run of one goes.
pub trait Programs {
    /// What a run leaves behind for later runs of the same program.
    type Record: Drop;

    /// The programs, as trees.
    ghost trees: { Self → List ProgramTree };

    /// The record is that of a run of the program at an index, counted from 0, on this graph.
    ghost is_record: { Self → ℕ → Self.Record → Digraph → Type 0 };

    /// Runs go as is promised.
    ghost are_ready: { Self → Type 0 };

    /// How many there are.
    fn count(&self) -> usize
        ensures { result ≡ length (trees self.now) };

    /// What the program at an index, counted from 0, shows on a snapshot of a graph within a bound of turns, by n workers, 1 to 64.
    /// The run may follow the record of a former one. The only error is out of memory.
    fn run(
        &self,
        alloc: Global,
        index: usize,
        graph: &Arc<Flat>,
        turns: u64,
        workers: u64,
        former: Option<Predecessor<'_, Self::Record>>,
    ) -> Result<ProgramRun<Self::Record>, AllocError>
        requires ready { are_ready self.now }
        requires index { index < length (trees self.now) }
        requires workers { is_worker_count workers ≡ true }
        requires former { IfSome former (IsPredecessor (is_record self.now index) (arc_value graph.now)) }
        ensures outcome { IfOk result (λ run. (program : ProgramTree) → slice_get (trees self.now) index ≡ Some program
            → run.outcome ≡ meaning_on (arc_value graph.now) program turns) }
        ensures kept { IfOk result (λ run. IfSome run.run_record (λ r. is_record self.now index r (arc_value graph.now))) };

    /// Is called when a line of the script begins, an empty one too.
    fn begin_line(&self) {}

    /// Is called when the line is refused, with the number of the refusal.
    fn see_refusal(&self, _number: u16) {}
}
