//! Merges by ranges of vertices, which workers do side by side.
ghost use Rattle.std.specs.Prelude.{◌≡◌, ◌-◌, ◌^◌, ℕ, List, length, IfOk, min, nat_le};
ghost use Rattle.std.specs.List.{flat_map};
ghost use Rattle.weighted_edges.specs.Edge.{Edge};
ghost use Rattle.kernels.specs.FunctionStatementTree.{FunctionStatementsTree};
ghost use Rattle.kernels.specs.State.{StateValue};
ghost use Rattle.kernels.specs.Registers.{HasSizes};
ghost use Rattle.crew.specs.Pieces.{pieces_of};
ghost use Rattle.edge_fold.specs.Changed.{AreApart};
ghost use Rattle.edge_fold.specs.Folded.{AreKernels};
ghost use Rattle.edge_apply.specs.Applied.{AreChangesOn};
ghost use Rattle.edge_apply.specs.GatheredNumbers.{numbers_for, numbers_found};
ghost use Rattle.edge_apply.specs.inside.Merged.{IsMerged};
ghost use Rattle.edge_apply.specs.Pieces.{EachAscending, EachGathered};

use crate::appended::append_changes;
use crate::apply::Apply;
use crate::joining::join_between;
use crate::range_merge::RangeMerge;
use apply_options::Parallelization;
use crew::{Found, Open, Partition, PieceAssignment, Work, WorkerCount, Workers};
use edge_fold::{FoldStart, Gathered, GatheredIn, Scratch};
use std::alloc::{AllocError, Global};
use std::thread::Threads;
use vectors::Changes;

impl<'a> Work for RangeMerge<'a> {
    type Out = Changes;

    type State = Scratch;

    ghost pieces = { λ w. length w.ranges };

    ghost keeps = { λ _ _. Unit {0} };

    ghost answers = { IsMerged };

    fn state(&self, alloc: Global) -> Result<Scratch, AllocError> {
        Ok(Scratch::new(alloc))
    }

    fn piece(
        &self,
        alloc: Global,
        scratch: &mut Scratch,
        piece: usize,
    ) -> Result<Changes, AllocError> {
        let context = self.apply.context(FoldStart::OldEntry);
        let range = self.ranges.piece(piece);
        let low = range.start as u32;
        let high = range.end as u32;
        scratch.begin();
        join_between(alloc, context, self.found, low, high, scratch)?;
        scratch.changes(alloc, context, None)
    }
}

/// The changes of an apply, merged from the results of its pieces by n workers; the caller is worker 1. The vertices are cut
/// into four ranges for each worker. The numbers of each result are by ascending vertices. The scratches of workers are taken
/// from `states`, and are put back.
///
/// The only error is out of memory.
pub fn merge_by_ranges<R: Threads + Sync>(
    rt: &R,
    count: WorkerCount,
    alloc: Global,
    apply: &Apply<'_>,
    found: &[Found<Gathered>],
    states: &mut Vec<Scratch>,
) -> Result<Changes, AllocError>
    ensures once { IfOk result (λ c. AreApart c.vectors.items) }
    ensures changes { IfOk result (λ c. (m : StateValue) (steps : List FunctionStatementsTree) (edges_of : ℕ → List Edge)
        → apply.now.vectors.now.vectors ≡ m.vectors → HasSizes apply.now.sizes.now m
        → AreKernels apply.now.first.now apply.now.second steps → EachAscending found.now → EachGathered apply.now.flat.now.vertices m steps edges_of found.now
        → AreChangesOn apply.now.flat.now.vertices (flat_map edges_of (pieces_of found.now)) m steps c.vectors.items) }
{
    let vertices = apply.flat.vertices() as usize;
    let ranges = Partition::of(alloc, Parallelization::DynamicVertex, count, vertices, &[])?;
    let pieces = ranges.pieces();
    // A graph has fewer vertices.
    if pieces > u32::MAX as usize {
        return Err(AllocError);
    }
    let work = RangeMerge {
        apply: *apply,
        found,
        ranges,
    };
    let workers = Workers {
        rt,
        gate: &Open,
        count,
    };
    let parts = workers.run_pieces(alloc, pieces, PieceAssignment::Claimed, &work, states)?;
    append_changes(alloc, &parts)
}

// The numbers for which a merge is worth the threads of more than one worker.
const MANY_NUMBERS: usize = 16_384;

/// Whether pieces have gathered so many numbers, 16,384 or more, that to put them together is worth several workers. No
/// result depends on it.
pub fn is_worth_workers(found: &[Found<Gathered>]) -> bool
    ensures { result ≡ nat_le 16384 (numbers_found found.now) }
{
    MANY_NUMBERS <= count_found(found)
}

/// How many numbers pieces have gathered, or `usize::MAX` if they are more.
pub fn count_found(found: &[Found<Gathered>]) -> usize
    ensures { result ≡ min (numbers_found found.now) (2 ^ 64 - 1) }
{
    let mut numbers = 0usize;
    'found: for one in found {
        numbers = numbers.saturating_add(count_numbers(&one.out.vectors));
    }
    numbers
}

/// How many numbers there are for all vectors, or `usize::MAX` if they are more.
fn count_numbers(vectors: &[GatheredIn]) -> usize
    ensures { result ≡ min (numbers_for vectors.now) (2 ^ 64 - 1) }
{
    let mut numbers = 0usize;
    'vectors: for of_vector in vectors {
        numbers = numbers.saturating_add(of_vector.numbers.len());
    }
    numbers
}
