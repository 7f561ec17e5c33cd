//! The merge of what the pieces of an apply have found.
ghost use Rattle.std.specs.Prelude.{◌≡◌, ℕ, ◌≤◌, List, [], length, slice_range, OnOk};
ghost use Rattle.std.specs.List.{filter, flat_map};
ghost use Rattle.weighted_edges.specs.Edge.{Edge};
ghost use Rattle.crew.specs.Pieces.{pieces_of};
ghost use Rattle.kernels.specs.FunctionStatementTree.{FunctionStatementsTree};
ghost use Rattle.kernels.specs.State.{StateValue};
ghost use Rattle.edge_fold.specs.Folded.{IsContextOf, HasFolded};
ghost use Rattle.edge_fold.specs.Gathered.{is_in_range};
ghost use Rattle.edge_apply.specs.Pieces.{EachAscending, EachGathered};

use crew::Found;
use edge_fold::{ApplyContext, Gathered, Scratch};
use std::alloc::{AllocError, Global};

/// A part of a list, from one index on up to another.
pub fn part_between(vertices: &[u32], start: usize, end: usize) -> &[u32]
    requires order { start ≤ end }
    requires inside { end ≤ length vertices.now }
    ensures { result.now ≡ slice_range vertices.now start end }
{
    &vertices[start..end]
}

/// Folds the edges of which pieces have gathered what they give. The only error is out of memory.
pub fn join_all(
    alloc: Global,
    context: ApplyContext<'_>,
    found: &[Found<Gathered>],
    scratch: &mut Scratch,
) -> Result<(), AllocError>
    ensures { OnOk result ((m : StateValue) (steps : List FunctionStatementsTree) (edges_of : ℕ → List Edge) → EachGathered context.entry.vertices m steps edges_of found.now
        → HasFolded context.entry m steps [] scratch.old → HasFolded context.entry m steps (flat_map edges_of (pieces_of found.now)) scratch.new) }
{
    'found: for one in found {
        scratch.join_gathered(alloc, context, &one.out)?;
    }
    Ok(())
}

/// Folds of those edges the ones to the vertices from `low` on up to `high`, where the numbers that the pieces gave stand
/// by ascending vertices. The only error is out of memory.
pub(crate) fn join_between(
    alloc: Global,
    context: ApplyContext<'_>,
    found: &[Found<Gathered>],
    low: u32,
    high: u32,
    scratch: &mut Scratch,
) -> Result<(), AllocError>
    ensures { OnOk result ((m : StateValue) (steps : List FunctionStatementsTree) (edges_of : ℕ → List Edge) → EachAscending found.now
        → EachGathered context.entry.vertices m steps edges_of found.now
        → HasFolded context.entry m steps [] scratch.old → HasFolded context.entry m steps
        (filter (λ e. is_in_range low high e.1) (flat_map edges_of (pieces_of found.now))) scratch.new) }
{
    'found: for one in found {
        let part = one.out.between(alloc, low, high)?;
        scratch.join_gathered(alloc, context, &part)?;
    }
    Ok(())
}
