//! Whole applies by pull: into the destinations.
ghost use Rattle.std.specs.Prelude.{◌≡◌, ℕ, ◌==◌, Bool, if◌then◌else◌, List, [], IfOk};
ghost use Rattle.kernels.specs.FunctionStatementTree.{FunctionStatementsTree};
ghost use Rattle.kernels.specs.State.{StateValue};
ghost use Rattle.edge_fold.specs.Between.{edges_between};
ghost use Rattle.edge_fold.specs.Changed.{AreApart, changes_of};
ghost use Rattle.edge_fold.specs.Ends.{IsEndTest};
ghost use Rattle.edge_fold.specs.declared.apply_context.FoldStart.TheVariants.{OldEntry};
ghost use Rattle.edge_fold.specs.Folded.{IsContextOf};
ghost use Rattle.edge_apply.specs.Applied.{AreChangesOf, AreChangesOn};
ghost use Rattle.edge_apply.specs.Words.{passes_words};
ghost use Rattle.flat_snapshot.specs.Digraph.{IsDigraph};

use crate::destinations::fold_range;
use crate::masks::mask_of;
use crate::ranges::PullRange;
use crate::shapes::{apply_shape, pull_shape, shape_target};
use crate::source_words::SourceWords;
use edge_apply::Apply;
use edge_fold::{FoldStart, Scratch};
use std::alloc::{AllocError, Global};
use vectors::{Changes, EntryChange, VectorChanges};

/// What an apply of edge functions changes, where it goes over the destinations and their sources: for each vector that
/// a function has given something one list of changes, by ascending vertices, and a vector without one does not change.
/// It promises so for each vector that has an entry for each vertex and to which the functions give by one reduction,
/// in the words of a push. The vectors stay as they are, and so does the
/// graph. The scratch serves any apply after this one, whatever became of it.
///
/// It takes time in proportion to the vertices and to the edges to them. By a function of a known shape to the members of a
/// set it takes a word for each 64 vertices in place of a test of each. Where one source decides, as the greatest one for a `max=` of the source, no edges are
/// read after the first of them, but in sets in chunks for the greatest. A filter of sources is run for each vertex, and
/// sources that are members of a list or of flags are put into bits first.
///
/// The only error is out of memory.
pub fn pull(alloc: Global, apply: &Apply<'_>, scratch: &mut Scratch) -> Result<Changes, AllocError>
    ensures once { IfOk result (λ c. AreApart c.vectors.items) }
    ensures changes { IfOk result (λ c. AreChangesOf apply.now c.vectors.items) }
{
    let context = apply.context(FoldStart::OldEntry);
    let sources = SourceWords::of(alloc, apply.from, context, scratch)?;
    let shape = apply_shape(context.first, context.second);
    let from = sources.words();
    let masked = mask_of(alloc, shape, apply, from)?;
    let range = PullRange {
        flat: apply.flat,
        context,
        from,
        to: apply.to,
        low: 0,
        high: apply.flat.vertices(),
        masked: &masked,
    };
    let Some(target) = shape_target(shape) else {
        return pull_folded(alloc, range, scratch);
    };
    let changes = pull_shape(alloc, shape, range, scratch)?;
    changes_in(alloc, target.vector, changes)
}

/// What an apply of functions of any shape changes, in a range that is the whole graph.
fn pull_folded(
    alloc: Global,
    range: PullRange<'_>,
    scratch: &mut Scratch,
) -> Result<Changes, AllocError>
    requires low { range.low ≡ 0 }
    requires high { range.high ≡ range.flat.now.vertices }
    requires graph { IsDigraph range.flat.now }
    ensures once { IfOk result (λ c. AreApart c.vectors.items) }
    ensures changes { IfOk result (λ c. (m : StateValue) (steps : List FunctionStatementsTree) (test : ℕ → Bool) → IsContextOf range.entry.context m steps
        → range.entry.context.vertices ≡ range.entry.flat.now.vertices → range.entry.context.start ≡ OldEntry → IsEndTest range.entry.to m test
        → AreChangesOn range.entry.flat.now.vertices (edges_between (passes_words range.entry.from) test range.entry.flat.now.edges) m steps c.vectors.items) }
{
    fold_range(alloc, range, scratch)?;
    scratch.changes(alloc, range.context, None)
}

/// The changes of one vector. The only error is out of memory.
pub(crate) fn changes_in(
    alloc: Global,
    vector: usize,
    changes: Vec<EntryChange>,
) -> Result<Changes, AllocError>
    ensures once { IfOk result (λ c. AreApart c.vectors.items) }
    ensures changes { IfOk result (λ c. (x : ℕ) → changes_of x c.vectors.items ≡ (if vector == x then changes.items else [])) }
{
    let mut vectors = Vec::with_capacity(alloc, 1)?;
    vectors.push(VectorChanges { vector, changes })?;
    Ok(Changes { vectors })
}
