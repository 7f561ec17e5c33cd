//! Whole applies by push.
ghost use Rattle.std.specs.Prelude.{◌≡◌, ◌<◌, ◌^◌, ℕ, List, [], nat_lt, IfOk, OnOk};
ghost use Rattle.kernels.specs.FunctionStatementTree.{FunctionStatementsTree};
ghost use Rattle.kernels.specs.State.{StateValue};
ghost use Rattle.edge_fold.specs.Changed.{AreApart};
ghost use Rattle.edge_fold.specs.Folded.{IsContextOf, HasFolded};
ghost use Rattle.edge_apply.specs.Applied.{AreChangesOf};
ghost use Rattle.push_engine.specs.inside.Work.{AnswersUpTo};
ghost use Rattle.push_engine.specs.Work.{tests_first, work_from, work_from_end};

use crate::neighbour_block::NeighbourBlock;
use crate::push_end::{destinations_of, is_in_bits, sources_of};
use crate::sources::{RowInput, fold_end, fold_words};
use edge_apply::Apply;
use edge_fold::{ApplyContext, FoldStart, Scratch};
use flat_snapshot::Flat;
use kernels::EndpointFilter;
use std::alloc::{AllocError, Global};
use vectors::Changes;
use vertex_sets::VertexSet;

/// What an apply of edge functions changes, by a push from the sources to the destinations: for each vector that a
/// function has given something one list of changes, by ascending vertices, and a vector without one does not change.
/// It promises so for each vector that has an entry for each vertex and to which the functions give by one reduction.
/// The vectors stay as they are, and so does the graph. The scratch serves any apply after this one,
/// whatever became of it.
///
/// If the sources have more than one edge for each 8 vertices, or the destinations are a set that is kept as bits, each edge
/// is tested first. A filter is then run once for each vertex. Otherwise destinations are tested at the end, those alone that
/// were given something.
///
/// The only error is out of memory.
pub fn push(alloc: Global, apply: &Apply<'_>, scratch: &mut Scratch) -> Result<Changes, AllocError>
    ensures once { IfOk result (λ c. AreApart c.vectors.items) }
    ensures changes { IfOk result (λ c. AreChangesOf apply.now c.vectors.items) }
{
    let flat = apply.flat;
    let context = apply.context(FoldStart::OldEntry);
    let work = work_up_to(apply, flat.vertices());
    let destinations = destinations_of(alloc, apply, work, scratch)?;
    let sources = sources_of(alloc, apply)?;
    begin(alloc, context, work, scratch)?;
    let input = RowInput {
        flat,
        context,
        to: destinations.words(),
    };
    let mut block = NeighbourBlock::new();
    match sources.untested() {
        None => fold_words(alloc, input, sources.words(), &mut block, scratch)?,
        Some(end) => fold_end(alloc, input, end, &mut block, scratch)?,
    }
    scratch.changes(alloc, context, destinations.untested())
}

/// Begins an apply with so much work, with the old entries of all vertices if that is more than there are vertices.
fn begin(
    alloc: Global,
    context: ApplyContext<'_>,
    work: usize,
    scratch: &mut Scratch,
) -> Result<(), AllocError>
    ensures { OnOk result ((m : StateValue) (steps : List FunctionStatementsTree) → IsContextOf context.entry m steps → HasFolded context.entry m steps [] scratch.new) }
{
    if work > context.vertices as usize {
        return scratch.begin_whole(alloc, context);
    }
    scratch.begin();
    Ok(())
}

/// Whether destinations are tested as they come, and not at the end.
pub(crate) fn is_tested_first(apply: &Apply<'_>, to: EndpointFilter<'_>) -> bool
    ensures { result ≡ tests_first apply.now.flat.now apply.now.from to.entry }
{
    let limit = apply.flat.vertices() / 8;
    is_in_bits(to) || work_up_to(apply, limit) > limit as usize
}

/// The sources of an apply and the edges from them, counted until they are more than a limit, if they are members of a set,
/// and else all edges.
fn work_up_to(apply: &Apply<'_>, limit: u32) -> usize
    ensures { AnswersUpTo limit result (work_from_end apply.now.flat.now.edges apply.now.from) }
{
    match apply.from {
        Some(EndpointFilter::Members(set)) => count_work(apply.flat, set, limit as usize),
        _ => apply.flat.edge_count(),
    }
}

/// Whether some sources and the edges from them are more than a limit, which is less than 2^63. It stops counting where
/// they are, and takes no memory.
pub fn is_work_above(flat: &Flat, sources: &VertexSet, limit: usize) -> bool
    requires { limit < 2 ^ 63 }
    ensures { result ≡ nat_lt limit (work_from flat.now.edges sources.now.members) }
{
    count_work(flat, sources, limit) > limit
}

/// Some sources and the edges from them, counted until they are more than a limit.
fn count_work(flat: &Flat, sources: &VertexSet, limit: usize) -> usize
    requires { limit < 2 ^ 63 }
    ensures { AnswersUpTo limit result (work_from flat.now.edges sources.now.members) }
{
    let mut work = 0usize;
    'sources: for source in sources.iter() {
        work += 1 + flat.out_degree(source) as usize;
        if work > limit {
            return work;
        }
    }
    work
}
