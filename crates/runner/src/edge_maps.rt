//! Edge maps: the edge applies of a plan, by the engines.
ghost use Rattle.std.specs.Prelude.{◌≡◌, ℕ, List, [], None, IfOk, slice_get};
ghost use Rattle.std.specs.Option.{option_copied, option_map};
ghost use Rattle.typed_tree.specs.ProgramTree.{ProgramTree};
ghost use Rattle.algorithm_meaning.specs.Function.{steps_of};
ghost use Rattle.edge_fold.specs.Changed.{AreApart};
ghost use Rattle.edge_fold.specs.Folded.{AreKernels};
ghost use Rattle.edge_apply.specs.Applied.{AreChangesOf};
ghost use Rattle.kernels.specs.Kernels.{IsEdgeKernel};
ghost use Rattle.kernels.specs.declared.kernel.EdgeKernel.{EdgeKernel};
ghost use Rattle.plans.specs.Operation.{AreFunctionKernels, kernel_at};
ghost use Rattle.plans.specs.Reducing.{indices_of, steps_at};
ghost use Rattle.runner.specs.HybridSources.{AreSourcesOf};
ghost use Rattle.runner.specs.EdgeMap.{IsApplyOfRun};
ghost use Rattle.vectors.specs.declared.changes.VectorChanges.{VectorChanges};

use crate::direction::Traversal;
use crate::edge_applier::{ApplyEngine, EdgeApplier};
use crate::ends::end_of;
use apply_options::{ApplySchedule, Direction, Parallelization};
use edge_apply::Apply;
use kernels::{EdgeKernel, EndpointFilter};
use run_state::RunView;
use std::alloc::{AllocError, Global};
use typed_tree::ApplyEnds;
use vectors::Changes;
use vertex_sets::{Form, VertexSet};

/// An edge apply of a plan: the edge functions at one or two indices, on the edges between two ends, and what the schedule
/// says of how it is done. An end names a vertex set by its index.
#[derive(Clone, Copy)]
pub struct EdgeMap {
    pub ends: ApplyEnds,
    pub first: usize,
    pub second: Option<usize>,
    pub schedule: ApplySchedule,
}

impl<E: ApplyEngine> EdgeApplier for E {
    ghost is_ready = { λ s _ graph. E.is_ready s graph };

    ghost knows = { λ _ _. Unit {0} };

    fn forget_vectors(&mut self) {}

    fn apply_edges(
        &mut self,
        alloc: Global,
        run: RunView<'_>,
        asked: EdgeMap,
    ) -> Result<Changes, AllocError> {
        let no_members = VertexSet::empty(alloc, run.graph.vertices(), Form::List)?;
        let apply = apply_of(run, asked, &no_members);
        edge_map(alloc, apply, self)
    }
}

/// What an apply of edge functions changes, by push or by pull: for each vector that a function has given something one list
/// of changes, by ascending vertices, and a vector without one does not change. It promises so for each vector that has an
/// entry for each vertex and to which the functions give by one reduction. The vectors stay as they are, and so does the graph.
///
/// The hybrid goes by [`crate::pick_direction`]. If all sources pass it pulls, and a filter of sources is run for each vertex,
/// once.
///
/// The only error is out of memory. Who does the apply serves any apply on this graph after this one, whatever became of it.
pub fn edge_map<E: ApplyEngine>(
    alloc: Global,
    apply: Apply<'_>,
    by: &mut E,
) -> Result<Changes, AllocError>
    requires { E.is_ready by.old apply.flat.now }
    ensures once { IfOk result (λ c. AreApart c.vectors.items) }
    ensures changes { IfOk result (λ c. AreChangesOf apply.entry c.vectors.items) }
    ensures ready { E.is_ready by.new apply.entry.flat.now }
{
    let sources = by.sources(alloc, &apply)?;
    let apply = from_sources(apply, &sources);
    match Traversal::of(&apply) {
        Traversal::Push => by.push(alloc, apply),
        Traversal::Pull => by.pull(alloc, apply),
    }
}

/// An apply from the members of its sources, if they are in a set.
fn from_sources<'a>(apply: Apply<'a>, sources: &'a Option<VertexSet>) -> Apply<'a>
    requires { AreSourcesOf apply sources.now }
    ensures sources { AreSourcesOf result None }
    ensures graph { result.flat.now ≡ apply.entry.flat.now }
    ensures changes { (cs : List VectorChanges) → AreChangesOf result cs → AreChangesOf apply.entry cs }
{
    match sources {
        None => apply,
        Some(set) => Apply {
            from: Some(EndpointFilter::Members(set)),
            ..apply
        },
    }
}

/// The apply as the engines take it, a sparse push in one piece where the schedule says nothing. An index without a set has
/// the members of `no_members`, which has none.
pub fn apply_of<'a>(run: RunView<'a>, asked: EdgeMap, no_members: &'a VertexSet) -> Apply<'a>
    requires { no_members.now.members ≡ [] }
    ensures { IsApplyOfRun run.entry asked result }
{
    let schedule = asked.schedule;
    Apply {
        flat: run.graph,
        vectors: run.vectors,
        sizes: run.sizes,
        from: end_of(asked.ends.from, run, no_members),
        to: end_of(asked.ends.to, run, no_members),
        first: run.functions.edge.get(asked.first),
        second: second_kernel(run, asked.second),
        direction: schedule.direction.unwrap_or(Direction::SparsePush),
        parallelization: schedule.parallelization.unwrap_or(Parallelization::Serial),
    }
}

/// The kernel of the function at the second index, where there is one.
fn second_kernel<'a>(run: RunView<'a>, second: Option<usize>) -> Option<&'a EdgeKernel>
    ensures same { option_copied result ≡ option_map (kernel_at run.entry.functions.now.edge) second }
    ensures kernels { (p : ProgramTree) (kernel : EdgeKernel) (first : ℕ) → AreFunctionKernels run.entry.functions.now p
        → IsEdgeKernel kernel (steps_of (slice_get p.edge_functions first))
        → AreKernels kernel result (steps_at p.edge_functions (indices_of first second)) }
{
    let index = second?;
    Some(run.functions.edge.get(index))
}
