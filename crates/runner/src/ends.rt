//! Endpoint filters: the ends of an apply, as its instruction has them.
ghost use Rattle.std.specs.Prelude.{◌≡◌, []};
ghost use Rattle.typed_tree.specs.ProgramTree.{ProgramTree};
ghost use Rattle.algorithm_meaning.specs.EdgeApply.{passes};
ghost use Rattle.algorithm_meaning.specs.State.{StateValue};
ghost use Rattle.edge_fold.specs.Ends.{IsEndTest};
ghost use Rattle.plans.specs.Operation.{AreFunctionKernels};
ghost use Rattle.run_state.specs.View.{HasSets};
ghost use Rattle.runner.specs.EdgeMap.{IsNamedEnd};

use kernels::EndpointFilter;
use run_state::RunView;
use typed_tree::VertexFilter;
use vertex_sets::VertexSet;

/// The end of an apply that a program names: a set where it stands, or the kernel of a filter. An index without a set has
/// the members of `no_members`, which has none.
pub(crate) fn end_of<'a>(
    end: Option<VertexFilter>,
    run: RunView<'a>,
    no_members: &'a VertexSet,
) -> Option<EndpointFilter<'a>>
    requires { no_members.now.members ≡ [] }
    ensures test { (p : ProgramTree) (m : StateValue) → AreFunctionKernels run.entry.functions.now p → HasSets run.entry m
        → IsEndTest result m (passes p.filters m end) }
    ensures end { IsNamedEnd run.entry end result }
{
    match end {
        None => None,
        Some(VertexFilter::Members(slot)) => {
            let set = run.sets.get(slot.index).unwrap_or(no_members);
            Some(EndpointFilter::Members(set))
        }
        Some(VertexFilter::Function(index)) => Some(EndpointFilter::Filter(
            run.functions.filter.get(index),
        )),
    }
}
