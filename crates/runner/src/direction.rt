//! The direction of an edge apply: from the sources, or into the destinations.
ghost use Rattle.std.specs.Prelude.{◌≡◌, ◌/◌, length, if◌then◌else◌, nat_lt, IfOk};
ghost use Rattle.apply_options.specs.declared.apply_schedule.Direction.TheVariants as direction;
ghost use Rattle.push_engine.specs.Work.{work_from};
ghost use Rattle.runner.specs.HybridSources.{AreSourcesOf, hybrid_traversal, traversal_of};

use apply_options::Direction;
use edge_apply::{Apply, passing_set};
use edge_fold::{FoldStart, Scratch};
use flat_snapshot::Flat;
use kernels::EndpointFilter;
use push_engine::is_work_above;
use std::alloc::{AllocError, Global};
use vertex_sets::VertexSet;

/// Which way an apply goes over the edges: from its sources, or into its destinations.
#[derive(Clone, Copy, Debug, PartialEq, Eq)]
pub enum Traversal {
    Push,
    Pull,
}

impl Traversal {
    /// That of an apply: as its direction says, and the hybrid by [`pick_direction`] from the members of a set, and a pull
    /// from any other end.
    pub fn of(apply: &Apply<'_>) -> Traversal
        ensures { result ≡ traversal_of apply.now }
    {
        match apply.direction {
            Direction::SparsePush | Direction::DensePush => Traversal::Push,
            Direction::DensePull => Traversal::Pull,
            Direction::Hybrid => hybrid_traversal(apply.flat, apply.from),
        }
    }
}

/// That of a hybrid from an end.
fn hybrid_traversal(flat: &Flat, from: Option<EndpointFilter<'_>>) -> Traversal
    ensures { result ≡ hybrid_traversal flat.now.edges from.entry }
{
    let Some(EndpointFilter::Members(set)) = from else {
        return Traversal::Pull;
    };
    match pick_direction(flat, set) {
        Direction::DensePull => Traversal::Pull,
        _ => Traversal::Push,
    }
}

/// The sources of a hybrid that a filter lets through, in a set, and none for other applies. Each vertex is tested once.
/// The only error is out of memory.
pub(crate) fn hybrid_sources(
    alloc: Global,
    apply: &Apply<'_>,
    scratch: &mut Scratch,
) -> Result<Option<VertexSet>, AllocError>
    ensures { IfOk result (AreSourcesOf apply.now) }
{
    if apply.direction != Direction::Hybrid {
        return Ok(None);
    }
    let Some(end) = apply.from else {
        return Ok(None);
    };
    match end {
        EndpointFilter::Members(_) => Ok(None),
        EndpointFilter::Filter(_) => {
            let context = apply.context(FoldStart::OldEntry);
            let passing = passing_set(alloc, context, end, scratch)?;
            Ok(Some(passing))
        }
    }
}

/// The direction that the hybrid takes from these sources: a dense pull where the sources and the edges from them are more
/// than the edges of the graph divided by 20, rounded down, and else a sparse push. It stops counting where they are. It
/// takes no memory.
pub fn pick_direction(flat: &Flat, sources: &VertexSet) -> Direction
    ensures { result ≡ (if nat_lt (length flat.now.edges / 20) (work_from flat.now.edges sources.now.members) then direction.DensePull else
        direction.SparsePush) }
{
    if is_work_above(flat, sources, flat.edge_count() / 20) {
        Direction::DensePull
    } else {
        Direction::SparsePush
    }
}
