//! Employment: how many of a run's workers do an edge apply.
ghost use Rattle.std.specs.Prelude.{◌≡◌, ◌<◌, ◌^◌, min};
ghost use Rattle.push_engine.specs.Work.{work_from_end};
ghost use Rattle.runner.specs.inside.Employment.{employed_of, work_into_end, work_of};

use crate::direction::Traversal;
use apply_options::Parallelization;
use crew::WorkerCount;
use edge_apply::Apply;
use flat_snapshot::Flat;
use kernels::EndpointFilter;

/// How many of n workers do an apply in pieces, or none if the caller does it as a whole. If somebody watches, all of them
/// do it. Else it is as many as its edges are worth, and the caller alone if it is to be in one piece or is not worth a
/// second worker.
pub(crate) fn employed(
    is_watched: bool,
    workers: WorkerCount,
    parallelization: Parallelization,
    edges: usize,
) -> Option<WorkerCount>
    ensures { result ≡ employed_of is_watched parallelization workers edges }
{
    if is_watched {
        return Some(workers);
    }
    if parallelization == Parallelization::Serial {
        return None;
    }
    let worth = workers.worth(edges);
    if worth.get() > 1 { Some(worth) } else { None }
}

/// The number of vertices and edges that an apply goes over: those of its sources by a push, and of its destinations by a
/// pull, and all edges if these are no members of a set. It stops counting at a limit, which is less than 2^32.
pub(crate) fn work_up_to(apply: &Apply<'_>, traversal: Traversal, most: usize) -> usize
    requires { most < 2 ^ 32 }
    ensures { min result most ≡ min (work_of traversal apply.now) most }
{
    match traversal {
        Traversal::Push => edges_from(apply.flat, apply.from, most),
        Traversal::Pull => edges_into(apply.flat, apply.to, most),
    }
}

/// The number of sources and edges from them if the sources are members of a set, and else that of all edges. It stops
/// counting at a limit.
fn edges_from(flat: &Flat, from: Option<EndpointFilter<'_>>, most: usize) -> usize
    requires { most < 2 ^ 32 }
    ensures { min result most ≡ min (work_from_end flat.now.edges from.entry) most }
{
    let Some(EndpointFilter::Members(set)) = from else {
        return flat.edge_count();
    };
    let mut edges = 0usize;
    'sources: for source in set.iter() {
        if most <= edges {
            return edges;
        }
        edges += 1 + flat.out_degree(source) as usize;
    }
    edges
}

/// The number of destinations and edges to them, like [`edges_from`].
fn edges_into(flat: &Flat, to: Option<EndpointFilter<'_>>, most: usize) -> usize
    requires { most < 2 ^ 32 }
    ensures { min result most ≡ min (work_into_end flat.now.edges to.entry) most }
{
    let Some(EndpointFilter::Members(set)) = to else {
        return flat.edge_count();
    };
    let mut edges = 0usize;
    'destinations: for destination in set.iter() {
        if most <= edges {
            return edges;
        }
        edges += 1 + flat.in_degree(destination) as usize;
    }
    edges
}
