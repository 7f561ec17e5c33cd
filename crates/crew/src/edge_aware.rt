//! Ends of pieces that have about as many vertices and edges as one another.
ghost use Rattle.std.specs.Prelude.{◌≡◌, ◌+◌, ◌*◌, ◌^◌, ◌<◌, ◌≤◌, ◌++◌, length, min, IfOk, OnOk};
ghost use Rattle.crew.specs.Boundaries.{edge_aware_ends};
ghost use Rattle.crew.specs.Limits.{limited_ends, weight};
ghost use Rattle.crew.specs.inside.Cuts.{CutsOn, weight_left};

use crate::degree_list::DegreeList;
use std::alloc::AllocError;

/// Adds the ends of four pieces for each worker, by vertices and edges.
pub(crate) fn push_edge_aware<D: DegreeList>(
    ends: &mut Vec<usize>,
    workers: usize,
    count: usize,
    degrees: &D,
) -> Result<(), AllocError>
    requires workers { (1 ≤ workers) × (workers ≤ 64) }
    requires few { count < 2 ^ 32 }
    requires degrees { length (D.degrees degrees.now) ≡ count }
    ensures { OnOk result (ends.new.items ≡ ends.old.items ++ edge_aware_ends workers (D.degrees degrees.now)) }
{
    let limit = degrees.total().div_ceil(4 * workers);
    push_limited(ends, limit, count, degrees)
}

/// Adds the ends of pieces of vertices of these degrees, each ended where it reaches the limit, or with the list. It goes
/// over runs of 64 vertices.
fn push_limited<D: DegreeList>(
    ends: &mut Vec<usize>,
    limit: usize,
    count: usize,
    degrees: &D,
) -> Result<(), AllocError>
    requires few { count < 2 ^ 32 }
    requires degrees { length (D.degrees degrees.now) ≡ count }
    requires fits { weight (D.degrees degrees.now) < 2 ^ 64 }
    ensures { OnOk result (ends.new.items ≡ ends.old.items ++ limited_ends limit 0 0 (D.degrees degrees.now)) }
{
    let mut reached = 0usize;
    'runs: for run in 0..count.div_ceil(64) {
        reached = push_run(ends, limit, reached, run, degrees, count)?;
    }
    if reached > 0 {
        ends.push(count)?;
    }
    Ok(())
}

/// Adds the ends in a run, before which the piece that is not ended has reached so much, and gives what it has reached after
/// it. The vertices of the run are gone over only if the piece ends among them.
fn push_run<D: DegreeList>(
    ends: &mut Vec<usize>,
    limit: usize,
    reached: usize,
    run: usize,
    degrees: &D,
    count: usize,
) -> Result<usize, AllocError>
    requires few { count < 2 ^ 32 }
    requires degrees { length (D.degrees degrees.now) ≡ count }
    requires inside { 64 * run < count }
    requires fits { reached + weight_left (64 * run) (D.degrees degrees.now) < 2 ^ 64 }
    ensures { IfOk result (λ after. CutsOn limit (D.degrees degrees.now) reached (64 * run) ends.old.items after (min (64 * run + 64) count) ends.new.items) }
{
    let after = reached + degrees.run_total(run);
    if after < limit {
        return Ok(after);
    }
    let start = 64 * run;
    push_vertices(
        ends,
        limit,
        reached,
        start,
        (start + 64).min(count),
        degrees,
    )
}

/// Adds the ends among the vertices from one index to another.
fn push_vertices<D: DegreeList>(
    ends: &mut Vec<usize>,
    limit: usize,
    reached: usize,
    start: usize,
    stop: usize,
    degrees: &D,
) -> Result<usize, AllocError>
    requires order { start ≤ stop }
    requires inside { stop ≤ length (D.degrees degrees.now) }
    requires few { stop < 2 ^ 32 }
    requires fits { reached + weight_left start (D.degrees degrees.now) < 2 ^ 64 }
    ensures { IfOk result (λ after. CutsOn limit (D.degrees degrees.now) reached start ends.old.items after stop ends.new.items) }
{
    let mut reached = reached;
    'vertices: for index in start..stop {
        reached += degrees.degree(index) as usize + 1;
        if limit <= reached {
            ends.push(index + 1)?;
            reached = 0;
        }
    }
    Ok(reached)
}
