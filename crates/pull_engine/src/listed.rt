//! Cuts of an apply by pull into pieces, and its sources as bits.
ghost use Rattle.std.specs.Prelude.{◌≡◌, ℕ, ◌<◌, Bool, length, map, IfOk, IfSome};
ghost use Rattle.std.specs.List.{range_with_len};
ghost use Rattle.kernels.specs.EdgeApply.{is_member};
ghost use Rattle.kernels.specs.State.{StateValue};
ghost use Rattle.edge_fold.specs.Ends.{IsEndTest};
ghost use Rattle.crew.specs.Boundaries.{boundaries};
ghost use Rattle.crew.specs.Partition.{AreEnds};
ghost use Rattle.flat_snapshot.specs.Neighbours.{sources_of};

use crate::in_degrees::InDegrees;
use apply_options::Parallelization;
use crew::{Partition, WorkerCount};
use flat_snapshot::Flat;
use kernels::EndpointFilter;
use std::alloc::{AllocError, Global};
use vertex_sets::{Form, VertexSet};

/// Where a schedule cuts the vertices of a graph for n workers. The only error is out of memory.
pub(crate) fn partition_vertices(
    alloc: Global,
    parallelization: Parallelization,
    workers: WorkerCount,
    flat: &Flat,
) -> Result<Partition, AllocError>
    ensures ends { IfOk result (λ c. c ≡ boundaries parallelization workers flat.now.vertices
        (map (λ v. length (sources_of v flat.now.edges)) (range_with_len 0 flat.now.vertices))) }
    ensures whole { IfOk result (λ c. AreEnds 0 flat.now.vertices c) }
{
    let count = flat.vertices() as usize;
    let degrees = InDegrees { flat };
    Partition::by_degrees(alloc, parallelization, workers, count, &degrees)
}

/// The destinations of an apply in bits, if they are a set that is kept in another form. The only error is out of memory.
pub(crate) fn member_bits(
    alloc: Global,
    to: Option<EndpointFilter<'_>>,
) -> Result<Option<VertexSet>, AllocError>
    ensures { IfOk result (λ b. IfSome b (λ s. (m : StateValue) (test : ℕ → Bool) → IsEndTest to.entry m test
        → (v : ℕ) → test v ≡ is_member v s.members)) }
{
    let Some(EndpointFilter::Members(set)) = to else {
        return Ok(None);
    };
    if set.words().is_some() {
        return Ok(None);
    }
    let bits = set.to_form(alloc, Form::Bits)?;
    Ok(Some(bits))
}
