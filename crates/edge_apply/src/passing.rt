//! The vertices that an end lets through, in bits.
ghost use Rattle.std.specs.Prelude.{◌≡◌, ◌-◌, ◌<◌, ◌≤◌, ◌||◌, ℕ, Bool, IfOk, OnOk};
ghost use Rattle.std.specs.List.{range_with_len};
ghost use Rattle.kernels.specs.EdgeApply.{is_member};
ghost use Rattle.kernels.specs.State.{StateValue};
ghost use Rattle.kernels.specs.Registers.{HasSizes};
ghost use Rattle.edge_fold.specs.Ends.{IsTest};

use crate::vertices::number_between;
use edge_fold::{ApplyContext, Scratch, compared_set};
use kernels::{EndpointFilter, PAIRS};
use std::alloc::{AllocError, Global};
use vertex_sets::{Form, VertexSet};

/// The vertices that an end lets through, as bits. Each vertex is tested once, in one loop where a filter compares the
/// entries of a vector with a constant. The only error is out of memory.
pub fn passing_set(
    alloc: Global,
    context: ApplyContext<'_>,
    end: EndpointFilter<'_>,
    scratch: &mut Scratch,
) -> Result<VertexSet, AllocError>
    ensures form { IfOk result (λ s. s.form ≡ Form.Bits) }
    ensures members { IfOk result (λ s. (m : StateValue) (test : ℕ → Bool) → context.entry.vectors.now.vectors ≡ m.vectors
        → HasSizes context.entry.sizes.now m → IsTest end.entry m test
        → (v : ℕ) → v < context.entry.vertices → is_member v s.members ≡ test v) }
{
    if let EndpointFilter::Filter(kernel) = end {
        if let Some(set) = compared_set(alloc, context, kernel)? {
            return Ok(set);
        }
    }
    passing_between(alloc, context, end, 0, context.vertices, scratch)
}

/// The vertices from one on up to another that an end lets through, as bits: the set has as many vertices as are below the
/// second. Each is tested once, a block at a time. The only error is out of memory.
pub fn passing_between(
    alloc: Global,
    context: ApplyContext<'_>,
    end: EndpointFilter<'_>,
    first: u32,
    stop: u32,
    scratch: &mut Scratch,
) -> Result<VertexSet, AllocError>
    requires { first ≤ stop }
    ensures form { IfOk result (λ s. s.form ≡ Form.Bits) }
    ensures members { IfOk result (λ s. (m : StateValue) (test : ℕ → Bool) → context.entry.vectors.now.vectors ≡ m.vectors
        → HasSizes context.entry.sizes.now m → IsTest end.entry m test
        → (v : ℕ) → first ≤ v → v < stop → is_member v s.members ≡ test v) }
{
    let mut set = VertexSet::empty(alloc, stop, Form::Bits)?;
    let mut part = Vec::new(alloc);
    let mut kept = Vec::new(alloc);
    let mut next = first;
    'parts: while next < stop {
        let end_of_part = next + (stop - next).min(PAIRS as u32);
        number_between(next, end_of_part, &mut part)?;
        kept.clear();
        scratch.keep_passing(context, end, &part, &mut kept)?;
        insert_all(&kept, &mut set)?;
        next = end_of_part;
    }
    Ok(set)
}

/// Makes those vertices members that the set may have.
fn insert_all(vertices: &[u32], set: &mut VertexSet) -> Result<(), AllocError>
    ensures vertices { OnOk result (set.new.vertices ≡ set.old.vertices) }
    ensures form { OnOk result (set.new.form ≡ set.old.form) }
    ensures members { OnOk result ((v : ℕ) → v < set.old.vertices → is_member v set.new.members ≡ is_member v set.old.members || is_member v vertices.now) }
{
    'vertices: for vertex in vertices {
        if *vertex < set.vertices() {
            set.insert(*vertex)?;
        }
    }
    Ok(())
}
