//! The destinations among which an apply is pulled.
ghost use Rattle.std.specs.Prelude.{◌≡◌, ◌<◌, ℕ, Bool, pos, FitsSigned, nat_le, slice_index_or, IfOk};
ghost use Rattle.std.specs.List.{filter};
ghost use Rattle.std.specs.Int.{w64};
ghost use Rattle.kernels.specs.EdgeApply.{is_member};
ghost use Rattle.kernels.specs.Registers.{HasSizes};
ghost use Rattle.kernels.specs.State.{StateValue};
ghost use Rattle.edge_fold.specs.Changed.{AreApart};
ghost use Rattle.edge_fold.specs.Ends.{IsTest};
ghost use Rattle.follow_engine.specs.Work.{edges_to};
ghost use Rattle.follow_engine.specs.Spent.{AreChosen};
ghost use Rattle.follow_engine.specs.inside.Among.{ArePulledAmong};

use edge_apply::Apply;
use edge_fold::{FoldStart, Scratch};
use flat_snapshot::Flat;
use kernels::EndpointFilter;
use pull_engine::pull;
use std::alloc::{AllocError, Global};
use vectors::Changes;
use vertex_sets::{Form, VertexSet};

/// Those of some vertices that an apply's second end lets through, in their order. The only error is out of memory.
pub(crate) fn chosen(
    alloc: Global,
    apply: &Apply<'_>,
    vertices: &[u32],
    scratch: &mut Scratch,
) -> Result<Vec<u32>, AllocError>
    ensures { IfOk result (λ kept. AreChosen apply.now vertices.now kept.items) }
{
    match apply.to {
        None => Vec::from_slice(alloc, vertices),
        Some(end) => kept_by(alloc, apply, end, vertices, scratch),
    }
}

/// Those that an end lets through.
fn kept_by(
    alloc: Global,
    apply: &Apply<'_>,
    end: EndpointFilter<'_>,
    vertices: &[u32],
    scratch: &mut Scratch,
) -> Result<Vec<u32>, AllocError>
    ensures { IfOk result (λ kept. (m : StateValue) (test : ℕ → Bool) → apply.now.vectors.now.vectors ≡ m.vectors → HasSizes apply.now.sizes.now m
        → IsTest end.entry m test → kept.items ≡ filter test vertices.now) }
{
    let mut kept = Vec::new(alloc);
    let context = apply.context(FoldStart::OldEntry);
    scratch.keep_passing(context, end, vertices, &mut kept)?;
    Ok(kept)
}

/// Whether at most so many edges go to these destinations.
pub(crate) fn fits_budget(flat: &Flat, destinations: &[u32], budget: usize) -> bool
    ensures { result ≡ nat_le (edges_to flat.now.edges destinations.now) budget }
{
    let mut left = budget;
    'destinations: for destination in destinations {
        let edges = flat.in_degree(*destination) as usize;
        if left < edges {
            return false;
        }
        left -= edges;
    }
    true
}

/// What an apply to the edges into these destinations changes. If there is none, it takes constant time; else it takes that of a pull
/// into a set. The only error is out of memory.
pub(crate) fn pull_among(
    alloc: Global,
    apply: &Apply<'_>,
    destinations: &[u32],
    scratch: &mut Scratch,
) -> Result<Changes, AllocError>
    ensures once { IfOk result (λ c. AreApart c.vectors.items) }
    ensures changes { IfOk result (λ c. ArePulledAmong apply.now destinations.now c.vectors.items) }
{
    if destinations.is_empty() {
        let vectors = Vec::new(alloc);
        return Ok(Changes { vectors });
    }
    let set = set_of(alloc, apply.flat.vertices(), destinations)?;
    let to = Some(EndpointFilter::Members(&set));
    pull(alloc, &Apply { to, ..*apply }, scratch)
}

/// The set of those of some numbers that are vertices. The only error is out of memory.
pub(crate) fn set_of(alloc: Global, vertices: u32, members: &[u32]) -> Result<VertexSet, AllocError>
    ensures { IfOk result (λ s. (v : ℕ) → v < vertices → is_member v s.members ≡ is_member v members.now) }
{
    let mut set = VertexSet::empty(alloc, vertices, Form::Bits)?;
    'members: for member in members {
        if *member < vertices {
            set.insert(*member)?;
        }
    }
    Ok(set)
}

/// Reads the sizes of sets, so that each is known to be an int. It changes nothing.
pub(crate) fn read_sizes(sizes: &[i64])
    ensures { (p : ℕ) → FitsSigned w64 (slice_index_or sizes.now p (pos 0)) }
{
    'sizes: for size in sizes {
        let _size = *size;
    }
}
