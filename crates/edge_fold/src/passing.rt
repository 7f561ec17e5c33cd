//! Endpoint tests: the vertices that an end of an edge lets through.
ghost use Rattle.std.specs.Prelude.{◌≡◌, ℕ, ◌<◌, ◌≤◌, ◌++◌, ◌∷◌, [], Bool, if◌then◌else◌, length, slice_index_or, OnOk};
ghost use Rattle.std.specs.List.{filter};
ghost use Rattle.algorithm_meaning.specs.Arithmetic.{compared};
ghost use Rattle.algorithm_meaning.specs.EdgeApply.{is_member};
ghost use Rattle.algorithm_meaning.specs.State.{StateValue};
ghost use Rattle.kernels.specs.declared.columns.TheConstants.{PAIRS};
ghost use Rattle.kernels.specs.Registers.{HasSizes};
ghost use Rattle.kernels.specs.Kernels.{passes_at};
ghost use Rattle.edge_fold.specs.Ends.{IsFilterTest, IsTest};
ghost use Rattle.vectors.specs.Lanes.{lane_entry};

use crate::apply_context::ApplyContext;
use algorithm_meaning::compare;
use kernels::{Block, BlockInput, EndpointFilter, FilterKernel, FilterShape, PAIRS};
use std::alloc::AllocError;
use typed_tree::ComparisonOperator;
use vectors::Lane;
use vertex_sets::VertexSet;

/// Adds those vertices that an end lets through, in their order. The only error is out of memory.
pub(crate) fn keep_passing(
    context: ApplyContext<'_>,
    end: EndpointFilter<'_>,
    vertices: &[u32],
    block: &mut Block,
    kept: &mut Vec<u32>,
) -> Result<(), AllocError>
    ensures { OnOk result ((m : StateValue) (test : ℕ → Bool) → context.entry.vectors.now.vectors ≡ m.vectors → HasSizes context.entry.sizes.now m
        → IsTest end.entry m test
        → kept.new.items ≡ kept.old.items ++ filter test vertices.now) }
{
    match end {
        EndpointFilter::Members(set) => keep_members(set, vertices, kept),
        EndpointFilter::Filter(kernel) => keep_filtered(context, kernel, vertices, block, kept),
    }
}

/// Those that are members.
fn keep_members(set: &VertexSet, vertices: &[u32], kept: &mut Vec<u32>) -> Result<(), AllocError>
    ensures { OnOk result ((test : ℕ → Bool) → ((v : ℕ) → test v ≡ is_member v set.now.members) → kept.new.items ≡ kept.old.items ++ filter test vertices.now) }
{
    'members: for vertex in vertices {
        keep_where(set.contains(*vertex), *vertex, kept)?;
    }
    Ok(())
}

/// Those that a filter lets through, in one loop where it compares the entries of a vector with a constant.
fn keep_filtered(
    context: ApplyContext<'_>,
    kernel: &FilterKernel,
    vertices: &[u32],
    block: &mut Block,
    kept: &mut Vec<u32>,
) -> Result<(), AllocError>
    ensures { OnOk result ((m : StateValue) (test : ℕ → Bool) → context.entry.vectors.now.vectors ≡ m.vectors → HasSizes context.entry.sizes.now m
        → IsFilterTest kernel.now m test
        → kept.new.items ≡ kept.old.items ++ filter test vertices.now) }
{
    match kernel.shape() {
        FilterShape::Compare(vector, comparison, number) => {
            let lane = context.vectors.lane(vector);
            keep_compared(lane, comparison, number, vertices, kept)
        }
        FilterShape::Other => keep_in_parts(context, kernel, vertices, block, kept),
    }
}

/// Those whose entry compares so with a number.
fn keep_compared(
    lane: Lane<'_>,
    comparison: ComparisonOperator,
    number: i64,
    vertices: &[u32],
    kept: &mut Vec<u32>,
) -> Result<(), AllocError>
    ensures { OnOk result (kept.new.items ≡ kept.old.items ++ filter (λ v. compared comparison (lane_entry lane.entry v) number) vertices.now) }
{
    'vertices: for vertex in vertices {
        let entry = lane.get(*vertex as usize);
        keep_where(compare(comparison, entry, number), *vertex, kept)?;
    }
    Ok(())
}

/// Those that a filter of any shape lets through, a block at a time.
fn keep_in_parts(
    context: ApplyContext<'_>,
    kernel: &FilterKernel,
    vertices: &[u32],
    block: &mut Block,
    kept: &mut Vec<u32>,
) -> Result<(), AllocError>
    ensures { OnOk result ((m : StateValue) (test : ℕ → Bool) → context.entry.vectors.now.vectors ≡ m.vectors → HasSizes context.entry.sizes.now m
        → IsFilterTest kernel.now m test
        → kept.new.items ≡ kept.old.items ++ filter test vertices.now) }
{
    let mut rest = vertices;
    'parts: while !rest.is_empty() {
        let (part, more) = rest.split_at(rest.len().min(PAIRS));
        keep_part(context, kernel, part, block, kept)?;
        rest = more;
    }
    Ok(())
}

/// Those that a filter lets through, of at most a block of vertices.
fn keep_part(
    context: ApplyContext<'_>,
    kernel: &FilterKernel,
    part: &[u32],
    block: &mut Block,
    kept: &mut Vec<u32>,
) -> Result<(), AllocError>
    requires { length part.now ≤ PAIRS }
    ensures { OnOk result ((m : StateValue) (test : ℕ → Bool) → context.entry.vectors.now.vectors ≡ m.vectors → HasSizes context.entry.sizes.now m
        → IsFilterTest kernel.now m test
        → kept.new.items ≡ kept.old.items ++ filter test part.now) }
{
    block.make_room(kernel.room())?;
    let around = BlockInput {
        vectors: context.vectors,
        sizes: context.sizes,
        vertices: context.vertices,
        sources: part,
        destinations: part,
        weights: &[],
    };
    kernel.run(around, block);
    keep_all_where(block, part, kept)?;
    Ok(())
}

/// Those that the filter that ran on a block lets through.
fn keep_all_where(block: &Block, part: &[u32], kept: &mut Vec<u32>) -> Result<(), AllocError>
    requires { length part.now ≤ PAIRS }
    ensures { OnOk result ((test : ℕ → Bool) → ((i : ℕ) → i < length part.now → passes_at block.now i ≡ test (slice_index_or part.now i 0))
        → kept.new.items ≡ kept.old.items ++ filter test part.now) }
{
    'indices: for (index, vertex) in part.iter().enumerate() {
        keep_where(block.passes(index), *vertex, kept)?;
    }
    Ok(())
}

/// A vertex, where it is to be kept.
pub(crate) fn keep_where(keeps: bool, vertex: u32, kept: &mut Vec<u32>) -> Result<(), AllocError>
    ensures { OnOk result (kept.new.items ≡ kept.old.items ++ (if keeps then vertex ∷ [] else [])) }
{
    if keeps {
        kept.push(vertex)?;
    }
    Ok(())
}
