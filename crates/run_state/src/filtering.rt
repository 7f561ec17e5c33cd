//! The members of a set that pass a filter.
ghost use Rattle.std.specs.Prelude.{◌≡◌, ◌++◌, ◌∷◌, [], ℕ, ◌≤◌, ◌<◌, length, slice_index_or, if◌then◌else◌, Bool, IfOk, OnOk};
ghost use Rattle.std.specs.List.{filter};
ghost use Rattle.typed_tree.specs.FunctionStatementTree.{FunctionStatementsTree};
ghost use Rattle.algorithm_meaning.specs.Function.{result_of};
ghost use Rattle.algorithm_meaning.specs.State.{StateValue};
ghost use Rattle.kernels.specs.declared.columns.TheConstants.{PAIRS};
ghost use Rattle.kernels.specs.Registers.{HasSizes};
ghost use Rattle.kernels.specs.Kernels.{IsFilterKernel, passes_at};
ghost use Rattle.run_state.specs.inside.Passing.{passing};

use crate::vertices::take_part;
use kernels::{Block, BlockInput, FilterKernel, PAIRS};
use std::alloc::{AllocError, Global};
use vectors::Vectors;
use vertex_sets::{Form, VertexSet};

/// The set, as a list, of the members of another that a filter lets through. The only error is out of memory.
pub(crate) fn filtered(
    alloc: Global,
    kernel: &FilterKernel,
    set: &VertexSet,
    sizes: &[i64],
    vectors: &Vectors,
    block: &mut Block,
) -> Result<VertexSet, AllocError>
    ensures vertices { IfOk result (λ s. s.vertices ≡ set.now.vertices) }
    ensures members { IfOk result (λ s. (steps : FunctionStatementsTree) (m : StateValue) → IsFilterKernel kernel.now steps → vectors.now.vectors ≡ m.vectors
        → HasSizes sizes.now m
        → s.members ≡ filter (result_of steps m.sets m.vectors) set.now.members) }
{
    block.make_room(kernel.room())?;
    let mut left = set.iter();
    let mut kept = Vec::new(alloc);
    let mut part = [0u32; PAIRS];
    'parts: loop {
        let count = take_part(&mut left, &mut part);
        if count == 0 {
            return VertexSet::from_ascending(alloc, set.vertices(), &kept, Form::List);
        }
        let around = BlockInput {
            vectors,
            sizes,
            vertices: 0,
            sources: &part[..count],
            destinations: &part[..count],
            weights: &[],
        };
        kernel.run(around, block);
        keep_passing(block, &part[..count], &mut kept)?;
    }
}

/// Appends those that the filter that ran on a block lets through.
fn keep_passing(block: &Block, part: &[u32], kept: &mut Vec<u32>) -> Result<(), AllocError>
    requires { length part.now ≤ PAIRS }
    ensures { OnOk result (kept.new.items ≡ kept.old.items ++ passing block.now 0 part.now) }
{
    'indices: for (index, vertex) in part.iter().enumerate() {
        keep_where(block.passes(index), *vertex, kept)?;
    }
    Ok(())
}

/// Appends a vertex that is to be kept.
fn keep_where(keeps: bool, vertex: u32, kept: &mut Vec<u32>) -> Result<(), AllocError>
    ensures { OnOk result (kept.new.items ≡ kept.old.items ++ (if keeps then vertex ∷ [] else [])) }
{
    if keeps {
        kept.push(vertex)?;
    }
    Ok(())
}
