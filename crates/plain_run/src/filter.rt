//! Filters, and the statement `filter`.
ghost use Rattle.std.specs.Prelude.{◌≡◌, false, IfOk, OnOk, map, slice_index_or};
ghost use Rattle.std.specs.List.{filter};
ghost use Rattle.typed_tree.specs.FunctionStatementTree.{function_tree, function_statements_tree};
ghost use Rattle.algorithm_meaning.specs.Function.{filtered, lets_through, result_of};

use crate::evaluate::condition_at;
use crate::function::{FunctionFrame, begin_filter, new_frame, run_steps, steps_at};
use algorithm_meaning::{SetBinding, Writing};
use std::alloc::{AllocError, Global};
use typed_tree::{Function, FunctionStatement, Sequence};

/// Of these vertices those that the filter at an index lets through.
pub(crate) fn filter_members(
    alloc: Global,
    filters: &[Function],
    function: usize,
    sets: &[SetBinding],
    vectors: &mut Vec<Sequence<i64>>,
    vertices: &[u32],
) -> Result<Vec<u32>, AllocError>
    ensures members { IfOk result (λ v. v.items ≡ filtered (map function_tree filters.now) function sets.now vectors.old.items vertices.now) }
    ensures vectors { OnOk result (vectors.new.items ≡ vectors.old.items) }
{
    let steps = steps_at(filters, function);
    let mut frame = new_frame(alloc);
    let mut kept = Vec::new(alloc);
    'vertices: for vertex in vertices {
        if filter_passes(steps, sets, *vertex, vectors, &mut frame)? {
            kept.push(*vertex)?;
        }
    }
    Ok(kept)
}

/// The result of a filter's statements at a vertex.
pub(crate) fn filter_passes(
    steps: &[FunctionStatement],
    sets: &[SetBinding],
    vertex: u32,
    vectors: &mut Vec<Sequence<i64>>,
    frame: &mut FunctionFrame,
) -> Result<bool, AllocError>
    ensures passes { IfOk result (λ b. b ≡ result_of (function_statements_tree steps.now) sets.now vectors.old.items vertex) }
    ensures vectors { OnOk result (vectors.new.items ≡ vectors.old.items) }
{
    begin_filter(frame, vertex)?;
    run_steps(steps, Writing::Collected, sets, vectors, frame)?;
    Ok(condition_at(&frame.scope, 0))
}
