//! `apply` of a vertex function.
ghost use Rattle.std.specs.Prelude.{◌≡◌, OnOk, map};
ghost use Rattle.typed_tree.specs.FunctionStatementTree.{function_tree, function_statements_tree};
ghost use Rattle.plain_run.specs.inside.Seen.{state_of};
ghost use Rattle.algorithm_meaning.specs.VertexSets.{after_apply_vertex, after_vertex, after_vertices};

use crate::evaluate::members_at;
use crate::function::{FunctionFrame, begin, new_frame, run_steps, steps_at};
use crate::state::InterpreterState;
use algorithm_meaning::{SetBinding, Writing};
use std::alloc::{AllocError, Global};
use typed_tree::{Function, FunctionStatement, Sequence};
use weighted_edges::UNIT_WEIGHT;

/// Runs the function at an index for each member of a set alone.
pub(crate) fn apply_vertex(
    alloc: Global,
    functions: &[Function],
    set: usize,
    function: usize,
    state: &mut InterpreterState,
) -> Result<(), AllocError>
    ensures meaning { OnOk result (state_of state.new ≡ after_apply_vertex (map function_tree functions.now) set function (state_of state.old)) }
    ensures turns { state.new.turns ≡ state.old.turns }
{
    let steps = steps_at(functions, function);
    let members = members_at(&state.sets, set);
    run_for_vertices(alloc, steps, &state.sets, members, &mut state.vectors)
}

/// Runs statements for each of these vertices, one vertex after the other.
fn run_for_vertices(
    alloc: Global,
    steps: &[FunctionStatement],
    sets: &[SetBinding],
    vertices: &[u32],
    vectors: &mut Vec<Sequence<i64>>,
) -> Result<(), AllocError>
    ensures { OnOk result (vectors.new.items ≡ after_vertices (function_statements_tree steps.now) sets.now vertices.now vectors.old.items) }
{
    let mut frame = new_frame(alloc);
    'vertices: for vertex in vertices {
        run_for_vertex(steps, sets, *vertex, vectors, &mut frame)?;
    }
    Ok(())
}

fn run_for_vertex(
    steps: &[FunctionStatement],
    sets: &[SetBinding],
    vertex: u32,
    vectors: &mut Vec<Sequence<i64>>,
    frame: &mut FunctionFrame,
) -> Result<(), AllocError>
    ensures { OnOk result (vectors.new.items ≡ after_vertex (function_statements_tree steps.now) sets.now vertex vectors.old.items) }
{
    begin(frame, vertex, vertex, UNIT_WEIGHT);
    run_steps(steps, Writing::AtOnce, sets, vectors, frame)?;
    Ok(())
}
