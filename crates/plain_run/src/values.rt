//! Values that statements of `main` read, and the variables that blocks and loops bring.
ghost use Rattle.std.specs.Prelude.{◌≡◌, ◌≤◌, OnOk, Some, int_lt};
ghost use Rattle.typed_tree.specs.IntExpressionTree.{int_expression_tree};
ghost use Rattle.typed_tree.specs.BoolExpressionTree.{bool_expression_tree};
ghost use Rattle.algorithm_meaning.specs.declared.outcome.End.TheVariants.{Fault};
ghost use Rattle.algorithm_meaning.specs.Statements.{with_new_integer};
ghost use Rattle.algorithm_meaning.specs.Loop.{bounds_in, depth_of, forget_beyond, next_of};
ghost use Rattle.plain_run.specs.inside.Seen.{state_of};
ghost use Rattle.algorithm_meaning.specs.Stand.{bool_value_in, int_value_in, vertex_in};

use crate::evaluate::{condition_is_inside, evaluate, holds, is_inside};
use crate::state::InterpreterState;
use algorithm_meaning::{Depth, End, LoopCounter, arithmetic_of};
use refusal_numbers::OUTSIDE;
use std::alloc::AllocError;
use typed_tree::{BoolExpression, IntExpression, Operator};

/// The end of a run by a fault of the statement of this number.
pub(crate) fn fault(number: u64) -> Option<End>
    ensures { result ≡ Some (Fault 401 number) }
{
    Some(End::Fault(OUTSIDE, number))
}

/// The value of a number, or `None` where an index in it is no vertex.
pub(crate) fn number_of(e: &IntExpression, vertices: u32, state: &InterpreterState) -> Option<i64>
    ensures { result ≡ int_value_in vertices (int_expression_tree e.now) (state_of state.now) }
{
    if !is_inside(e, vertices, &state.vectors, &state.sets, &state.scope) {
        return None;
    }
    Some(evaluate(e, &state.vectors, &state.sets, &state.scope))
}

/// The vertex that an index is, or `None` where it or an index in it is none.
pub(crate) fn vertex_of(
    index: &IntExpression,
    vertices: u32,
    state: &InterpreterState,
) -> Option<u32>
    ensures { result ≡ vertex_in vertices (int_expression_tree index.now) (state_of state.now) }
{
    let number = number_of(index, vertices, state)?;
    let vertex = u32::try_from(number).ok()?;
    if vertex < vertices {
        Some(vertex)
    } else {
        None
    }
}

/// A truth value, or `None` where an index in it is no vertex.
pub(crate) fn decide(c: &BoolExpression, vertices: u32, state: &InterpreterState) -> Option<bool>
    ensures { result ≡ bool_value_in vertices (bool_expression_tree c.now) (state_of state.now) }
{
    if !condition_is_inside(c, vertices, &state.vectors, &state.sets, &state.scope) {
        return None;
    }
    Some(holds(c, &state.vectors, &state.sets, &state.scope))
}

/// The two bounds of a `for`, or `None` where an index in them is no vertex.
pub(crate) fn counter_of(
    first: &IntExpression,
    end: &IntExpression,
    vertices: u32,
    state: &InterpreterState,
) -> Option<LoopCounter>
    ensures { result ≡ bounds_in vertices (int_expression_tree first.now) (int_expression_tree end.now) (state_of state.now) }
{
    let next = number_of(first, vertices, state)?;
    let end = number_of(end, vertices, state)?;
    Some(LoopCounter { next, end })
}

/// Whether there is a next value.
pub(crate) fn is_below(counter: &LoopCounter) -> bool
    ensures { result ≡ int_lt counter.now.next counter.now.end }
{
    counter.next < counter.end
}

/// Continues to the next value.
pub(crate) fn go_on(counter: &mut LoopCounter)
    ensures { counter.new ≡ next_of counter.old }
{
    counter.next = arithmetic_of(Operator::Add, counter.next, 1);
}

/// The variables of a `for`: its name and, after it, its bound.
pub(crate) fn push_counter(
    counter: &LoopCounter,
    state: &mut InterpreterState,
) -> Result<(), AllocError>
    ensures pushed { OnOk result (state_of state.new ≡ with_new_integer (with_new_integer (state_of state.old) counter.now.next) counter.now.end) }
    ensures turns { state.new.turns ≡ state.old.turns }
{
    state.scope.integers.push(counter.next)?;
    state.scope.integers.push(counter.end)?;
    Ok(())
}

/// How many variables and sets are visible.
pub(crate) fn depth(state: &InterpreterState) -> Depth
    ensures { result ≡ depth_of (state_of state.now) }
{
    Depth {
        integers: state.scope.integers.len(),
        conditions: state.scope.conditions.len(),
        sets: state.sets.len(),
    }
}

/// Forgets the variables and sets that are beyond this.
pub(crate) fn forget(depth: Depth, state: &mut InterpreterState)
    ensures forgotten { state_of state.new ≡ forget_beyond depth (state_of state.old) }
    ensures turns { state.new.turns ≡ state.old.turns }
{
    state.scope.integers.truncate(depth.integers);
    state.scope.conditions.truncate(depth.conditions);
    state.sets.truncate(depth.sets);
}
