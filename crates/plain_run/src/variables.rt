//! Variables, in functions and in `main`, and the statements of `main` on them.
//!
//! Each is called with its statement's number and the number of vertices, and answers how the run ended if it
//! did, and then it has changed nothing.
ghost use Rattle.std.specs.Prelude.{◌≡◌, IfOk, slice_set};
ghost use Rattle.typed_tree.specs.IntExpressionTree.{int_expression_tree};
ghost use Rattle.typed_tree.specs.BoolExpressionTree.{bool_expression_tree};
ghost use Rattle.plain_run.specs.inside.Seen.{stand, state_of};
ghost use Rattle.algorithm_meaning.specs.Statements.{after_declare_bool, after_declare_int, after_reduce_int, after_set_bool, after_set_int};

use crate::evaluate::integer_at;
use crate::state::{InterpreterState, StatementContext};
use crate::values::{decide, fault, number_of};
use algorithm_meaning::{End, reduce};
use apply_options::Reduction;
use std::alloc::AllocError;
use typed_tree::{BoolExpression, IntExpression};

pub(crate) fn declare_int(
    e: &IntExpression,
    context: StatementContext,
    state: &mut InterpreterState,
) -> Result<Option<End>, AllocError>
    ensures meaning { IfOk result (λ end. stand end (state_of state.new)
        ≡ after_declare_int context.vertices context.number (int_expression_tree e.now) (state_of state.old)) }
    ensures turns { state.new.turns ≡ state.old.turns }
{
    let Some(value) = number_of(e, context.vertices, state) else {
        return Ok(fault(context.number));
    };
    state.scope.integers.push(value)?;
    Ok(None)
}

pub(crate) fn declare_bool(
    c: &BoolExpression,
    context: StatementContext,
    state: &mut InterpreterState,
) -> Result<Option<End>, AllocError>
    ensures meaning { IfOk result (λ end. stand end (state_of state.new)
        ≡ after_declare_bool context.vertices context.number (bool_expression_tree c.now) (state_of state.old)) }
    ensures turns { state.new.turns ≡ state.old.turns }
{
    let Some(value) = decide(c, context.vertices, state) else {
        return Ok(fault(context.number));
    };
    state.scope.conditions.push(value)?;
    Ok(None)
}

pub(crate) fn set_int(
    index: usize,
    e: &IntExpression,
    context: StatementContext,
    state: &mut InterpreterState,
) -> Option<End>
    ensures meaning { stand result (state_of state.new)
        ≡ after_set_int context.vertices context.number index (int_expression_tree e.now) (state_of state.old) }
    ensures turns { state.new.turns ≡ state.old.turns }
{
    let Some(value) = number_of(e, context.vertices, state) else {
        return fault(context.number);
    };
    put_integer(index, value, &mut state.scope.integers);
    None
}

pub(crate) fn set_bool(
    index: usize,
    c: &BoolExpression,
    context: StatementContext,
    state: &mut InterpreterState,
) -> Option<End>
    ensures meaning { stand result (state_of state.new)
        ≡ after_set_bool context.vertices context.number index (bool_expression_tree c.now) (state_of state.old) }
    ensures turns { state.new.turns ≡ state.old.turns }
{
    let Some(value) = decide(c, context.vertices, state) else {
        return fault(context.number);
    };
    put_condition(index, value, &mut state.scope.conditions);
    None
}

pub(crate) fn reduce_int(
    index: usize,
    reduction: Reduction,
    e: &IntExpression,
    context: StatementContext,
    state: &mut InterpreterState,
) -> Option<End>
    ensures meaning { stand result (state_of state.new)
        ≡ after_reduce_int context.vertices context.number index reduction (int_expression_tree e.now) (state_of state.old) }
    ensures turns { state.new.turns ≡ state.old.turns }
{
    let Some(given) = number_of(e, context.vertices, state) else {
        return fault(context.number);
    };
    let value = reduce(reduction, integer_at(&state.scope, index), given);
    put_integer(index, value, &mut state.scope.integers);
    None
}

/// Puts a value at an index; where there is no such index nothing is changed.
pub(crate) fn put_integer(index: usize, value: i64, integers: &mut Vec<i64>)
    ensures { integers.new.items ≡ slice_set integers.old.items index value }
{
    if index < integers.len() {
        integers[index] = value;
    }
}

/// Puts a value at an index; where there is no such index nothing is changed.
pub(crate) fn put_condition(index: usize, value: bool, conditions: &mut Vec<bool>)
    ensures { conditions.new.items ≡ slice_set conditions.old.items index value }
{
    if index < conditions.len() {
        conditions[index] = value;
    }
}
