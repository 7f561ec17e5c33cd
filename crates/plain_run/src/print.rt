//! Print statements: the text that a run writes.
ghost use Rattle.std.specs.Prelude.{◌≡◌, ◌++◌, IfOk, OnOk};
ghost use Rattle.typed_tree.specs.IntExpressionTree.{int_expression_tree};
ghost use Rattle.typed_tree.specs.BoolExpressionTree.{bool_expression_tree};
ghost use Rattle.algorithm_meaning.specs.Statements.{after_print_bool, after_print_int, condition_line, integer_line};
ghost use Rattle.plain_run.specs.inside.Seen.{stand, state_of};

use crate::state::{InterpreterState, StatementContext};
use crate::values::{decide, fault, number_of};
use algorithm_meaning::End;
use decimal::push_integer;
use std::alloc::AllocError;
use typed_tree::{BoolExpression, IntExpression};

pub(crate) fn print_int_in(
    e: &IntExpression,
    context: StatementContext,
    state: &mut InterpreterState,
) -> Result<Option<End>, AllocError>
    ensures meaning { IfOk result (λ end. stand end (state_of state.new)
        ≡ after_print_int context.vertices context.number (int_expression_tree e.now) (state_of state.old)) }
    ensures turns { state.new.turns ≡ state.old.turns }
{
    let Some(printed) = number_of(e, context.vertices, state) else {
        return Ok(fault(context.number));
    };
    print_int(&mut state.text, printed)?;
    Ok(None)
}

pub(crate) fn print_bool_in(
    c: &BoolExpression,
    context: StatementContext,
    state: &mut InterpreterState,
) -> Result<Option<End>, AllocError>
    ensures meaning { IfOk result (λ end. stand end (state_of state.new)
        ≡ after_print_bool context.vertices context.number (bool_expression_tree c.now) (state_of state.old)) }
    ensures turns { state.new.turns ≡ state.old.turns }
{
    let Some(value) = decide(c, context.vertices, state) else {
        return Ok(fault(context.number));
    };
    print_bool(&mut state.text, value)?;
    Ok(None)
}

/// Writes a number in decimal digits, `-` before it where it is negative, and a line feed.
fn print_int(text: &mut Vec<u8>, n: i64) -> Result<(), AllocError>
    ensures { OnOk result (text.new.items ≡ text.old.items ++ integer_line n) }
{
    push_integer(text, n)?;
    text.push(b'\n')?;
    Ok(())
}

/// Writes `true` or `false` and a line feed.
fn print_bool(text: &mut Vec<u8>, b: bool) -> Result<(), AllocError>
    ensures { OnOk result (text.new.items ≡ text.old.items ++ condition_line b) }
{
    if b {
        text.extend_from_slice(b"true\n")
    } else {
        text.extend_from_slice(b"false\n")
    }
}
