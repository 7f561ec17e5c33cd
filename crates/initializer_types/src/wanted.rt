//! Conversions of values to the type that their place wants: an int, a bool, a set, an index.
ghost use Rattle.std.specs.Prelude.{◌≡◌};
ghost use Rattle.std.specs.Option.{option_map};
ghost use Rattle.typed_tree.specs.BoolExpressionTree.{bool_expression_tree};
ghost use Rattle.typed_tree.specs.IntExpressionTree.{int_expression_tree};
ghost use Rattle.expression_types.specs.Faults.{ReportsFaults, outcome};
ghost use Rattle.expression_types.specs.ValueTree.{value_tree};
ghost use Rattle.initializer_types.specs.Checker.{condition_wanted, as_index, integer_wanted, as_members, condition_in, integer_in};

use expression_types::{Fault, Scope, TypeRule, Value, note, reads_entry, type_expression};
use std::alloc::{AllocError, Global};
use syntax::Expression;
use typed_tree::{BoolExpression, IntExpression, SetValue};

/// The integer that a value reads as; a vertex reads as its number. If it is none, the fault is noted.
pub fn integer_of(at: usize, value: Value, first_fault: &mut Option<Fault>) -> IntExpression
    ensures { outcome first_fault.old (integer_wanted at (value_tree value)) ≡ (int_expression_tree result, first_fault.new) }
{
    if value.is_error() {
        return IntExpression::Number(0);
    }
    match value.into_integer() {
        Some(e) => e,
        None => {
            note(first_fault, at, TypeRule::WrongType);
            IntExpression::Number(0)
        }
    }
}

/// The condition that a value is. The fault is noted where it is none.
pub(crate) fn condition_of(
    at: usize,
    value: Value,
    first_fault: &mut Option<Fault>,
) -> BoolExpression
    ensures { outcome first_fault.old (condition_wanted at (value_tree value)) ≡ (bool_expression_tree result, first_fault.new) }
{
    if value.is_error() {
        return BoolExpression::Literal(false);
    }
    match value.into_condition() {
        Some(c) => c,
        None => {
            note(first_fault, at, TypeRule::WrongType);
            BoolExpression::Literal(false)
        }
    }
}

/// The members of the set that a value is. The fault is noted where it is none.
pub(crate) fn members_of(at: usize, value: Value, first_fault: &mut Option<Fault>) -> SetValue
    ensures { outcome first_fault.old (as_members at (value_tree value)) ≡ (result, first_fault.new) }
{
    if value.is_error() {
        return SetValue::Empty;
    }
    match value.set() {
        Some(slot) => SetValue::Copy(slot),
        None => {
            note(first_fault, at, TypeRule::WrongType);
            SetValue::Empty
        }
    }
}

/// The index of an entry in `main` that a value is. If it is none, the result is `None` and the fault is noted; a value
/// with a faulty part has no further fault.
pub fn index_of(at: usize, value: Value, first_fault: &mut Option<Fault>) -> Option<IntExpression>
    ensures { outcome first_fault.old (as_index at (value_tree value)) ≡ (option_map int_expression_tree result, first_fault.new) }
{
    if value.is_error() {
        return None;
    }
    let Some(e) = value.into_integer() else {
        note(first_fault, at, TypeRule::WrongType);
        return None;
    };
    if reads_entry(&e) {
        note(first_fault, at, TypeRule::WrongIndex);
        return None;
    }
    Some(e)
}

/// The integer that an expression is. If it is none, the fault is noted.
///
/// The error means that memory ran out.
pub fn integer(
    alloc: Global,
    scope: &Scope,
    at: usize,
    expression: &Expression,
    first_fault: &mut Option<Fault>,
) -> Result<IntExpression, AllocError>
    ensures { ReportsFaults int_expression_tree first_fault.old first_fault.new result (integer_in scope.now at expression.now) }
{
    let value = type_expression(alloc, scope, at, expression, first_fault)?;
    Ok(integer_of(at, value, first_fault))
}

/// The condition that an expression is. If it is none, the fault is noted.
///
/// The error means that memory ran out.
pub fn condition(
    alloc: Global,
    scope: &Scope,
    at: usize,
    expression: &Expression,
    first_fault: &mut Option<Fault>,
) -> Result<BoolExpression, AllocError>
    ensures { ReportsFaults bool_expression_tree first_fault.old first_fault.new result (condition_in scope.now at expression.now) }
{
    let value = type_expression(alloc, scope, at, expression, first_fault)?;
    Ok(condition_of(at, value, first_fault))
}
