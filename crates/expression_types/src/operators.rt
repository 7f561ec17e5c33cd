//! Typing of operators: what signs, relations, rows and indexes make of typed operands.
ghost use Rattle.std.specs.Prelude.{◌≡◌, Some, false, IfOk};
ghost use Rattle.std.specs.Option.{option_map};
ghost use Rattle.typed_tree.specs.BoolExpressionTree.{bool_expression_tree};
ghost use Rattle.expression_types.specs.Faults.{ReportsFaults, outcome, earlier};
ghost use Rattle.expression_types.specs.Expression.{as_vector, entry_of};
ghost use Rattle.expression_types.specs.Operators.{addition_operator, compared_value, entry_value, equated_value, function_entry, given_or_fault, main_entry, multiplied, related_value};
ghost use Rattle.expression_types.specs.inside.Signs.{all_minus, all_not, signs_value};
ghost use Rattle.expression_types.specs.ValueTree.{Condition, ErrorValue, is_error, value_tree};

use crate::expression::vector_of;
use crate::fault::{Fault, TypeRule, note};
use crate::scope::{Entity, Inside};
use crate::value::{Value, reads_entry};
use std::alloc::{AllocError, Global};
use syntax::{Addition, Multiplication, Prefix, Relation};
use typed_tree::{BoolExpression, ComparisonOperator, Connective, IntExpression, Operator};

/// The operator that stands between the terms of a sum.
pub(crate) fn addition(operator: Addition) -> Operator
    ensures { result ≡ addition_operator operator }
{
    match operator {
        Addition::Plus => Operator::Add,
        Addition::Minus => Operator::Subtract,
    }
}

/// The operator that stands between the operands of a term.
pub(crate) fn multiplication(operator: Multiplication) -> Operator
    ensures { result ≡ multiplied operator }
{
    match operator {
        Multiplication::Times => Operator::Multiply,
        Multiplication::Divide => Operator::Divide,
        Multiplication::Remainder => Operator::Remainder,
    }
}

/// A comparison of two integers, or `None` where an operand is none.
fn compare(comparison: ComparisonOperator, left: Value, right: Value) -> Option<Value>
    ensures { option_map value_tree result ≡ compared_value comparison (value_tree left) (value_tree right) }
{
    if left.is_error() || right.is_error() {
        return Some(Value::Error);
    }
    let left = left.into_integer()?;
    let right = right.into_integer()?;
    Some(Value::Condition(BoolExpression::Compare(comparison, left, right)))
}

/// `==` or `!=` of two conditions or of two integers, or `None` where the operands are neither.
fn equate(
    alloc: Global,
    connective: Connective,
    comparison: ComparisonOperator,
    left: Value,
    right: Value,
) -> Result<Option<Value>, AllocError>
    ensures { IfOk result (λ v. option_map value_tree v ≡ equated_value connective comparison (value_tree left) (value_tree right)) }
{
    if !left.is_condition() {
        return Ok(compare(comparison, left, right));
    }
    if right.is_error() {
        return Ok(Some(Value::Error));
    }
    let (Some(left), Some(right)) = (left.into_condition(), right.into_condition()) else {
        return Ok(None);
    };
    let left = Box::new(alloc, left)?;
    let mut others = Vec::new(alloc);
    others.push(right)?;
    Ok(Some(Value::Condition(BoolExpression::Connect(connective, left, others))))
}

/// A relation of two values. The fault is noted where it does not take such operands.
pub(crate) fn relate(
    alloc: Global,
    operator: Relation,
    left: Value,
    right: Value,
    at: usize,
    first_fault: &mut Option<Fault>,
) -> Result<Value, AllocError>
    ensures { ReportsFaults value_tree first_fault.old first_fault.new result
        (given_or_fault at TypeRule.WrongType (related_value operator (value_tree left) (value_tree right))) }
{
    match relation(alloc, operator, left, right)? {
        Some(value) => Ok(value),
        None => Ok(fault(at, TypeRule::WrongType, first_fault)),
    }
}

/// Notes a fault of an expression.
pub(crate) fn fault(at: usize, rule: TypeRule, first_fault: &mut Option<Fault>) -> Value
    ensures value { value_tree result ≡ ErrorValue }
    ensures first_fault { first_fault.new ≡ Some (earlier first_fault.old (record { at = at; rule = rule })) }
{
    note(first_fault, at, rule);
    Value::Error
}

/// A relation of two values, or `None` where it does not take such operands.
fn relation(
    alloc: Global,
    relation: Relation,
    left: Value,
    right: Value,
) -> Result<Option<Value>, AllocError>
    ensures { IfOk result (λ v. option_map value_tree v ≡ related_value relation (value_tree left) (value_tree right)) }
{
    match relation {
        Relation::Equal => equate(
            alloc,
            Connective::Equal,
            ComparisonOperator::Equal,
            left,
            right,
        ),
        Relation::NotEqual => equate(
            alloc,
            Connective::NotEqual,
            ComparisonOperator::NotEqual,
            left,
            right,
        ),
        Relation::Less => Ok(compare(ComparisonOperator::Less, left, right)),
        Relation::LessOrEqual => Ok(compare(ComparisonOperator::LessOrEqual, left, right)),
        Relation::Greater => Ok(compare(ComparisonOperator::Greater, left, right)),
        Relation::GreaterOrEqual => Ok(compare(ComparisonOperator::GreaterOrEqual, left, right)),
    }
}

/// A value after signs, of which the last is the closest. The fault is noted where they do not take it.
pub(crate) fn after_signs(
    alloc: Global,
    signs: &[Prefix],
    value: Value,
    at: usize,
    first_fault: &mut Option<Fault>,
) -> Result<Value, AllocError>
    ensures { ReportsFaults value_tree first_fault.old first_fault.new result (signs_value at signs.now (value_tree value)) }
{
    if signs.is_empty() {
        return Ok(value);
    }
    if value.is_error() {
        return Ok(value);
    }
    let value = match value.try_into_condition() {
        Ok(c) => return inverted(alloc, signs, c, at, first_fault),
        Err(value) => value,
    };
    let Some(e) = value.into_integer() else {
        return Ok(fault(at, TypeRule::WrongType, first_fault));
    };
    if !are_all_minus(signs) {
        return Ok(fault(at, TypeRule::WrongType, first_fault));
    }
    let e = Box::new(alloc, e)?;
    Ok(Value::Integer(IntExpression::Negative(signs.len(), e)))
}

/// A condition after signs.
fn inverted(
    alloc: Global,
    signs: &[Prefix],
    c: BoolExpression,
    at: usize,
    first_fault: &mut Option<Fault>,
) -> Result<Value, AllocError>
    ensures { ReportsFaults value_tree first_fault.old first_fault.new result (signs_value at signs.now (Condition (bool_expression_tree c))) }
{
    if !are_all_not(signs) {
        return Ok(fault(at, TypeRule::WrongType, first_fault));
    }
    let c = Box::new(alloc, c)?;
    Ok(Value::Condition(BoolExpression::Not(signs.len(), c)))
}

/// Whether each sign is a `-`.
fn are_all_minus(signs: &[Prefix]) -> bool
    ensures { result ≡ all_minus signs.now }
{
    'signs: for sign in signs {
        if *sign != Prefix::Minus {
            return false;
        }
    }
    true
}

/// Whether each sign is a `not`.
fn are_all_not(signs: &[Prefix]) -> bool
    ensures { result ≡ all_not signs.now }
{
    'signs: for sign in signs {
        if *sign != Prefix::Not {
            return false;
        }
    }
    true
}

/// The entry of what a name is at an index. The fault is noted if that is no vector or no index, but not if the
/// index is faulty.
pub(crate) fn entry(
    alloc: Global,
    inside: Inside,
    at: usize,
    entity: Entity,
    index: Value,
    first_fault: &mut Option<Fault>,
) -> Result<Value, AllocError>
    ensures { ReportsFaults value_tree first_fault.old first_fault.new result (entry_of inside at entity (value_tree index)) }
{
    if index.is_error() {
        return Ok(Value::Error);
    }
    let Some(vector) = vector_of(entity, at, first_fault) else {
        return Ok(Value::Error);
    };
    match inside {
        Inside::Main => entry_in_main(alloc, at, vector, index, first_fault),
        Inside::EdgeFunction | Inside::VertexFunction | Inside::Filter => {
            Ok(entry_in_function(at, vector, index, first_fault))
        }
    }
}

/// The entry of a vector at an index of `main`.
fn entry_in_main(
    alloc: Global,
    at: usize,
    vector: usize,
    index: Value,
    first_fault: &mut Option<Fault>,
) -> Result<Value, AllocError>
    requires { is_error (value_tree index) ≡ false }
    ensures { ReportsFaults value_tree first_fault.old first_fault.new result (main_entry at vector (value_tree index)) }
{
    let Some(e) = index.into_integer() else {
        return Ok(fault(at, TypeRule::WrongType, first_fault));
    };
    if reads_entry(&e) {
        return Ok(fault(at, TypeRule::WrongIndex, first_fault));
    }
    let e = Box::new(alloc, e)?;
    Ok(Value::Integer(IntExpression::Entry(vector, e)))
}

/// The entry of a vector at an index of a function.
fn entry_in_function(
    at: usize,
    vector: usize,
    index: Value,
    first_fault: &mut Option<Fault>,
) -> Value
    requires { is_error (value_tree index) ≡ false }
    ensures { outcome first_fault.old (function_entry at vector (value_tree index)) ≡ (value_tree result, first_fault.new) }
{
    match index.vertex() {
        Some(endpoint) => Value::Integer(IntExpression::EntryAt(vector, endpoint)),
        None => fault(at, TypeRule::WrongIndex, first_fault),
    }
}
