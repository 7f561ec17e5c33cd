//! Typing of expressions, one function for each level of the grammar.
ghost use Rattle.std.specs.Prelude.{◌≡◌};
ghost use Rattle.syntax.specs.inside.ExpressionViews.{comparison_of, conjunction_of, sum_of, term_of};
ghost use Rattle.syntax.specs.ExpressionViews.{primary_of, unary_of};
ghost use Rattle.expression_types.specs.Expression.{as_size, as_vector, comparison_value, conjunction_value, index_lacks_value, index_value, lacks_value, name_value, no_vertex, primary_value, size_value, sum_value, term_value, unary_value, used_name, value_of, vector_index};
ghost use Rattle.expression_types.specs.Faults.{ReportsFaults, outcome};
ghost use Rattle.expression_types.specs.ValueTree.{value_tree};

use crate::bare_name::bare_name;
use crate::fault::{Fault, TypeRule, note};
use crate::operands::{Conditions, Integers};
use crate::operators::{addition, after_signs, entry, fault, multiplication, relate};
use crate::scope::{Entity, Inside, Scope};
use crate::value::{Value, has_value, set_named, value_named, vector_named};
use std::alloc::{AllocError, Global};
use syntax::{Comparison, Conjunction, Expression, Name, Primary, Sum, Term, Unary};
use typed_tree::{BoolExpression, Connective, IntExpression};

/// The typed tree of an expression that is in a statement or declaration whose first token is at this
/// offset. Its faults are noted.
#[cycle(types)]
pub fn type_expression(
    alloc: Global,
    scope: &Scope,
    at: usize,
    expression: &Expression,
    first_fault: &mut Option<Fault>,
) -> Result<Value, AllocError>
    ensures { ReportsFaults value_tree first_fault.old first_fault.new result (value_of scope.now at expression.now) }
{
    let first = conjunction(alloc, scope, at, &expression.first, first_fault)?;
    if expression.more.is_empty() {
        return Ok(first);
    }
    let mut operands = Conditions::first(alloc, first);
    'operands: for operand in &expression.more {
        let value = conjunction(alloc, scope, at, operand, first_fault)?;
        operands = operands.beside(value)?;
    }
    operands.group(alloc, Connective::Or, at, first_fault)
}

#[cycle(types)]
fn conjunction(
    alloc: Global,
    scope: &Scope,
    at: usize,
    conjunction: &Conjunction,
    first_fault: &mut Option<Fault>,
) -> Result<Value, AllocError>
    ensures { ReportsFaults value_tree first_fault.old first_fault.new result (conjunction_value scope.now at (conjunction_of conjunction.now)) }
{
    let first = comparison(alloc, scope, at, &conjunction.first, first_fault)?;
    if conjunction.more.is_empty() {
        return Ok(first);
    }
    let mut operands = Conditions::first(alloc, first);
    'operands: for operand in &conjunction.more {
        let value = comparison(alloc, scope, at, operand, first_fault)?;
        operands = operands.beside(value)?;
    }
    operands.group(alloc, Connective::And, at, first_fault)
}

#[cycle(types)]
fn comparison(
    alloc: Global,
    scope: &Scope,
    at: usize,
    comparison: &Comparison,
    first_fault: &mut Option<Fault>,
) -> Result<Value, AllocError>
    ensures { ReportsFaults value_tree first_fault.old first_fault.new result (comparison_value scope.now at (comparison_of comparison.now)) }
{
    let left = sum(alloc, scope, at, &comparison.left, first_fault)?;
    match &comparison.right {
        None => Ok(left),
        Some((relation, operand)) => {
            let right = sum(alloc, scope, at, operand, first_fault)?;
            relate(alloc, *relation, left, right, at, first_fault)
        }
    }
}

#[cycle(types)]
fn sum(
    alloc: Global,
    scope: &Scope,
    at: usize,
    sum: &Sum,
    first_fault: &mut Option<Fault>,
) -> Result<Value, AllocError>
    ensures { ReportsFaults value_tree first_fault.old first_fault.new result (sum_value scope.now at (sum_of sum.now)) }
{
    let first = term(alloc, scope, at, &sum.first, first_fault)?;
    if sum.more.is_empty() {
        return Ok(first);
    }
    let mut operands = Integers::first(alloc, first);
    'operands: for (operator, operand) in &sum.more {
        let value = term(alloc, scope, at, operand, first_fault)?;
        operands = operands.beside(addition(*operator), value)?;
    }
    operands.group(alloc, at, first_fault)
}

#[cycle(types)]
fn term(
    alloc: Global,
    scope: &Scope,
    at: usize,
    term: &Term,
    first_fault: &mut Option<Fault>,
) -> Result<Value, AllocError>
    ensures { ReportsFaults value_tree first_fault.old first_fault.new result (term_value scope.now at (term_of term.now)) }
{
    let first = unary(alloc, scope, at, &term.first, first_fault)?;
    if term.more.is_empty() {
        return Ok(first);
    }
    let mut operands = Integers::first(alloc, first);
    'operands: for (operator, operand) in &term.more {
        let value = unary(alloc, scope, at, operand, first_fault)?;
        operands = operands.beside(multiplication(*operator), value)?;
    }
    operands.group(alloc, at, first_fault)
}

#[cycle(types)]
fn unary(
    alloc: Global,
    scope: &Scope,
    at: usize,
    unary: &Unary,
    first_fault: &mut Option<Fault>,
) -> Result<Value, AllocError>
    ensures { ReportsFaults value_tree first_fault.old first_fault.new result (unary_value scope.now at (unary_of unary.now)) }
{
    let value = primary(alloc, scope, at, &unary.primary, first_fault)?;
    after_signs(alloc, &unary.signs, value, at, first_fault)
}

#[cycle(types)]
fn primary(
    alloc: Global,
    scope: &Scope,
    at: usize,
    primary: &Primary,
    first_fault: &mut Option<Fault>,
) -> Result<Value, AllocError>
    ensures { ReportsFaults value_tree first_fault.old first_fault.new result (primary_value scope.now at (primary_of primary.now)) }
{
    match primary {
        Primary::Number(n) => Ok(Value::Integer(IntExpression::Number(*n))),
        Primary::Truth(b) => Ok(Value::Condition(BoolExpression::Literal(*b))),
        Primary::Variable(name) => Ok(variable(scope, at, name, first_fault)),
        Primary::Entry(name, index) => {
            let entity = entity(scope, name, first_fault);
            if is_name_without_value(scope, index) {
                return entry(
                    alloc,
                    scope.inside(),
                    at,
                    entity,
                    other_index(),
                    first_fault,
                );
            }
            let index = type_expression(alloc, scope, at, index, first_fault)?;
            entry(alloc, scope.inside(), at, entity, index, first_fault)
        }
        Primary::Size(name) => Ok(size(scope, at, name, first_fault)),
        Primary::Parentheses(inside) => type_expression(alloc, scope, at, inside, first_fault),
    }
}

/// The typed tree of an index. In a function of a user the bare name of the edges, a vector or a function has no
/// fault of its own there: it is an index that is no vertex.
pub fn type_index(
    alloc: Global,
    scope: &Scope,
    at: usize,
    index: &Expression,
    first_fault: &mut Option<Fault>,
) -> Result<Value, AllocError>
    ensures { ReportsFaults value_tree first_fault.old first_fault.new result (index_value scope.now at index.now) }
{
    if is_name_without_value(scope, index) {
        return Ok(other_index());
    }
    type_expression(alloc, scope, at, index, first_fault)
}

/// Whether an index of a function of a user is the bare name of something without a value.
fn is_name_without_value(scope: &Scope, index: &Expression) -> bool
    ensures { result ≡ index_lacks_value scope.now.inside scope.now index.now }
{
    match scope.inside() {
        Inside::Main => false,
        Inside::EdgeFunction | Inside::VertexFunction | Inside::Filter => match bare_name(index) {
            Some(name) => is_without_value(scope.look_up(name.bytes())),
            None => false,
        },
    }
}

/// Whether a name is visible and has no value.
fn is_without_value(entity: Option<Entity>) -> bool
    ensures { result ≡ lacks_value entity }
{
    match entity {
        Some(entity) => !has_value(entity),
        None => false,
    }
}

/// An index that is no vertex.
fn other_index() -> Value
    ensures { value_tree result ≡ no_vertex }
{
    Value::Condition(BoolExpression::Literal(false))
}

/// What a used name is. Where it is not visible the fault is noted, and then it is `Error`.
pub fn entity(scope: &Scope, name: &Name, first_fault: &mut Option<Fault>) -> Entity
    ensures { outcome first_fault.old (used_name scope.now name.now) ≡ (result, first_fault.new) }
{
    match scope.look_up(name.bytes()) {
        Some(entity) => entity,
        None => {
            note(first_fault, name.at(), TypeRule::UnknownName);
            Entity::Error
        }
    }
}

/// The value of a name.
fn variable(scope: &Scope, at: usize, name: &Name, first_fault: &mut Option<Fault>) -> Value
    ensures { outcome first_fault.old (name_value scope.now at name.now) ≡ (value_tree result, first_fault.new) }
{
    match value_named(entity(scope, name, first_fault)) {
        Some(value) => value,
        None => fault(at, TypeRule::WrongType, first_fault),
    }
}

/// The index of a vector, or `None` where the name is none or its declaration is faulty.
pub fn vector(
    scope: &Scope,
    at: usize,
    name: &Name,
    first_fault: &mut Option<Fault>,
) -> Option<usize>
    ensures { outcome first_fault.old (vector_index scope.now at name.now) ≡ (result, first_fault.new) }
{
    let entity = entity(scope, name, first_fault);
    vector_of(entity, at, first_fault)
}

/// The index of the vector that an entity is.
pub(crate) fn vector_of(entity: Entity, at: usize, first_fault: &mut Option<Fault>) -> Option<usize>
    ensures { outcome first_fault.old (as_vector at entity) ≡ (result, first_fault.new) }
{
    if entity == Entity::Error {
        return None;
    }
    let index = vector_named(entity);
    if index.is_none() {
        note(first_fault, at, TypeRule::WrongType);
    }
    index
}

/// How many members a vertex set has.
fn size(scope: &Scope, at: usize, name: &Name, first_fault: &mut Option<Fault>) -> Value
    ensures { outcome first_fault.old (size_value scope.now at name.now) ≡ (value_tree result, first_fault.new) }
{
    let entity = entity(scope, name, first_fault);
    size_of(entity, at, first_fault)
}

/// How many members the vertex set that an entity is has.
fn size_of(entity: Entity, at: usize, first_fault: &mut Option<Fault>) -> Value
    ensures { outcome first_fault.old (as_size at entity) ≡ (value_tree result, first_fault.new) }
{
    if entity == Entity::Error {
        return Value::Error;
    }
    match set_named(entity) {
        Some(slot) => Value::Integer(IntExpression::SetSize(slot)),
        None => fault(at, TypeRule::WrongType, first_fault),
    }
}
