//! Values: typed expressions, and those that names have alone.
ghost use Rattle.std.specs.Prelude.{◌≡◌, IfErr, IfOk, false, is_some};
ghost use Rattle.std.specs.Option.{option_map};
ghost use Rattle.typed_tree.specs.BoolExpressionTree.{bool_expression_tree};
ghost use Rattle.typed_tree.specs.IntExpressionTree.{int_expression_tree};
ghost use Rattle.expression_types.specs.ValueTree.{Condition, as_condition, as_integer, as_set, as_vertex, is_condition as condition, is_error as error, entity_set, named_value, named_vector, reads_entry as entry_is_read, value_tree};
ghost use Rattle.expression_types.specs.inside.ValueTree.{operands_read_entry};

use crate::scope::Entity;
use typed_tree::{BoolExpression, Endpoint, IntExpression, Operand, VarRef};

/// A typed expression.
pub enum Value {
    Integer(IntExpression),
    Condition(BoolExpression),
    /// A vertex that the function works on.
    Vertex(Endpoint),
    /// A visible vertex set.
    Set(VarRef),
    /// A part of it is faulty.
    Error,
}

impl Drop for Value {
    fn drop(self) {
        match self {
            Value::Integer(_) | Value::Condition(_) => {}
            Value::Vertex(_) | Value::Set(_) | Value::Error => {}
        }
    }
}

impl Value {
    /// Whether a part of it is faulty.
    pub fn is_error(&self) -> bool
        ensures { result ≡ error (value_tree self.now) }
    {
        match self {
            Value::Error => true,
            _ => false,
        }
    }

    /// Whether it is a condition.
    pub fn is_condition(&self) -> bool
        ensures { result ≡ condition (value_tree self.now) }
    {
        match self {
            Value::Condition(_) => true,
            _ => false,
        }
    }

    /// The vertex of a function that it is, or `None` where it is none.
    pub fn vertex(&self) -> Option<Endpoint>
        ensures { result ≡ as_vertex (value_tree self.now) }
    {
        match self {
            Value::Vertex(at) => Some(*at),
            _ => None,
        }
    }

    /// The vertex set that it is, or `None` where it is none.
    pub fn set(&self) -> Option<VarRef>
        ensures { result ≡ as_set (value_tree self.now) }
    {
        match self {
            Value::Set(slot) => Some(*slot),
            _ => None,
        }
    }

    /// The integer that the value reads as, or `None` where it is none; a vertex reads as its number.
    pub fn into_integer(self) -> Option<IntExpression>
        ensures { option_map int_expression_tree result ≡ as_integer (value_tree self) }
    {
        match self {
            Value::Integer(e) => Some(e),
            Value::Vertex(at) => Some(IntExpression::Parameter(at)),
            Value::Condition(_) | Value::Set(_) | Value::Error => None,
        }
    }

    /// The condition that the value is. If it is none, the value itself is the error.
    pub(crate) fn try_into_condition(self) -> Result<BoolExpression, Value>
        ensures condition { IfOk result (λ c. value_tree self ≡ Condition (bool_expression_tree c)) }
        ensures other { IfErr result (λ v. (value_tree v ≡ value_tree self) × (condition (value_tree v) ≡ false)) }
    {
        match self {
            Value::Condition(c) => Ok(c),
            other => Err(other),
        }
    }

    /// The condition that the value is, or `None` where it is none.
    pub fn into_condition(self) -> Option<BoolExpression>
        ensures { option_map bool_expression_tree result ≡ as_condition (value_tree self) }
    {
        match self {
            Value::Condition(c) => Some(c),
            Value::Integer(_) | Value::Vertex(_) | Value::Set(_) | Value::Error => None,
        }
    }
}

/// The value that a name has alone, or `None` where it has none.
pub(crate) fn value_named(entity: Entity) -> Option<Value>
    ensures { option_map value_tree result ≡ named_value entity }
{
    match entity {
        Entity::ConstantSet(slot) | Entity::SetVariable(slot) => Some(Value::Set(slot)),
        Entity::IntConstant(name, n) => Some(Value::Integer(IntExpression::Constant(name, n))),
        Entity::BoolConstant(name, b) => Some(Value::Condition(BoolExpression::Constant(name, b))),
        Entity::IntVariable(slot) | Entity::LoopVariable(slot) => {
            Some(Value::Integer(IntExpression::Variable(slot)))
        }
        Entity::BoolVariable(slot) => Some(Value::Condition(BoolExpression::Variable(slot))),
        Entity::Parameter(at) => Some(Value::Vertex(at)),
        Entity::Weight => Some(Value::Integer(IntExpression::Weight)),
        Entity::Error => Some(Value::Error),
        _ => None,
    }
}

/// Whether a name has a value alone.
pub(crate) fn has_value(entity: Entity) -> bool
    ensures { result ≡ is_some (named_value entity) }
{
    match entity {
        Entity::Edges(_)
        | Entity::Vector(_)
        | Entity::EdgeFunction(_, _)
        | Entity::VertexFunction(_)
        | Entity::Filter(_)
        | Entity::Main => false,
        _ => true,
    }
}

/// The vector that a name is, or `None` where it is none.
pub fn vector_named(entity: Entity) -> Option<usize>
    ensures { result ≡ named_vector entity }
{
    match entity {
        Entity::Vector(index) => Some(index),
        _ => None,
    }
}

/// The vertex set that a name is, or `None` where it is none.
pub fn set_named(entity: Entity) -> Option<VarRef>
    ensures { result ≡ entity_set entity }
{
    match entity {
        Entity::ConstantSet(slot) | Entity::SetVariable(slot) => Some(slot),
        _ => None,
    }
}

/// Whether an entry of a vector is read in the expression.
#[cycle(entries)]
pub fn reads_entry(e: &IntExpression) -> bool
    ensures { result ≡ entry_is_read (int_expression_tree e.now) }
{
    match e {
        IntExpression::EntryAt(_, _) | IntExpression::Entry(_, _) => true,
        IntExpression::Number(_)
        | IntExpression::Constant(_, _)
        | IntExpression::Variable(_)
        | IntExpression::Parameter(_)
        | IntExpression::Weight
        | IntExpression::SetSize(_) => false,
        IntExpression::Negative(_, e) => reads_entry(e),
        IntExpression::Arithmetic(first, more) => reads_entry(first) || any_reads_entry(more),
    }
}

/// Whether an entry of a vector is read in one of the operands.
#[cycle(entries)]
fn any_reads_entry(operands: &[Operand]) -> bool
    ensures { result ≡ operands_read_entry operands.now }
{
    'operands: for operand in operands {
        if reads_entry(&operand.integer) {
            return true;
        }
    }
    false
}
