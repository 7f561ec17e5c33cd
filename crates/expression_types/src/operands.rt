//! Operand rows: the typed operands of operators in a row.
ghost use Rattle.std.specs.Prelude.{◌≡◌, IfOk};
ghost use Rattle.typed_tree.specs.inside.BoolExpressionTree.{conditions_tree};
ghost use Rattle.typed_tree.specs.BoolExpressionTree.{bool_expression_tree};
ghost use Rattle.typed_tree.specs.IntExpressionTree.{int_expression_tree};
ghost use Rattle.typed_tree.specs.inside.IntExpressionTree.{operands_tree};
ghost use Rattle.expression_types.specs.inside.Operands.{conditions_of, integers_of};
ghost use Rattle.expression_types.specs.Operators.{beside_condition, beside_integer, first_condition, first_integer, grouped_conditions, grouped_integers};
ghost use Rattle.expression_types.specs.Faults.{ReportsFaults};
ghost use Rattle.expression_types.specs.ValueTree.{value_tree};

use crate::fault::{Fault, TypeRule, note};
use crate::value::Value;
use std::alloc::{AllocError, Global};
use typed_tree::{BoolExpression, Connective, IntExpression, Operand, Operator};

/// The operands so far of operators that take integers.
pub(crate) enum Integers {
    /// The first and those after it, each with its operator.
    Typed(IntExpression, Vec<Operand>),
    /// One is no integer.
    Mixed,
    /// One has a faulty part.
    Error,
}

/// The operands so far of an operator that takes conditions.
pub(crate) enum Conditions {
    /// The first and those after it.
    Typed(BoolExpression, Vec<BoolExpression>),
    /// One is no condition.
    Mixed,
    /// One has a faulty part.
    Error,
}

impl Drop for Integers {
    fn drop(self) {
        match self {
            Integers::Typed(_, _) => {}
            Integers::Mixed | Integers::Error => {}
        }
    }
}

impl Drop for Conditions {
    fn drop(self) {
        match self {
            Conditions::Typed(_, _) => {}
            Conditions::Mixed | Conditions::Error => {}
        }
    }
}

impl Integers {
    /// The first operand.
    pub(crate) fn first(alloc: Global, value: Value) -> Integers
        ensures { integers_of result ≡ first_integer (value_tree value) }
    {
        if value.is_error() {
            return Integers::Error;
        }
        match value.into_integer() {
            None => Integers::Mixed,
            Some(e) => Integers::Typed(e, Vec::new(alloc)),
        }
    }

    /// With one more operand after its operator.
    #[tactic(auto, using(typed_tree::proofs::Chains::operands_tree_push))]
    pub(crate) fn beside(self, operator: Operator, value: Value) -> Result<Integers, AllocError>
        ensures { IfOk result (λ all. integers_of all ≡ beside_integer operator (integers_of self) (first_integer (value_tree value))) }
    {
        if value.is_error() {
            return Ok(Integers::Error);
        }
        match self {
            Integers::Error => Ok(Integers::Error),
            Integers::Mixed => Ok(Integers::Mixed),
            Integers::Typed(first, more) => match value.into_integer() {
                None => Ok(Integers::Mixed),
                Some(integer) => {
                    let mut more = more;
                    more.push(Operand { operator, integer })?;
                    Ok(Integers::Typed(first, more))
                }
            },
        }
    }

    /// The value that all operands have together.
    pub(crate) fn group(
        self,
        alloc: Global,
        at: usize,
        first_fault: &mut Option<Fault>,
    ) -> Result<Value, AllocError>
        ensures { ReportsFaults value_tree first_fault.old first_fault.new result (grouped_integers at (integers_of self)) }
    {
        match self {
            Integers::Typed(first, more) => {
                let first = Box::new(alloc, first)?;
                Ok(Value::Integer(IntExpression::Arithmetic(first, more)))
            }
            Integers::Mixed => {
                note(first_fault, at, TypeRule::WrongType);
                Ok(Value::Error)
            }
            Integers::Error => Ok(Value::Error),
        }
    }
}

impl Conditions {
    /// The first operand.
    pub(crate) fn first(alloc: Global, value: Value) -> Conditions
        ensures { (o : Connective) → conditions_of o result ≡ first_condition (value_tree value) }
    {
        if value.is_error() {
            return Conditions::Error;
        }
        match value.into_condition() {
            None => Conditions::Mixed,
            Some(c) => Conditions::Typed(c, Vec::new(alloc)),
        }
    }

    /// With one more operand.
    pub(crate) fn beside(self, value: Value) -> Result<Conditions, AllocError>
        ensures { IfOk result (λ all. (o : Connective) → conditions_of o all ≡ beside_condition o (conditions_of o self) (first_condition (value_tree value))) }
    {
        if value.is_error() {
            return Ok(Conditions::Error);
        }
        match self {
            Conditions::Error => Ok(Conditions::Error),
            Conditions::Mixed => Ok(Conditions::Mixed),
            Conditions::Typed(first, more) => match value.into_condition() {
                None => Ok(Conditions::Mixed),
                Some(c) => {
                    let mut more = more;
                    more.push(c)?;
                    Ok(Conditions::Typed(first, more))
                }
            },
        }
    }

    /// The value that all operands have together, with this operator between them.
    pub(crate) fn group(
        self,
        alloc: Global,
        connective: Connective,
        at: usize,
        first_fault: &mut Option<Fault>,
    ) -> Result<Value, AllocError>
        ensures { ReportsFaults value_tree first_fault.old first_fault.new result (grouped_conditions at (conditions_of connective self)) }
    {
        match self {
            Conditions::Typed(first, more) => {
                let first = Box::new(alloc, first)?;
                Ok(Value::Condition(BoolExpression::Connect(connective, first, more)))
            }
            Conditions::Mixed => {
                note(first_fault, at, TypeRule::WrongType);
                Ok(Value::Error)
            }
            Conditions::Error => Ok(Value::Error),
        }
    }
}
