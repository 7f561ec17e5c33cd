//! Accesses of functions: what they read and write besides their own variables.
ghost use Rattle.std.specs.Prelude.{◌≡◌, ◌++◌, Bool, map, OnOk};
ghost use Rattle.typed_tree.specs.declared.accesses.Access.{Access};
ghost use Rattle.typed_tree.specs.IntExpressionTree.{int_expression_tree};
ghost use Rattle.typed_tree.specs.BoolExpressionTree.{bool_expression_tree};
ghost use Rattle.typed_tree.specs.FunctionStatementTree.{function_tree, function_statement_tree, function_statements_tree, variable_statement_tree};
ghost use Rattle.typed_tree.specs.Fold.{all_pass, condition_fold, conditions_fold, end_fold, function_fold, integer_fold, operands_fold, step_fold, steps_fold};
ghost use Rattle.typed_tree.specs.Independence.{function_writes};
ghost use Rattle.typed_tree.specs.inside.Access.{step_writes, steps_write};

use crate::expression::{BoolExpression, IntExpression, Operand};
use crate::function::{Function, FunctionStatement, VariableStatement};
use crate::statement::VertexFilter;
use std::alloc::AllocError;

/// What a function reads or writes besides its own variables. A vector and a set are named by their indices.
#[derive(Clone, Copy)]
pub enum Access {
    /// Reads the entry of this vector at a vertex that the function works on.
    ReadAtVertex(usize),
    /// Reads an entry of this vector at an index.
    ReadAtIndex(usize),
    /// Reads this vertex set: its size, or, as an end of an edge apply, its members.
    ReadSet(usize),
    /// Sets or reduces an entry of this vector.
    Write(usize),
}

/// A test of accesses.
pub trait AccessTest {
    ghost passes: { Self → Access → Bool };

    /// Whether the access passes.
    fn passes(&self, access: Access) -> bool
        ensures { result ≡ passes self.now access };
}

/// Whether each access of the expression passes.
#[cycle(integers)]
#[tactic(auto, using(crate::proofs::Rows::passes_negated))]
fn integer_passes<T: AccessTest>(e: &IntExpression, test: &T) -> bool
    ensures { result ≡ integer_fold (all_pass (T.passes test.now)) (int_expression_tree e.now) }
{
    match e {
        IntExpression::Number(_)
        | IntExpression::Constant(_, _)
        | IntExpression::Variable(_)
        | IntExpression::Parameter(_)
        | IntExpression::Weight => true,
        IntExpression::EntryAt(vector, _) => test.passes(Access::ReadAtVertex(*vector)),
        IntExpression::Entry(vector, subscript) => {
            test.passes(Access::ReadAtIndex(*vector)) && integer_passes(subscript, test)
        }
        IntExpression::SetSize(slot) => test.passes(Access::ReadSet(slot.index)),
        IntExpression::Negative(_, e) => integer_passes(e, test),
        IntExpression::Arithmetic(first, operands) => {
            integer_passes(first, test) && operands_pass(operands, test)
        }
    }
}

/// Whether each access of the operands passes.
#[cycle(integers)]
fn operands_pass<T: AccessTest>(operands: &[Operand], test: &T) -> bool
    ensures { result ≡ operands_fold (all_pass (T.passes test.now)) operands.now }
{
    'operands: for operand in operands {
        if !integer_passes(&operand.integer, test) {
            return false;
        }
    }
    true
}

/// Whether each access of the condition passes.
#[cycle(conditions)]
#[tactic(auto, using(crate::proofs::Rows::passes_inverted))]
fn condition_passes<T: AccessTest>(c: &BoolExpression, test: &T) -> bool
    ensures { result ≡ condition_fold (all_pass (T.passes test.now)) (bool_expression_tree c.now) }
{
    match c {
        BoolExpression::Literal(_) | BoolExpression::Constant(_, _) | BoolExpression::Variable(_) =>
            true,
        BoolExpression::Not(_, c) => condition_passes(c, test),
        BoolExpression::Compare(_, left, right) => {
            integer_passes(left, test) && integer_passes(right, test)
        }
        BoolExpression::Connect(_, first, conditions) => {
            condition_passes(first, test) && conditions_pass(conditions, test)
        }
    }
}

/// Whether each access of the conditions passes.
#[cycle(conditions)]
fn conditions_pass<T: AccessTest>(conditions: &[BoolExpression], test: &T) -> bool
    ensures { result ≡ conditions_fold (all_pass (T.passes test.now)) conditions.now }
{
    'conditions: for c in conditions {
        if !condition_passes(c, test) {
            return false;
        }
    }
    true
}

/// Whether each access of the statements passes.
#[cycle(steps)]
fn steps_pass<T: AccessTest>(steps: &[FunctionStatement], test: &T) -> bool
    ensures { result ≡ steps_fold (all_pass (T.passes test.now)) (function_statements_tree steps.now) }
{
    'steps: for step in steps {
        if !step_passes(step, test) {
            return false;
        }
    }
    true
}

/// Whether each access of one statement passes.
#[cycle(steps)]
fn step_passes<T: AccessTest>(step: &FunctionStatement, test: &T) -> bool
    ensures { result ≡ step_fold (all_pass (T.passes test.now)) (function_statement_tree step.now) }
{
    match step {
        FunctionStatement::Variable(statement) => variable_passes(statement, test),
        FunctionStatement::SetEntry(vector, e) | FunctionStatement::ReduceEntry(vector, _, e) => {
            test.passes(Access::Write(*vector)) && integer_passes(e, test)
        }
        FunctionStatement::If(c, body) => condition_passes(c, test) && steps_pass(body, test),
        FunctionStatement::IfElse(c, body, other) => {
            condition_passes(c, test) && (steps_pass(body, test) && steps_pass(other, test))
        }
    }
}

/// Whether each access of a statement on a variable passes.
fn variable_passes<T: AccessTest>(statement: &VariableStatement, test: &T) -> bool
    ensures { result ≡ step_fold (all_pass (T.passes test.now)) (variable_statement_tree statement.now) }
{
    match statement {
        VariableStatement::DeclareInt(_, e)
        | VariableStatement::SetInt(_, e)
        | VariableStatement::ReduceInt(_, _, e) => integer_passes(e, test),
        VariableStatement::DeclareBool(_, c) | VariableStatement::SetBool(_, c) => {
            condition_passes(c, test)
        }
    }
}

/// Whether each access of the function at this index passes. One that is not there has none.
pub fn function_passes<T: AccessTest>(functions: &[Function], index: usize, test: &T) -> bool
    ensures { result ≡ function_fold (all_pass (T.passes test.now)) (map function_tree functions.now) index }
{
    match functions.get(index) {
        Some(function) => steps_pass(&function.steps, test),
        None => true,
    }
}

/// Whether each access of an end of an edge apply passes: that of the set, or those of the filter.
pub fn end_passes<T: AccessTest>(filters: &[Function], end: Option<VertexFilter>, test: &T) -> bool
    ensures { result ≡ end_fold (all_pass (T.passes test.now)) (map function_tree filters.now) end }
{
    match end {
        Some(VertexFilter::Function(index)) => function_passes(filters, index, test),
        Some(VertexFilter::Members(slot)) => test.passes(Access::ReadSet(slot.index)),
        None => true,
    }
}

/// Puts the vectors that the function at this index writes after the others, in the order of the text, a vector as often
/// as it is written. One that is not there writes none. The only error is out of memory.
pub fn push_written(
    functions: &[Function],
    index: usize,
    vectors: &mut Vec<usize>,
) -> Result<(), AllocError>
    ensures { OnOk result (vectors.new.items ≡ vectors.old.items ++ function_writes (map function_tree functions.now) index) }
{
    match functions.get(index) {
        Some(function) => push_written_by_all(&function.steps, vectors),
        None => Ok(()),
    }
}

#[cycle(writes)]
fn push_written_by_all(
    steps: &[FunctionStatement],
    vectors: &mut Vec<usize>,
) -> Result<(), AllocError>
    ensures { OnOk result (vectors.new.items ≡ vectors.old.items ++ steps_write (function_statements_tree steps.now)) }
{
    'steps: for step in steps {
        push_written_by(step, vectors)?;
    }
    Ok(())
}

#[cycle(writes)]
fn push_written_by(step: &FunctionStatement, vectors: &mut Vec<usize>) -> Result<(), AllocError>
    ensures { OnOk result (vectors.new.items ≡ vectors.old.items ++ step_writes (function_statement_tree step.now)) }
{
    match step {
        FunctionStatement::SetEntry(vector, _) | FunctionStatement::ReduceEntry(vector, _, _) => {
            vectors.push(*vector)?;
            Ok(())
        }
        FunctionStatement::If(_, body) => push_written_by_all(body, vectors),
        FunctionStatement::IfElse(_, body, other) => {
            push_written_by_all(body, vectors)?;
            push_written_by_all(other, vectors)
        }
        _ => Ok(()),
    }
}
