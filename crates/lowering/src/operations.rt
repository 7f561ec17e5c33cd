//! Operations of statements without blocks, with the kernels of their expressions.
ghost use Rattle.std.specs.Prelude.{◌≡◌, IfOk, Some};
ghost use Rattle.typed_tree.specs.BlockTree.{ApplyVertex, AssignSet, DeclareSet, Simple, SimpleStatementTree, simple_statement_tree, value_statement_tree};
ghost use Rattle.typed_tree.specs.BoolExpressionTree.{bool_expression_tree};
ghost use Rattle.typed_tree.specs.IntExpressionTree.{int_expression_tree};
ghost use Rattle.kernels.specs.Kernels.{IsBoolKernel, IsIntKernel};
ghost use Rattle.plans.specs.Fusing.{edge_apply_of};
ghost use Rattle.plans.specs.Instruction.{Do};
ghost use Rattle.plans.specs.Operation.{bool_statement, entry_statement, int_statement, result_tree, IsFor, IsOperation};
ghost use Rattle.plans.specs.declared.operation.PlanOperation.TheVariants.{Value};
ghost use Rattle.lowering.specs.inside.NewMembers.{value_of};

use algorithm_meaning::Depth;
use kernels::ExpressionKernel;
use plans::{
    ApplyOperation, BoolUse, EdgePart, EntryOperation, EntryUse, IntUse, PartResult, PlanOperation,
    SetExpression, SetOperation, ValueOperation,
};
use std::alloc::{AllocError, Global};
use typed_tree::{
    ApplyEnds, BoolExpression, IntExpression, SetValue, SimpleStatement, ValueStatement, VarRef,
};

/// The kernel of an expression of type `int` where so much is visible.
pub(crate) fn int_kernel(
    alloc: Global,
    e: &IntExpression,
    depth: Depth,
) -> Result<ExpressionKernel, AllocError>
    ensures kernel { IfOk result (λ k. IsIntKernel k (int_expression_tree e.now)) }
    ensures visible { IfOk result (λ k. IsFor depth k) }
{
    ExpressionKernel::of_integer(alloc, e, depth.integers, depth.conditions)
}

/// The kernel of an expression of type `bool` where so much is visible.
pub(crate) fn bool_kernel(
    alloc: Global,
    c: &BoolExpression,
    depth: Depth,
) -> Result<ExpressionKernel, AllocError>
    ensures kernel { IfOk result (λ k. IsBoolKernel k (bool_expression_tree c.now)) }
    ensures visible { IfOk result (λ k. IsFor depth k) }
{
    ExpressionKernel::of_condition(alloc, c, depth.integers, depth.conditions)
}

/// What a statement without a block does, where so much is visible.
pub(crate) fn operation_of(
    alloc: Global,
    statement: &SimpleStatement,
    depth: Depth,
) -> Result<PlanOperation, AllocError>
    ensures { IfOk result (λ o. IsOperation depth depth o (Do (simple_statement_tree statement.now))) }
{
    match statement {
        SimpleStatement::Value(statement) => {
            let operation = value_operation(alloc, statement, depth)?;
            Ok(PlanOperation::Value(operation))
        }
        SimpleStatement::SetEntry(vector, index, e) => {
            entry_operation(alloc, *vector, EntryUse::Set, index, e, depth)
        }
        SimpleStatement::ReduceEntry(vector, index, reduction, e) => {
            entry_operation(
                alloc,
                *vector,
                EntryUse::Reduce(*reduction),
                index,
                e,
                depth,
            )
        }
        SimpleStatement::DeclareSet(name, value) => Ok(declare_set(*name, *value)),
        SimpleStatement::AssignSet(slot, value) => Ok(assign_set(*slot, *value)),
        SimpleStatement::ApplyVertex(set, function) => Ok(apply_vertices(*set, *function)),
        SimpleStatement::ApplyEdges(ends, function) => {
            Ok(apply_edges(*ends, *function, PartResult::Dropped))
        }
    }
}

/// What a statement that takes a value does, where so much is visible.
fn value_operation(
    alloc: Global,
    statement: &ValueStatement,
    depth: Depth,
) -> Result<ValueOperation, AllocError>
    ensures { IfOk result (λ o. IsOperation depth depth (Value o) (Do (value_statement_tree statement.now))) }
{
    match statement {
        ValueStatement::DeclareInt(name, e) => {
            int_operation(alloc, e, IntUse::Declare { name: *name }, depth)
        }
        ValueStatement::DeclareBool(name, c) => {
            bool_operation(alloc, c, BoolUse::Declare { name: *name }, depth)
        }
        ValueStatement::SetInt(slot, e) => {
            int_operation(alloc, e, IntUse::Set { slot: *slot }, depth)
        }
        ValueStatement::SetBool(slot, c) => {
            bool_operation(alloc, c, BoolUse::Set { slot: *slot }, depth)
        }
        ValueStatement::ReduceInt(slot, reduction, e) => {
            let used = IntUse::Reduce {
                slot: *slot,
                reduction: *reduction,
            };
            int_operation(alloc, e, used, depth)
        }
        ValueStatement::AddVertex(slot, e) => {
            let vertex = int_kernel(alloc, e, depth)?;
            Ok(ValueOperation::AddVertex {
                slot: *slot,
                vertex,
            })
        }
        ValueStatement::PrintInt(e) => int_operation(alloc, e, IntUse::Print, depth),
        ValueStatement::PrintBool(c) => bool_operation(alloc, c, BoolUse::Print, depth),
    }
}

/// The value of an `int` expression, where so much is visible, and what is done with it.
pub(crate) fn int_operation(
    alloc: Global,
    e: &IntExpression,
    used: IntUse,
    depth: Depth,
) -> Result<ValueOperation, AllocError>
    ensures { IfOk result (λ o. IsOperation depth depth (Value o) (Do (int_statement used (int_expression_tree e.now)))) }
{
    let value = int_kernel(alloc, e, depth)?;
    Ok(ValueOperation::Int { value, used })
}

/// The value of a `bool` expression, where so much is visible, and what is done with it.
fn bool_operation(
    alloc: Global,
    c: &BoolExpression,
    used: BoolUse,
    depth: Depth,
) -> Result<ValueOperation, AllocError>
    ensures { IfOk result (λ o. IsOperation depth depth (Value o) (Do (bool_statement used (bool_expression_tree c.now)))) }
{
    let value = bool_kernel(alloc, c, depth)?;
    Ok(ValueOperation::Bool { value, used })
}

/// Writes to the entry of a vector at an index, where so much is visible.
fn entry_operation(
    alloc: Global,
    vector: usize,
    used: EntryUse,
    index: &IntExpression,
    e: &IntExpression,
    depth: Depth,
) -> Result<PlanOperation, AllocError>
    ensures { IfOk result (λ o. IsOperation depth depth o (Do (entry_statement vector used (int_expression_tree index.now) (int_expression_tree e.now)))) }
{
    let index = int_kernel(alloc, index, depth)?;
    let value = int_kernel(alloc, e, depth)?;
    Ok(PlanOperation::Entry(EntryOperation {
        vector,
        index,
        value,
        used,
    }))
}

/// A new set with its first value.
fn declare_set(name: usize, value: SetValue) -> PlanOperation
    ensures { (keep shown : Depth) → IsOperation keep shown result (Do (DeclareSet name value)) }
{
    match members_of(value) {
        NewMembers::Given(members) => PlanOperation::Set(SetOperation::DeclareSet {
            name,
            members,
        }),
        NewMembers::Modified(ends, function, vector) => {
            apply_edges(ends, function, PartResult::Declared { name, vector })
        }
    }
}

/// A set gets a value.
fn assign_set(slot: VarRef, value: SetValue) -> PlanOperation
    ensures { (keep shown : Depth) → IsOperation keep shown result (Do (AssignSet slot value)) }
{
    match members_of(value) {
        NewMembers::Given(members) => PlanOperation::Set(SetOperation::AssignSet { slot, members }),
        NewMembers::Modified(ends, function, vector) => {
            apply_edges(ends, function, PartResult::Assigned { set: slot, vector })
        }
    }
}

/// A vertex function at each member of a set.
fn apply_vertices(set: VarRef, function: usize) -> PlanOperation
    ensures { (keep shown : Depth) → IsOperation keep shown result (Do (ApplyVertex set function)) }
{
    PlanOperation::Apply(ApplyOperation::ApplyVertices {
        set,
        first: function,
        second: None,
    })
}

/// An edge function on the edges between two ends, and what is done with the vertices at which it changes a vector.
fn apply_edges(ends: ApplyEnds, function: usize, given: PartResult) -> PlanOperation
    ensures { (keep shown : Depth) (action : SimpleStatementTree)
        → edge_apply_of (Simple action) ≡ Some (record { ends = ends; part = record { function = function; result = result_tree given } })
        → IsOperation keep shown result (Do action) }
{
    PlanOperation::Apply(ApplyOperation::ApplyEdges {
        ends,
        first: EdgePart {
            function,
            result: given,
        },
        second: None,
    })
}

/// What a set gets.
#[derive(Clone, Copy)]
enum NewMembers {
    /// The members of an expression.
    Given(SetExpression),
    /// The vertices at which the edge function changes the vector.
    Modified(ApplyEnds, usize, usize),
}

/// Which members a value has.
fn members_of(value: SetValue) -> NewMembers
    ensures { value ≡ value_of result }
{
    match value {
        SetValue::Empty => NewMembers::Given(SetExpression::Nothing),
        SetValue::All => NewMembers::Given(SetExpression::All),
        SetValue::Copy(slot) => NewMembers::Given(SetExpression::Copy(slot)),
        SetValue::Filter(slot, function) => {
            NewMembers::Given(SetExpression::Filter(slot, function))
        }
        SetValue::Modified(ends, function, vector) => NewMembers::Modified(ends, function, vector),
    }
}
