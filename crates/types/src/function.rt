//! Statements of functions. If one is faulty, or no function may hold it, a harmless one is in its place.
ghost use Rattle.std.specs.Prelude.{◌≡◌, Some};
ghost use Rattle.typed_tree.specs.IntExpressionTree.{int_expression_tree};
ghost use Rattle.typed_tree.specs.FunctionStatementTree.{function_statement_tree, function_statements_tree};
ghost use Rattle.expression_types.specs.Faults.{earlier, ReportsFaults, outcome};
ghost use Rattle.expression_types.specs.ValueTree.{value_tree};
ghost use Rattle.types.specs.inside.BlockMeaning.{compound_tree};
ghost use Rattle.types.specs.inside.Step.{function_compound};
ghost use Rattle.types.specs.Step.{entry_step, may_reduce, may_set, no_step, one_reduction, own_vertex, reduction_step, same_endpoint, same_reduction, written_at};

use crate::block_kind::{BlockKind, Compound};
use apply_options::Reduction;
use expression_types::{
    Entity, Fault, Inside, TypeRule, Value, entity, note, type_expression, type_index, vector,
};
use initializer_types::{
    Checker, Initializer, Reductions, WrittenEntry, integer, integer_of, read_apply,
};
use std::alloc::{AllocError, Global};
use syntax::{DeclaredType, Ends, Expression, Name};
use typed_tree::{BoolExpression, Endpoint, FunctionStatement, IntExpression, VariableStatement};

/// Blocks of functions.
pub(crate) struct FunctionBlock;

impl BlockKind for FunctionBlock {
    type Action = FunctionStatement;

    type Statement = FunctionStatement;

    ghost use Rattle.typed_tree.specs.FunctionStatementTree.{FunctionStatementTree, FunctionStatementsTree};
    ghost use Rattle.types.specs.inside.Step.{function_meaning, function_walked};

    ghost ActionTree = { FunctionStatementTree };

    ghost StatementTree = { FunctionStatementTree };

    ghost RowTree = { FunctionStatementsTree };

    ghost meaning = { function_meaning };

    fn number(_checker: &mut Checker, _label: Option<usize>) -> Result<u64, AllocError> {
        Ok(0)
    }

    fn labelled(
        _number: u64,
        _label: Option<usize>,
        action: FunctionStatement,
    ) -> FunctionStatement {
        action
    }

    fn note_loop(at: usize, first_fault: &mut Option<Fault>) {
        note(first_fault, at, TypeRule::WrongType);
    }

    fn with_blocks(alloc: Global, compound: Compound<FunctionStatement>) -> FunctionStatement
        ensures { function_statement_tree result ≡ function_compound (compound_tree function_statements_tree compound) }
    {
        match compound {
            Compound::If(test, body) => FunctionStatement::If(test, body),
            Compound::IfElse(test, body, other) => FunctionStatement::IfElse(test, body, other),
            Compound::While(_, _) | Compound::For(_, _, _, _) => nothing(alloc),
        }
    }

    fn variable(
        checker: &mut Checker,
        at: usize,
        declared: DeclaredType,
        initializer: Initializer,
    ) -> (Entity, FunctionStatement) {
        match declared {
            DeclaredType::Int => {
                let value = initializer.into_integer(at, &mut checker.first_fault);
                let slot = checker.integer_slot();
                let statement = VariableStatement::DeclareInt(slot.name, value);
                (
                    Entity::IntVariable(slot),
                    FunctionStatement::Variable(statement),
                )
            }
            DeclaredType::Bool => {
                let value = initializer.into_condition(at, &mut checker.first_fault);
                let slot = checker.condition_slot();
                let statement = VariableStatement::DeclareBool(slot.name, value);
                (
                    Entity::BoolVariable(slot),
                    FunctionStatement::Variable(statement),
                )
            }
            DeclaredType::VertexSet
            | DeclaredType::Vertex
            | DeclaredType::Vector
            | DeclaredType::EdgeSet
            | DeclaredType::WeightedEdgeSet => (
                Entity::Error,
                wrong(at, checker.alloc, &mut checker.first_fault),
            ),
        }
    }

    fn assignment(
        alloc: Global,
        at: usize,
        initializer: Initializer,
        entity: Entity,
        first_fault: &mut Option<Fault>,
    ) -> FunctionStatement {
        match entity {
            Entity::IntVariable(slot) => {
                let value = initializer.into_integer(at, first_fault);
                FunctionStatement::Variable(VariableStatement::SetInt(slot, value))
            }
            Entity::BoolVariable(slot) => {
                let value = initializer.into_condition(at, first_fault);
                FunctionStatement::Variable(VariableStatement::SetBool(slot, value))
            }
            Entity::Error => nothing(alloc),
            _ => wrong(at, alloc, first_fault),
        }
    }

    fn reduction(
        alloc: Global,
        at: usize,
        by: Reduction,
        value: Value,
        entity: Entity,
        first_fault: &mut Option<Fault>,
    ) -> FunctionStatement {
        match entity {
            Entity::IntVariable(slot) => {
                let value = integer_of(at, value, first_fault);
                FunctionStatement::Variable(VariableStatement::ReduceInt(slot, by, value))
            }
            Entity::Error => nothing(alloc),
            _ => wrong(at, alloc, first_fault),
        }
    }

    fn print(
        checker: &mut Checker,
        at: usize,
        _value: &Expression,
    ) -> Result<FunctionStatement, AllocError> {
        note(&mut checker.first_fault, at, TypeRule::PrintOutsideMain);
        Ok(nothing(checker.alloc))
    }

    fn set_entry(
        checker: &mut Checker,
        written: WrittenEntry<'_>,
        value: &Expression,
    ) -> Result<FunctionStatement, AllocError> {
        let at = written.vector.at();
        let may = may_set_entry(at, checker.scope.inside(), &mut checker.first_fault);
        let vector = vector(&checker.scope, at, written.vector, &mut checker.first_fault);
        let index = type_index(
            checker.alloc,
            &checker.scope,
            at,
            written.index,
            &mut checker.first_fault,
        )?;
        let own_vertex = vertex_of(checker.scope.inside());
        let own = is_own(at, own_vertex, index, &mut checker.first_fault);
        let value = integer(
            checker.alloc,
            &checker.scope,
            at,
            value,
            &mut checker.first_fault,
        )?;
        Ok(setting(checker.alloc, may, own, vector, value))
    }

    fn reduce_entry(
        checker: &mut Checker,
        written: WrittenEntry<'_>,
        by: Reduction,
        value: &Expression,
    ) -> Result<FunctionStatement, AllocError> {
        let at = written.vector.at();
        let vector = vector(&checker.scope, at, written.vector, &mut checker.first_fault);
        let inside = checker.scope.inside();
        let may = may_reduce_entry(
            at,
            inside,
            vector,
            by,
            &mut checker.writes,
            &mut checker.first_fault,
        )?;
        let index = type_index(
            checker.alloc,
            &checker.scope,
            at,
            written.index,
            &mut checker.first_fault,
        )?;
        let own = is_own(at, vertex_of(inside), index, &mut checker.first_fault);
        let value = integer(
            checker.alloc,
            &checker.scope,
            at,
            value,
            &mut checker.first_fault,
        )?;
        Ok(reducing(checker.alloc, may, own, vector, by, value))
    }

    fn add_vertex(
        checker: &mut Checker,
        set: &Name,
        vertex: &Expression,
    ) -> Result<FunctionStatement, AllocError> {
        let at = set.at();
        let step = wrong(at, checker.alloc, &mut checker.first_fault);
        let _set = entity(&checker.scope, set, &mut checker.first_fault);
        let _vertex = type_expression(
            checker.alloc,
            &checker.scope,
            at,
            vertex,
            &mut checker.first_fault,
        )?;
        Ok(step)
    }

    fn apply(
        checker: &mut Checker,
        target: &Name,
        ends: &Ends,
        function: &Name,
    ) -> FunctionStatement {
        let step = wrong(target.at(), checker.alloc, &mut checker.first_fault);
        let _apply = read_apply(
            &checker.scope,
            target,
            ends,
            function,
            &mut checker.first_fault,
        );
        step
    }

    ghost walked = { function_walked };
}

/// What is in place of a faulty statement.
fn nothing(alloc: Global) -> FunctionStatement
    ensures { function_statement_tree result ≡ no_step }
{
    FunctionStatement::If(BoolExpression::Literal(false), Vec::new(alloc))
}

/// A statement that breaks a rule of types.
fn wrong(at: usize, alloc: Global, first_fault: &mut Option<Fault>) -> FunctionStatement
    ensures step { function_statement_tree result ≡ no_step }
    ensures first_fault { first_fault.new ≡ Some (earlier first_fault.old (record { at = at; rule = TypeRule.WrongType })) }
{
    note(first_fault, at, TypeRule::WrongType);
    nothing(alloc)
}

/// The vertex at which a function writes.
fn vertex_of(inside: Inside) -> Endpoint
    ensures { result ≡ own_vertex inside }
{
    match inside {
        Inside::EdgeFunction => Endpoint::Destination,
        Inside::Main | Inside::VertexFunction | Inside::Filter => Endpoint::Source,
    }
}

fn are_same_endpoint(a: Endpoint, b: Endpoint) -> bool
    ensures { result ≡ same_endpoint a b }
{
    match (a, b) {
        (Endpoint::Source, Endpoint::Source) => true,
        (Endpoint::Destination, Endpoint::Destination) => true,
        _ => false,
    }
}

fn are_same_reduction(a: Reduction, b: Reduction) -> bool
    ensures { result ≡ same_reduction a b }
{
    match (a, b) {
        (Reduction::Min, Reduction::Min) => true,
        (Reduction::Max, Reduction::Max) => true,
        (Reduction::Plus, Reduction::Plus) => true,
        _ => false,
    }
}

/// Whether an index is the vertex at which the function writes. The fault is noted where it is another.
fn is_own(at: usize, own: Endpoint, index: Value, first_fault: &mut Option<Fault>) -> bool
    ensures { outcome first_fault.old (written_at at own (value_tree index)) ≡ (result, first_fault.new) }
{
    if index.is_error() {
        return false;
    }
    if let Some(vertex) = index.vertex() {
        if are_same_endpoint(vertex, own) {
            return true;
        }
    }
    note(first_fault, at, TypeRule::WrongIndex);
    false
}

/// Whether a function may write an entry by `=`. The fault is noted where it may not.
fn may_set_entry(at: usize, inside: Inside, first_fault: &mut Option<Fault>) -> bool
    ensures { outcome first_fault.old (may_set at inside) ≡ (result, first_fault.new) }
{
    match inside {
        Inside::Main => false,
        Inside::EdgeFunction => {
            note(first_fault, at, TypeRule::NotReduction);
            false
        }
        Inside::VertexFunction => true,
        Inside::Filter => {
            note(first_fault, at, TypeRule::WrongType);
            false
        }
    }
}

fn setting(
    alloc: Global,
    may: bool,
    own: bool,
    vector: Option<usize>,
    value: IntExpression,
) -> FunctionStatement
    ensures { function_statement_tree result ≡ entry_step may own vector (int_expression_tree value) }
{
    match vector {
        Some(vector) if may && own => FunctionStatement::SetEntry(vector, value),
        _ => nothing(alloc),
    }
}

/// Whether a function may reduce a vector so. The fault is noted where it may not.
fn may_reduce_entry(
    at: usize,
    inside: Inside,
    vector: Option<usize>,
    by: Reduction,
    writes: &mut Reductions,
    first_fault: &mut Option<Fault>,
) -> Result<bool, AllocError>
    ensures { ReportsFaults (λ may. (may, writes.new)) first_fault.old first_fault.new result (may_reduce at inside vector by writes.old) }
{
    match inside {
        Inside::Main => Ok(false),
        Inside::EdgeFunction => reduce_once(at, vector, by, writes, first_fault),
        Inside::VertexFunction => Ok(true),
        Inside::Filter => {
            note(first_fault, at, TypeRule::WrongType);
            Ok(false)
        }
    }
}

/// Whether an edge function reduces a vector as it did before, if it did.
fn reduce_once(
    at: usize,
    vector: Option<usize>,
    by: Reduction,
    writes: &mut Reductions,
    first_fault: &mut Option<Fault>,
) -> Result<bool, AllocError>
    ensures { ReportsFaults (λ may. (may, writes.new)) first_fault.old first_fault.new result (one_reduction at vector by writes.old) }
{
    let Some(vector) = vector else {
        return Ok(false);
    };
    match writes.get(vector) {
        None => {
            writes.push(vector, by)?;
            Ok(true)
        }
        Some(first) => {
            let same = are_same_reduction(first, by);
            if !same {
                note(first_fault, at, TypeRule::MixedReductions);
            }
            Ok(same)
        }
    }
}

fn reducing(
    alloc: Global,
    may: bool,
    own: bool,
    vector: Option<usize>,
    by: Reduction,
    value: IntExpression,
) -> FunctionStatement
    ensures { function_statement_tree result ≡ reduction_step may own vector by (int_expression_tree value) }
{
    match vector {
        Some(vector) if may && own => FunctionStatement::ReduceEntry(vector, by, value),
        _ => nothing(alloc),
    }
}
