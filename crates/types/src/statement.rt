//! Statements of `main`. If one is faulty, a harmless one is in its place.
ghost use Rattle.std.specs.Prelude.{◌≡◌, Some};
ghost use Rattle.std.specs.Option.{option_map};
ghost use Rattle.syntax.specs.SourceViews.{ends_tree};
ghost use Rattle.typed_tree.specs.BlockTree.{Simple, block_tree, statement_kind_tree, value_statement_tree};
ghost use Rattle.typed_tree.specs.IntExpressionTree.{int_expression_tree};
ghost use Rattle.expression_types.specs.Faults.{earlier, outcome};
ghost use Rattle.expression_types.specs.ValueTree.{value_tree};
ghost use Rattle.types.specs.inside.Block.{main_compound};
ghost use Rattle.types.specs.inside.BlockMeaning.{compound_tree};
ghost use Rattle.initializer_types.specs.Views.{apply_end_tree};
ghost use Rattle.initializer_types.specs.Initial.{edge_function, names_error, vertex_function};
ghost use Rattle.types.specs.Statement.{added_to_set, applied, edges_applied, entry_reduced, entry_set, has_ends as ends_are_written, no_action, printed, vertices_applied};

use crate::block_kind::{BlockKind, Compound};
use apply_options::Reduction;
use expression_types::{
    Entity, Fault, TypeRule, Value, entity, note, set_named, type_expression, vector,
};
use initializer_types::{
    ApplyEnd, Checker, Initializer, NamedApply, WrittenEntry, are_weights_lacking,
    edge_function_named, ends_of, index_of, integer, integer_of, is_edges_entity, is_error_entity,
    is_one_wrong, read_apply, vertex_function_named,
};
use std::alloc::{AllocError, Global};
use syntax::{DeclaredType, Ends, Expression, Name};
use typed_tree::{
    IntExpression, MainStatement, SimpleStatement, StatementKind, ValueStatement, VarRef,
};

/// Blocks of `main`.
pub(crate) struct MainBlock;

impl BlockKind for MainBlock {
    type Action = StatementKind;

    type Statement = MainStatement;

    ghost use Rattle.typed_tree.specs.BlockTree.{BlockTree as TypedBlock, StatementKindTree as TypedStatement};
    ghost use Rattle.types.specs.inside.Block.{StatementTree as LabelledStatement, main_meaning, main_walked};

    ghost ActionTree = { TypedStatement };

    ghost StatementTree = { LabelledStatement };

    ghost RowTree = { TypedBlock };

    ghost meaning = { main_meaning };

    fn number(checker: &mut Checker, label: Option<usize>) -> Result<u64, AllocError> {
        checker.statements.push(label)?;
        Ok(checker.statements.len() as u64)
    }

    fn labelled(number: u64, label: Option<usize>, action: StatementKind) -> MainStatement {
        MainStatement {
            number,
            label,
            action,
        }
    }

    fn note_loop(_at: usize, _first_fault: &mut Option<Fault>) {}

    fn with_blocks(_alloc: Global, compound: Compound<MainStatement>) -> StatementKind
        ensures { statement_kind_tree result ≡ main_compound (compound_tree block_tree compound) }
    {
        match compound {
            Compound::While(test, body) => StatementKind::While(test, body),
            Compound::If(test, body) => StatementKind::If(test, body),
            Compound::IfElse(test, body, other) => StatementKind::IfElse(test, body, other),
            Compound::For(name, first, limit, body) => StatementKind::For(name, first, limit, body),
        }
    }

    fn variable(
        checker: &mut Checker,
        at: usize,
        declared: DeclaredType,
        initializer: Initializer,
    ) -> (Entity, StatementKind) {
        match declared {
            DeclaredType::Int => {
                let value = initializer.into_integer(at, &mut checker.first_fault);
                let slot = checker.integer_slot();
                let statement = ValueStatement::DeclareInt(slot.name, value);
                (Entity::IntVariable(slot), of_value(statement))
            }
            DeclaredType::Bool => {
                let value = initializer.into_condition(at, &mut checker.first_fault);
                let slot = checker.condition_slot();
                let statement = ValueStatement::DeclareBool(slot.name, value);
                (Entity::BoolVariable(slot), of_value(statement))
            }
            DeclaredType::VertexSet => {
                let value = initializer.into_members(at, &mut checker.first_fault);
                let slot = checker.set_slot();
                let statement = SimpleStatement::DeclareSet(slot.name, value);
                (Entity::SetVariable(slot), StatementKind::Simple(statement))
            }
            DeclaredType::Vertex
            | DeclaredType::Vector
            | DeclaredType::EdgeSet
            | DeclaredType::WeightedEdgeSet => {
                (Entity::Error, wrong(at, &mut checker.first_fault))
            }
        }
    }

    fn assignment(
        _alloc: Global,
        at: usize,
        initializer: Initializer,
        entity: Entity,
        first_fault: &mut Option<Fault>,
    ) -> StatementKind {
        match entity {
            Entity::IntVariable(slot) => {
                let value = initializer.into_integer(at, first_fault);
                of_value(ValueStatement::SetInt(slot, value))
            }
            Entity::BoolVariable(slot) => {
                let value = initializer.into_condition(at, first_fault);
                of_value(ValueStatement::SetBool(slot, value))
            }
            Entity::SetVariable(slot) => {
                let members = initializer.into_members(at, first_fault);
                StatementKind::Simple(SimpleStatement::AssignSet(slot, members))
            }
            Entity::Error => nothing(),
            _ => wrong(at, first_fault),
        }
    }

    fn reduction(
        _alloc: Global,
        at: usize,
        by: Reduction,
        value: Value,
        entity: Entity,
        first_fault: &mut Option<Fault>,
    ) -> StatementKind {
        match entity {
            Entity::IntVariable(slot) => {
                let value = integer_of(at, value, first_fault);
                of_value(ValueStatement::ReduceInt(slot, by, value))
            }
            Entity::Error => nothing(),
            _ => wrong(at, first_fault),
        }
    }

    fn print(
        checker: &mut Checker,
        at: usize,
        value: &Expression,
    ) -> Result<StatementKind, AllocError> {
        let value = type_expression(
            checker.alloc,
            &checker.scope,
            at,
            value,
            &mut checker.first_fault,
        )?;
        Ok(print_value(at, value, &mut checker.first_fault))
    }

    fn set_entry(
        checker: &mut Checker,
        written: WrittenEntry<'_>,
        value: &Expression,
    ) -> Result<StatementKind, AllocError> {
        let at = written.vector.at();
        let vector = vector(&checker.scope, at, written.vector, &mut checker.first_fault);
        let index = type_expression(
            checker.alloc,
            &checker.scope,
            at,
            written.index,
            &mut checker.first_fault,
        )?;
        let index = index_of(at, index, &mut checker.first_fault);
        let value = integer(
            checker.alloc,
            &checker.scope,
            at,
            value,
            &mut checker.first_fault,
        )?;
        Ok(setting(vector, index, value))
    }

    fn reduce_entry(
        checker: &mut Checker,
        written: WrittenEntry<'_>,
        by: Reduction,
        value: &Expression,
    ) -> Result<StatementKind, AllocError> {
        let at = written.vector.at();
        let vector = vector(&checker.scope, at, written.vector, &mut checker.first_fault);
        let index = type_expression(
            checker.alloc,
            &checker.scope,
            at,
            written.index,
            &mut checker.first_fault,
        )?;
        let index = index_of(at, index, &mut checker.first_fault);
        let value = integer(
            checker.alloc,
            &checker.scope,
            at,
            value,
            &mut checker.first_fault,
        )?;
        Ok(reducing(vector, index, by, value))
    }

    fn add_vertex(
        checker: &mut Checker,
        set: &Name,
        vertex: &Expression,
    ) -> Result<StatementKind, AllocError> {
        let at = set.at();
        let entity = entity(&checker.scope, set, &mut checker.first_fault);
        let value = type_expression(
            checker.alloc,
            &checker.scope,
            at,
            vertex,
            &mut checker.first_fault,
        )?;
        Ok(add_value(at, value, entity, &mut checker.first_fault))
    }

    fn apply(checker: &mut Checker, target: &Name, ends: &Ends, function: &Name) -> StatementKind {
        let at = target.at();
        let apply = read_apply(
            &checker.scope,
            target,
            ends,
            function,
            &mut checker.first_fault,
        );
        apply_to(at, apply, has_ends(ends), &mut checker.first_fault)
    }

    ghost walked = { main_walked };
}

/// A statement that takes a value.
fn of_value(statement: ValueStatement) -> StatementKind
    ensures { statement_kind_tree result ≡ Simple (value_statement_tree statement) }
{
    StatementKind::Simple(SimpleStatement::Value(statement))
}

/// What is in place of a faulty statement.
fn nothing() -> StatementKind
    ensures { statement_kind_tree result ≡ no_action }
{
    of_value(ValueStatement::PrintInt(IntExpression::Number(0)))
}

/// A statement that breaks a rule of types.
fn wrong(at: usize, first_fault: &mut Option<Fault>) -> StatementKind
    ensures action { statement_kind_tree result ≡ no_action }
    ensures first_fault { first_fault.new ≡ Some (earlier first_fault.old (record { at = at; rule = TypeRule.WrongType })) }
{
    note(first_fault, at, TypeRule::WrongType);
    nothing()
}

fn setting(
    vector: Option<usize>,
    index: Option<IntExpression>,
    value: IntExpression,
) -> StatementKind
    ensures { statement_kind_tree result ≡ entry_set vector (option_map int_expression_tree index) (int_expression_tree value) }
{
    match (vector, index) {
        (Some(vector), Some(index)) => StatementKind::Simple(SimpleStatement::SetEntry(
            vector, index, value,
        )),
        _ => nothing(),
    }
}

fn reducing(
    vector: Option<usize>,
    index: Option<IntExpression>,
    by: Reduction,
    value: IntExpression,
) -> StatementKind
    ensures { statement_kind_tree result ≡ entry_reduced vector (option_map int_expression_tree index) by (int_expression_tree value) }
{
    match (vector, index) {
        (Some(vector), Some(index)) => StatementKind::Simple(SimpleStatement::ReduceEntry(
            vector, index, by, value,
        )),
        _ => nothing(),
    }
}

fn add_value(
    at: usize,
    value: Value,
    entity: Entity,
    first_fault: &mut Option<Fault>,
) -> StatementKind
    ensures { outcome first_fault.old (added_to_set at (value_tree value) entity) ≡ (statement_kind_tree result, first_fault.new) }
{
    match entity {
        Entity::SetVariable(slot) => {
            let vertex = integer_of(at, value, first_fault);
            of_value(ValueStatement::AddVertex(slot, vertex))
        }
        Entity::Error => nothing(),
        _ => wrong(at, first_fault),
    }
}

fn print_value(at: usize, value: Value, first_fault: &mut Option<Fault>) -> StatementKind
    ensures { outcome first_fault.old (printed at (value_tree value)) ≡ (statement_kind_tree result, first_fault.new) }
{
    if value.is_error() {
        return nothing();
    }
    if value.is_condition() {
        return match value.into_condition() {
            Some(c) => of_value(ValueStatement::PrintBool(c)),
            None => nothing(),
        };
    }
    match value.into_integer() {
        Some(e) => of_value(ValueStatement::PrintInt(e)),
        None => wrong(at, first_fault),
    }
}

/// Whether an end is written.
fn has_ends(ends: &Ends) -> bool
    ensures { result ≡ ends_are_written (ends_tree ends.now) }
{
    ends.from.is_some() || ends.to.is_some()
}

fn apply_to(
    at: usize,
    apply: NamedApply,
    has_ends: bool,
    first_fault: &mut Option<Fault>,
) -> StatementKind
    ensures { outcome first_fault.old (applied at apply.target (apply_end_tree apply.from) (apply_end_tree apply.to) has_ends apply.function)
        ≡ (statement_kind_tree result, first_fault.new) }
{
    let NamedApply {
        target,
        from,
        to,
        function,
    } = apply;
    if is_error_entity(target) {
        return nothing();
    }
    if is_edges_entity(target) {
        if is_one_wrong(from, to) || are_weights_lacking(target, function) {
            return wrong(at, first_fault);
        }
        return apply_to_edges(at, from, to, function, first_fault);
    }
    match set_named(target) {
        Some(slot) if !has_ends => apply_to_set(at, slot, function, first_fault),
        _ => wrong(at, first_fault),
    }
}

fn apply_to_edges(
    at: usize,
    from: ApplyEnd,
    to: ApplyEnd,
    function: Entity,
    first_fault: &mut Option<Fault>,
) -> StatementKind
    ensures { outcome first_fault.old (edges_applied at (apply_end_tree from) (apply_end_tree to) (names_error function) (edge_function function))
        ≡ (statement_kind_tree result, first_fault.new) }
{
    match edge_function_named(function) {
        Some(index) => {
            if from.is_error() || to.is_error() {
                nothing()
            } else {
                StatementKind::Simple(SimpleStatement::ApplyEdges(ends_of(from, to), index))
            }
        }
        None => {
            if is_error_entity(function) {
                nothing()
            } else {
                wrong(at, first_fault)
            }
        }
    }
}

fn apply_to_set(
    at: usize,
    slot: VarRef,
    function: Entity,
    first_fault: &mut Option<Fault>,
) -> StatementKind
    ensures { outcome first_fault.old (vertices_applied at slot (names_error function) (vertex_function function)) ≡ (statement_kind_tree result, first_fault.new) }
{
    match vertex_function_named(function) {
        Some(index) => StatementKind::Simple(SimpleStatement::ApplyVertex(slot, index)),
        None => {
            if is_error_entity(function) {
                nothing()
            } else {
                wrong(at, first_fault)
            }
        }
    }
}
