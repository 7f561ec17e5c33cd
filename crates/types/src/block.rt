//! Blocks: typing of statements, one after the other, in `main` and in functions.
ghost use Rattle.std.specs.Prelude.{◌≡◌, OnOk};
ghost use Rattle.syntax.specs.SourceTrees.{Assign, Declare, Reduce};
ghost use Rattle.syntax.specs.SourceViews.{statement_kind_tree, for_loop_tree, initial_tree, parameter_tree, simple_action_tree, block_tree};
ghost use Rattle.expression_types.specs.Faults.{ReportsFaults};
ghost use Rattle.expression_types.specs.ScopeTree.{KeepsNames};
ghost use Rattle.types.specs.inside.BlockMeaning.{block_typed, declared_from, inner_typed, statement_typed};
ghost use Rattle.initializer_types.specs.Views.{checker_of, initializer_tree};

use crate::block_kind::{BlockKind, Compound};
use apply_options::Reduction;
use expression_types::{entity, type_expression};
use initializer_types::{
    Checker, Initializer, WrittenEntry, condition, declare, declare_loop_variable, integer, label,
    read_initial,
};
use std::alloc::AllocError;
use syntax::{Action, Expression, ForLoop, Initial, Name, Parameter, SimpleAction, Statement};

/// Statements in order. What they declare stays visible after them.
#[cycle(statements)]
pub(crate) fn statements<K: BlockKind>(
    block: &[Statement],
    checker: &mut Checker,
) -> Result<Vec<K::Statement>, AllocError>
    ensures typed { ReportsFaults (λ b. (K.meaning.row_tree b.items, checker_of checker.new)) checker.old.first_fault checker.new.first_fault result
        (block_typed K.meaning (checker_of checker.old) (block_tree block.now)) }
    ensures kept { OnOk result (KeepsNames checker.old.scope checker.new.scope) }
{
    let mut typed = Vec::new(checker.alloc);
    'statements: for statement in block {
        let next = one::<K>(statement, checker)?;
        typed.push(next)?;
    }
    Ok(typed)
}

/// One statement, with its number and its label.
#[cycle(statements)]
fn one<K: BlockKind>(
    statement: &Statement,
    checker: &mut Checker,
) -> Result<K::Statement, AllocError>
    ensures typed { ReportsFaults (λ s. (K.meaning.statement_tree s, checker_of checker.new)) checker.old.first_fault checker.new.first_fault result
        (statement_typed K.meaning (checker_of checker.old) statement.now.label (statement_kind_tree statement.now.action)) }
    ensures kept { OnOk result (KeepsNames checker.old.scope checker.new.scope) }
{
    let label = label(checker, &statement.label)?;
    let number = K::number(checker, label)?;
    let action = action::<K>(&statement.action, checker)?;
    Ok(K::labelled(number, label, action))
}

/// A block of its own, after which the names that it declares are forgotten.
#[cycle(statements)]
fn inner<K: BlockKind>(
    block: &[Statement],
    checker: &mut Checker,
) -> Result<Vec<K::Statement>, AllocError>
    ensures typed { ReportsFaults (λ b. (K.meaning.row_tree b.items, checker_of checker.new)) checker.old.first_fault checker.new.first_fault result
        (inner_typed K.meaning (checker_of checker.old) (block_tree block.now)) }
    ensures kept { OnOk result (KeepsNames checker.old.scope checker.new.scope) }
{
    let mark = checker.scope.mark();
    let typed = statements::<K>(block, checker)?;
    checker.scope.leave(mark);
    Ok(typed)
}

/// What a statement does.
#[cycle(statements)]
fn action<K: BlockKind>(action: &Action, checker: &mut Checker) -> Result<K::Action, AllocError>
    ensures typed { ReportsFaults (λ a. (K.meaning.action_tree a, checker_of checker.new)) checker.old.first_fault checker.new.first_fault result
        (K.meaning.action_typed (checker_of checker.old) (statement_kind_tree action.now)) }
    ensures kept { OnOk result (KeepsNames checker.old.scope checker.new.scope) }
{
    match action {
        Action::Simple(action) => without_block::<K>(action, checker),
        Action::While { at, test, body } => {
            K::note_loop(*at, &mut checker.first_fault);
            let test = condition(
                checker.alloc,
                &checker.scope,
                *at,
                test,
                &mut checker.first_fault,
            )?;
            let body = inner::<K>(body, checker)?;
            Ok(K::with_blocks(checker.alloc, Compound::While(test, body)))
        }
        Action::If { at, test, body } => {
            let test = condition(
                checker.alloc,
                &checker.scope,
                *at,
                test,
                &mut checker.first_fault,
            )?;
            let body = inner::<K>(body, checker)?;
            Ok(K::with_blocks(checker.alloc, Compound::If(test, body)))
        }
        Action::IfElse {
            at,
            test,
            body,
            otherwise,
        } => {
            let test = condition(
                checker.alloc,
                &checker.scope,
                *at,
                test,
                &mut checker.first_fault,
            )?;
            let body = inner::<K>(body, checker)?;
            let other = inner::<K>(otherwise, checker)?;
            Ok(K::with_blocks(checker.alloc, Compound::IfElse(test, body, other)))
        }
        Action::For(for_loop) => repeat::<K>(for_loop, checker),
    }
}

/// A `for`, whose name is visible in its body.
#[cycle(statements)]
fn repeat<K: BlockKind>(for_loop: &ForLoop, checker: &mut Checker) -> Result<K::Action, AllocError>
    ensures typed { ReportsFaults (λ a. (K.meaning.action_tree a, checker_of checker.new)) checker.old.first_fault checker.new.first_fault result
        (K.meaning.action_typed (checker_of checker.old) (for_loop_tree for_loop.now)) }
    ensures kept { OnOk result (KeepsNames checker.old.scope checker.new.scope) }
{
    let at = for_loop.at;
    K::note_loop(at, &mut checker.first_fault);
    let first = integer(
        checker.alloc,
        &checker.scope,
        at,
        &for_loop.first,
        &mut checker.first_fault,
    )?;
    let limit = integer(
        checker.alloc,
        &checker.scope,
        at,
        &for_loop.limit,
        &mut checker.first_fault,
    )?;
    let mark = checker.scope.mark();
    let slot = declare_loop_variable(checker, &for_loop.name)?;
    let body = statements::<K>(&for_loop.body, checker)?;
    checker.scope.leave(mark);
    Ok(K::with_blocks(checker.alloc, Compound::For(slot.name, first, limit, body)))
}

/// What a statement without a block does.
fn without_block<K: BlockKind>(
    action: &SimpleAction,
    checker: &mut Checker,
) -> Result<K::Action, AllocError>
    ensures typed { ReportsFaults (λ a. (K.meaning.action_tree a, checker_of checker.new)) checker.old.first_fault checker.new.first_fault result
        (K.meaning.action_typed (checker_of checker.old) (simple_action_tree action.now)) }
    ensures kept { OnOk result (KeepsNames checker.old.scope checker.new.scope) }
{
    match action {
        SimpleAction::Declare {
            at,
            variable,
            initial,
        } => declare_variable::<K>(checker, *at, variable, initial),
        SimpleAction::Print { at, value } => K::print(checker, *at, value),
        SimpleAction::Assign { name, value } => assign::<K>(checker, name, value),
        SimpleAction::Reduce {
            name,
            reduction,
            value,
        } => reduce::<K>(checker, name, *reduction, value),
        SimpleAction::SetEntry {
            vector,
            index,
            value,
        } => {
            let written = WrittenEntry { vector, index };
            K::set_entry(checker, written, value)
        }
        SimpleAction::ReduceEntry {
            vector,
            index,
            reduction,
            value,
        } => {
            let written = WrittenEntry { vector, index };
            K::reduce_entry(checker, written, *reduction, value)
        }
        SimpleAction::AddVertex { set, vertex } => { K::add_vertex(checker, set, vertex) }
        SimpleAction::Apply {
            target,
            ends,
            function,
        } => Ok(K::apply(checker, target, ends, function)),
    }
}

/// A declaration of a variable. The name is not visible in its first value.
fn declare_variable<K: BlockKind>(
    checker: &mut Checker,
    at: usize,
    variable: &Parameter,
    initial: &Initial,
) -> Result<K::Action, AllocError>
    ensures typed { ReportsFaults (λ a. (K.meaning.action_tree a, checker_of checker.new)) checker.old.first_fault checker.new.first_fault result
        (K.meaning.action_typed (checker_of checker.old) (Declare at (parameter_tree variable.now) (initial_tree initial.now))) }
    ensures kept { OnOk result (KeepsNames checker.old.scope checker.new.scope) }
{
    let initializer = read_initial(checker, at, initial)?;
    declare_initialized::<K>(checker, at, variable, initializer)
}

fn declare_initialized<K: BlockKind>(
    checker: &mut Checker,
    at: usize,
    variable: &Parameter,
    initializer: Initializer,
) -> Result<K::Action, AllocError>
    ensures typed { ReportsFaults (λ a. (K.meaning.action_tree a, checker_of checker.new)) checker.old.first_fault checker.new.first_fault result
        (declared_from K.meaning (checker_of checker.old) at (parameter_tree variable.now) (initializer_tree initializer)) }
    ensures kept { OnOk result (KeepsNames checker.old.scope checker.new.scope) }
{
    let (entity, action) = K::variable(checker, at, variable.declared, initializer);
    declare(checker, &variable.name, entity)?;
    Ok(action)
}

/// An assignment to a variable, or to a filter's result.
fn assign<K: BlockKind>(
    checker: &mut Checker,
    name: &Name,
    initial: &Initial,
) -> Result<K::Action, AllocError>
    ensures typed { ReportsFaults (λ a. (K.meaning.action_tree a, checker_of checker.new)) checker.old.first_fault checker.new.first_fault result
        (K.meaning.action_typed (checker_of checker.old) (Assign name.now (initial_tree initial.now))) }
    ensures kept { OnOk result (KeepsNames checker.old.scope checker.new.scope) }
{
    let at = name.at();
    let entity = entity(&checker.scope, name, &mut checker.first_fault);
    let initializer = read_initial(checker, at, initial)?;
    Ok(K::assignment(
        checker.alloc,
        at,
        initializer,
        entity,
        &mut checker.first_fault,
    ))
}

/// A reduction of a variable.
fn reduce<K: BlockKind>(
    checker: &mut Checker,
    name: &Name,
    by: Reduction,
    value: &Expression,
) -> Result<K::Action, AllocError>
    ensures typed { ReportsFaults (λ a. (K.meaning.action_tree a, checker_of checker.new)) checker.old.first_fault checker.new.first_fault result
        (K.meaning.action_typed (checker_of checker.old) (Reduce name.now by value.now)) }
    ensures kept { checker.new.scope ≡ checker.old.scope }
{
    let at = name.at();
    let entity = entity(&checker.scope, name, &mut checker.first_fault);
    let value = type_expression(
        checker.alloc,
        &checker.scope,
        at,
        value,
        &mut checker.first_fault,
    )?;
    Ok(K::reduction(
        checker.alloc,
        at,
        by,
        value,
        entity,
        &mut checker.first_fault,
    ))
}
