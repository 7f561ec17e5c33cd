//! Kinds of blocks: in what the statements of `main` differ from those of functions.
ghost use Rattle.std.specs.Prelude.{◌≡◌, IfOk, OnOk};
ghost use Rattle.syntax.specs.SourceTrees.{AddVertex, Apply, Print, ReduceEntry, SetEntry};
ghost use Rattle.syntax.specs.SourceViews.{ends_tree};
ghost use Rattle.expression_types.specs.Faults.{ReportsFaults, least_of, outcome};
ghost use Rattle.expression_types.specs.ValueTree.{value_tree};
ghost use Rattle.types.specs.inside.BlockMeaning.{BlockMeaning, IsWalked, compound_tree};
ghost use Rattle.initializer_types.specs.Views.{checker_of, initializer_tree};

use apply_options::Reduction;
use expression_types::{Entity, Fault, Value};
use initializer_types::{Checker, Initializer, WrittenEntry};
use std::alloc::{AllocError, Global};
use syntax::{DeclaredType, Ends, Expression, Name};
use typed_tree::{BoolExpression, IntExpression};

/// A statement that holds blocks, with its parts typed.
#[derive(Drop)]
pub(crate) enum Compound<S> {
    While(BoolExpression, Vec<S>),
    If(BoolExpression, Vec<S>),
    IfElse(BoolExpression, Vec<S>, Vec<S>),
    /// The index of its name, its first value, its limit and its body.
    For(usize, IntExpression, IntExpression, Vec<S>),
}

/// A kind of blocks: those of `main`, or those of functions.
pub(crate) trait BlockKind {
    /// What a statement does.
    type Action: Drop;
    /// A statement in a block.
    type Statement: Drop;

    ghost ActionTree: { Type 0 };

    ghost StatementTree: { Type 0 };

    ghost RowTree: { Type 0 };

    /// What statements mean in such a block.
    ghost meaning: { BlockMeaning Self.Action Self.Statement ActionTree StatementTree RowTree };

    /// The number of the next statement, which has this label.
    fn number(checker: &mut Checker, label: Option<usize>) -> Result<u64, AllocError>
        ensures number { IfOk result (λ number. number ≡ meaning.number (checker_of checker.old)) }
        ensures counted { OnOk result (checker_of checker.new ≡ meaning.counted (checker_of checker.old)) }
        ensures kept { checker.new.scope ≡ checker.old.scope }
        ensures first_fault { checker.new.first_fault ≡ checker.old.first_fault };

    /// A statement of this number and label.
    fn labelled(number: u64, label: Option<usize>, action: Self::Action) -> Self::Statement
        ensures { meaning.statement_tree result ≡ meaning.labelled number label (meaning.action_tree action) };

    /// Notes the fault where no loop may be.
    fn note_loop(at: usize, first_fault: &mut Option<Fault>)
        ensures { least_of first_fault.old (meaning.loop_faults at) ≡ first_fault.new };

    /// The statement with these blocks.
    fn with_blocks(alloc: Global, compound: Compound<Self::Statement>) -> Self::Action
        ensures { meaning.action_tree result ≡ meaning.compound (compound_tree meaning.row_tree compound) };

    /// What a variable of this type is, and the statement that declares it.
    fn variable(
        checker: &mut Checker,
        at: usize,
        declared: DeclaredType,
        initializer: Initializer,
    ) -> (Entity, Self::Action)
        ensures typed { outcome checker.old.first_fault (meaning.variable_as (checker_of checker.old) at (initializer_tree initializer) declared)
            ≡ ((result.0, meaning.action_tree result.1), checker.new.first_fault) }
        ensures kept { checker_of checker.new ≡ checker_of checker.old };

    /// An assignment to what a name is.
    fn assignment(
        alloc: Global,
        at: usize,
        initializer: Initializer,
        entity: Entity,
        first_fault: &mut Option<Fault>,
    ) -> Self::Action
        ensures { outcome first_fault.old (meaning.assigned at (initializer_tree initializer) entity) ≡ (meaning.action_tree result, first_fault.new) };

    /// A reduction of what a name is.
    fn reduction(
        alloc: Global,
        at: usize,
        by: Reduction,
        value: Value,
        entity: Entity,
        first_fault: &mut Option<Fault>,
    ) -> Self::Action
        ensures { outcome first_fault.old (meaning.reduced at by (value_tree value) entity) ≡ (meaning.action_tree result, first_fault.new) };

    /// A value that is printed.
    fn print(
        checker: &mut Checker,
        at: usize,
        value: &Expression,
    ) -> Result<Self::Action, AllocError>
        ensures typed { ReportsFaults (λ a. (meaning.action_tree a, checker_of checker.new)) checker.old.first_fault checker.new.first_fault result
            (meaning.action_typed (checker_of checker.old) (Print at value.now)) }
        ensures kept { checker.new.scope ≡ checker.old.scope };

    /// An assignment to an entry of a vector.
    fn set_entry(
        checker: &mut Checker,
        written: WrittenEntry<'_>,
        value: &Expression,
    ) -> Result<Self::Action, AllocError>
        ensures typed { ReportsFaults (λ a. (meaning.action_tree a, checker_of checker.new)) checker.old.first_fault checker.new.first_fault result
            (meaning.action_typed (checker_of checker.old) (SetEntry written.entry.vector.now written.entry.index.now value.now)) }
        ensures kept { checker.new.scope ≡ checker.old.scope };

    /// A reduction of an entry of a vector.
    fn reduce_entry(
        checker: &mut Checker,
        written: WrittenEntry<'_>,
        by: Reduction,
        value: &Expression,
    ) -> Result<Self::Action, AllocError>
        ensures typed { ReportsFaults (λ a. (meaning.action_tree a, checker_of checker.new)) checker.old.first_fault checker.new.first_fault result
            (meaning.action_typed (checker_of checker.old) (ReduceEntry written.entry.vector.now written.entry.index.now by value.now)) }
        ensures kept { checker.new.scope ≡ checker.old.scope };

    /// A vertex that is added to a set.
    fn add_vertex(
        checker: &mut Checker,
        set: &Name,
        vertex: &Expression,
    ) -> Result<Self::Action, AllocError>
        ensures typed { ReportsFaults (λ a. (meaning.action_tree a, checker_of checker.new)) checker.old.first_fault checker.new.first_fault result
            (meaning.action_typed (checker_of checker.old) (AddVertex set.now vertex.now)) }
        ensures kept { checker.new.scope ≡ checker.old.scope };

    /// An apply of a function.
    fn apply(checker: &mut Checker, target: &Name, ends: &Ends, function: &Name) -> Self::Action
        ensures typed { outcome checker.old.first_fault (meaning.action_typed (checker_of checker.old) (Apply target.now (ends_tree ends.now) function.now))
            ≡ ((meaning.action_tree result, checker_of checker.new), checker.new.first_fault) }
        ensures kept { checker.new.scope ≡ checker.old.scope };

    /// The walk over blocks may take for granted what it does.
    ghost walked: { IsWalked meaning };
}
