//! The state of the checker on its way through a source: the scope, names, labels and statements so far.
ghost use Rattle.std.specs.Prelude.{◌≡◌, IfOk, OnOk};
ghost use Rattle.expression_types.specs.declared.scope.Entity.TheVariants.{LoopVariable};
ghost use Rattle.expression_types.specs.Faults.{ReportsFaults};
ghost use Rattle.expression_types.specs.ScopeTree.{KeepsNames};
ghost use Rattle.initializer_types.specs.Views.{checker_of};
ghost use Rattle.initializer_types.specs.Checker.{condition_slot as slot_of_condition, declared_in, integer_slot as slot_of_integer, with_label, set_slot as slot_of_set};

use crate::quoted_names::between_ends;
use crate::reductions::Reductions;
use expression_types::{Entity, Fault, Names, Scope, TypeRule, note};
use std::alloc::{AllocError, Global};
use syntax::Name;
use typed_tree::{Name as Text, Sequence, VarRef};

/// What is visible at a point of the source, and what came before it.
pub struct Checker {
    /// Where all that it holds is allocated.
    pub alloc: Global,
    /// The visible names.
    pub scope: Scope,
    /// All names that were declared.
    pub names: Vec<Text>,
    /// The labels, with `#` at both ends, each with its index.
    pub labels: Names<usize>,
    /// The labels without `#`.
    pub label_names: Vec<Text>,
    /// The indices of the labels of the statements of `main` that came before.
    pub statements: Vec<Option<usize>>,
    /// What the edge function around this point writes.
    pub writes: Reductions,
    /// What each edge function writes.
    pub written: Vec<Reductions>,
    /// Of the faults so far the least, if there is one.
    pub first_fault: Option<Fault>,
}

impl Drop for Checker {
    fn drop(self) {
        let Checker {
            alloc: _,
            scope: _,
            names: _,
            labels: _,
            label_names: _,
            statements: _,
            writes: _,
            written: _,
            first_fault: _,
        } = self;
    }
}

impl Checker {
    /// The names that were declared, and the labels.
    pub fn into_names(self) -> (Vec<Text>, Vec<Text>)
        ensures { (result.0.items ≡ (checker_of self).names) × (result.1.items ≡ (checker_of self).label_names) }
    {
        let Checker {
            alloc: _,
            scope: _,
            names,
            labels: _,
            label_names,
            statements: _,
            writes: _,
            written: _,
            first_fault: _,
        } = self;
        (names, label_names)
    }

    /// The index of the next integer, for the next name.
    pub fn integer_slot(&self) -> VarRef
        ensures { result ≡ slot_of_integer (checker_of self.now) }
    {
        VarRef {
            index: self.scope.integers(),
            name: self.names.len(),
        }
    }

    /// The index of the next condition, for the next name.
    pub fn condition_slot(&self) -> VarRef
        ensures { result ≡ slot_of_condition (checker_of self.now) }
    {
        VarRef {
            index: self.scope.conditions(),
            name: self.names.len(),
        }
    }

    /// The index of the next variable that is a vertex set, for the next name.
    pub fn set_slot(&self) -> VarRef
        ensures { result ≡ slot_of_set (checker_of self.now) }
    {
        VarRef {
            index: self.scope.sets(),
            name: self.names.len(),
        }
    }
}

/// Makes a name visible, and puts it into the table of names. A name that is visible already stays what it was, and the
/// fault is noted.
///
/// The error means that memory ran out.
pub fn declare(checker: &mut Checker, name: &Name, entity: Entity) -> Result<(), AllocError>
    ensures declared { ReportsFaults (λ _. checker_of checker.new) checker.old.first_fault checker.new.first_fault result
        (declared_in (checker_of checker.old) name.now entity) }
    ensures kept { OnOk result (KeepsNames checker.old.scope checker.new.scope) }
{
    checker
        .scope
        .declare(checker.alloc, name, entity, &mut checker.first_fault)?;
    let copy = Sequence::new(Vec::from_slice(checker.alloc, name.bytes())?);
    checker.names.push(copy)?;
    Ok(())
}

/// Declares the variable of a `for`, which is the next integer, and answers its index and that of its name.
///
/// The error means that memory ran out.
pub fn declare_loop_variable(checker: &mut Checker, name: &Name) -> Result<VarRef, AllocError>
    ensures declared { ReportsFaults (λ _. checker_of checker.new) checker.old.first_fault checker.new.first_fault result
        (declared_in (checker_of checker.old) name.now (LoopVariable (slot_of_integer (checker_of checker.old)))) }
    ensures slot { IfOk result (λ slot. slot ≡ slot_of_integer (checker_of checker.old)) }
    ensures kept { OnOk result (KeepsNames checker.old.scope checker.new.scope) }
{
    let slot = checker.integer_slot();
    declare(checker, name, Entity::LoopVariable(slot))?;
    Ok(slot)
}

/// The index of a statement's label among all labels, or `None` if the statement has no label. The scope is unchanged. If
/// another statement has the label, the fault is noted.
///
/// The error means that memory ran out.
pub fn label(checker: &mut Checker, label: &Option<Name>) -> Result<Option<usize>, AllocError>
    ensures labelled { ReportsFaults (λ index. (index, checker_of checker.new)) checker.old.first_fault checker.new.first_fault result
        (with_label (checker_of checker.old) label.now) }
    ensures kept { checker.new.scope ≡ checker.old.scope }
{
    let Some(label) = label else {
        return Ok(None);
    };
    if let Some(index) = checker.labels.get(label.bytes()) {
        note(&mut checker.first_fault, label.at(), TypeRule::BadLabel);
        return Ok(Some(index));
    }
    let index = checker.labels.len();
    let name = between_ends(checker.alloc, label.bytes())?;
    checker.labels.push(checker.alloc, label.bytes(), index)?;
    checker.label_names.push(name)?;
    Ok(Some(index))
}
