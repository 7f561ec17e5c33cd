//! Visible variables: how many of each kind a statement sees.
ghost use Rattle.std.specs.Prelude.{◌≡◌, IfOk, OnOk, length};
ghost use Rattle.typed_tree.specs.BlockTree.{Simple, simple_statement_tree, statement_kind_tree};
ghost use Rattle.plans.specs.inside.Plan.{IsWithin};
ghost use Rattle.plans.specs.Plan.{depth_after, depth_with_integer};
ghost use Rattle.lowering.specs.inside.Visible.{depth_of};

use algorithm_meaning::Depth;
use std::alloc::{AllocError, Global};
use typed_tree::{SimpleStatement, StatementKind, ValueStatement};

/// The names of the variables and vertex sets of `main` that are visible, by their indices. They are counted by lists, so
/// that a count never overflows.
#[derive(Drop)]
pub(crate) struct Visible {
    integers: Vec<usize>,
    conditions: Vec<usize>,
    sets: Vec<usize>,
}

impl Visible {
    /// At the first statement of `main`: the constant sets.
    pub(crate) fn new(alloc: Global, sets: &[usize]) -> Result<Visible, AllocError>
        ensures { IfOk result (λ v. depth_of v ≡ record { integers = 0; conditions = 0; sets = length sets.now }) }
    {
        let mut names = Vec::new(alloc);
        names.extend_from_slice(sets)?;
        Ok(Visible {
            integers: Vec::new(alloc),
            conditions: Vec::new(alloc),
            sets: names,
        })
    }

    pub(crate) fn depth(&self) -> Depth
        ensures { result ≡ depth_of self.now }
    {
        Depth {
            integers: self.integers.len(),
            conditions: self.conditions.len(),
            sets: self.sets.len(),
        }
    }

    /// With what a statement declares after it.
    pub(crate) fn declare(&mut self, action: &StatementKind) -> Result<(), AllocError>
        ensures { OnOk result (depth_of self.new ≡ depth_after (statement_kind_tree action.now) (depth_of self.old)) }
    {
        match action {
            StatementKind::Simple(statement) => self.declare_simple(statement),
            _ => Ok(()),
        }
    }

    /// With what a statement without a block declares.
    pub(crate) fn declare_simple(&mut self, statement: &SimpleStatement) -> Result<(), AllocError>
        ensures { OnOk result (depth_of self.new ≡ depth_after (Simple (simple_statement_tree statement.now)) (depth_of self.old)) }
    {
        match statement {
            SimpleStatement::Value(ValueStatement::DeclareInt(name, _)) => {
                self.integers.push(*name)?
            }
            SimpleStatement::Value(ValueStatement::DeclareBool(name, _)) => {
                self.conditions.push(*name)?
            }
            SimpleStatement::DeclareSet(name, _) => self.sets.push(*name)?,
            _ => {}
        }
        Ok(())
    }

    /// With one more integer: a `for`'s name, or its bound.
    pub(crate) fn declare_int(&mut self, name: usize) -> Result<(), AllocError>
        ensures { OnOk result (depth_of self.new ≡ depth_with_integer (depth_of self.old)) }
    {
        self.integers.push(name)?;
        Ok(())
    }

    /// Without what is beyond this.
    pub(crate) fn cut(&mut self, depth: Depth)
        ensures { IsWithin depth (depth_of self.old) → depth_of self.new ≡ depth }
    {
        self.integers.truncate(depth.integers);
        self.conditions.truncate(depth.conditions);
        self.sets.truncate(depth.sets);
    }
}
