//! Label sites: what each label of a program is before.
ghost use Rattle.std.specs.Prelude.{◌≡◌, ◌++◌, drop, nat_eq, IfOk, OnOk};
ghost use Rattle.std.specs.Map.{lookup};
ghost use Rattle.typed_tree.specs.BlockTree.{Simple, statement_kind_tree, simple_statement_tree, block_tree};
ghost use Rattle.schedule.specs.Schedule.{apply_of, label_of, modifying_as, sites_in, sites_of};
ghost use Rattle.schedule.specs.inside.Putting.{AreSites, PutsSite};

use indexmap::IndexMap;
use std::alloc::{AllocError, Global};
use std::marker::Model;
use typed_tree::{MainStatement, SetValue, SimpleStatement, StatementApply, StatementKind};

/// What a label is before.
#[derive(Clone, Copy, Debug, PartialEq, Eq)]
pub struct Site {
    /// What its statement applies, if it does.
    pub apply: Option<StatementApply>,
    /// The label of the statement right after it in its block, where there is one with a label.
    pub next: Option<usize>,
}

/// The labels of the statements of `main`, each with what it is before.
pub(crate) struct Sites {
    entries: IndexMap<usize, Site>,
}

impl Drop for Sites {
    fn drop(self) {
        let Sites { entries: _ } = self;
    }
}

impl Model for Sites {
    ghost use Rattle.std.specs.Prelude.{ℕ, List};
    ghost use Rattle.schedule.specs.declared.site.Site.{Site as OneSite};

    ghost Value = { List (ℕ × OneSite) };

    ghost view = { λ s. s.entries.entries };
}

impl Sites {
    /// Those of the statements of `main`. The time is in proportion to the statements.
    pub(crate) fn of(alloc: Global, main: &[MainStatement]) -> Result<Sites, AllocError>
        ensures { IfOk result (λ sites. AreSites sites (block_tree main.now)) }
    {
        let mut list = Vec::new(alloc);
        push_sites(main, &mut list)?;
        let mut sites = Sites {
            entries: IndexMap::new(alloc),
        };
        'sites: for site in &list {
            sites.put(site.0, site.1)?;
        }
        Ok(sites)
    }

    /// What the label is before, or `None` where it is before no statement of `main`.
    pub(crate) fn get(&self, label: usize) -> Option<Site>
        ensures { result ≡ lookup (nat_eq label) self.now }
    {
        self.entries.get(&label).copied()
    }

    /// Puts a label after the others, if it is not there already.
    fn put(&mut self, label: usize, site: Site) -> Result<(), AllocError>
        ensures { OnOk result (PutsSite self.old label site self.new) }
    {
        match self.get(label) {
            Some(_) => Ok(()),
            None => {
                self.entries.insert(label, site)?;
                Ok(())
            }
        }
    }
}

/// Puts the labels of the statements, and of those in their blocks, after the others, in the order of the text.
#[cycle(sites)]
fn push_sites(
    statements: &[MainStatement],
    sites: &mut Vec<(usize, Site)>,
) -> Result<(), AllocError>
    ensures { OnOk result (sites.new.items ≡ sites.old.items ++ sites_of (block_tree statements.now)) }
{
    let mut behind: usize = 0;
    'statements: for statement in statements {
        behind += 1;
        if let Some(label) = statement.label {
            let site = Site {
                apply: applied_in(&statement.action),
                next: label_at(statements, behind),
            };
            sites.push((label, site))?;
        }
        push_inner(&statement.action, sites)?;
    }
    Ok(())
}

/// Puts the labels of the statements in the blocks of a statement after the others, in the order of the text.
#[cycle(sites)]
fn push_inner(action: &StatementKind, sites: &mut Vec<(usize, Site)>) -> Result<(), AllocError>
    ensures { OnOk result (sites.new.items ≡ sites.old.items ++ sites_in (statement_kind_tree action.now)) }
{
    match action {
        StatementKind::If(_, body) => push_sites(body, sites),
        StatementKind::While(_, body) => push_sites(body, sites),
        StatementKind::For(_, _, _, body) => push_sites(body, sites),
        StatementKind::IfElse(_, body, other) => {
            push_sites(body, sites)?;
            push_sites(other, sites)
        }
        _ => Ok(()),
    }
}

/// The label of the statement at this index, if it is there and has one.
fn label_at(statements: &[MainStatement], index: usize) -> Option<usize>
    ensures { result ≡ label_of (block_tree (drop index statements.now)) }
{
    statements.get(index)?.label
}

/// What a statement applies, if it does.
fn applied_in(action: &StatementKind) -> Option<StatementApply>
    ensures { result ≡ apply_of (statement_kind_tree action.now) }
{
    match action {
        StatementKind::Simple(statement) => applied_by(statement),
        _ => None,
    }
}

/// What a statement without a block applies, if it does.
#[tactic(auto, using(crate::proofs::SimpleStatements::value_applies_nothing))]
fn applied_by(statement: &SimpleStatement) -> Option<StatementApply>
    ensures { result ≡ apply_of (Simple (simple_statement_tree statement.now)) }
{
    match statement {
        SimpleStatement::ApplyVertex(set, function) => Some(StatementApply::Vertices {
            set: *set,
            function: *function,
        }),
        SimpleStatement::ApplyEdges(ends, function) => Some(StatementApply::Edges {
            ends: *ends,
            function: *function,
            result: None,
        }),
        SimpleStatement::DeclareSet(name, value) => modifying(*value, *name),
        SimpleStatement::AssignSet(slot, value) => modifying(*value, slot.name),
        _ => None,
    }
}

/// The edge apply whose changes a set of this name gets, if that is its value.
fn modifying(value: SetValue, name: usize) -> Option<StatementApply>
    ensures { result ≡ modifying_as name value }
{
    match value {
        SetValue::Modified(ends, function, _) => Some(StatementApply::Edges {
            ends,
            function,
            result: Some(name),
        }),
        _ => None,
    }
}
