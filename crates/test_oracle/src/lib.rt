//! Runs of programs by their plans, compared with the slow run.
//!
//! A [`TestedProgram`] has the checked program of a text beside its plan, pass by pass as the compiler makes them. [`PROGRAMS`]
//! are some that are run.
//!
//! It promises to be safe and to end, and no more; only programs that check or measure depend on it.
#![tactic(auto)]

mod programs;

use algorithm_meaning::{NamedSet, NamedVector, Outcome};
use flat_snapshot::Flat;
use lowering::lower;
use parser::parse;
use plain_run::plain_run;
use plans::Plan;
pub use programs::{PROGRAMS, SEARCHES_AND_LABELS, Scheduled};
use runner::run_alone;
use schedule::accept;
use std::alloc::{AllocError, Global};
use test_helpers::{Checked, check};
use typed_tree::Typed;

/// A program that was checked, and its plan.
pub struct TestedProgram {
    pub typed: Typed,
    pub plan: Plan,
}

impl Drop for TestedProgram {
    fn drop(self) {
        let TestedProgram { typed: _, plan: _ } = self;
    }
}

impl TestedProgram {
    /// The program that a text is, or `None` where a pass refuses it or memory runs out.
    pub fn of(alloc: Global, text: &[u8]) -> Option<TestedProgram> {
        let typed = checked(alloc, text)?;
        let schedule = accept(alloc, &typed).ok()?;
        let plan = lower(alloc, &typed, &schedule).ok()?;
        Some(TestedProgram { typed, plan })
    }
}

/// The checked program that a text is, or `None` where it is none or memory runs out. Its schedule is not looked at.
pub fn checked(alloc: Global, text: &[u8]) -> Option<Typed> {
    let source = parse(alloc, text).ok()?;
    types::check(alloc, &source).ok()
}

/// Checks that a program shows the same by its plan and by the slow run, on a graph of these edges, with n turns. The
/// only error is out of memory.
pub fn check_plan(
    alloc: Global,
    program: &TestedProgram,
    graph: &Flat,
    edges: &[(u32, u32, i64)],
    turns: u64,
) -> Result<Checked, AllocError> {
    let by_plan = run_alone(alloc, &program.plan, graph, turns)?;
    let slowly = plain_run(alloc, &program.typed, graph.vertices(), edges, turns)?;
    Ok(check_same(&by_plan, &slowly))
}

/// Checks that two outcomes are the same: ends, turns, texts, and vectors and sets in order.
pub fn check_same(one: &Outcome, other: &Outcome) -> Checked {
    check(one.end == other.end, "the end")?;
    check(one.turns == other.turns, "the turns")?;
    check(one.text.as_slice() == other.text.as_slice(), "the text")?;
    check(
        are_same_vectors(one.vectors.as_slice(), other.vectors.as_slice()),
        "the vectors",
    )?;
    check(
        are_same_sets(one.sets.as_slice(), other.sets.as_slice()),
        "the sets",
    )
}

fn are_same_vectors(some: &[NamedVector], others: &[NamedVector]) -> bool {
    for (one, other) in some.iter().zip(others) {
        if one.name.as_slice() != other.name.as_slice()
            || one.entries.as_slice() != other.entries.as_slice()
        {
            return false;
        }
    }
    some.len() == others.len()
}

fn are_same_sets(some: &[NamedSet], others: &[NamedSet]) -> bool {
    for (one, other) in some.iter().zip(others) {
        if one.name.as_slice() != other.name.as_slice()
            || one.members.as_slice() != other.members.as_slice()
        {
            return false;
        }
    }
    some.len() == others.len()
}
