//! Compiling, runs and a race that memory may run out for: what they are given is then as it was, and the same call is answered
//! afterwards as if it had not been made before.
//!
//! With ample memory a test sees the answer alone. `bench/refused-growths` runs each again and again, and refuses one after
//! another of the requests for memory that are made between the lines "asked" and "900" or "whole".

use crate::calls::{Call, Table, check_table};
use crate::failure::{Answer, Failure, REFUSED};
use crate::programs::{Counting, Program, TURNS};
use crate::racing::{RACE, run_race};
use crate::running::planned;
use compiler::compile;
use flat_snapshot::Flat;
use plans::Plan;
use races::race_script;
use runner::run;
use std::alloc::Global;
use std::sync::Arc;
use std::test::Fail;
use std::thread::Threads;
use test_helpers::{ask, tell};
use tree_batch::{Batch, Entry, Graph};

// A fork that comes together, with weights, and a tail; a sixth vertex has no edge.
const SIX: [Entry; 5] = [
    Entry::Add(0, 1, 4),
    Entry::Add(0, 2, 1),
    Entry::Add(1, 3, -6),
    Entry::Add(2, 3, 1),
    Entry::Add(3, 4, 2),
];

fn six_vertices(alloc: Global) -> Result<Flat, Fail> {
    let mut batch = Batch::new(alloc);
    for entry in &SIX {
        batch.push(*entry)?;
    }
    let graph = Graph::new(6, 64)?.apply(alloc, &batch)?;
    Ok(Flat::of(alloc, &graph)?)
}

// How a run on the six vertices is answered: by 0 if it shows what it must.
fn run_on_six<R: Threads + Sync>(
    rt: &R,
    alloc: Global,
    plan: &Plan,
    graph: &Flat,
    workers: usize,
) -> Answer {
    let gate = Counting::new();
    match run(rt, alloc, plan, graph, workers, TURNS, &gate) {
        Ok(outcome) => Program::OnSix.answer(0, &outcome, (&gate, workers)),
        Err(error) => Err(Failure::Refused(error.number())),
    }
}

// The plan of the search, be it at the second attempt.
fn planned_again<R: Print>(rt: &R, alloc: Global) -> Result<Plan, Failure> {
    let asked = ask(rt);
    let first = planned(alloc, Program::OnPaths.text());
    let is_refused = matches!(first, Err(Failure::NotCompiled(900)));
    let told = tell(rt, is_refused);
    asked.and(told).map_err(Failure::Print)?;
    if is_refused {
        return planned(alloc, Program::OnPaths.text());
    }
    first
}

#[test]
fn a_compiling(rt: HostRuntime) -> Result<(), Fail> {
    let graph = six_vertices(rt.alloc())?;
    let ran = match planned_again(&rt, rt.alloc()) {
        Ok(plan) => run_on_six(&rt, rt.alloc(), &plan, &graph, 1),
        Err(failure) => Err(failure),
    };
    drop(graph);
    assert_eq!(rt; ran, Ok(0));
    Ok(())
}

#[test]
fn a_run_by_two_workers(rt: HostRuntime) -> Result<(), Fail> {
    let graph = six_vertices(rt.alloc())?;
    let plan = compile(rt.alloc(), Program::OnPaths.text())?;
    let asked = ask(&rt);
    let first = run_on_six(&rt, rt.alloc(), &plan, &graph, 2);
    let told = tell(&rt, first == REFUSED);
    let ran = if first == REFUSED {
        run_on_six(&rt, rt.alloc(), &plan, &graph, 2)
    } else {
        first
    };
    drop(plan);
    drop(graph);
    assert_eq!(rt; asked.and(told), Ok(()));
    assert_eq!(rt; ran, Ok(0));
    Ok(())
}

// A run on the second version is answered by its path, be it at the second attempt, and the graph continues.
const NEWEST: Table = Table {
    vertices: 4,
    readers: 2,
    rows: &[
        (1, Call::Step(1), Ok(1)),
        (1, Call::Step(2), Ok(2)),
        (0, Call::Asked(Program::OnPaths, 2), Ok(2)),
        (0, Call::Step(3), Ok(3)),
        (1, Call::Newest(Program::OnPaths, 2), Ok(3)),
        (0, Call::Trim, Ok(3)),
    ],
    closed: &[],
};

#[test]
fn a_run_on_the_newest_version(rt: HostRuntime) -> Result<(), Fail> {
    assert_eq!(rt; check_table(&rt, &NEWEST), Ok(()));
    Ok(())
}

#[test]
fn a_race(rt: HostRuntime) -> Result<(), Fail> {
    let alloc = rt.alloc();
    let plan = Arc::new(alloc, compile(alloc, Program::OnPaths.text())?)?;
    let (order, again) = (race_script(alloc, RACE)?, race_script(alloc, RACE)?);
    let asked = ask(&rt);
    let first = run_race(&rt, alloc, order, &[&plan], 2);
    let told = tell(&rt, first == REFUSED);
    let raced = if first == REFUSED {
        run_race(&rt, alloc, again, &[&plan], 2)
    } else {
        first
    };
    drop(plan);
    assert_eq!(rt; asked.and(told), Ok(()));
    assert_eq!(rt; raced, Ok(0));
    Ok(())
}
