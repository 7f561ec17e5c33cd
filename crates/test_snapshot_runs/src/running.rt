//! Runs of a program, each answered by the number of its version.

use crate::failure::{Answer, Failure, REFUSED, need};
use crate::programs::{Counting, Program};
use compiled_runs::{RunBounds, run_text_on_latest};
use compiler::compile;
use plans::Plan;
use shared_graph::{Held, Naming, Reader};
use snapshot_runs::{run_held, run_latest};
use std::alloc::Global;
use std::thread::Threads;
use test_helpers::{ask, tell};

/// The plan of a text.
pub(crate) fn planned(alloc: Global, text: &[u8]) -> Result<Plan, Failure> {
    compile(alloc, text).map_err(|error| Failure::NotCompiled(error.number()))
}

/// A run of a plan on the newest version.
pub(crate) fn run_newest<J: Naming, R: Threads + Sync>(
    rt: &R,
    alloc: Global,
    plan: &Plan,
    me: &mut Reader<J>,
    (program, workers): (Program, usize),
) -> Answer {
    let gate = Counting::new();
    match run_latest(rt, alloc, plan, me, workers, program.turns(), &gate) {
        Ok((number, outcome)) => program.answer(number, &outcome, (&gate, workers)),
        Err(error) => Err(Failure::Refused(error.number())),
    }
}

/// A run on the newest version.
pub(crate) fn run_program<J: Naming, R: Threads + Sync>(
    rt: &R,
    alloc: Global,
    me: &mut Reader<J>,
    (program, workers): (Program, usize),
) -> Answer {
    let plan = planned(alloc, program.text())?;
    run_newest(rt, alloc, &plan, me, (program, workers))
}

/// A run of a text on the newest version.
pub(crate) fn run_text<J: Naming, R: Threads + Sync>(
    rt: &R,
    alloc: Global,
    me: &mut Reader<J>,
    (program, workers): (Program, usize),
) -> Answer {
    let gate = Counting::new();
    let bounds = RunBounds {
        workers,
        turns: program.turns(),
    };
    match run_text_on_latest(rt, alloc, program.text(), me, bounds, &gate) {
        Ok((number, outcome)) => program.answer(number, &outcome, (&gate, workers)),
        Err(error) => Err(Failure::Refused(error.number())),
    }
}

/// A run on a version that is held.
pub(crate) fn run_on_held<J: Naming, R: Threads + Sync>(
    rt: &R,
    alloc: Global,
    held: &Held<J>,
    (program, workers): (Program, usize),
) -> Answer {
    let plan = planned(alloc, program.text())?;
    let gate = Counting::new();
    let number = held.snapshot().number;
    match run_held(rt, alloc, &plan, held, workers, program.turns(), &gate) {
        Ok(outcome) => program.answer(number, &outcome, (&gate, workers)),
        Err(error) => Err(Failure::Refused(error.number())),
    }
}

/// A run on the newest version that memory may run out for, and the same again then. The reader is given the same version
/// meanwhile.
pub(crate) fn run_asked<J: Naming, R: Threads + Print + Sync>(
    rt: &R,
    alloc: Global,
    me: &mut Reader<J>,
    run: (Program, usize),
) -> Answer {
    let plan = planned(alloc, run.0.text())?;
    let asked = ask(rt);
    let first = run_newest(rt, alloc, &plan, me, run);
    let told = tell(rt, first == REFUSED);
    let newest = newest(me);
    let ran = if first == REFUSED {
        run_newest(rt, alloc, &plan, me, run)
    } else {
        first
    };
    asked.and(told).map_err(Failure::Print)?;
    need(ran.is_err() || ran == newest, Failure::Version)?;
    ran
}

// The number of the newest version.
fn newest<J: Naming>(me: &mut Reader<J>) -> Answer {
    match me.latest() {
        Ok(snapshot) => Ok(snapshot.number),
        Err(error) => Err(Failure::Refused(error.number())),
    }
}
