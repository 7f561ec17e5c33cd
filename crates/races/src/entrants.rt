//! Programs in a race, each with the reader by which it takes a version.
ghost use Rattle.std.specs.Prelude.{◌≡◌, IfErr, IfOk, Ok, length, map};
ghost use Rattle.std.specs.Arc.{arc_value};
ghost use Rattle.crew.specs.Outcome.{AreWorkers};
ghost use Rattle.shared_graph.specs.Histories.{Shows};
ghost use Rattle.snapshot_runs.specs.Runs.{plan_of_runs};
ghost use Rattle.version_list.specs.Machine.{opened};
ghost use Rattle.races.specs.Race.{IsRunOn, RanTwice};
ghost use Rattle.races.specs.inside.Racing.{RanEarly};
ghost use Rattle.races.specs.RaceScript.{RefusesRun};

use crate::outcomes::{ProgramRuns, VersionRun};
use crew::Open;
use plans::Plan;
use shared_graph::{Naming, Reader, Token};
use snapshot_runs::{LatestRunError, Runs, run_latest_after};
use std::alloc::{AllocError, Global};
use std::sync::Arc;
use std::thread::Threads;

/// A program that did not run yet, and its reader.
pub(crate) struct Entrant<J: Naming> {
    pub(crate) runs: Runs<J>,
    pub(crate) reader: Reader<J>,
}

impl<J: Naming> Drop for Entrant<J> {
    fn drop(self) {
        let Entrant { runs: _, reader: _ } = self;
    }
}

/// A program that ran beside the commits, its reader, and what the run gave.
pub(crate) struct EarlyRun<J: Naming> {
    pub(crate) runs: Runs<J>,
    pub(crate) reader: Reader<J>,
    pub(crate) run: Result<VersionRun, LatestRunError>,
}

impl<J: Naming> Drop for EarlyRun<J> {
    fn drop(self) {
        let EarlyRun {
            runs: _,
            reader: _,
            run: _,
        } = self;
    }
}

/// The programs, each with one of the readers. The only error is out of memory.
pub(crate) fn entrants<J: Naming>(
    alloc: Global,
    readers: Vec<Reader<J>>,
    plans: &[&Arc<Plan>],
) -> Result<Vec<Entrant<J>>, AllocError>
    requires { length readers.items ≡ length plans.now }
    ensures { IfOk result (λ all. map (λ e. plan_of_runs e.runs) all.items ≡ map (λ p. arc_value p.now) plans.now) }
{
    shared_plans(alloc, plans)?
        .into_iter()
        .zip(readers)
        .map(|(plan, reader)| Entrant {
            runs: Runs::new(plan),
            reader,
        })
        .collect(alloc)
}

// The plans once more. The only error is out of memory.
fn shared_plans(alloc: Global, plans: &[&Arc<Plan>]) -> Result<Vec<Arc<Plan>>, AllocError>
    ensures { IfOk result (λ all. map (λ p. arc_value p) all.items ≡ map (λ p. arc_value p.now) plans.now) }
{
    let mut shared = Vec::with_capacity(alloc, plans.len())?;
    for index in 0..plans.len() {
        shared.push(Arc::try_clone(plans[index])?)?;
    }
    Ok(shared)
}

impl<J: Naming> Entrant<J> {
    /// Runs the program on the newest version, by n workers, for at most n turns.
    pub(crate) fn run<T: Threads + Sync>(
        self,
        rt: &T,
        alloc: Global,
        workers: usize,
        turns: u64,
    ) -> EarlyRun<J>
        ensures plan { plan_of_runs result.runs ≡ plan_of_runs self.runs }
        ensures ran { RanEarly J.vertices turns workers result }
    {
        let Entrant {
            mut runs,
            mut reader,
        } = self;
        let run = run_once(rt, alloc, &mut runs, &mut reader, workers, turns);
        EarlyRun { runs, reader, run }
    }
}

impl<J: Naming> EarlyRun<J> {
    /// Lets the program's reader learn what was announced, and runs the program again, beside the record of the early run.
    pub(crate) fn run_again<T: Threads + Sync>(
        self,
        rt: &T,
        alloc: Global,
        told: &Token<J>,
        workers: usize,
        turns: u64,
    ) -> Result<ProgramRuns, LatestRunError>
        requires { RanEarly J.vertices turns workers self }
        ensures ran { IfOk result (RanTwice J.vertices J.room (plan_of_runs self.runs) turns told.now) }
        ensures early { IfOk result (λ runs. self.run ≡ Ok runs.early) }
        ensures workers { IfOk result (λ _. AreWorkers workers) }
        ensures refused { IfErr result (RefusesRun workers) }
    {
        let EarlyRun {
            mut runs,
            mut reader,
            run,
        } = self;
        let early = run?;
        reader.learn(told);
        let late = run_once(rt, alloc, &mut runs, &mut reader, workers, turns)?;
        Ok(ProgramRuns { early, late })
    }
}

// A run on the newest version, with the version's number, beside the record of the run before.
fn run_once<J: Naming, T: Threads + Sync>(
    rt: &T,
    alloc: Global,
    runs: &mut Runs<J>,
    reader: &mut Reader<J>,
    workers: usize,
    turns: u64,
) -> Result<VersionRun, LatestRunError>
    ensures history { IfOk result (λ _. Shows (opened J.vertices J.room) reader.old reader.new) }
    ensures run { IfOk result (IsRunOn J.vertices (plan_of_runs runs.old) turns reader.new.shown) }
    ensures plan { plan_of_runs runs.new ≡ plan_of_runs runs.old }
    ensures workers { IfOk result (λ _. AreWorkers workers) }
    ensures refused { IfErr result (RefusesRun workers) }
{
    let (version, outcome) = run_latest_after(rt, alloc, runs, reader, workers, turns, &Open)?;
    Ok(VersionRun { version, outcome })
}
