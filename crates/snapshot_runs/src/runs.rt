//! Runs of one plan on versions of a shared graph, each beside the record of the run before.
ghost use Rattle.std.specs.Prelude.{◌≡◌, ◌↔◌, ◌≤◌, Err, IfOk, IfErr, IfSome, OnErr, length};
ghost use Rattle.std.specs.Arc.{arc_value};
ghost use Rattle.crew.specs.Outcome.{AreWorkers};
ghost use Rattle.runner.specs.declared.run_error.RunError.TheVariants as run;
ghost use Rattle.shared_graph.specs.Histories.{batches_of, fold_of, fold_of_first, IsVersionOf, Shows};
ghost use Rattle.snapshot_runs.specs.declared.error.LatestRunError.TheVariants.{BadWorkers};
ghost use Rattle.snapshot_runs.specs.Outcome.{IsOutcomeOn, Leaves};
ghost use Rattle.snapshot_runs.specs.Runs.{plan_of_runs};
ghost use Rattle.snapshot_runs.specs.inside.Recorded.{IsRecordedOn, IsRecordedRun};
ghost use Rattle.version_list.specs.Machine.{opened};

use crate::error::LatestRunError;
use crate::last_run::LastRun;
use crate::recorded::{run_first, run_first_held};
use algorithm_meaning::Outcome;
use crew::{Gate, WorkerCount, Workers};
use plans::Plan;
use run_records::{RecordedRun, RunRecord};
use runner::RunError;
use shared_graph::{Held, Naming, Reader, Token};
use std::alloc::{AllocError, Global};
use std::sync::Arc;
use std::thread::Threads;

/// What is kept of runs: the plan, or the last run that has a record, and with it the plan.
enum RunsState<J: Naming> {
    Recorded(LastRun<J>),
    Planned(Arc<Plan>),
}

impl<J: Naming> Drop for RunsState<J> {
    fn drop(self) {
        match self {
            RunsState::Recorded(_) => {}
            RunsState::Planned(_) => {}
        }
    }
}

/// Runs of a plan on versions of a shared graph, one after another, each of which may follow the record of one before.
#[derive(Drop)]
pub struct Runs<J: Naming> {
    state: RunsState<J>,
}

impl<J: Naming> Runs<J> {
    /// No run yet, of this plan. It takes no memory.
    ///
    /// # Example
    ///
    /// ```
    /// let mut runs = Runs::new(plan);
    /// ```
    pub fn new(plan: Arc<Plan>) -> Runs<J>
        ensures { plan_of_runs result ≡ arc_value plan }
    {
        Runs {
            state: RunsState::Planned(plan),
        }
    }

    /// The plan.
    pub fn plan(&self) -> &Plan
        ensures { result.now ≡ plan_of_runs self.now }
    {
        match &self.state {
            RunsState::Recorded(last) => last.plan(),
            RunsState::Planned(plan) => plan,
        }
    }

    // Runs the plan on the newest version, beside the record that is kept, if there is one.
    fn run_newest<R: Threads + Sync, G: Gate + Sync>(
        &self,
        workers: &Workers<'_, R, G>,
        alloc: Global,
        reader: &mut Reader<J>,
        turns: u64,
    ) -> Result<(u64, RecordedRun), LatestRunError>
        ensures history { IfOk result (λ r. Shows (opened J.vertices J.room) reader.old reader.new) }
        ensures run { IfOk result (λ r. IsRecordedRun J.vertices (plan_of_runs self.now) turns reader.new.shown r.0 r.1) }
        ensures workers { result ≡ Err BadWorkers → ⊥ }
        ensures refused { IfErr result (λ e. Leaves (opened J.vertices J.room) e reader.old reader.new) }
    {
        match &self.state {
            RunsState::Recorded(last) => last.run_again(workers, alloc, reader, turns),
            RunsState::Planned(plan) => run_first(workers, alloc, plan, reader, turns),
        }
    }

    // Runs the plan on a version that is held, beside the record that is kept, if that is of this version.
    fn run_on_held<R: Threads + Sync, G: Gate + Sync>(
        &self,
        workers: &Workers<'_, R, G>,
        alloc: Global,
        held: &Held<J>,
        turns: u64,
    ) -> Result<RecordedRun, AllocError>
        ensures { IfOk result (IsRecordedOn (plan_of_runs self.now) held.now.graph turns) }
    {
        match &self.state {
            RunsState::Recorded(last) => last.run_held_again(workers, alloc, held, turns),
            RunsState::Planned(plan) => run_first_held(workers, alloc, plan, held, turns),
        }
    }

    // Keeps the record of a run on the version of this number, which the history has, in place of the one before, if there is a
    // record.
    fn keep(&mut self, version: u64, run_record: Option<RunRecord>, history: Token<J>)
        requires { IfSome run_record (λ made. (arc_value made.plan ≡ plan_of_runs self.old) × IsVersionOf J.vertices history version (arc_value made.graph)) }
        ensures { plan_of_runs self.new ≡ plan_of_runs self.old }
    {
        if let Some(run_record) = run_record {
            self.state = RunsState::Recorded(LastRun::new(version, run_record, history));
        }
    }
}

/// Takes the newest version and runs a plan on it by n workers, 1 to 64, for at most so many turns, as
/// [`run_latest`](crate::run_latest) does, and gives the version's number with what the run shows. If few edges differ from the
/// version of the last of these runs, this one follows the record of that one. Its outcome is that of a run from nothing. It
/// keeps the record of this run for the next one, if there is memory for it.
///
/// The history that the reader shows afterwards begins with the one before. The number is the count of its commits, and the
/// outcome is what the plan's program means within the turns on the fold of their batches, whoever commits, holds or releases
/// meanwhile, and whatever the workers and the gate. Each reader of the graph may be given, also another than before.
///
/// Errors: `BadWorkers` if the number of workers is not 1 to 64, else `Closed` if nothing is published, and the reader is
/// then as it was; else `NoMemory`, and then the history shown begins with the one before. What is kept of the runs before is
/// then as it was.
///
/// # Example
///
/// ```
/// let (version, outcome) = run_latest_after(rt, alloc, runs, reader, workers, turns, &Open)?;
/// ```
pub fn run_latest_after<J: Naming, R: Threads + Sync, G: Gate + Sync>(
    rt: &R,
    alloc: Global,
    runs: &mut Runs<J>,
    reader: &mut Reader<J>,
    workers: usize,
    turns: u64,
    gate: &G,
) -> Result<(u64, Outcome), LatestRunError>
    ensures history { IfOk result (λ r. Shows (opened J.vertices J.room) reader.old reader.new) }
    ensures number { IfOk result (λ r. r.0 ≡ length (batches_of reader.new.shown)) }
    ensures outcome { IfOk result (λ r. IsOutcomeOn (plan_of_runs runs.old) (fold_of J.vertices reader.new.shown) turns r.1) }
    ensures plan { plan_of_runs runs.new ≡ plan_of_runs runs.old }
    ensures workers { IfOk result (λ _. AreWorkers workers) }
    ensures bad_workers { (result ≡ Err BadWorkers) ↔ (¬ AreWorkers workers) }
    ensures refused { IfErr result (λ e. Leaves (opened J.vertices J.room) e reader.old reader.new) }
{
    let Some(count) = WorkerCount::new(workers) else {
        return Err(LatestRunError::BadWorkers);
    };
    let workers = Workers { rt, gate, count };
    let (version, run) = runs.run_newest(&workers, alloc, reader, turns)?;
    let RecordedRun {
        outcome,
        run_record,
    } = run;
    runs.keep(version, run_record, reader.history());
    Ok((version, outcome))
}

/// Runs a plan on a version that is held, by n workers, 1 to 64, for at most n turns, as [`run_held`](crate::run_held) does, and
/// gives what the run shows. If the last of these runs was on the same version, this one follows the record of that one. Its
/// outcome is that of a run from nothing. It keeps the record of this run for the next one, if there is memory for it.
///
/// The outcome is what the plan's program means within the turns on the fold of the first batches of the history at whose end the
/// version was held, as many as the version's number says, whatever was committed since.
///
/// Errors: `BadWorkers` if the number of workers is not 1 to 64, else `NoMemory`. What is kept of the runs before is then as it
/// was.
///
/// # Example
///
/// ```
/// let outcome = run_held_after(rt, alloc, runs, held, workers, turns, &Open)?;
/// ```
pub fn run_held_after<J: Naming, R: Threads + Sync, G: Gate + Sync>(
    rt: &R,
    alloc: Global,
    runs: &mut Runs<J>,
    held: &Held<J>,
    workers: usize,
    turns: u64,
    gate: &G,
) -> Result<Outcome, RunError>
    ensures outcome { IfOk result (IsOutcomeOn (plan_of_runs runs.old) (fold_of_first J.vertices held.now.history held.now.version) turns) }
    ensures plan { plan_of_runs runs.new ≡ plan_of_runs runs.old }
    ensures workers { IfOk result (λ _. AreWorkers workers) }
    ensures bad_workers { (result ≡ Err run.BadWorkers) ↔ (¬ AreWorkers workers) }
    ensures unchanged { OnErr result (runs.new ≡ runs.old) }
{
    let Some(count) = WorkerCount::new(workers) else {
        return Err(RunError::BadWorkers);
    };
    let workers = Workers { rt, gate, count };
    let run = runs.run_on_held(&workers, alloc, held, turns)?;
    let RecordedRun {
        outcome,
        run_record,
    } = run;
    runs.keep(held.snapshot().number, run_record, held.history());
    Ok(outcome)
}
