//! Runs on the newest version of a shared graph, and on one that is held.
ghost use Rattle.std.specs.Prelude.{◌≡◌, ◌↔◌, Err, IfOk, IfErr, length};
ghost use Rattle.crew.specs.Outcome.{AreWorkers};
ghost use Rattle.runner.specs.declared.run_error.RunError.TheVariants as run;
ghost use Rattle.shared_graph.specs.Histories.{batches_of, fold_of, fold_of_first, Shows};
ghost use Rattle.snapshot_runs.specs.declared.error.LatestRunError.TheVariants.{BadWorkers};
ghost use Rattle.snapshot_runs.specs.Outcome.{IsOutcomeOn, Leaves};
ghost use Rattle.version_list.specs.Machine.{opened};

use crate::error::LatestRunError;
use algorithm_meaning::Outcome;
use crew::{Gate, WorkerCount, Workers};
use flat_snapshot::Flat;
use plans::Plan;
use runner::{RunError, run_by_workers};
use shared_graph::{Held, Naming, Reader};
use std::alloc::{AllocError, Global};
use std::thread::Threads;
use tree_batch::Graph;

/// Takes the newest version as [`Reader::latest`] does, runs a plan on it by n workers, 1 to 64, for at most so many
/// turns, and gives the version's number with what the run shows.
///
/// The history that the reader shows afterwards begins with the one before. The number is the count of its commits, and the
/// outcome is what the plan's program means within the turns on the fold of their batches, whoever commits, holds or releases
/// meanwhile, and whatever the workers and the gate.
///
/// Errors: `BadWorkers` where the number of workers is not 1 to 64, else `Closed` where nothing is published, and the reader is
/// then as it was; else `NoMemory`, and then the history shown begins with the one before.
///
/// # Example
///
/// ```
/// let (version, outcome) = run_latest(threads, alloc, plan, reader, 2, TURNS, &Open)?;
/// ```
pub fn run_latest<J: Naming, R: Threads + Sync, G: Gate + Sync>(
    rt: &R,
    alloc: Global,
    plan: &Plan,
    reader: &mut Reader<J>,
    workers: usize,
    turns: u64,
    gate: &G,
) -> Result<(u64, Outcome), LatestRunError>
    ensures history { IfOk result (λ r. Shows (opened J.vertices J.room) reader.old reader.new) }
    ensures number { IfOk result (λ r. r.0 ≡ length (batches_of reader.new.shown)) }
    ensures outcome { IfOk result (λ r. IsOutcomeOn plan.now (fold_of J.vertices reader.new.shown) turns r.1) }
    ensures workers { IfOk result (λ _. AreWorkers workers) }
    ensures bad_workers { (result ≡ Err BadWorkers) ↔ (¬ AreWorkers workers) }
    ensures refused { IfErr result (λ e. Leaves (opened J.vertices J.room) e reader.old reader.new) }
{
    let Some(count) = WorkerCount::new(workers) else {
        return Err(LatestRunError::BadWorkers);
    };
    let workers = Workers { rt, gate, count };
    let snapshot = reader.latest()?;
    let outcome = run_on(&workers, alloc, plan, &snapshot.graph, turns)?;
    Ok((snapshot.number, outcome))
}

/// Runs a plan on a version that is held, by n workers, 1 to 64, for at most n turns, and gives what the run shows:
/// what the plan's program means within the turns on the fold of the first batches of the history at whose end the version was
/// held, as many as the version's number says, whatever was committed since.
///
/// Errors: `BadWorkers` where the number of workers is not 1 to 64, else `NoMemory`.
///
/// # Example
///
/// ```
/// match run_held(rt, alloc, &plan, held, workers, program.turns(), &gate) {
/// ```
pub fn run_held<J: Naming, R: Threads + Sync, G: Gate + Sync>(
    rt: &R,
    alloc: Global,
    plan: &Plan,
    held: &Held<J>,
    workers: usize,
    turns: u64,
    gate: &G,
) -> Result<Outcome, RunError>
    ensures outcome { IfOk result (IsOutcomeOn plan.now (fold_of_first J.vertices held.now.history held.now.version) turns) }
    ensures workers { IfOk result (λ _. AreWorkers workers) }
    ensures bad_workers { (result ≡ Err run.BadWorkers) ↔ (¬ AreWorkers workers) }
{
    let Some(count) = WorkerCount::new(workers) else {
        return Err(RunError::BadWorkers);
    };
    let workers = Workers { rt, gate, count };
    let snapshot = held.snapshot();
    Ok(run_on(&workers, alloc, plan, &snapshot.graph, turns)?)
}

// Runs a plan on a graph.
fn run_on<R: Threads + Sync, G: Gate + Sync>(
    workers: &Workers<'_, R, G>,
    alloc: Global,
    plan: &Plan,
    graph: &Graph,
    turns: u64,
) -> Result<Outcome, AllocError>
    ensures { IfOk result (IsOutcomeOn plan.now graph.now turns) }
{
    let flat = Flat::of(alloc, graph)?;
    run_by_workers(workers, alloc, plan, &flat, turns)
}
