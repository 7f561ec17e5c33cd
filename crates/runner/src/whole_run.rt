//! Whole runs: a plan from its first instruction to its end.
ghost use Rattle.std.specs.Prelude.{◌≡◌, Err, IfOk};
ghost use Rattle.typed_tree.specs.ProgramTree.{ProgramTree};
ghost use Rattle.algorithm_meaning.specs.Meaning.{meaning};
ghost use Rattle.apply_options.specs.ScheduleTree.{ScheduleTree};
ghost use Rattle.plans.specs.Plan.{plan_of};
ghost use Rattle.plans.specs.PlanOf.{IsPlan};
ghost use Rattle.plans.specs.Reducing.{AppliesReduce};
ghost use Rattle.crew.specs.Outcome.{AreWorkers};
ghost use Rattle.run_state.specs.State.{graph_value};
ghost use Rattle.edge_fold.specs.Changed.{AreApart};
ghost use Rattle.edge_apply.specs.Applied.{AreChangesOf};
ghost use Rattle.pull_engine.specs.KeptCut.{IsCutOf};
ghost use Rattle.runner.specs.HybridSources.{traversal_of};
ghost use Rattle.runner.specs.declared.run_error.RunError.TheVariants.{BadWorkers, NoMemory};

use crate::direction::Traversal;
use crate::edge_applier::{EdgeApplier, ParallelApplier, SerialApplier};
use crate::plan_run::PlanRun;
use crate::run_error::RunError;
use crate::traversal::traverse;
use algorithm_meaning::Outcome;
use crew::{Gate, WorkerCount, Workers};
use edge_apply::Apply;
use edge_fold::Scratch;
use flat_snapshot::Flat;
use plans::Plan;
use pull_engine::KeptCut;
use std::alloc::{AllocError, Global};
use std::thread::Threads;
use vectors::Changes;

/// Runs a plan on a snapshot of a graph, for at most n turns, and tells what the run shows: what the program means
/// on the graph's edges, under any schedule and whoever does its edge applies. The promise is for a program each of whose
/// applies gives a vector numbers by one reduction, as each program does that was compiled.
///
/// The only error is out of memory. Who does the applies serves any run after this one, whatever became of it.
pub fn run_by<E: EdgeApplier>(
    alloc: Global,
    plan: &Plan,
    graph: &Flat,
    turns: u64,
    by: &mut E,
) -> Result<Outcome, AllocError>
    requires { E.is_ready by.old plan.now.functions graph.now }
    ensures means { IfOk result (λ o. (p : ProgramTree) (s : ScheduleTree) → IsPlan plan.now p s → AppliesReduce p (plan_of p s)
        → o ≡ meaning p (graph_value graph.now) turns) }
    ensures ready { E.is_ready by.new plan.now.functions graph.now }
{
    let mut run = PlanRun::open(alloc, plan, graph, turns)?;
    run.run_to_end(alloc, plan, graph, by)?;
    run.into_outcome(alloc, plan, turns)
}

/// Runs a plan by one worker, as `run_by` does.
///
/// # Example
///
/// ```
/// let flat = Flat::of(alloc, graph)?;
/// let outcome = run_alone(alloc, plan, &flat, TURNS)?;
/// ```
pub fn run_alone(
    alloc: Global,
    plan: &Plan,
    graph: &Flat,
    turns: u64,
) -> Result<Outcome, AllocError>
    ensures { IfOk result (λ o. (p : ProgramTree) (s : ScheduleTree) → IsPlan plan.now p s → AppliesReduce p (plan_of p s)
        → o ≡ meaning p (graph_value graph.now) turns) }
{
    let mut alone = SerialApplier::new(alloc);
    run_by(alloc, plan, graph, turns, &mut alone)
}

/// Runs a plan by n workers, 1 to 64, of whom the caller is worker 1, in threads of their own for each edge apply: the
/// outcome does not depend on their number, nor on who does which piece.
///
/// `gate` is called with each piece of an apply before it is done. Where it watches, the pieces and the workers are exactly
/// those of the plan's schedule; else an apply with few edges is done by fewer workers, or as a whole by the caller.
///
/// Errors: `BadWorkers` where the number of workers is not 1 to 64, else `NoMemory`.
///
/// # Example
///
/// ```
/// match run(rt, alloc, plan, graph, workers, TURNS, &gate) {
/// ```
pub fn run<R: Threads + Sync, G: Gate + Sync>(
    rt: &R,
    alloc: Global,
    plan: &Plan,
    graph: &Flat,
    workers: usize,
    turns: u64,
    gate: &G,
) -> Result<Outcome, RunError>
    ensures workers { IfOk result (λ _. AreWorkers workers) }
    ensures refused { result ≡ Err BadWorkers → ¬ AreWorkers workers }
    ensures memory { result ≡ Err NoMemory → AreWorkers workers }
    ensures means { IfOk result (λ o. (p : ProgramTree) (s : ScheduleTree) → IsPlan plan.now p s → AppliesReduce p (plan_of p s)
        → o ≡ meaning p (graph_value graph.now) turns) }
{
    let Some(count) = WorkerCount::new(workers) else {
        return Err(RunError::BadWorkers);
    };
    let workers = Workers { rt, gate, count };
    Ok(run_by_workers(&workers, alloc, plan, graph, turns)?)
}

/// What a run of a plan shows, as [`run`] says, by these workers. The only error is out of memory.
pub fn run_by_workers<R: Threads + Sync, G: Gate + Sync>(
    workers: &Workers<'_, R, G>,
    alloc: Global,
    plan: &Plan,
    graph: &Flat,
    turns: u64,
) -> Result<Outcome, AllocError>
    ensures { IfOk result (λ o. (p : ProgramTree) (s : ScheduleTree) → IsPlan plan.now p s → AppliesReduce p (plan_of p s)
        → o ≡ meaning p (graph_value graph.now) turns) }
{
    let mut crew = ParallelApplier::new(
        alloc,
        |alloc: Global, apply: Apply<
            '_,
        >, traversal: Traversal, cut: &mut KeptCut, scratch: &mut Scratch, states: &mut Vec<
            Scratch,
        >| -> Result<Changes, AllocError>
            requires traversal { traversal ≡ traversal_of apply }
            requires cut { IsCutOf cut.old apply.flat.now }
            ensures once { IfOk result (λ c. AreApart c.vectors.items) }
            ensures changes { IfOk result (λ c. AreChangesOf apply.entry c.vectors.items) }
            ensures cut { IsCutOf cut.new apply.entry.flat.now }
        { traverse(workers, alloc, &apply, traversal, cut, scratch, states) },
    );
    run_by(alloc, plan, graph, turns, &mut crew)
}
