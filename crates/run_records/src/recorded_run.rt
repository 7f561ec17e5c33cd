//! Runs that make a record, from nothing or beside the record of a former run of the same plan.
ghost use Rattle.std.specs.Prelude.{◌≡◌, IfOk, IfSome};
ghost use Rattle.std.specs.Arc.{arc_value};
ghost use Rattle.typed_tree.specs.ProgramTree.{ProgramTree};
ghost use Rattle.algorithm_meaning.specs.Meaning.{meaning};
ghost use Rattle.apply_options.specs.ScheduleTree.{ScheduleTree};
ghost use Rattle.edge_differences.specs.Listed.{AreSameBut};
ghost use Rattle.plans.specs.Plan.{plan_of};
ghost use Rattle.plans.specs.PlanOf.{IsPlan};
ghost use Rattle.plans.specs.Reducing.{AppliesReduce};
ghost use Rattle.run_state.specs.State.{graph_value};
ghost use Rattle.edge_fold.specs.Changed.{AreApart};
ghost use Rattle.edge_apply.specs.Applied.{AreChangesOf};
ghost use Rattle.runner.specs.HybridSources.{traversal_of};
ghost use Rattle.runner.specs.KeptCut.{IsCutOf};
ghost use Rattle.run_records.specs.Former.{IsFormerOf};
ghost use Rattle.run_records.specs.inside.Follower.{IsFollower};

use crate::follower::Follower;
use crate::run_record::RunRecord;
use algorithm_meaning::Outcome;
use crew::{Gate, Workers};
use edge_apply::Apply;
use edge_fold::Scratch;
use flat_snapshot::Flat;
use plans::Plan;
use runner::{ApplyEngine, KeptCut, ParallelApplier, Traversal, run_by, run_by_workers, traverse};
use std::alloc::{AllocError, Global};
use std::sync::Arc;
use std::thread::Threads;
use vectors::Changes;

/// What a run shows, and its record, if that was kept.
#[derive(Drop)]
pub struct RecordedRun {
    pub outcome: Outcome,
    pub run_record: Option<RunRecord>,
}

/// The record of a former run, for a run of the same plan on another version of its graph.
#[derive(Clone, Copy)]
pub struct FormerRecord<'a> {
    pub run_record: &'a RunRecord,
    /// All edges in which the two graphs differ, and maybe more.
    pub edges: &'a [(u32, u32)],
}

/// Runs a plan on a graph for at most n turns, as [`run_by`] does, and makes the record of the run. `by` does the applies.
///
/// The only error is out of memory. If memory is refused for the record, the run has none, which is no error.
pub fn run_recorded<E: ApplyEngine + Drop>(
    alloc: Global,
    plan: Arc<Plan>,
    graph: Arc<Flat>,
    turns: u64,
    by: E,
) -> Result<RecordedRun, AllocError>
    requires { E.is_ready by (arc_value graph) }
    ensures means { IfOk result (λ r. (p : ProgramTree) (s : ScheduleTree) → IsPlan (arc_value plan) p s → AppliesReduce p (plan_of p s)
        → r.outcome ≡ meaning p (graph_value (arc_value graph)) turns) }
    ensures kept { IfOk result (λ r. IfSome r.run_record (λ made. (made.plan ≡ plan) × (made.graph ≡ graph))) }
{
    let follower = Follower::of_nothing(alloc, by);
    run_with(alloc, plan, graph, turns, follower)
}

/// Runs the plan of a record on another version of its graph for at most n turns, beside that record, and makes the record of
/// this run. The outcome is that of a run from nothing. The listed edges are all in which the two graphs differ.
///
/// The only error is out of memory. If memory is refused for a record, or while the record is followed, that is no error.
pub fn run_after<E: ApplyEngine + Drop>(
    alloc: Global,
    former: &RunRecord,
    graph: Arc<Flat>,
    edges: &[(u32, u32)],
    turns: u64,
    by: E,
) -> Result<RecordedRun, AllocError>
    requires engine { E.is_ready by (arc_value graph) }
    requires vertices { (arc_value former.now.graph).vertices ≡ (arc_value graph).vertices }
    requires edges { AreSameBut edges.now (arc_value graph).edges (arc_value former.now.graph).edges }
    ensures means { IfOk result (λ r. (p : ProgramTree) (s : ScheduleTree) → IsPlan (arc_value former.now.plan) p s → AppliesReduce p (plan_of p s)
        → r.outcome ≡ meaning p (graph_value (arc_value graph)) turns) }
    ensures kept { IfOk result (λ r. IfSome r.run_record (λ made. (arc_value made.plan ≡ arc_value former.now.plan) × (made.graph ≡ graph))) }
{
    let plan = former.plan.clone()?;
    let follower = Follower::of(alloc, former, edges, by);
    run_with(alloc, plan, graph, turns, follower)
}

/// Runs a plan by these workers, as [`run_by_workers`] does, beside the record of a former run if there is one, and makes the
/// record of this run. If memory is refused for that, it runs the plan once more without a record.
///
/// The only error is out of memory, as of [`run_by_workers`].
pub fn run_with_record<R: Threads + Sync, G: Gate + Sync>(
    workers: &Workers<'_, R, G>,
    alloc: Global,
    plan: &Arc<Plan>,
    graph: &Arc<Flat>,
    turns: u64,
    former: Option<FormerRecord<'_>>,
) -> Result<RecordedRun, AllocError>
    requires former { IfSome former (IsFormerOf (arc_value plan.now) (arc_value graph.now)) }
    ensures means { IfOk result (λ r. (p : ProgramTree) (s : ScheduleTree) → IsPlan (arc_value plan.now) p s → AppliesReduce p (plan_of p s)
        → r.outcome ≡ meaning p (graph_value (arc_value graph.now)) turns) }
    ensures kept { IfOk result (λ r. IfSome r.run_record (λ made. (arc_value made.plan ≡ arc_value plan.now) × (arc_value made.graph ≡ arc_value graph.now))) }
{
    match recorded_by(workers, alloc, plan, graph, turns, former) {
        Ok(run) => Ok(run),
        Err(_) => {
            let outcome = run_by_workers(workers, alloc, plan, graph, turns)?;
            Ok(RecordedRun {
                outcome,
                run_record: None,
            })
        }
    }
}

/// Runs a plan by these workers, beside a record if there is one, and makes a record. The only error is out of memory.
fn recorded_by<R: Threads + Sync, G: Gate + Sync>(
    workers: &Workers<'_, R, G>,
    alloc: Global,
    plan: &Arc<Plan>,
    graph: &Arc<Flat>,
    turns: u64,
    former: Option<FormerRecord<'_>>,
) -> Result<RecordedRun, AllocError>
    requires former { IfSome former (IsFormerOf (arc_value plan.now) (arc_value graph.now)) }
    ensures means { IfOk result (λ r. (p : ProgramTree) (s : ScheduleTree) → IsPlan (arc_value plan.now) p s → AppliesReduce p (plan_of p s)
        → r.outcome ≡ meaning p (graph_value (arc_value graph.now)) turns) }
    ensures kept { IfOk result (λ r. IfSome r.run_record (λ made. (arc_value made.plan ≡ arc_value plan.now) × (arc_value made.graph ≡ arc_value graph.now))) }
{
    let crew = ParallelApplier::new(
        alloc,
        |alloc: Global, apply: Apply<
            '_,
        >, traversal: Traversal, cut: &mut KeptCut, scratch: &mut Scratch, states: &mut Vec<
            Scratch,
        >| -> Result<Changes, AllocError>
            requires traversal { traversal ≡ traversal_of apply }
            requires cut { IsCutOf cut.old apply.flat.now }
            ensures once { IfOk result (λ c. AreApart c.vectors.items) }
            ensures changes { IfOk result (λ c. AreChangesOf apply.entry c.vectors.items) }
            ensures cut { IsCutOf cut.new apply.entry.flat.now }
        { traverse(workers, alloc, &apply, traversal, cut, scratch, states) },
    );
    let graph = graph.clone()?;
    match former {
        None => run_recorded(alloc, plan.clone()?, graph, turns, crew),
        Some(former) => {
            let FormerRecord { run_record, edges } = former;
            run_after(alloc, run_record, graph, edges, turns, crew)
        }
    }
}

/// Runs a plan on a graph with a follower, and takes its record. The only error is out of memory.
fn run_with<E: ApplyEngine + Drop>(
    alloc: Global,
    plan: Arc<Plan>,
    graph: Arc<Flat>,
    turns: u64,
    mut follower: Follower<'_, E>,
) -> Result<RecordedRun, AllocError>
    requires engine { E.is_ready follower.by (arc_value graph) }
    requires follower { IsFollower (arc_value plan).functions (arc_value graph) follower }
    ensures means { IfOk result (λ r. (p : ProgramTree) (s : ScheduleTree) → IsPlan (arc_value plan) p s → AppliesReduce p (plan_of p s)
        → r.outcome ≡ meaning p (graph_value (arc_value graph)) turns) }
    ensures kept { IfOk result (λ r. IfSome r.run_record (λ made. (made.plan ≡ plan) × (made.graph ≡ graph))) }
{
    let outcome = run_by(alloc, &plan, &graph, turns, &mut follower)?;
    let run_record = follower.into_record(plan, graph);
    Ok(RecordedRun {
        outcome,
        run_record,
    })
}
