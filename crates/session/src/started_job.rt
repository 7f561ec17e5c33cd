//! Jobs of a session, and how one that has done nothing follows the record of a former run.
ghost use Rattle.std.specs.Prelude.{◌≡◌, IfOk, IfSome, None, OnErr, OnOk, Some, true};
ghost use Rattle.std.specs.Arc.{arc_value};
ghost use Rattle.typed_tree.specs.ProgramTree.{ProgramTree};
ghost use Rattle.apply_options.specs.ScheduleTree.{ScheduleTree};
ghost use Rattle.plans.specs.Machine.{step};
ghost use Rattle.plans.specs.Plan.{plan_of};
ghost use Rattle.plans.specs.PlanOf.{IsPlan};
ghost use Rattle.plans.specs.Reducing.{AppliesReduce};
ghost use Rattle.run_state.specs.State.{graph_value};
ghost use Rattle.runner.specs.Job.{stand_of};
ghost use Rattle.runner.specs.Resting.{HasStepped, job_value};
ghost use Rattle.runner.specs.declared.job.Stand.TheVariants.{Ended};
ghost use Rattle.version_list.specs.Machine.{is_kept};
ghost use Rattle.version_records.specs.VersionRecords.{IsPredecessor};
ghost use Rattle.session.specs.inside.Records.{HaveSomePlans, IsRecordOfRun, ServesRuns, StayRecords};

use algorithm_meaning::End;
use flat_snapshot::Flat;
use plans::Plan;
use run_records::{Follower, RunRecord};
use runner::{Job, SerialApplier, Stand};
use std::alloc::{AllocError, Global};
use std::sync::Arc;
use version_list::Versions;
use version_records::{Predecessor, VersionRecords};

/// The number of a job's program, which counts from 1, and that of its version.
#[derive(Clone, Copy)]
pub(crate) struct JobOrigin {
    pub(crate) program: u64,
    pub(crate) version: u64,
}

/// A job, and where it comes from as long as it has done nothing.
#[derive(Drop)]
pub(crate) struct StartedJob {
    pub(crate) origin: Option<JobOrigin>,
    pub(crate) job: Job,
}

/// How a job has ended, and the record of its run, if that was kept.
#[derive(Drop)]
struct RecordedEnd {
    end: End,
    run_record: Option<RunRecord>,
}

impl StartedJob {
    /// Does one instruction, as [`Job::step`] does.
    pub(crate) fn step(
        &mut self,
        alloc: Global,
        alone: &mut SerialApplier,
    ) -> Result<Stand, AllocError>
        ensures steps { OnOk result ((p : ProgramTree) (s : ScheduleTree) → IsPlan self.old.job.plan p s → AppliesReduce p (plan_of p s)
            → self.new.job ≡ job_value self.old.job.plan self.old.job.graph self.old.job.turns (step p (graph_value self.old.job.graph) (plan_of p s) self.old.job.stands)) }
        ensures stand { IfOk result (λ stand. stand ≡ stand_of self.new.job.stands) }
        ensures err { OnErr result (self.new.job ≡ self.old.job) }
        ensures origin { self.new.origin ≡ None }
    {
        self.origin = None;
        self.job.step(alloc, alone)
    }

    /// Does instructions until the run has ended, as [`Job::finish`] does. A job that has done nothing, on a version that is
    /// kept, follows the record of a former run of its program, and the record of its run is kept.
    pub(crate) fn finish(
        &mut self,
        alloc: Global,
        versions: &Versions,
        records: &mut VersionRecords<RunRecord>,
        alone: &mut SerialApplier,
    ) -> Result<End, AllocError>
        requires { HaveSomePlans versions.now.state records.old self.old.job self.old.origin }
        ensures steps { (p : ProgramTree) (s : ScheduleTree) → IsPlan self.old.job.plan p s → AppliesReduce p (plan_of p s)
            → HasStepped p s self.old.job self.new.job }
        ensures end { IfOk result (λ end. stand_of self.new.job.stands ≡ Ended end) }
        ensures records { StayRecords versions.now.state records.old records.new self.old.job self.old.origin }
        ensures origin { self.new.origin ≡ None }
    {
        match self.origin.take() {
            Some(origin) if versions.is_kept(origin.version) => {
                finish_kept(alloc, versions, records, origin, &mut self.job, alone)
            }
            _ => self.job.finish(alloc, alone),
        }
    }
}

/// Finishes a job of a program on a version that is kept, beside the record of a former run if there is one, and keeps the
/// record of its run. If memory is refused for a record, the run has none.
fn finish_kept(
    alloc: Global,
    versions: &Versions,
    records: &mut VersionRecords<RunRecord>,
    origin: JobOrigin,
    job: &mut Job,
    alone: &mut SerialApplier,
) -> Result<End, AllocError>
    requires kept { is_kept versions.now.state origin.version ≡ true }
    requires plans { HaveSomePlans versions.now.state records.old job.old (Some origin) }
    ensures steps { (p : ProgramTree) (s : ScheduleTree) → IsPlan job.old.plan p s → AppliesReduce p (plan_of p s)
        → HasStepped p s job.old job.new }
    ensures end { IfOk result (λ end. stand_of job.new.stands ≡ Ended end) }
    ensures records { StayRecords versions.now.state records.old records.new job.old (Some origin) }
{
    let Ok(plan) = job.plan().clone() else {
        return job.finish(alloc, alone);
    };
    let Ok(graph) = job.graph().clone() else {
        return job.finish(alloc, alone);
    };
    let JobOrigin { program, version } = origin;
    let former = records.predecessor(alloc, versions, program, version);
    match finish_recorded(alloc, job, plan, graph, former) {
        Ok(ended) => {
            let RecordedEnd { end, run_record } = ended;
            records.keep(versions, program, version, run_record);
            Ok(end)
        }
        Err(_) => job.finish(alloc, alone),
    }
}

/// Finishes a job of this plan on this graph that has done nothing, beside the record of a former run if there is one, and makes the
/// record of its run. The only error is out of memory, as of [`Job::finish`].
fn finish_recorded(
    alloc: Global,
    job: &mut Job,
    plan: Arc<Plan>,
    graph: Arc<Flat>,
    former: Option<Predecessor<'_, RunRecord>>,
) -> Result<RecordedEnd, AllocError>
    requires plan { arc_value plan ≡ job.old.plan }
    requires graph { arc_value graph ≡ job.old.graph }
    requires former { IfSome former (IsPredecessor (IsRecordOfRun job.old.plan) job.old.graph) }
    ensures steps { (p : ProgramTree) (s : ScheduleTree) → IsPlan job.old.plan p s → AppliesReduce p (plan_of p s)
        → HasStepped p s job.old job.new }
    ensures end { IfOk result (λ r. stand_of job.new.stands ≡ Ended r.end) }
    ensures kept { IfOk result (λ r. IfSome r.run_record (λ made. IsRecordOfRun job.old.plan made job.old.graph)) }
{
    let mut follower = follower_of(alloc, &former);
    let end = job.finish(alloc, &mut follower)?;
    let run_record = follower.into_record(plan, graph);
    Ok(RecordedEnd { end, run_record })
}

/// One worker who follows the record of a former run, if there is one, and makes a record.
fn follower_of<'a>(
    alloc: Global,
    former: &'a Option<Predecessor<'a, RunRecord>>,
) -> Follower<'a, SerialApplier>
    ensures { ServesRuns former.now result }
{
    let alone = SerialApplier::new(alloc);
    match former {
        None => Follower::of_nothing(alloc, alone),
        Some(former) => Follower::of(alloc, former.run_record, &former.edges, alone),
    }
}
