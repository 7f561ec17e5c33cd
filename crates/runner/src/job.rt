//! Jobs: runs that go one instruction at a time.
ghost use Rattle.std.specs.Prelude.{◌≡◌, IfOk, OnOk, OnErr};
ghost use Rattle.std.specs.Arc.{arc_value};
ghost use Rattle.typed_tree.specs.ProgramTree.{ProgramTree};
ghost use Rattle.algorithm_meaning.specs.Meaning.{initial_state};
ghost use Rattle.apply_options.specs.ScheduleTree.{ScheduleTree};
ghost use Rattle.plans.specs.Machine.{first_configuration, step};
ghost use Rattle.plans.specs.Plan.{plan_of};
ghost use Rattle.plans.specs.PlanOf.{IsPlan};
ghost use Rattle.plans.specs.Reducing.{AppliesReduce};
ghost use Rattle.run_state.specs.State.{graph_value};

use crate::edge_applier::EdgeApplier;
use crate::plan_run::PlanRun;
use algorithm_meaning::{End, Outcome};
use flat_snapshot::Flat;
use plans::Plan;
use std::alloc::{AllocError, Global};
use std::marker::Model;
use std::sync::Arc;

/// Whether a run continues, or how it has ended.
#[derive(Clone, Copy, Debug, PartialEq, Eq)]
pub enum Stand {
    Going,
    Ended(End),
}

/// A run of a plan on a snapshot of a graph, which does one instruction with each call. It may be kept, and sent to
/// another thread. A contract sees the plan, the graph, the bound of turns and the configuration, without the variables and
/// sets that the next instruction does not see (`specs/Resting.antt`). Its vectors are in the groups of the plan, where these fit.
pub struct Job {
    plan: Arc<Plan>,
    graph: Arc<Flat>,
    turns: u64,
    run: PlanRun,
}

impl Drop for Job {
    fn drop(self) {
        let Job {
            plan: _,
            graph: _,
            turns: _,
            run: _,
        } = self;
    }
}

impl Model for Job {
    ghost use Rattle.std.specs.Arc.{arc_value};
    ghost use Rattle.std.specs.Coded.{codes};
    ghost use Rattle.std.specs.Prelude.{◌≡◌};
    ghost use Rattle.plans.specs.contracts.plan.Plan as plan_contract;
    ghost use Rattle.runner.specs.inside.Groups.{AreGroupsOf};
    ghost use Rattle.runner.specs.inside.Position.{configuration_of};
    ghost use Rattle.runner.specs.Resting.{JobValue, job_value};

    ghost Value = { JobValue };

    ghost coded = { Prim.hlevel (codes, plan_contract.the_row.coded) };

    ghost view = { λ j. job_value (arc_value j.plan) (arc_value j.graph) j.turns (configuration_of j.run) };

    ghost invariant = { λ j. (j.run.memory.state.vertices ≡ (arc_value j.graph).vertices)
        × AreGroupsOf (arc_value j.plan) (arc_value j.graph) j.run.memory.state.groups };
}

impl Job {
    ghost use Rattle.runner.specs.Job.{stand_of};
    ghost use Rattle.runner.specs.Position.{outcome_so_far};
    ghost use Rattle.runner.specs.Resting.{job_value, HasStepped};
    ghost use Rattle.runner.specs.declared.job.Stand.TheVariants.{Ended};

    /// A run that is before the first instruction, for at most n turns. The only error is out of memory.
    pub fn new(
        alloc: Global,
        plan: Arc<Plan>,
        graph: Arc<Flat>,
        turns: u64,
    ) -> Result<Job, AllocError>
        ensures { IfOk result (λ job. (p : ProgramTree) (s : ScheduleTree) → IsPlan (arc_value plan) p s
            → job ≡ job_value (arc_value plan) (arc_value graph) turns (first_configuration (initial_state p (graph_value (arc_value graph)) turns))) }
    {
        let run = PlanRun::open(alloc, &plan, &graph, turns)?;
        Ok(Job {
            plan,
            graph,
            turns,
            run,
        })
    }

    /// The plan of the run.
    pub fn plan(&self) -> &Arc<Plan>
        ensures { arc_value result.now ≡ self.now.plan }
    {
        &self.plan
    }

    /// The graph of the run.
    pub fn graph(&self) -> &Arc<Flat>
        ensures { arc_value result.now ≡ self.now.graph }
    {
        &self.graph
    }

    /// Does one instruction, and tells whether the run continues. A run that has ended stays as it is.
    ///
    /// The only error is out of memory, and then nothing is changed.
    pub fn step<E: EdgeApplier>(&mut self, alloc: Global, by: &mut E) -> Result<Stand, AllocError>
        requires { E.is_ready by.old self.old.plan.functions self.old.graph }
        ensures applier { E.is_ready by.new self.old.plan.functions self.old.graph }
        ensures steps { OnOk result ((p : ProgramTree) (s : ScheduleTree) → IsPlan self.old.plan p s → AppliesReduce p (plan_of p s)
            → self.new ≡ job_value self.old.plan self.old.graph self.old.turns (step p (graph_value self.old.graph) (plan_of p s) self.old.stands)) }
        ensures stand { IfOk result (λ stand. stand ≡ stand_of self.new.stands) }
        ensures err { OnErr result (self.new ≡ self.old) }
    {
        by.forget_vectors();
        self.run.step(alloc, &self.plan, &self.graph, by)?;
        match self.run.end {
            Some(end) => Ok(Stand::Ended(end)),
            None => Ok(Stand::Going),
        }
    }

    /// Does instructions until the run has ended, and gives its end. A run that has ended stays as it is.
    ///
    /// The only error is out of memory, and then the run is before one of the instructions that were still to do.
    pub fn finish<E: EdgeApplier>(&mut self, alloc: Global, by: &mut E) -> Result<End, AllocError>
        requires { E.is_ready by.old self.old.plan.functions self.old.graph }
        ensures applier { E.is_ready by.new self.old.plan.functions self.old.graph }
        ensures steps { (p : ProgramTree) (s : ScheduleTree) → IsPlan self.old.plan p s → AppliesReduce p (plan_of p s)
            → HasStepped p s self.old self.new }
        ensures end { IfOk result (λ end. stand_of self.new.stands ≡ Ended end) }
    {
        self.run.run_to_end(alloc, &self.plan, &self.graph, by)
    }

    /// What the run shows so far: the vectors, the text, the turns used, and the sets that are visible at the next
    /// instruction. The end is `TurnsOver` as long as the run continues. The only error is out of memory.
    pub fn outcome(&self, alloc: Global) -> Result<Outcome, AllocError>
        ensures { IfOk result (λ o. (p : ProgramTree) (s : ScheduleTree) → IsPlan self.now.plan p s
            → o ≡ outcome_so_far p self.now.turns (plan_of p s) self.now.stands) }
    {
        self.run.show(alloc, &self.plan, self.turns)
    }
}
