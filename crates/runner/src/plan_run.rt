//! A run of a plan, and how it ends.
ghost use Rattle.std.specs.Prelude.{◌≡◌, ◌<◌, ◌^◌, ◌+◌, IfOk, None, Some, unwrap_or};
ghost use Rattle.algorithm_meaning.specs.declared.outcome.End.TheVariants.{TurnsOver};
ghost use Rattle.typed_tree.specs.ProgramTree.{ProgramTree};
ghost use Rattle.apply_options.specs.ScheduleTree.{ScheduleTree};
ghost use Rattle.algorithm_meaning.specs.Meaning.{initial_state};
ghost use Rattle.algorithm_meaning.specs.Loop.{forget_beyond};
ghost use Rattle.plans.specs.Machine.{Ended, first_configuration};
ghost use Rattle.plans.specs.Plan.{plan_of};
ghost use Rattle.plans.specs.PlanOf.{IsPlan};
ghost use Rattle.plans.specs.Reducing.{AppliesReduce};
ghost use Rattle.run_state.specs.State.{graph_value};
ghost use Rattle.runner.specs.inside.Done.{after_flow};
ghost use Rattle.runner.specs.inside.Groups.{AreGroupsOf};
ghost use Rattle.runner.specs.inside.Position.{configuration_of, IsShown, RestsLater, loops_of};
ghost use Rattle.runner.specs.Position.{outcome_so_far};

use crate::edge_applier::EdgeApplier;
use crate::flow::Flow;
use crate::memory::Memory;
use algorithm_meaning::{Depth, End, Outcome};
use flat_snapshot::Flat;
use kernels::{Block, Registers};
use plans::{Instruction, Plan};
use refusal_numbers::OUTSIDE;
use run_state::{RunEnd, State};
use std::alloc::{AllocError, Global};

/// Where a run of a plan stands, and what its instructions work on.
pub(crate) struct PlanRun {
    /// The index of the next instruction.
    pub(crate) index: usize,
    /// How it ended, where it has.
    pub(crate) end: Option<End>,
    pub(crate) memory: Memory,
}

impl Drop for PlanRun {
    fn drop(self) {
        let PlanRun {
            index: _,
            end: _,
            memory: _,
        } = self;
    }
}

impl PlanRun {
    /// Before the first instruction; the vectors of each group of the plan stand side by side where the groups fit. The only
    /// error is out of memory.
    pub(crate) fn open(
        alloc: Global,
        plan: &Plan,
        graph: &Flat,
        turns: u64,
    ) -> Result<PlanRun, AllocError>
        ensures configuration { IfOk result (λ r. (p : ProgramTree) → plan.now.vectors.items ≡ p.vectors → plan.now.sets.items ≡ p.sets
            → configuration_of r ≡ first_configuration (initial_state p (graph_value graph.now) turns)) }
        ensures vertices { IfOk result (λ r. r.memory.state.vertices ≡ graph.now.vertices) }
        ensures groups { IfOk result (λ r. AreGroupsOf plan.now graph.now r.memory.state.groups) }
        ensures going { IfOk result (λ r. r.end ≡ None) }
    {
        let state = State::open(alloc, &plan.vectors, &plan.sets, &plan.groups, graph, turns)?;
        let memory = Memory {
            loops: Vec::new(alloc),
            state,
            block: Block::new(alloc),
            registers: Registers::new(alloc),
        };
        Ok(PlanRun {
            index: 0,
            end: None,
            memory,
        })
    }

    /// Does instructions of the plan and on the graph that the run was opened with, until it has ended, and gives its end. The
    /// applier first forgets what it knows of vectors. After an error the run is before one of the instructions that were still
    /// to do. The only error is out of memory.
    pub(crate) fn run_to_end<E: EdgeApplier>(
        &mut self,
        alloc: Global,
        plan: &Plan,
        graph: &Flat,
        by: &mut E,
    ) -> Result<End, AllocError>
        requires graph { self.old.memory.state.vertices ≡ graph.now.vertices }
        requires groups { AreGroupsOf plan.now graph.now self.old.memory.state.groups }
        requires applier { E.is_ready by.old plan.now.functions graph.now }
        ensures applier { E.is_ready by.new plan.now.functions graph.now }
        ensures steps { (p : ProgramTree) (s : ScheduleTree) → IsPlan plan.now p s → AppliesReduce p (plan_of p s)
            → RestsLater plan.now p s (graph_value graph.now) (configuration_of self.old) (configuration_of self.new) }
        ensures vertices { self.new.memory.state.vertices ≡ graph.now.vertices }
        ensures groups { AreGroupsOf plan.now graph.now self.new.memory.state.groups }
        ensures end { IfOk result (λ end. self.new.end ≡ Some end) }
    {
        by.forget_vectors();
        'steps: loop {
            if let Some(end) = self.end {
                return Ok(end);
            }
            self.step(alloc, plan, graph, by)?;
        }
    }

    /// Continues where an instruction leads, or ends there.
    pub(crate) fn follow(&mut self, flow: Flow, instruction: &Instruction)
        requires going { self.old.end ≡ None }
        requires room { self.old.index + 1 < 2 ^ 64 }
        ensures configuration { configuration_of self.new
            ≡ after_flow flow instruction.now.number instruction.now.shown self.old.index (loops_of self.old.memory) self.old.memory.state.state }
        ensures vectors { self.new.memory.state.state.vectors ≡ self.old.memory.state.state.vectors }
        ensures vertices { self.new.memory.state.vertices ≡ self.old.memory.state.vertices }
        ensures groups { self.new.memory.state.groups ≡ self.old.memory.state.groups }
    {
        match flow {
            Flow::Next => self.index += 1,
            Flow::Goto(to) => self.index = to,
            Flow::Fault => self.finish(instruction.shown, End::Fault(OUTSIDE, instruction.number)),
            Flow::Ended(end) => self.finish(instruction.shown, end),
        }
    }

    /// Ends, and what is shown is what is visible.
    fn finish(&mut self, shown: Depth, end: End)
        ensures configuration { configuration_of self.new ≡ Ended (forget_beyond shown self.old.memory.state.state) end }
        ensures vectors { self.new.memory.state.state.vectors ≡ self.old.memory.state.state.vectors }
        ensures vertices { self.new.memory.state.vertices ≡ self.old.memory.state.vertices }
        ensures groups { self.new.memory.state.groups ≡ self.old.memory.state.groups }
    {
        self.memory.state.forget_beyond(shown);
        self.end = Some(end);
    }

    /// What it shows so far, copied. The only error is out of memory.
    pub(crate) fn show(&self, alloc: Global, plan: &Plan, turns: u64) -> Result<Outcome, AllocError>
        ensures { IfOk result (λ o. (p : ProgramTree) (s : ScheduleTree) → IsPlan plan.now p s
            → o ≡ outcome_so_far p turns (plan_of p s) (configuration_of self.now)) }
    {
        let end = self.shown_end();
        let shown = self.shown(plan);
        let run_end = RunEnd {
            turns,
            end,
            visible: shown,
        };
        self.memory
            .state
            .show(alloc, &plan.names, &plan.vectors, run_end)
    }

    /// What a run that is over shows, moved and not copied. The only error is out of memory.
    pub(crate) fn into_outcome(
        self,
        alloc: Global,
        plan: &Plan,
        turns: u64,
    ) -> Result<Outcome, AllocError>
        ensures { IfOk result (λ o. (p : ProgramTree) (s : ScheduleTree) → IsPlan plan.now p s
            → o ≡ outcome_so_far p turns (plan_of p s) (configuration_of self)) }
    {
        let end = self.shown_end();
        let shown = self.shown(plan);
        let PlanRun {
            index: _,
            end: _,
            memory,
        } = self;
        let state = memory.into_state();
        let run_end = RunEnd {
            turns,
            end,
            visible: shown,
        };
        state.into_outcome(alloc, &plan.names, &plan.vectors, run_end)
    }

    /// How it ended; one that continues is shown as if its turns were over.
    fn shown_end(&self) -> End
        ensures { result ≡ unwrap_or self.now.end TurnsOver }
    {
        self.end.unwrap_or(End::TurnsOver)
    }

    /// What is visible: at the end all that is there, and else what is so at the next instruction.
    fn shown(&self, plan: &Plan) -> Depth
        ensures { (p : ProgramTree) (s : ScheduleTree) → IsPlan plan.now p s → IsShown (plan_of p s) (configuration_of self.now) result }
    {
        match self.end {
            Some(_) => self.memory.state.depth(),
            None => match plan.instructions.get(self.index) {
                Some(instruction) => instruction.shown,
                None => self.memory.state.depth(),
            },
        }
    }
}
