//! Steps: the instructions of a run, one at a time.
ghost use Rattle.std.specs.Prelude.{◌≡◌, ◌<◌, None, IfOk, OnOk, OnErr};
ghost use Rattle.typed_tree.specs.ProgramTree.{ProgramTree};
ghost use Rattle.apply_options.specs.ScheduleTree.{ScheduleTree};
ghost use Rattle.algorithm_meaning.specs.State.{GraphValue};
ghost use Rattle.plans.specs.Instruction.{InstructionTree, OperationTree};
ghost use Rattle.plans.specs.Fused.{FitTogether};
ghost use Rattle.plans.specs.Machine.{step};
ghost use Rattle.plans.specs.Plan.{plan_of};
ghost use Rattle.plans.specs.PlanOf.{IsPlan};
ghost use Rattle.plans.specs.Reducing.{AppliesReduce, OperationReduces};
ghost use Rattle.plans.specs.Operation.{AreFunctionKernels, IsInstruction, IsOperation};
ghost use Rattle.plans.specs.declared.operation.PlanOperation.TheVariants as op;
ghost use Rattle.run_state.specs.State.{graph_value};
ghost use Rattle.runner.specs.inside.Done.{HasDone, HaveTrees, IsAsBefore, IsKept, IsLevel, IsReady};
ghost use Rattle.runner.specs.inside.Groups.{AreGroupsOf};
ghost use Rattle.runner.specs.inside.Position.{configuration_of, IsOn, steps_left};
ghost use Rattle.runner.specs.Resting.{resting};

use crate::applies::EdgeApplies;
use crate::edge_applier::EdgeApplier;
use crate::flow::Flow;
use crate::memory::Memory;
use crate::plan_run::PlanRun;
use algorithm_meaning::End;
use flat_snapshot::Flat;
use plans::{
    ApplyOperation, ControlOperation, FunctionKernels, Instruction, Plan, PlanOperation,
    SetOperation, ValueOperation,
};
use std::alloc::{AllocError, Global};

impl PlanRun {
    /// Does one instruction of the plan and on the graph that the run was opened with; a run that has ended stays. After an
    /// error it is before that instruction. The only error is out of memory.
    pub(crate) fn step<E: EdgeApplier>(
        &mut self,
        alloc: Global,
        plan: &Plan,
        graph: &Flat,
        by: &mut E,
    ) -> Result<(), AllocError>
        requires graph { self.old.memory.state.vertices ≡ graph.now.vertices }
        requires groups { AreGroupsOf plan.now graph.now self.old.memory.state.groups }
        requires applier { E.is_ready by.old plan.now.functions graph.now }
        requires knows { E.knows by.old self.old.memory.state.state.vectors }
        ensures applier { E.is_ready by.new plan.now.functions graph.now }
        ensures knows { OnOk result (E.knows by.new self.new.memory.state.state.vectors) }
        ensures steps { OnOk result ((p : ProgramTree) (s : ScheduleTree) → IsPlan plan.now p s → AppliesReduce p (plan_of p s)
            → configuration_of self.new ≡ step p (graph_value graph.now) (plan_of p s) (configuration_of self.old)) }
        ensures fewer { OnOk result (self.old.end ≡ None → steps_left plan.now self.new < steps_left plan.now self.old) }
        ensures vertices { self.new.memory.state.vertices ≡ self.old.memory.state.vertices }
        ensures groups { self.new.memory.state.groups ≡ self.old.memory.state.groups }
        ensures err { OnErr result (resting plan.now.instructions.items (configuration_of self.new)
            ≡ resting plan.now.instructions.items (configuration_of self.old)) }
    {
        match self.end {
            Some(_) => Ok(()),
            None => match plan.instructions.get(self.index) {
                Some(instruction) => {
                    self.memory.state.forget_beyond(instruction.keep);
                    let flow = self.memory.act(alloc, plan, graph, instruction, by)?;
                    self.follow(flow, instruction);
                    Ok(())
                }
                None => {
                    self.end = Some(End::Finished);
                    Ok(())
                }
            },
        }
    }
}

impl Memory {
    /// Does what an instruction says, and tells where the run continues.
    pub(crate) fn act<E: EdgeApplier>(
        &mut self,
        alloc: Global,
        plan: &Plan,
        graph: &Flat,
        i: &Instruction,
        by: &mut E,
    ) -> Result<Flow, AllocError>
        requires kept { IsKept i.now.keep self.old.state.state }
        requires ready { IsReady i.now.keep i.now.shown i.now.operation }
        requires known { ∥ HaveTrees plan.now.functions ∥₁ }
        requires graph { self.old.state.vertices ≡ graph.now.vertices }
        requires applier { E.is_ready by.old plan.now.functions graph.now }
        requires knows { E.knows by.old self.old.state.state.vectors }
        ensures applier { E.is_ready by.new plan.now.functions graph.now }
        ensures knows { IfOk result (λ flow. E.knows by.new self.new.state.state.vectors) }
        ensures done { IfOk result (λ flow. (p : ProgramTree) (t : InstructionTree) → AreFunctionKernels plan.now.functions p → IsInstruction i.now t
            → FitTogether p t.operation → OperationReduces p t.operation → HasDone i.now flow self.old self.new p (graph_value graph.now) t.operation) }
        ensures level { IfOk result (λ flow. (p : ProgramTree) (t : InstructionTree) → IsInstruction i.now t
            → IsLevel i.now flow self.old self.new p (graph_value graph.now) t.operation) }
        ensures vertices { self.new.state.vertices ≡ self.old.state.vertices }
        ensures groups { self.new.state.groups ≡ self.old.state.groups }
        ensures err { OnErr result (IsAsBefore self.old self.new) }
    {
        let functions = &plan.functions;
        match &i.operation {
            PlanOperation::Value(value) => self.evaluate(i, value),
            PlanOperation::Entry(entry) => {
                by.forget_vectors();
                self.write_entry(i, entry)
            }
            PlanOperation::Set(set) => self.write_set(alloc, functions, i, *set),
            PlanOperation::Apply(apply) => self.apply(alloc, functions, graph, i, *apply, by),
            PlanOperation::Control(control) => self.go_on(i, control),
        }
    }

    /// Does an instruction that takes the value of an expression, and is followed by that at the next index.
    fn evaluate(&mut self, i: &Instruction, value: &ValueOperation) -> Result<Flow, AllocError>
        requires kept { IsKept i.now.keep self.old.state.state }
        requires ready { IsReady i.now.keep i.now.shown (op.Value value.now) }
        ensures done { IfOk result (λ flow. (p : ProgramTree) (g : GraphValue) (t : OperationTree) → IsOn g self.old
            → IsOperation i.now.keep i.now.shown (op.Value value.now) t → HasDone i.now flow self.old self.new p g t) }
        ensures vectors { self.new.state.state.vectors ≡ self.old.state.state.vectors }
        ensures vertices { self.new.state.vertices ≡ self.old.state.vertices }
        ensures groups { self.new.state.groups ≡ self.old.state.groups }
        ensures err { OnErr result (IsAsBefore self.old self.new) }
    {
        match value {
            ValueOperation::Int { value, used } => self.use_int(i, value, *used),
            ValueOperation::Bool { value, used } => self.use_bool(i, value, *used),
            ValueOperation::AddVertex { slot, vertex } => self.add_vertex(i, *slot, vertex),
        }
    }

    /// Does an instruction that gives a vertex set its members.
    fn write_set(
        &mut self,
        alloc: Global,
        functions: &FunctionKernels,
        i: &Instruction,
        set: SetOperation,
    ) -> Result<Flow, AllocError>
        ensures done { IfOk result (λ flow. (p : ProgramTree) (g : GraphValue) (t : OperationTree) → IsOn g self.old → AreFunctionKernels functions.now p
            → IsOperation i.now.keep i.now.shown (op.Set set) t → HasDone i.now flow self.old self.new p g t) }
        ensures level { IfOk result (λ flow. (p : ProgramTree) (g : GraphValue) (t : OperationTree)
            → IsOperation i.now.keep i.now.shown (op.Set set) t → IsLevel i.now flow self.old self.new p g t) }
        ensures vectors { OnOk result (self.new.state.state.vectors ≡ self.old.state.state.vectors) }
        ensures vertices { self.new.state.vertices ≡ self.old.state.vertices }
        ensures groups { self.new.state.groups ≡ self.old.state.groups }
        ensures err { OnErr result (IsAsBefore self.old self.new) }
    {
        match set {
            SetOperation::DeclareSet { name, members } => {
                self.declare_set(alloc, functions, i, name, members)?;
                Ok(Flow::Next)
            }
            SetOperation::AssignSet { slot, members } => {
                self.assign_set(alloc, functions, i, slot, members)?;
                Ok(Flow::Next)
            }
        }
    }

    /// Does an instruction that runs functions of the user.
    fn apply<E: EdgeApplier>(
        &mut self,
        alloc: Global,
        functions: &FunctionKernels,
        graph: &Flat,
        i: &Instruction,
        apply: ApplyOperation,
        by: &mut E,
    ) -> Result<Flow, AllocError>
        requires known { ∥ HaveTrees functions.now ∥₁ }
        requires graph { self.old.state.vertices ≡ graph.now.vertices }
        requires applier { E.is_ready by.old functions.now graph.now }
        requires knows { E.knows by.old self.old.state.state.vectors }
        ensures applier { E.is_ready by.new functions.now graph.now }
        ensures knows { IfOk result (λ flow. E.knows by.new self.new.state.state.vectors) }
        ensures done { IfOk result (λ flow. (p : ProgramTree) (t : OperationTree) → AreFunctionKernels functions.now p
            → IsOperation i.now.keep i.now.shown (op.Apply apply) t → FitTogether p t → OperationReduces p t
            → HasDone i.now flow self.old self.new p (graph_value graph.now) t) }
        ensures level { IfOk result (λ flow. (p : ProgramTree) (t : OperationTree)
            → IsOperation i.now.keep i.now.shown (op.Apply apply) t → IsLevel i.now flow self.old self.new p (graph_value graph.now) t) }
        ensures vertices { self.new.state.vertices ≡ self.old.state.vertices }
        ensures groups { self.new.state.groups ≡ self.old.state.groups }
        ensures err { OnErr result (IsAsBefore self.old self.new) }
    {
        match apply {
            ApplyOperation::ApplyVertices { set, first, second } => {
                self.apply_vertices(functions, i, set, first, second)?;
                by.forget_vectors();
                Ok(Flow::Next)
            }
            ApplyOperation::ApplyEdges {
                ends,
                first,
                second,
            } => {
                let applies = EdgeApplies {
                    graph,
                    ends,
                    first,
                    second,
                };
                self.apply_edges(alloc, functions, i, applies, by)?;
                Ok(Flow::Next)
            }
        }
    }

    /// Does an instruction that says where the run continues, or that it ends.
    fn go_on(&mut self, i: &Instruction, control: &ControlOperation) -> Result<Flow, AllocError>
        requires kept { IsKept i.now.keep self.old.state.state }
        requires ready { IsReady i.now.keep i.now.shown (op.Control control.now) }
        ensures done { IfOk result (λ flow. (p : ProgramTree) (g : GraphValue) (t : OperationTree) → IsOn g self.old
            → IsOperation i.now.keep i.now.shown (op.Control control.now) t → HasDone i.now flow self.old self.new p g t) }
        ensures vectors { self.new.state.state.vectors ≡ self.old.state.state.vectors }
        ensures vertices { self.new.state.vertices ≡ self.old.state.vertices }
        ensures groups { self.new.state.groups ≡ self.old.state.groups }
        ensures err { OnErr result (IsAsBefore self.old self.new) }
    {
        match control {
            ControlOperation::Unless { test, to } => self.unless(i, test, *to),
            ControlOperation::Enter { name: _, end } => self.enter(i, end),
            ControlOperation::UnlessBelow { name: _, to } => Ok(self.unless_below(i, *to)),
            ControlOperation::Advance { name: _ } => {
                self.advance(i)?;
                Ok(Flow::Next)
            }
            ControlOperation::Turn => Ok(self.turn(i)),
            ControlOperation::Jump { to } => Ok(Flow::Goto(*to)),
            ControlOperation::End => Ok(Flow::Ended(End::Finished)),
        }
    }
}
