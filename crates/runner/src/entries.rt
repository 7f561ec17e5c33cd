//! Statements on entries of vectors and members of sets.
ghost use Rattle.std.specs.Prelude.{◌≡◌, ℕ, IfOk, OnErr};
ghost use Rattle.typed_tree.specs.BlockTree.{AddVertex};
ghost use Rattle.typed_tree.specs.ProgramTree.{ProgramTree};
ghost use Rattle.algorithm_meaning.specs.State.{GraphValue};
ghost use Rattle.plans.specs.Instruction.{Do, OperationTree};
ghost use Rattle.plans.specs.declared.operation.PlanOperation.TheVariants as op;
ghost use Rattle.run_state.specs.State.{with_state};
ghost use Rattle.plans.specs.Operation.{HasInteger, IsFor, IsOperation};
ghost use Rattle.runner.specs.inside.Done.{HasDone, IsAsBefore, IsKept, IsReady};
ghost use Rattle.runner.specs.inside.Position.{IsOn};
ghost use Rattle.runner.specs.inside.Uses.{state_with_entry};

use crate::flow::Flow;
use crate::memory::Memory;
use kernels::ExpressionKernel;
use plans::{EntryOperation, EntryUse, Instruction};
use run_state::State;
use std::alloc::AllocError;
use typed_tree::VarRef;

impl Memory {
    /// Writes the value of an expression to the entry of a vector at an index.
    pub(crate) fn write_entry(
        &mut self,
        instruction: &Instruction,
        entry: &EntryOperation,
    ) -> Result<Flow, AllocError>
        requires kept { IsKept instruction.now.keep self.old.state.state }
        requires ready { IsReady instruction.now.keep instruction.now.shown (op.Entry entry.now) }
        ensures done { IfOk result (λ flow. (p : ProgramTree) (g : GraphValue) (t : OperationTree) → IsOn g self.old
            → IsOperation instruction.now.keep instruction.now.shown (op.Entry entry.now) t → HasDone instruction.now flow self.old self.new p g t) }
        ensures vertices { self.new.state.vertices ≡ self.old.state.vertices }
        ensures groups { self.new.state.groups ≡ self.old.state.groups }
        ensures err { OnErr result (IsAsBefore self.old self.new) }
    {
        let vertex = self
            .state
            .vertex(&entry.index, instruction.keep, &mut self.registers)?;
        let Some(vertex) = vertex else {
            return Ok(Flow::Fault);
        };
        let number = self
            .state
            .eval_int(&entry.value, instruction.keep, &mut self.registers)?;
        let Some(number) = number else {
            return Ok(Flow::Fault);
        };
        put_entry(&mut self.state, entry.vector, entry.used, vertex, number);
        Ok(Flow::Next)
    }

    /// A set gets a vertex.
    pub(crate) fn add_vertex(
        &mut self,
        instruction: &Instruction,
        slot: VarRef,
        vertex: &ExpressionKernel,
    ) -> Result<Flow, AllocError>
        requires kept { IsKept instruction.now.keep self.old.state.state }
        requires visible { IsFor instruction.now.keep vertex.now }
        ensures done { IfOk result (λ flow. (p : ProgramTree) (g : GraphValue) (t : OperationTree) → IsOn g self.old
            → HasInteger instruction.now.keep vertex.now (λ e. Do (AddVertex slot e)) t → HasDone instruction.now flow self.old self.new p g t) }
        ensures vectors { self.new.state.state.vectors ≡ self.old.state.state.vectors }
        ensures vertices { self.new.state.vertices ≡ self.old.state.vertices }
        ensures groups { self.new.state.groups ≡ self.old.state.groups }
        ensures err { OnErr result (IsAsBefore self.old self.new) }
    {
        match self
            .state
            .vertex(vertex, instruction.keep, &mut self.registers)?
        {
            Some(vertex) => {
                self.state.add_vertex(slot.index, vertex)?;
                Ok(Flow::Next)
            }
            None => Ok(Flow::Fault),
        }
    }
}

/// Writes a number to the entry of a vector at a vertex; where there is none nothing is changed.
fn put_entry(state: &mut State, vector: usize, used: EntryUse, vertex: u32, number: i64)
    ensures { state.new ≡ with_state state.old (state_with_entry vector used vertex number state.old.state) }
{
    match used {
        EntryUse::Set => state.set_entry(vector, vertex, number),
        EntryUse::Reduce(reduction) => state.reduce_entry(vector, vertex, reduction, number),
    }
}
