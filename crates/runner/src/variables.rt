//! Values of expressions, and what is done with them.
ghost use Rattle.std.specs.Prelude.{◌≡◌, IfOk, OnErr, OnOk};
ghost use Rattle.typed_tree.specs.ProgramTree.{ProgramTree};
ghost use Rattle.algorithm_meaning.specs.State.{GraphValue};
ghost use Rattle.plans.specs.Instruction.{Do, OperationTree};
ghost use Rattle.plans.specs.Operation.{bool_statement, int_statement, HasCondition, HasInteger, IsFor};
ghost use Rattle.run_state.specs.State.{with_state};
ghost use Rattle.runner.specs.inside.Done.{HasDone, IsAsBefore, IsKept};
ghost use Rattle.runner.specs.inside.Position.{IsOn};
ghost use Rattle.runner.specs.inside.Uses.{state_with_bool, state_with_int};

use crate::flow::Flow;
use crate::memory::Memory;
use kernels::ExpressionKernel;
use plans::{BoolUse, Instruction, IntUse};
use run_state::State;
use std::alloc::AllocError;

impl Memory {
    /// Takes the value of an expression of type `int`, and does with it what is said.
    pub(crate) fn use_int(
        &mut self,
        instruction: &Instruction,
        value: &ExpressionKernel,
        used: IntUse,
    ) -> Result<Flow, AllocError>
        requires kept { IsKept instruction.now.keep self.old.state.state }
        requires visible { IsFor instruction.now.keep value.now }
        ensures done { IfOk result (λ flow. (p : ProgramTree) (g : GraphValue) (t : OperationTree) → IsOn g self.old
            → HasInteger instruction.now.keep value.now (λ e. Do (int_statement used e)) t → HasDone instruction.now flow self.old self.new p g t) }
        ensures vectors { self.new.state.state.vectors ≡ self.old.state.state.vectors }
        ensures vertices { self.new.state.vertices ≡ self.old.state.vertices }
        ensures groups { self.new.state.groups ≡ self.old.state.groups }
        ensures err { OnErr result (IsAsBefore self.old self.new) }
    {
        match self
            .state
            .eval_int(value, instruction.keep, &mut self.registers)?
        {
            Some(n) => {
                put_int(&mut self.state, used, n)?;
                Ok(Flow::Next)
            }
            None => Ok(Flow::Fault),
        }
    }

    /// Takes the value of an expression of type `bool`, and does with it what is said.
    pub(crate) fn use_bool(
        &mut self,
        instruction: &Instruction,
        value: &ExpressionKernel,
        used: BoolUse,
    ) -> Result<Flow, AllocError>
        requires kept { IsKept instruction.now.keep self.old.state.state }
        requires visible { IsFor instruction.now.keep value.now }
        ensures done { IfOk result (λ flow. (p : ProgramTree) (g : GraphValue) (t : OperationTree) → IsOn g self.old
            → HasCondition instruction.now.keep value.now (λ c. Do (bool_statement used c)) t → HasDone instruction.now flow self.old self.new p g t) }
        ensures vectors { self.new.state.state.vectors ≡ self.old.state.state.vectors }
        ensures vertices { self.new.state.vertices ≡ self.old.state.vertices }
        ensures groups { self.new.state.groups ≡ self.old.state.groups }
        ensures err { OnErr result (IsAsBefore self.old self.new) }
    {
        match self
            .state
            .eval_bool(value, instruction.keep, &mut self.registers)?
        {
            Some(b) => {
                put_bool(&mut self.state, used, b)?;
                Ok(Flow::Next)
            }
            None => Ok(Flow::Fault),
        }
    }
}

/// Does with a number what is said. The only error is out of memory, and then nothing is changed.
fn put_int(state: &mut State, used: IntUse, n: i64) -> Result<(), AllocError>
    ensures state { OnOk result (state.new ≡ with_state state.old (state_with_int used n state.old.state)) }
    ensures err { OnErr result (state.new ≡ state.old) }
{
    match used {
        IntUse::Declare { name: _ } => state.declare_int(n),
        IntUse::Set { slot } => {
            state.set_int(slot.index, n);
            Ok(())
        }
        IntUse::Reduce { slot, reduction } => {
            state.reduce_int(slot.index, reduction, n);
            Ok(())
        }
        IntUse::Print => state.print_int(n),
    }
}

/// Does with a truth value what is said. The only error is out of memory, and then nothing is changed.
fn put_bool(state: &mut State, used: BoolUse, b: bool) -> Result<(), AllocError>
    ensures state { OnOk result (state.new ≡ with_state state.old (state_with_bool used b state.old.state)) }
    ensures err { OnErr result (state.new ≡ state.old) }
{
    match used {
        BoolUse::Declare { name: _ } => state.declare_bool(b),
        BoolUse::Set { slot } => {
            state.set_bool(slot.index, b);
            Ok(())
        }
        BoolUse::Print => state.print_bool(b),
    }
}
