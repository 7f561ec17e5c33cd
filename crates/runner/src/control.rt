//! Jumps, loops and turns.
ghost use Rattle.std.specs.Prelude.{◌≡◌, ℕ, IfOk, OnOk, OnErr};
ghost use Rattle.typed_tree.specs.ProgramTree.{ProgramTree};
ghost use Rattle.algorithm_meaning.specs.State.{GraphValue};
ghost use Rattle.plans.specs.Instruction.{Advance, Enter, OperationTree, Turn, Unless, UnlessBelow};
ghost use Rattle.plans.specs.Operation.{HasCondition, HasInteger, IsFor};
ghost use Rattle.runner.specs.inside.Done.{HasDone, IsAsBefore, IsKept};
ghost use Rattle.runner.specs.inside.Position.{IsOn};

use crate::flow::Flow;
use crate::memory::Memory;
use algorithm_meaning::{End, LoopCounter, arithmetic_of};
use kernels::ExpressionKernel;
use plans::Instruction;
use std::alloc::AllocError;
use typed_tree::Operator;

impl Memory {
    /// Continues at the index unless the test holds.
    pub(crate) fn unless(
        &mut self,
        instruction: &Instruction,
        test: &ExpressionKernel,
        to: usize,
    ) -> Result<Flow, AllocError>
        requires kept { IsKept instruction.now.keep self.old.state.state }
        requires visible { IsFor instruction.now.keep test.now }
        ensures done { IfOk result (λ flow. (p : ProgramTree) (g : GraphValue) (t : OperationTree) → IsOn g self.old
            → HasCondition instruction.now.keep test.now (λ c. Unless c to) t → HasDone instruction.now flow self.old self.new p g t) }
        ensures vectors { self.new.state.state.vectors ≡ self.old.state.state.vectors }
        ensures vertices { self.new.state.vertices ≡ self.old.state.vertices }
        ensures groups { self.new.state.groups ≡ self.old.state.groups }
        ensures err { OnErr result (IsAsBefore self.old self.new) }
    {
        match self
            .state
            .eval_bool(test, instruction.keep, &mut self.registers)?
        {
            Some(true) => Ok(Flow::Next),
            Some(false) => Ok(Flow::Goto(to)),
            None => Ok(Flow::Fault),
        }
    }

    /// Enters a `for` whose name, the last variable, has its first value.
    pub(crate) fn enter(
        &mut self,
        instruction: &Instruction,
        end: &ExpressionKernel,
    ) -> Result<Flow, AllocError>
        requires visible { IsFor instruction.now.shown end.now }
        ensures done { IfOk result (λ flow. (p : ProgramTree) (g : GraphValue) (t : OperationTree) (name : ℕ) → IsOn g self.old
            → HasInteger instruction.now.shown end.now (λ e. Enter name e) t → HasDone instruction.now flow self.old self.new p g t) }
        ensures vectors { self.new.state.state.vectors ≡ self.old.state.state.vectors }
        ensures vertices { self.new.state.vertices ≡ self.old.state.vertices }
        ensures groups { self.new.state.groups ≡ self.old.state.groups }
        ensures err { OnErr result (IsAsBefore self.old self.new) }
    {
        match self
            .state
            .eval_int(end, instruction.shown, &mut self.registers)?
        {
            Some(end) => {
                let next = self.state.integer(instruction.shown.integers);
                self.loops.reserve(1)?;
                self.state.declare_int(end)?;
                self.loops.push_reserved(LoopCounter { next, end });
                Ok(Flow::Next)
            }
            None => Ok(Flow::Fault),
        }
    }

    /// Leaves the innermost loop for the index unless its value is below its bound.
    pub(crate) fn unless_below(&mut self, instruction: &Instruction, to: usize) -> Flow
        ensures done { (p : ProgramTree) (g : GraphValue) (name : ℕ) → HasDone instruction.now result self.old self.new p g (UnlessBelow name to) }
        ensures vectors { self.new.state.state.vectors ≡ self.old.state.state.vectors }
        ensures vertices { self.new.state.vertices ≡ self.old.state.vertices }
        ensures groups { self.new.state.groups ≡ self.old.state.groups }
    {
        match self.loops.pop() {
            Some(counter) if counter.next < counter.end => {
                self.loops.push_reserved(counter);
                Flow::Next
            }
            _ => Flow::Goto(to),
        }
    }

    /// The innermost loop continues to its next value.
    pub(crate) fn advance(&mut self, instruction: &Instruction) -> Result<(), AllocError>
        ensures done { OnOk result ((p : ProgramTree) (g : GraphValue) (name : ℕ) → HasDone instruction.now Flow.Next self.old self.new p g (Advance name)) }
        ensures vectors { self.new.state.state.vectors ≡ self.old.state.state.vectors }
        ensures vertices { self.new.state.vertices ≡ self.old.state.vertices }
        ensures groups { self.new.state.groups ≡ self.old.state.groups }
        ensures err { OnErr result (IsAsBefore self.old self.new) }
    {
        let Some(counter) = self.loops.pop() else {
            return Ok(());
        };
        let following = arithmetic_of(Operator::Add, counter.next, 1);
        match self.state.declare_two(following, counter.end) {
            Ok(()) => {
                self.loops.push_reserved(LoopCounter {
                    next: following,
                    end: counter.end,
                });
                Ok(())
            }
            Err(error) => {
                self.loops.push_reserved(counter);
                Err(error)
            }
        }
    }

    /// Uses a turn, or ends where none is left.
    pub(crate) fn turn(&mut self, instruction: &Instruction) -> Flow
        ensures done { (p : ProgramTree) (g : GraphValue) → HasDone instruction.now result self.old self.new p g Turn }
        ensures vectors { self.new.state.state.vectors ≡ self.old.state.state.vectors }
        ensures vertices { self.new.state.vertices ≡ self.old.state.vertices }
        ensures groups { self.new.state.groups ≡ self.old.state.groups }
    {
        if self.state.take_turn() {
            Flow::Next
        } else {
            Flow::Ended(End::TurnsOver)
        }
    }
}
