//! Statements that give a vertex set its members.
ghost use Rattle.std.specs.Prelude.{◌≡◌, ℕ, OnOk, OnErr};
ghost use Rattle.typed_tree.specs.BlockTree.{AssignSet, DeclareSet};
ghost use Rattle.typed_tree.specs.ProgramTree.{ProgramTree};
ghost use Rattle.algorithm_meaning.specs.State.{GraphValue};
ghost use Rattle.plans.specs.Instruction.{Do};
ghost use Rattle.plans.specs.Operation.{AreFunctionKernels, set_value};
ghost use Rattle.runner.specs.inside.Done.{HasDone, IsAsBefore};
ghost use Rattle.runner.specs.inside.Position.{IsOn};

use crate::flow::Flow;
use crate::memory::Memory;
use plans::{FunctionKernels, Instruction, SetExpression};
use std::alloc::{AllocError, Global};
use typed_tree::VarRef;

impl Memory {
    /// A new set.
    pub(crate) fn declare_set(
        &mut self,
        alloc: Global,
        functions: &FunctionKernels,
        instruction: &Instruction,
        name: usize,
        members: SetExpression,
    ) -> Result<(), AllocError>
        ensures done { OnOk result ((p : ProgramTree) (g : GraphValue) → IsOn g self.old → AreFunctionKernels functions.now p
            → HasDone instruction.now Flow.Next self.old self.new p g (Do (DeclareSet name (set_value members)))) }
        ensures turns { OnOk result (self.new.state.state.turns ≡ self.old.state.state.turns) }
        ensures vectors { self.new.state.state.vectors ≡ self.old.state.state.vectors }
        ensures vertices { self.new.state.vertices ≡ self.old.state.vertices }
        ensures groups { self.new.state.groups ≡ self.old.state.groups }
        ensures err { OnErr result (IsAsBefore self.old self.new) }
    {
        self.state
            .declare_set(alloc, name, members, functions, &mut self.block)?;
        Ok(())
    }

    /// A set gets other members.
    pub(crate) fn assign_set(
        &mut self,
        alloc: Global,
        functions: &FunctionKernels,
        instruction: &Instruction,
        slot: VarRef,
        members: SetExpression,
    ) -> Result<(), AllocError>
        ensures done { OnOk result ((p : ProgramTree) (g : GraphValue) → IsOn g self.old → AreFunctionKernels functions.now p
            → HasDone instruction.now Flow.Next self.old self.new p g (Do (AssignSet slot (set_value members)))) }
        ensures turns { OnOk result (self.new.state.state.turns ≡ self.old.state.state.turns) }
        ensures vectors { self.new.state.state.vectors ≡ self.old.state.state.vectors }
        ensures vertices { self.new.state.vertices ≡ self.old.state.vertices }
        ensures groups { self.new.state.groups ≡ self.old.state.groups }
        ensures err { OnErr result (IsAsBefore self.old self.new) }
    {
        self.state
            .assign_set(alloc, slot.index, members, functions, &mut self.block)?;
        Ok(())
    }
}
