//! The plan of a program: all that a run needs.
ghost use Rattle.typed_tree.specs.ProgramTree.{program_tree};
ghost use Rattle.plans.specs.inside.Lowered.{AreLowered};

use crate::functions::FunctionKernels;
use crate::instruction::Instruction;
use std::snapshot::Snapshot;
use typed_tree::{Name, Sequence, Typed, Vector};

/// A program under a schedule, compiled. Each value is the plan of some program under some schedule, so that a run of it
/// ends.
pub struct Plan {
    /// The instructions, of which a run does one each step, from the first.
    pub instructions: Vec<Instruction>,
    pub functions: FunctionKernels,
    /// The vectors, in declared order.
    pub vectors: Vec<Vector>,
    /// The names of the constant vertex sets, in declared order.
    pub sets: Vec<usize>,
    /// The names that vectors and sets are shown by.
    pub names: Vec<Name>,
    /// The groups of vectors that are kept side by side, in the order of the schedule.
    pub groups: Vec<Sequence<usize>>,
    /// The text of the groups, a line for each.
    pub fields: Vec<u8>,
    /// The program that this is the plan of: clauses alone see it, and it has no bytes.
    pub program: Snapshot<Typed>,
    pub ghost lowered: { ∥ AreLowered instructions.items functions vectors.items sets.items
        names.items groups.items (program_tree program.value) ∥₁ },
}

impl Drop for Plan {
    fn drop(self) {
        let Plan {
            instructions: _,
            functions: _,
            vectors: _,
            sets: _,
            names: _,
            groups: _,
            fields: _,
            program: _,
        } = self;
    }
}
