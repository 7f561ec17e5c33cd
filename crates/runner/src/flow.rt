//! Control flow: where a run continues after an instruction.
use algorithm_meaning::End;

/// Where a run continues after an instruction, or how it ends there.
#[derive(Clone, Copy)]
pub(crate) enum Flow {
    /// At the instruction after it.
    Next,
    /// At the instruction at this index.
    Goto(usize),
    /// An index was no vertex: the run ends by a fault of the instruction's statement.
    Fault,
    /// The run ends so.
    Ended(End),
}
