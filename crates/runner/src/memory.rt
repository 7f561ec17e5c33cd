//! Run memory: what the instructions of a run work on.
ghost use Rattle.std.specs.Prelude.{◌≡◌};

use algorithm_meaning::LoopCounter;
use kernels::{Block, Registers};
use run_state::State;

/// What the instructions of a run work on, wherever they stand: the state, the values of the `for` loops around the
/// index, the innermost last, and memory for kernels of functions and of expressions.
pub(crate) struct Memory {
    pub(crate) loops: Vec<LoopCounter>,
    pub(crate) state: State,
    pub(crate) block: Block,
    pub(crate) registers: Registers,
}

impl Drop for Memory {
    fn drop(self) {
        let Memory {
            loops: _,
            state: _,
            block: _,
            registers: _,
        } = self;
    }
}

impl Memory {
    /// The state alone.
    pub(crate) fn into_state(self) -> State
        ensures { result ≡ self.state }
    {
        let Memory {
            loops: _,
            state,
            block: _,
            registers: _,
        } = self;
        state
    }
}
