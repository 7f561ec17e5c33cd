//! Work that is cut into pieces.

ghost use Rattle.std.specs.Prelude.{ℕ, ◌<◌, ◌≤◌, IfOk};

use std::alloc::{AllocError, Global};

/// Work that is cut into pieces, which are numbered from 1.
pub trait Work {
    /// What a piece answers.
    type Out: Send + Drop;
    /// What a worker keeps from piece to piece, as room for its own use.
    type State: Send + Drop;

    /// How many pieces the work has.
    ghost pieces: { Self → ℕ };

    /// What holds of a worker's state between its pieces.
    ghost keeps: { Self → Self.State → Type 0 };

    /// What a piece may answer.
    ghost answers: { Self → ℕ → Self.Out → Type 0 };

    /// A new worker's state. A run asks for it at most once for each worker.
    ///
    /// Errors: out of memory.
    fn state(&self, alloc: Global) -> Result<Self::State, AllocError>
        ensures { IfOk result (λ state. keeps self.now state) };

    /// What the piece of this number answers. The state is the worker's own: it is what an earlier piece
    /// left, or new.
    ///
    /// Errors: out of memory. The state is then dropped.
    fn piece(
        &self,
        alloc: Global,
        state: &mut Self::State,
        piece: usize,
    ) -> Result<Self::Out, AllocError>
        requires piece { (0 < piece) × (piece ≤ pieces self.now) }
        requires state { keeps self.now state.old }
        ensures out { IfOk result (λ out. answers self.now piece out) }
        ensures state { IfOk result (λ _. keeps self.now state.new) };
}
