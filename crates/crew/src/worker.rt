//! Workers: what they do, as they start, and as they come back.

ghost use Rattle.std.specs.Prelude.{◌≡◌, [], ◌∷◌, ◌++◌, IfOk, IfErr};

use crate::piece_results::Found;
use std::alloc::AllocError;

/// What the workers of a run do: so many pieces of a work, before each of which the gate is called.
pub(crate) struct Run<'a, G, W> {
    pub gate: &'a G,
    pub work: &'a W,
    pub pieces: usize,
}

impl<G, W> Drop for Run<'_, G, W> {
    fn drop(self) {
        let Run {
            gate: _,
            work: _,
            pieces: _,
        } = self;
    }
}

/// A worker that is to start: its number from 1, where its pieces come from, and a state that an
/// earlier run left.
#[derive(Drop)]
pub(crate) struct StartingWorker<T, S> {
    pub worker: usize,
    pub turn: T,
    pub state: Option<S>,
}

/// A worker that has done its pieces: where they came from, its state, and what it found.
#[derive(Drop)]
pub(crate) struct FinishedWorker<T, S, O> {
    pub turn: T,
    pub state: S,
    pub found: Vec<Found<O>>,
}

/// Puts what a worker found after what others found, and its state to theirs, which stay as they were
/// where there is no memory.
pub(crate) fn bring_back<S: Drop, O: Drop>(
    state: S,
    mut theirs: Vec<Found<O>>,
    states: &mut Vec<S>,
    found: &mut Vec<Found<O>>,
) -> Result<(), AllocError>
    ensures found { IfOk result (λ _. found.new.items ≡ found.old.items ++ theirs.items) }
    ensures states { IfOk result (λ _. states.new.items ≡ states.old.items ++ state ∷ []) }
    ensures err { IfErr result (λ _. states.new.items ≡ states.old.items) }
{
    found.append(&mut theirs)?;
    states.push(state)?;
    Ok(())
}
