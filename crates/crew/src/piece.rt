//! One piece, done by a worker.

ghost use Rattle.std.specs.Prelude.{◌+◌, ◌<◌, ◌≤◌, IfOk, IfSome};
ghost use Rattle.crew.specs.inside.Finding.{HasAdded};

use crate::gate::Gate;
use crate::piece_results::Found;
use crate::work::Work;
use std::alloc::{AllocError, Global};

/// The state that a worker was given, or a new one.
pub(crate) fn state_or_new<W: Work>(
    alloc: Global,
    work: &W,
    state: Option<W::State>,
) -> Result<W::State, AllocError>
    requires { IfSome state (W.keeps work.now) }
    ensures { IfOk result (W.keeps work.now) }
{
    match state {
        Some(state) => Ok(state),
        None => work.state(alloc),
    }
}

/// The piece that a worker does next: its index, counted from 0, among all pieces.
#[derive(Clone, Copy)]
pub(crate) struct NextPiece {
    pub(crate) worker: usize,
    pub(crate) index: usize,
    pub(crate) pieces: usize,
}

/// Does a piece, and adds it to what the worker found.
pub(crate) fn do_piece<G: Gate, W: Work>(
    alloc: Global,
    gate: &G,
    work: &W,
    next: NextPiece,
    state: &mut W::State,
    found: &mut Vec<Found<W::Out>>,
) -> Result<(), AllocError>
    requires index { (next.index < next.pieces) × (next.pieces ≤ W.pieces work.now) }
    requires state { W.keeps work.now state.old }
    ensures state { IfOk result (λ _. W.keeps work.now state.new) }
    ensures found { IfOk result (λ _. HasAdded (W.answers work.now) (next.index + 1) found.old.items found.new.items) }
{
    let piece = next.index + 1;
    gate.enter(next.worker, piece, next.pieces);
    let out = work.piece(alloc, state, piece)?;
    found.push(Found { piece, out })?;
    Ok(())
}
