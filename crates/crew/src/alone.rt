//! A run of one worker, the caller.

ghost use Rattle.std.specs.Prelude.{◌≡◌, ◌≤◌, length, max, min, IfOk};
ghost use Rattle.std.specs.List.{All};
ghost use Rattle.crew.specs.Pieces.{AreFound};

use crate::gate::Gate;
use crate::piece::{NextPiece, do_piece, state_or_new};
use crate::piece_results::Found;
use crate::work::Work;
use std::alloc::{AllocError, Global};

/// Does all pieces in their order, as worker 1.
pub(crate) fn run_alone<G: Gate, W: Work>(
    alloc: Global,
    gate: &G,
    work: &W,
    pieces: usize,
    states: &mut Vec<W::State>,
) -> Result<Vec<Found<W::Out>>, AllocError>
    requires pieces { pieces ≤ W.pieces work.now }
    requires states { All (W.keeps work.now) states.old.items }
    ensures found { IfOk result (λ found. AreFound (W.answers work.now) pieces found.items) }
    ensures states { All (W.keeps work.now) states.new.items }
    ensures back { IfOk result (λ _. length states.new.items ≡ max (length states.old.items) (min 1 pieces)) }
{
    if pieces == 0 {
        return Ok(Vec::new(alloc));
    }
    let mut state = state_or_new(alloc, work, states.pop())?;
    let found = do_pieces(alloc, gate, work, pieces, &mut state)?;
    states.push(state)?;
    Ok(found)
}

// Does all pieces in their order, with the state of worker 1.
fn do_pieces<G: Gate, W: Work>(
    alloc: Global,
    gate: &G,
    work: &W,
    pieces: usize,
    state: &mut W::State,
) -> Result<Vec<Found<W::Out>>, AllocError>
    requires pieces { pieces ≤ W.pieces work.now }
    requires state { W.keeps work.now state.old }
    ensures found { IfOk result (λ found. AreFound (W.answers work.now) pieces found.items) }
    ensures state { IfOk result (λ _. W.keeps work.now state.new) }
{
    let mut found = Vec::with_capacity(alloc, pieces)?;
    for index in 0..pieces {
        let next = NextPiece {
            worker: 1,
            index,
            pieces,
        };
        do_piece(alloc, gate, work, next, state, &mut found)?;
    }
    Ok(found)
}
