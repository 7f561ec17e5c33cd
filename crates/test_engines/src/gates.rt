//! When a gate is called: once for each piece, before it begins, by the worker that does it.

use crate::roll::{MOST_PIECES, ONCE, Roll, is_once};
use crew::{PieceAssignment, Work, run_pieces};
use std::alloc::{AllocError, Global};
use std::test::Fail;
use std::thread::Threads;
use test_helpers::{Checked, check};

// Each piece answers what the gate was called with before. A worker keeps what it was called with, by which it knows its own number, and
// 0 where it was called with a piece as another worker.
#[derive(Drop)]
struct Witness<'a>(&'a Roll);

impl Work for Witness<'_> {
    type Out = u64;

    type State = u64;

    ghost pieces = { λ _. 300 };

    ghost keeps = { λ _ _. Unit {0} };

    ghost answers = { λ _ _ _. Unit {0} };

    fn state(&self, _alloc: Global) -> Result<u64, AllocError> {
        Ok(ONCE)
    }

    fn piece(&self, _: Global, own: &mut u64, piece: usize) -> Result<u64, AllocError> {
        let Witness(roll) = self;
        let noted = roll.noted(piece);
        *own = if *own == ONCE || *own == noted {
            noted
        } else {
            0
        };
        Ok(noted)
    }
}

// Checks that a gate is called once for each of n pieces, before it is done, by its worker.
fn check_calls(
    rt: &(impl Threads + AllocGlobal + Sync),
    pieces: usize,
    workers: usize,
    share: PieceAssignment,
) -> Result<Checked, Fail> {
    let (alloc, pieces) = (rt.alloc(), pieces.min(MOST_PIECES));
    let roll = Roll::new(alloc, false)?;
    let (witness, mut states) = (Witness(&roll), Vec::new(alloc));
    let found = run_pieces(
        rt,
        alloc,
        pieces,
        workers,
        share,
        &roll,
        &witness,
        &mut states,
    )?;
    let most = workers as u64;
    let before = found.iter().all(|one| is_once(one.out, most));
    let own = states.iter().all(|state| *state >= ONCE);
    Ok(
        check(before, "the call before a piece")
            .and(check(own, "the worker of a piece"))
            .and(check(
                roll.pieces() == pieces as u64,
                "how many pieces the gate is called with",
            ))
            .and(roll.check_each_once(pieces as u64, most, share)),
    )
}

#[test]
fn a_gate_is_told_of_each_piece_once_and_before_it(rt: HostRuntime) -> Result<(), Fail> {
    for workers in [1, 2, 3, 7, 64] {
        for pieces in [0, 1, 2, 7, 15, 63, 65, 300] {
            for share in [PieceAssignment::Claimed, PieceAssignment::Fixed] {
                let told = check_calls(&rt, pieces, workers, share)?;
                assert_eq!(rt; told, Ok(()), "{pieces} by {workers}");
            }
        }
    }
    Ok(())
}
