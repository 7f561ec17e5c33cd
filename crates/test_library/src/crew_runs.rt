//! Runs of pieces by workers: who does which piece, and what the workers keep.
ghost use Rattle.std.specs.Prelude.{◌≡◌, ◌*◌};

use crew::{CrewError, Gate, PieceAssignment, Work, run_pieces};
use std::alloc::{AllocError, Global};
use std::sync::atomic::{AtomicU64, Ordering};
use std::thread::Threads;
use test_helpers::{Checked, check};

// The square of each number up to 1000. A worker counts its pieces.
struct Squares;

impl Work for Squares {
    type Out = usize;

    type State = usize;

    ghost pieces = { λ _. 1000 };

    ghost keeps = { λ _ _. Unit {0} };

    ghost answers = { λ _ piece out. out ≡ piece * piece };

    fn state(&self, _alloc: Global) -> Result<usize, AllocError> {
        Ok(0)
    }

    fn piece(&self, _: Global, count: &mut usize, piece: usize) -> Result<usize, AllocError> {
        *count = count.wrapping_add(1);
        Ok(piece * piece)
    }
}

// How often a held piece looks whether the others were entered.
const MOST_TRIES: u32 = 100_000_000;

// The number whose digits are the workers of the pieces, which is 0 again where piece 1 was held until so many others are entered,
// and they did not come.
#[derive(Drop)]
struct Watch {
    digits: AtomicU64,
    entered: AtomicU64,
    others: u64,
}

impl Gate for Watch {
    fn enter(&self, worker: usize, piece: usize, pieces: usize) {
        let mut digit = worker as u64;
        for _ in piece..pieces {
            digit = digit.wrapping_mul(10);
        }
        self.digits.fetch_add(digit, Ordering::SeqCst);
        if piece != 1 {
            self.entered.fetch_add(1, Ordering::SeqCst);
        } else if !self.come() {
            self.digits.store(0, Ordering::SeqCst);
        }
    }
}

impl Watch {
    // Whether so many other pieces are entered before so many tries are over.
    fn come(&self) -> bool {
        for _ in 0..MOST_TRIES {
            if self.entered.load(Ordering::SeqCst) >= self.others {
                return true;
            }
        }
        false
    }
}

// How many pieces were found, at most 1000, and the digits of the watch.
fn run<R: Threads + AllocGlobal + Sync>(
    rt: &R,
    (pieces, workers, share): (usize, usize, PieceAssignment),
    others: u64,
    states: &mut Vec<usize>,
) -> Result<(usize, u64), CrewError> {
    let watch = Watch {
        digits: AtomicU64::new(0),
        entered: AtomicU64::new(0),
        others,
    };
    let (alloc, pieces) = (rt.alloc(), pieces.min(1000));
    let found = run_pieces(rt, alloc, pieces, workers, share, &watch, &Squares, states)?;
    Ok((found.len(), watch.digits.load(Ordering::SeqCst)))
}

// Checks that two runs find all pieces, and that the workers keep how many pieces they did in both.
fn run_twice<R: Threads + AllocGlobal + Sync>(
    rt: &R,
    asked: (usize, usize, PieceAssignment),
) -> Result<Checked, CrewError> {
    let (mut states, mut done) = (Vec::new(rt.alloc()), 0usize);
    let first = run(rt, asked, 0, &mut states)?.0;
    let second = run(rt, asked, 0, &mut states)?.0;
    for count in &states {
        done = done.wrapping_add(*count);
    }
    let (pieces, workers, _) = asked;
    Ok(
        check(first == pieces, "the pieces of the first run")
            .and(check(second == pieces, "the pieces of the second run"))
            .and(check(
                states.len() == workers.min(pieces),
                "how many workers there are",
            ))
            .and(check(
                done == pieces.wrapping_mul(2),
                "the pieces that the workers count",
            )),
    )
}

#[test]
fn pieces_are_found_and_states_kept(rt: HostRuntime) {
    for (pieces, workers) in [(0, 1), (0, 4), (1, 64), (5, 1), (5, 3), (1000, 64)] {
        for share in [PieceAssignment::Claimed, PieceAssignment::Fixed] {
            let kept = run_twice(&rt, (pieces, workers, share));
            assert_eq!(rt; kept, Ok(Ok(())), "{pieces} by {workers}");
        }
    }
}

// Pieces, workers, how they are shared, how many others hold piece 1, and the digits, one of two. Where piece 1 is held until the
// others are entered, one worker claims what the other leaves, and workers have numbers of their own. Fixed pieces go round.
const RUNS: [((usize, usize, PieceAssignment), u64, [u64; 2]); 5] = [
    ((5, 2, PieceAssignment::Claimed), 4, [12_222, 21_111]),
    ((2, 2, PieceAssignment::Claimed), 1, [12, 21]),
    ((7, 1, PieceAssignment::Fixed), 0, [1_111_111; 2]),
    ((7, 3, PieceAssignment::Fixed), 0, [1_231_231; 2]),
    ((7, 9, PieceAssignment::Fixed), 0, [1_234_567; 2]),
];

// The digits that a run notes.
fn noted<R: Threads + AllocGlobal + Sync>(
    rt: &R,
    asked: (usize, usize, PieceAssignment),
    others: u64,
) -> Result<u64, CrewError> {
    let (_, digits) = run(rt, asked, others, &mut Vec::new(rt.alloc()))?;
    Ok(digits)
}

#[test]
fn pieces_fall_to_workers(rt: HostRuntime) {
    for (asked, others, [one, other]) in RUNS {
        let digits = noted(&rt, asked, others);
        assert!(rt;
            digits == Ok(one) || digits == Ok(other),
            "{digits:?}, and neither {one} nor {other}"
        );
    }
}
