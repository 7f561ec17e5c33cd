//! Roll: a gate that notes of each piece how often it was entered and by whom, and may hold pieces.

use crew::{Gate, PieceAssignment};
use std::alloc::{AllocError, Global};
use std::sync::atomic::{AtomicU64, Ordering};
use test_helpers::{Checked, check};

/// The most pieces that a roll has room for.
pub(crate) const MOST_PIECES: usize = 300;

/// What is added for a piece each time that it is entered, beside the number of the worker.
pub(crate) const ONCE: u64 = 1_000;

// How often a held piece looks whether the second was entered.
const MOST_TRIES: u32 = 100_000_000;

/// What was entered: of each piece how often and by whom, how many pieces there were to be, how often something was wrong, as a
/// piece that the roll has no room for or one that was held too long, and how many were held.
#[derive(Drop)]
pub(crate) struct Roll {
    entered: Vec<AtomicU64>,
    pieces: AtomicU64,
    wrong: AtomicU64,
    held: AtomicU64,
    holds: bool,
}

impl Roll {
    /// A roll with nothing entered. One that holds lets piece 1 of each apply of two or more pieces wait until piece 2 is
    /// entered.
    pub(crate) fn new(alloc: Global, holds: bool) -> Result<Roll, AllocError> {
        let mut entered = Vec::with_capacity(alloc, MOST_PIECES)?;
        for _ in 0..MOST_PIECES {
            entered.push(AtomicU64::new(0))?;
        }
        Ok(Roll {
            entered,
            pieces: AtomicU64::new(0),
            wrong: AtomicU64::new(0),
            held: AtomicU64::new(0),
            holds,
        })
    }

    /// What is noted of a piece.
    pub(crate) fn noted(&self, piece: usize) -> u64 {
        match self.entered.get(piece.wrapping_sub(1)) {
            Some(entry) => entry.load(Ordering::SeqCst),
            None => 0,
        }
    }

    /// How many pieces there were to be at most.
    pub(crate) fn pieces(&self) -> u64 {
        self.pieces.load(Ordering::SeqCst)
    }

    /// How many pieces were held.
    pub(crate) fn held(&self) -> u64 {
        self.held.load(Ordering::SeqCst)
    }

    /// Checks that nothing was wrong.
    pub(crate) fn check(&self) -> Checked {
        check(
            self.wrong.load(Ordering::SeqCst) == 0,
            "a piece without room, or one that was held too long",
        )
    }

    /// Checks that each of n pieces was entered once, by one of n workers, and by its own if pieces are fixed, and that nothing else
    /// was entered.
    pub(crate) fn check_each_once(
        &self,
        pieces: u64,
        workers: u64,
        share: PieceAssignment,
    ) -> Checked {
        self.check()?;
        let mut own = 0u64;
        for (index, entry) in (0..MOST_PIECES as u64).zip(&self.entered) {
            let noted = entry.load(Ordering::SeqCst);
            own = if own < workers { own + 1 } else { 1 };
            match share {
                _ if pieces <= index => check(noted == 0, "a piece after the last")?,
                PieceAssignment::Claimed => check(is_once(noted, workers), "a claimed piece")?,
                PieceAssignment::Fixed => check(noted == ONCE.wrapping_add(own), "a fixed piece")?,
            }
        }
        Ok(())
    }

    // Holds a piece 1 until a piece 2 was entered for each that was held, and tells whether it was.
    fn holds_first(&self) -> bool {
        let held = self.held.fetch_add(1, Ordering::SeqCst);
        (0..MOST_TRIES).any(|_| self.noted(2) / ONCE > held)
    }
}

/// Whether a piece was entered once, by one of n workers.
pub(crate) fn is_once(noted: u64, workers: u64) -> bool {
    ONCE < noted && noted <= ONCE.wrapping_add(workers)
}

impl Gate for Roll {
    fn enter(&self, worker: usize, piece: usize, pieces: usize) {
        self.pieces.fetch_max(pieces as u64, Ordering::SeqCst);
        match self.entered.get(piece.wrapping_sub(1)) {
            Some(entry) => entry.fetch_add(ONCE.wrapping_add(worker as u64), Ordering::SeqCst),
            None => self.wrong.fetch_add(1, Ordering::SeqCst),
        };
        if self.holds && piece == 1 && pieces > 1 && !self.holds_first() {
            self.wrong.fetch_add(1, Ordering::SeqCst);
        }
    }
}
