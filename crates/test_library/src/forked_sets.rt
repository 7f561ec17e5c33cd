//! Unions and differences whose halves go to two threads.
use c_tree::CTree;
use set_ops::{Fork, SetError, difference_forked, union_forked};
use std::alloc::{AllocError, Global};
use std::sync::atomic::{AtomicU64, Ordering};
use std::thread::Threads;
use test_helpers::{Checked, check};

// How often a half looks whether the other is there.
const MOST_TRIES: u32 = 100_000_000;

// What is added for a half that waited for the other and did not see it: no test counts so far.
const MISSED: u64 = 1 << 62;

/// Counts how often each half of a level was entered: in a byte for each level, the lowest for level 1, and the highest for all from
/// level 8 on. If it `waits`, it holds each half of level 1 until the other is entered.
#[derive(Drop)]
pub(crate) struct Halves {
    below: AtomicU64,
    above: AtomicU64,
    waits: bool,
}

impl Halves {
    pub(crate) fn new(waits: bool) -> Halves {
        Halves {
            below: AtomicU64::new(0),
            above: AtomicU64::new(0),
            waits,
        }
    }

    /// Checks that each half was entered so often at these levels.
    pub(crate) fn check(&self, times: u64) -> Checked {
        check(
            self.below.load(Ordering::SeqCst) == times,
            "the first halves",
        )?;
        check(
            self.above.load(Ordering::SeqCst) == times,
            "the second halves",
        )
    }
}

impl Fork for Halves {
    fn enter(&self, level: u32, second: bool) {
        let (own, other) = if second {
            (&self.above, &self.below)
        } else {
            (&self.below, &self.above)
        };
        let byte = level.saturating_sub(1).min(7);
        own.fetch_add(1u64.wrapping_shl(byte.wrapping_mul(8)), Ordering::SeqCst);
        if self.waits && level == 1 && !comes(other) {
            own.fetch_add(MISSED, Ordering::SeqCst);
        }
    }
}

// Whether the other half is entered before so many tries are over.
fn comes(other: &AtomicU64) -> bool {
    for _ in 0..MOST_TRIES {
        if other.load(Ordering::SeqCst) != 0 {
            return true;
        }
    }
    false
}

// Every second number below 2,000, from the first on, each with a weight.
fn every_second(alloc: Global, first: u32) -> Result<Vec<(u32, i64)>, AllocError> {
    let mut entries = Vec::new(alloc);
    for index in 0..1_000u32 {
        let key = index.wrapping_mul(2).wrapping_add(first);
        entries.push((key, i64::from(index) - 50))?;
    }
    Ok(entries)
}

// The set of every second number, in chunks of 1.
fn set_of(alloc: Global, first: u32) -> Result<CTree, SetError> {
    let entries = every_second(alloc, first)?;
    CTree::from_sorted(alloc, 1, &entries).map_err(|_| SetError::NoMemory)
}

// Checks that the halves of a union of the even and the odd numbers, and those of a difference, are entered so often.
fn check_entered<R: Threads + AllocGlobal + Sync>(
    rt: &R,
    waits: bool,
    forks: u32,
    times: u64,
) -> Result<Checked, SetError> {
    let (of_union, of_difference) = (Halves::new(waits), Halves::new(waits));
    let (even, odd) = (set_of(rt.alloc(), 0)?, set_of(rt.alloc(), 1)?);
    union_forked(rt, rt.alloc(), &even, &odd, forks, &of_union)?;
    difference_forked(rt, rt.alloc(), &even, &odd, forks, &of_difference)?;
    Ok(of_union.check(times).and(of_difference.check(times)))
}

// Whether the halves wait for each other, how many forks there are, and how often each half is entered at each level, the last digits
// for level 1: at most 6 levels are forked.
const TIMES: [(bool, u32, u64); 7] = [
    (true, 1, 1),
    (false, 0, 0),
    (false, 1, 1),
    (false, 2, 0x02_01),
    (false, 3, 0x04_02_01),
    (false, 6, 0x20_10_08_04_02_01),
    (false, 7, 0x20_10_08_04_02_01),
];

#[test]
fn tells_of_each_half_of_each_level(rt: HostRuntime) {
    for (waits, forks, times) in TIMES {
        let entered = check_entered(&rt, waits, forks, times);
        assert_eq!(rt; entered, Ok(Ok(())), "at {forks} forks, waiting: {waits}");
    }
}
