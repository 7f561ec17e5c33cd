//! Sums over tails and over blocks of numbers.

use std::io::Error;
use tail_codec::{Tail, TailError};

/// The sum of all keys of the tails.
pub fn sum_of_tails(tails: &[Tail]) -> u64 {
    let mut sum = 0u64;
    for tail in tails {
        for (key, _) in tail.iter() {
            sum = sum.wrapping_add(u64::from(key));
        }
    }
    sum
}

/// The sum of all keys of the tails, read by blocks of 128.
pub fn sum_by_blocks(tails: &[Tail]) -> u64 {
    let mut sum = 0u64;
    let mut block = [0u32; 128];
    for tail in tails {
        let mut elements = tail.iter();
        for _ in 0..tail.len().div_ceil(128) {
            let filled = elements.fill(&mut block);
            sum = sum.wrapping_add(sum_of(&block[..filled]));
        }
    }
    sum
}

/// The sum of some numbers.
pub fn sum_of(numbers: &[u32]) -> u64 {
    let mut sum = 0u64;
    for number in numbers {
        sum = sum.wrapping_add(u64::from(*number));
    }
    sum
}

/// The error of a tail as one of a device.
pub fn tail_error(error: TailError) -> Error {
    match error {
        TailError::NoMemory => Error::other("out of memory"),
        TailError::NotAscending | TailError::BadTail => Error::other("a tail was refused"),
    }
}
