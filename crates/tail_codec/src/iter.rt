//! Entries that are read from the bytes of a tail.

ghost use Rattle.std.specs.Prelude.{◌≡◌, ℕ, ℤ, List, ◌+◌, ◌^◌, ◌<◌, ◌≤◌, ◌∷◌, length, take, drop, min};
ghost use Rattle.std.specs.Iterator.{YieldsFirst, item_count};
ghost use Rattle.std.specs.Map.{keys_of, values_of};
ghost use Rattle.tail_codec.specs.Spelling.{Spells, SpellsFrom};
ghost use Rattle.tail_codec.specs.inside.Decoding.{decoded};

use crate::base::least_over;
use crate::reading::read_entry;
use std::marker::Model;

/// The entries of a tail that are still to come, in ascending order of keys.
#[derive(Drop)]
pub struct TailIter<'a> {
    low: u64,
    rest: &'a [u8],
}

impl<'a> Model for TailIter<'a> {
    ghost use Rattle.std.specs.Prelude.{ℕ, ◌≤◌, ◌^◌, ℤ, List};
    ghost use Rattle.tail_codec.specs.Spelling.{SpellsFrom};
    ghost use Rattle.tail_codec.specs.inside.Decoding.{decoded};

    ghost Value = { List (ℕ × ℤ) };

    ghost view = { λ i. decoded i.low i.rest.now };

    ghost invariant = { λ i. (i.low ≤ 2 ^ 32)
        × SpellsFrom i.low (decoded i.low i.rest.now) i.rest.now };
}

impl<'a> TailIter<'a> {
    /// The entries that the bytes spell from `low` on.
    #[inline]
    pub(crate) fn new(low: u64, rest: &'a [u8]) -> TailIter<'a>
        requires low { low ≤ 2 ^ 32 }
        requires spelling { SpellsFrom low (decoded low rest.now) rest.now }
        ensures { result ≡ decoded low rest.now }
    {
        TailIter { low, rest }
    }

    /// The entries that the bytes are known to spell over the base. It takes no memory.
    #[inline]
    pub fn over(base: Option<u32>, bytes: &'a [u8]) -> TailIter<'a>
        requires { (es : List (ℕ × ℤ)) × Spells base es bytes.now }
        ensures { Spells base result bytes.now }
    {
        TailIter::new(least_over(base), bytes)
    }

    /// Reads the keys of the next entries into the front of a block, as many as fit and are left, and
    /// gives their number. It takes no memory, and the rest of the block stays as it was.
    #[inline]
    pub fn fill(&mut self, block: &mut [u32]) -> usize
        ensures count { result ≡ min (length block.old) (length self.old) }
        ensures filled { take result block.new ≡ take result (keys_of self.old) }
        ensures kept { drop result block.new ≡ drop result block.old }
        ensures rest { self.new ≡ drop result self.old }
    {
        let mut entries = TailIter {
            low: self.low,
            rest: self.rest,
        };
        let mut filled = 0usize;
        for position in block.iter_mut() {
            let Some(entry) = entries.next() else {
                break;
            };
            *position = entry.0;
            filled += 1;
        }
        *self = entries;
        filled
    }

    /// Reads the keys and the weights of the next entries into the fronts of two blocks, as many as fit
    /// and are left, and gives their number. It takes no memory, and the rest of each block stays as it
    /// was.
    #[inline]
    pub fn fill_weighted(&mut self, keys: &mut [u32], weights: &mut [i64]) -> usize
        requires { length weights.old ≡ length keys.old }
        ensures count { result ≡ min (length keys.old) (length self.old) }
        ensures filled { take result keys.new ≡ take result (keys_of self.old) }
        ensures weighted { take result weights.new ≡ take result (values_of self.old) }
        ensures kept { drop result keys.new ≡ drop result keys.old }
        ensures kept_weights { drop result weights.new ≡ drop result weights.old }
        ensures rest { self.new ≡ drop result self.old }
    {
        let mut left = TailIter {
            low: self.low,
            rest: self.rest,
        };
        let mut filled = 0usize;
        for position in 0..keys.len() {
            let Some((key, weight)) = left.next() else {
                break;
            };
            keys[position] = key;
            weights[position] = weight;
            filled += 1;
        }
        *self = left;
        filled
    }
}

impl<'a> Iterator for TailIter<'a> {
    type Item = (u32, i64);

    ghost next_gives = { YieldsFirst (λ i. i) };

    ghost remaining = { item_count (λ i. i) };

    #[inline]
    fn next(&mut self) -> Option<(u32, i64)> {
        let (first, rest) = self.rest.split_first()?;
        if *first < 128 && *first % 2 == 0 {
            let key = self.low + u64::from(*first / 2);
            self.low = key + 1;
            self.rest = rest;
            return Some((key as u32, 1));
        }
        let (key, weight, rest) = read_entry(self.low, self.rest)?;
        self.low = u64::from(key) + 1;
        self.rest = rest;
        Some((key, weight))
    }
}
