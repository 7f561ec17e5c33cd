//! Walks over the neighbours of a vertex, upward and downward, by blocks.

ghost use Rattle.std.specs.Prelude.{◌≡◌, ◌↔◌, [], length, take, drop, min, reverse, IsTrue};
ghost use Rattle.std.specs.Map.{keys_of, values_of};
ghost use Rattle.std.specs.Iterator.{YieldsFirst, item_count};

use crate::neighbours::Neighbours;
use std::marker::Model;

/// The neighbours that are still to come, ascending, each with its weight.
#[derive(Drop)]
pub struct Ascending<'a> {
    list: Neighbours<'a>,
    at: usize,
}

impl<'a> Model for Ascending<'a> {
    ghost use Rattle.std.specs.Prelude.{◌≤◌, ℕ, ℤ, List, length, drop};

    ghost Value = { List (ℕ × ℤ) };

    ghost view = { λ a. drop a.at a.list };

    ghost invariant = { λ a. a.at ≤ length a.list };
}

impl<'a> Ascending<'a> {
    /// All neighbours of a list.
    #[inline]
    pub(crate) fn new(list: Neighbours<'a>) -> Ascending<'a>
        ensures { result ≡ list.entry }
    {
        Ascending { list, at: 0 }
    }

    /// How many neighbours are still to come. It takes constant time.
    #[inline]
    pub fn len(&self) -> usize
        ensures { result ≡ length self.now }
    {
        self.list.len() - self.at
    }

    /// Whether no neighbour is still to come. It takes constant time.
    #[inline]
    pub fn is_empty(&self) -> bool
        ensures { IsTrue result ↔ (self.now ≡ []) }
    {
        self.len() == 0
    }

    /// Reads the next neighbours into the front of a block, as many as fit and are left, and gives
    /// their number. It takes no memory, and the rest of the block stays as it was.
    #[inline]
    pub fn fill(&mut self, block: &mut [u32]) -> usize
        ensures count { result ≡ min (length block.old) (length self.old) }
        ensures filled { take result block.new ≡ take result (keys_of self.old) }
        ensures kept { drop result block.new ≡ drop result block.old }
        ensures rest { self.new ≡ drop result self.old }
    {
        let count = block.len().min(self.list.len() - self.at);
        self.list.fill_from(self.at, &mut block[..count]);
        self.at += count;
        count
    }

    /// Reads the next neighbours and their weights into the fronts of two blocks, as many as fit into
    /// both and are left, and gives their number. It takes no memory, and the rest of the blocks stays
    /// as it was.
    #[inline]
    pub fn fill_weighted(&mut self, keys: &mut [u32], weights: &mut [i64]) -> usize
        ensures count { result ≡ min (min (length keys.old) (length weights.old)) (length self.old) }
        ensures keys { take result keys.new ≡ take result (keys_of self.old) }
        ensures weights { take result weights.new ≡ take result (values_of self.old) }
        ensures kept_keys { drop result keys.new ≡ drop result keys.old }
        ensures kept_weights { drop result weights.new ≡ drop result weights.old }
        ensures rest { self.new ≡ drop result self.old }
    {
        let filled = keys.len().min(weights.len()).min(self.list.len() - self.at);
        self.list.fill_from(self.at, &mut keys[..filled]);
        self.list.fill_weights_from(self.at, &mut weights[..filled]);
        self.at += filled;
        filled
    }
}

impl<'a> Iterator for Ascending<'a> {
    type Item = (u32, i64);

    ghost next_gives = { YieldsFirst (λ i. i) };

    ghost remaining = { item_count (λ i. i) };

    #[inline]
    fn next(&mut self) -> Option<(u32, i64)> {
        if self.at == self.list.len() {
            return None;
        }
        let entry = self.list.entry(self.at);
        self.at += 1;
        Some(entry)
    }
}

/// The neighbours that are still to come, descending, each with its weight.
#[derive(Drop)]
pub struct Descending<'a> {
    list: Neighbours<'a>,
    left: usize,
}

impl<'a> Model for Descending<'a> {
    ghost use Rattle.std.specs.Prelude.{◌≤◌, ℕ, ℤ, List, length, take, reverse};

    ghost Value = { List (ℕ × ℤ) };

    ghost view = { λ d. reverse (take d.left d.list) };

    ghost invariant = { λ d. d.left ≤ length d.list };
}

impl<'a> Descending<'a> {
    /// All neighbours of a list.
    #[inline]
    pub(crate) fn new(list: Neighbours<'a>) -> Descending<'a>
        ensures { result ≡ reverse list.entry }
    {
        let left = list.len();
        Descending { list, left }
    }

    /// How many neighbours are still to come. It takes constant time.
    #[inline]
    pub fn len(&self) -> usize
        ensures { result ≡ length self.now }
    {
        self.left
    }

    /// Whether no neighbour is still to come. It takes constant time.
    #[inline]
    pub fn is_empty(&self) -> bool
        ensures { IsTrue result ↔ (self.now ≡ []) }
    {
        self.len() == 0
    }

    /// Reads the next neighbours into the front of a block, as many as fit and are left, and gives
    /// their number. It takes no memory, and the rest of the block stays as it was.
    #[inline]
    pub fn fill(&mut self, block: &mut [u32]) -> usize
        ensures count { result ≡ min (length block.old) (length self.old) }
        ensures filled { take result block.new ≡ take result (keys_of self.old) }
        ensures kept { drop result block.new ≡ drop result block.old }
        ensures rest { self.new ≡ drop result self.old }
    {
        let count = block.len().min(self.left);
        self.list.fill_below(self.left, &mut block[..count]);
        self.left -= count;
        count
    }

    /// Reads the next neighbours and their weights into the fronts of two blocks, as many as fit into
    /// both and are left, and gives their number. It takes no memory, and the rest of the blocks stays
    /// as it was.
    #[inline]
    pub fn fill_weighted(&mut self, keys: &mut [u32], weights: &mut [i64]) -> usize
        ensures count { result ≡ min (min (length keys.old) (length weights.old)) (length self.old) }
        ensures keys { take result keys.new ≡ take result (keys_of self.old) }
        ensures weights { take result weights.new ≡ take result (values_of self.old) }
        ensures kept_keys { drop result keys.new ≡ drop result keys.old }
        ensures kept_weights { drop result weights.new ≡ drop result weights.old }
        ensures rest { self.new ≡ drop result self.old }
    {
        let filled = keys.len().min(weights.len()).min(self.left);
        self.list.fill_below(self.left, &mut keys[..filled]);
        self.list
            .fill_weights_below(self.left, &mut weights[..filled]);
        self.left -= filled;
        filled
    }
}

impl<'a> Iterator for Descending<'a> {
    type Item = (u32, i64);

    ghost next_gives = { YieldsFirst (λ i. i) };

    ghost remaining = { item_count (λ i. i) };

    #[inline]
    fn next(&mut self) -> Option<(u32, i64)> {
        if self.left == 0 {
            return None;
        }
        self.left -= 1;
        Some(self.list.entry(self.left))
    }
}
