//! Going over the entries of a set.

ghost use Rattle.std.specs.Prelude.{◌≡◌, length, take, drop, min};
ghost use Rattle.std.specs.Map.{keys_of, values_of};

use c_tree::CTree;
use std::marker::Model;

/// The entries of a set that are still to come, and how many they are.
#[derive(Drop)]
pub struct SetWalk<'a> {
    walk: c_tree::Iter<'a>,
    left: usize,
}

impl<'a> Model for SetWalk<'a> {
    ghost use Rattle.std.specs.Prelude.{◌≡◌, ℕ, ℤ, List, length};

    ghost Value = { List (ℕ × ℤ) };

    ghost view = { λ w. w.walk };

    ghost invariant = { λ w. w.left ≡ length w.walk };
}

impl<'a> SetWalk<'a> {
    /// All entries of a set.
    #[inline]
    pub fn new(set: &'a CTree) -> SetWalk<'a>
        ensures { result ≡ set.now.entries }
    {
        SetWalk {
            walk: set.iter(),
            left: set.len(),
        }
    }

    /// How many entries are still to come.
    #[inline]
    pub fn len(&self) -> usize
        ensures { result ≡ length self.now }
    {
        self.left
    }

    /// Reads the keys of the next entries into the front of a block, as many as fit and are left, and
    /// gives their number.
    #[inline]
    pub fn fill(&mut self, block: &mut [u32]) -> usize
        ensures count { result ≡ min (length block.old) (length self.old) }
        ensures filled { take result block.new ≡ take result (keys_of self.old) }
        ensures kept { drop result block.new ≡ drop result block.old }
        ensures rest { self.new ≡ drop result self.old }
    {
        let count = self.walk.fill(block);
        self.left -= count;
        count
    }

    /// Reads the next neighbours and their weights into the fronts of two blocks, as many as fit into
    /// both and are left, and gives their number. It takes no memory, and the rest of the blocks stays
    /// as it was.
    #[inline]
    pub fn fill_weighted(&mut self, keys: &mut [u32], weights: &mut [i64]) -> usize
        ensures count { result ≡ min (min (length keys.old) (length weights.old)) (length self.old) }
        ensures keys { take result keys.new ≡ take result (keys_of self.old) }
        ensures weights { take result weights.new ≡ take result (values_of self.old) }
        ensures kept_keys { drop result keys.new ≡ drop result keys.old }
        ensures kept_weights { drop result weights.new ≡ drop result weights.old }
        ensures rest { self.new ≡ drop result self.old }
    {
        let room = keys.len().min(weights.len());
        let count = self
            .walk
            .fill_weighted(&mut keys[..room], &mut weights[..room]);
        self.left -= count;
        count
    }
}

impl<'a> Iterator for SetWalk<'a> {
    type Item = (u32, i64);

    ghost use Rattle.std.specs.Iterator.{YieldsFirst, item_count};

    ghost next_gives = { YieldsFirst (λ i. i) };

    ghost remaining = { item_count (λ i. i) };

    #[inline]
    fn next(&mut self) -> Option<(u32, i64)> {
        let entry = self.walk.next()?;
        self.left -= 1;
        Some(entry)
    }
}
