//! The iterator over the entries of a set.

ghost use Rattle.std.specs.Prelude.{◌≡◌, ◌≤◌, length, take, drop, min};
ghost use Rattle.std.specs.Iterator.{YieldsFirst, item_count};
ghost use Rattle.std.specs.Map.{keys_of, values_of};
ghost use Rattle.c_tree.specs.inside.Blocks.{IsRead};
ghost use Rattle.c_tree.specs.inside.Chunks.{together};

use crate::tail::ChunkTail;
use shared_tree::Tree;
use std::marker::Model;
use tail_codec::{Tail, TailIter};

/// The entries of a set that are still to come, in ascending order of keys.
#[derive(Drop)]
pub struct Iter<'a> {
    /// Those before the next head.
    tail: TailIter<'a>,
    chunks: shared_tree::Iter<'a, ChunkTail>,
}

impl<'a> Model for Iter<'a> {
    ghost use Rattle.std.specs.Prelude.{ℕ, ℤ, List, ◌++◌};
    ghost use Rattle.c_tree.specs.inside.Chunks.{entries_of};

    ghost Value = { List (ℕ × ℤ) };

    ghost view = { λ i. i.tail ++ entries_of i.chunks };
}

impl<'a> Iter<'a> {
    /// The entries of a prefix and then those of chunks, each head before its tail. It takes no
    /// memory.
    #[inline]
    pub(crate) fn new(prefix: &'a Tail, chunks: &'a Tree<ChunkTail>) -> Iter<'a>
        ensures { result ≡ together prefix.now chunks.now.entries }
    {
        Iter {
            tail: prefix.iter(),
            chunks: chunks.iter(),
        }
    }

    /// Reads the keys of the next entries into the front of a block, as many as fit and are left, and
    /// gives their number. It takes no memory, and the rest of the block stays as it was.
    pub fn fill(&mut self, block: &mut [u32]) -> usize
        ensures count { result ≡ min (length block.old) (length self.old) }
        ensures filled { take result block.new ≡ take result (keys_of self.old) }
        ensures kept { drop result block.new ≡ drop result block.old }
        ensures rest { self.new ≡ drop result self.old }
    {
        let mut filled = fill_from(&mut self.tail, block, 0);
        while filled < block.len() {
            let Some((head, at_head)) = self.chunks.next() else {
                break;
            };
            block[filled] = head;
            self.tail = at_head.tail().iter();
            filled = fill_from(&mut self.tail, block, filled + 1);
        }
        filled
    }

    /// Reads the keys and the weights of the next entries into the fronts of two blocks, as many as fit
    /// and are left, and gives their number. It takes no memory, and the rest of each block stays as it
    /// was.
    pub fn fill_weighted(&mut self, keys: &mut [u32], weights: &mut [i64]) -> usize
        requires { length weights.old ≡ length keys.old }
        ensures count { result ≡ min (length keys.old) (length self.old) }
        ensures filled { take result keys.new ≡ take result (keys_of self.old) }
        ensures weighted { take result weights.new ≡ take result (values_of self.old) }
        ensures kept { drop result keys.new ≡ drop result keys.old }
        ensures kept_weights { drop result weights.new ≡ drop result weights.old }
        ensures rest { self.new ≡ drop result self.old }
    {
        let mut filled = fill_weighted_from(&mut self.tail, keys, weights, 0);
        while filled < keys.len() {
            let Some((head, at_head)) = self.chunks.next() else {
                break;
            };
            keys[filled] = head;
            weights[filled] = at_head.weight();
            self.tail = at_head.tail().iter();
            filled = fill_weighted_from(&mut self.tail, keys, weights, filled + 1);
        }
        filled
    }
}

/// Reads the keys of the next entries of a tail into a block from an index on, as many as fit and are
/// left, and gives the index after them.
#[inline]
fn fill_from(tail: &mut TailIter<'_>, block: &mut [u32], index: usize) -> usize
    requires { index ≤ length block.old }
    ensures { IsRead (λ e. e.0) index tail.old block.old result tail.new block.new }
{
    index + tail.fill(&mut block[index..])
}

/// As `fill_from`, with the weights into a second block.
#[inline]
fn fill_weighted_from(
    tail: &mut TailIter<'_>,
    keys: &mut [u32],
    weights: &mut [i64],
    index: usize,
) -> usize
    requires columns { length weights.old ≡ length keys.old }
    requires room { index ≤ length keys.old }
    ensures keys { IsRead (λ e. e.0) index tail.old keys.old result tail.new keys.new }
    ensures weights { IsRead (λ e. e.1) index tail.old weights.old result tail.new weights.new }
{
    index + tail.fill_weighted(&mut keys[index..], &mut weights[index..])
}

impl<'a> Iterator for Iter<'a> {
    type Item = (u32, i64);

    ghost next_gives = { YieldsFirst (λ i. i) };

    ghost remaining = { item_count (λ i. i) };

    #[inline(always)]
    fn next(&mut self) -> Option<(u32, i64)> {
        if let Some(entry) = self.tail.next() {
            return Some(entry);
        }
        let (head, at_head) = self.chunks.next()?;
        self.tail = at_head.tail().iter();
        Some((head, at_head.weight()))
    }
}
