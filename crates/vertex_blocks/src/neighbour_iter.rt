//! Going over the neighbours of a vertex.

ghost use Rattle.std.specs.Prelude.{◌≡◌, ◌↔◌, [], length, take, drop, min, IsTrue};
ghost use Rattle.std.specs.Map.{keys_of, values_of};
ghost use Rattle.std.specs.Iterator.{YieldsFirst, item_count};

use crate::set_walk::SetWalk;
use c_tree::CTree;
use pages::{Ascending, Neighbours};
use std::marker::Model;

/// The neighbours of a vertex that are still to come, ascending, each with its weight.
#[derive(Drop)]
pub struct NeighbourIter<'a> {
    form: WalkForm<'a>,
}

/// A walk over neighbours in one of their forms.
#[derive(Drop)]
pub(crate) enum WalkForm<'a> {
    Packed(Ascending<'a>),
    Chunked(SetWalk<'a>),
}

impl<'a> Model for NeighbourIter<'a> {
    ghost use Rattle.std.specs.Prelude.{ℕ, ℤ, List};
    ghost use Rattle.vertex_blocks.specs.inside.Walks.{coming};

    ghost Value = { List (ℕ × ℤ) };

    ghost view = { λ i. coming i.form };
}

impl<'a> NeighbourIter<'a> {
    /// No neighbour. It takes no memory.
    #[inline]
    pub fn none() -> NeighbourIter<'a>
        ensures { result ≡ [] }
    {
        NeighbourIter::packed(Neighbours::none())
    }

    /// The neighbours of a packed list.
    #[inline]
    pub(crate) fn packed(list: Neighbours<'a>) -> NeighbourIter<'a>
        ensures { result ≡ list.entry }
    {
        NeighbourIter {
            form: WalkForm::Packed(list.ascending()),
        }
    }

    /// The neighbours of a set.
    #[inline]
    pub(crate) fn chunked(set: &'a CTree) -> NeighbourIter<'a>
        ensures { result ≡ set.now.entries }
    {
        NeighbourIter {
            form: WalkForm::Chunked(SetWalk::new(set)),
        }
    }

    /// How many neighbours are still to come. It takes constant time and no memory.
    #[inline]
    pub fn len(&self) -> usize
        ensures { result ≡ length self.now }
    {
        match &self.form {
            WalkForm::Packed(walk) => walk.len(),
            WalkForm::Chunked(walk) => walk.len(),
        }
    }

    /// Whether no neighbour is still to come. It takes constant time and no memory.
    #[inline]
    pub fn is_empty(&self) -> bool
        ensures { IsTrue result ↔ (self.now ≡ []) }
    {
        self.len() == 0
    }

    /// Reads the next neighbours into the front of a block, as many as fit and are left, and gives
    /// their number. It takes no memory, and the rest of the block stays as it was.
    #[inline]
    pub fn fill(&mut self, block: &mut [u32]) -> usize
        ensures count { result ≡ min (length block.old) (length self.old) }
        ensures filled { take result block.new ≡ take result (keys_of self.old) }
        ensures kept { drop result block.new ≡ drop result block.old }
        ensures rest { self.new ≡ drop result self.old }
    {
        match &mut self.form {
            WalkForm::Packed(walk) => walk.fill(block),
            WalkForm::Chunked(walk) => walk.fill(block),
        }
    }

    /// Reads the next neighbours and their weights into the fronts of two blocks, as many as fit into
    /// both and are left, and gives their number. It takes no memory, and the rest of the blocks stays
    /// as it was.
    #[inline]
    pub fn fill_weighted(&mut self, keys: &mut [u32], weights: &mut [i64]) -> usize
        ensures count { result ≡ min (min (length keys.old) (length weights.old)) (length self.old) }
        ensures keys { take result keys.new ≡ take result (keys_of self.old) }
        ensures weights { take result weights.new ≡ take result (values_of self.old) }
        ensures kept_keys { drop result keys.new ≡ drop result keys.old }
        ensures kept_weights { drop result weights.new ≡ drop result weights.old }
        ensures rest { self.new ≡ drop result self.old }
    {
        match &mut self.form {
            WalkForm::Packed(walk) => walk.fill_weighted(keys, weights),
            WalkForm::Chunked(walk) => walk.fill_weighted(keys, weights),
        }
    }
}

impl<'a> Iterator for NeighbourIter<'a> {
    type Item = (u32, i64);

    ghost next_gives = { YieldsFirst (λ i. i) };

    ghost remaining = { item_count (λ i. i) };

    #[inline]
    fn next(&mut self) -> Option<(u32, i64)> {
        match &mut self.form {
            WalkForm::Packed(walk) => walk.next(),
            WalkForm::Chunked(walk) => walk.next(),
        }
    }
}
