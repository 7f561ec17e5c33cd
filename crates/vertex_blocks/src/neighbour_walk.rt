//! Walks that read many neighbours at once.

ghost use Rattle.std.specs.Prelude.{◌≡◌, ℕ, ℤ, List, length, take, drop, min};
ghost use Rattle.std.specs.Map.{keys_of, values_of};

use crate::set_walk::SetWalk;
use pages::Ascending;

/// A walk over the neighbours of a vertex, ascending, each with its weight.
pub trait NeighbourWalk: Sized {
    /// Those that are still to come.
    ghost coming: { Self → List (ℕ × ℤ) };

    /// How many neighbours are still to come. It takes constant time and no memory.
    fn len(&self) -> usize
        ensures { result ≡ length (coming self.now) };

    /// Reads the next neighbours into the front of a block, as many as fit and are left, and gives
    /// their number. It takes no memory, and the rest of the block stays as it was.
    fn fill(&mut self, block: &mut [u32]) -> usize
        ensures count { result ≡ min (length block.old) (length (coming self.old)) }
        ensures filled { take result block.new ≡ take result (keys_of (coming self.old)) }
        ensures kept { drop result block.new ≡ drop result block.old }
        ensures rest { coming self.new ≡ drop result (coming self.old) };

    /// Reads the next neighbours and their weights into the fronts of two blocks, as many as fit into
    /// both and are left, and gives their number. It takes no memory, and the rest of the blocks stays
    /// as it was.
    fn fill_weighted(&mut self, keys: &mut [u32], weights: &mut [i64]) -> usize
        ensures count { result ≡ min (min (length keys.old) (length weights.old)) (length (coming self.old)) }
        ensures keys { take result keys.new ≡ take result (keys_of (coming self.old)) }
        ensures weights { take result weights.new ≡ take result (values_of (coming self.old)) }
        ensures kept_keys { drop result keys.new ≡ drop result keys.old }
        ensures kept_weights { drop result weights.new ≡ drop result weights.old }
        ensures rest { coming self.new ≡ drop result (coming self.old) };
}

impl NeighbourWalk for Ascending<'_> {
    ghost coming = { λ w. w };

    #[inline]
    fn len(&self) -> usize {
        Ascending::len(self)
    }

    #[inline]
    fn fill(&mut self, block: &mut [u32]) -> usize {
        Ascending::fill(self, block)
    }

    #[inline]
    fn fill_weighted(&mut self, keys: &mut [u32], weights: &mut [i64]) -> usize {
        Ascending::fill_weighted(self, keys, weights)
    }
}

impl NeighbourWalk for SetWalk<'_> {
    ghost coming = { λ w. w };

    #[inline]
    fn len(&self) -> usize {
        SetWalk::len(self)
    }

    #[inline]
    fn fill(&mut self, block: &mut [u32]) -> usize {
        SetWalk::fill(self, block)
    }

    #[inline]
    fn fill_weighted(&mut self, keys: &mut [u32], weights: &mut [i64]) -> usize {
        SetWalk::fill_weighted(self, keys, weights)
    }
}
