//! The neighbours of a vertex, as they lie packed in bytes.

ghost use Rattle.std.specs.Prelude.{◌≡◌, ◌↔◌, ℕ, pos, ◌+◌, ◌<◌, ◌≤◌, ◌++◌, [], length, slice_index, slice_range, get_or, take, drop, reverse, IfOk, IsTrue};
ghost use Rattle.std.specs.Map.{keys_of, values_of};
ghost use Rattle.ascending_lists.specs.Ascending.{AscendsFrom};
ghost use Rattle.ascending_lists.specs.Sets.{has};
ghost use Rattle.ascending_lists.specs.Maps.{lookup};
ghost use Rattle.ascending_lists.specs.MapOperations.{entries_below, entries_above};
ghost use Rattle.pages.specs.Widths.{in_any_width};
ghost use Rattle.pages.specs.declared.weights.WeightWidth.{WeightWidth};
ghost use Rattle.pages.specs.inside.Weights.{column_of};
ghost use Rattle.pages.specs.inside.Packed.{entries_of, IsWeightedView};

use crate::blocks::{fill_after, fill_before};
use crate::columns::{EntryColumns, pad};
use crate::offsets::{PackedOffsets, offset};
use crate::packed_list::MAX_LONG;
use crate::walks::{Ascending, Descending};
use crate::weight_blocks::fill_weights;
use crate::weights::{WeightWidth, weight_at};
use std::alloc::AllocError;
use std::marker::Model;

/// The neighbours of a vertex, ascending, each with a weight: none, or at most 2,048 ([`MAX_LONG`]). A
/// contract sees the list of the pairs.
#[derive(Drop)]
pub struct Neighbours<'a> {
    /// The first and the offsets of the others, with the weights after them and three bytes or more after those.
    packed: PackedOffsets<'a>,
    /// How many bytes each weight takes.
    weights: WeightWidth,
}

/// A list by how many bytes each offset takes, so that a loop over it may be made for each width.
#[derive(Drop)]
pub enum ByWidth<'a> {
    One(Neighbours<'a>),
    Two(Neighbours<'a>),
    Three(Neighbours<'a>),
    Four(Neighbours<'a>),
}

impl<'a> Model for Neighbours<'a> {
    ghost use Rattle.std.specs.Prelude.{ℕ, ℤ, List};
    ghost use Rattle.pages.specs.inside.Packed.{entries_of, IsWeightedView};

    ghost Value = { List (ℕ × ℤ) };

    ghost view = { λ l. entries_of l.packed.first l.packed.width l.packed.len l.weights l.packed.offsets.now };

    ghost invariant = { λ l. IsWeightedView l.packed.first l.packed.width l.packed.mask l.packed.len l.weights l.packed.offsets.now };
}

impl<'a> Neighbours<'a> {
    /// The list of a first neighbour, the offsets of the others and the weights after them.
    #[inline]
    pub(crate) fn new(packed: PackedOffsets<'a>, weights: WeightWidth) -> Neighbours<'a>
        requires { IsWeightedView packed.first packed.width packed.mask packed.len weights packed.offsets.now }
        ensures { result ≡ entries_of packed.entry.first packed.entry.width packed.entry.len weights packed.entry.offsets.now }
    {
        Neighbours { packed, weights }
    }

    /// No neighbour.
    #[inline]
    pub fn none() -> Neighbours<'a>
        ensures { result ≡ [] }
    {
        let packed = PackedOffsets {
            first: 0,
            width: 1,
            mask: 0xff,
            len: 0,
            offsets: &[],
        };
        Neighbours::new(packed, WeightWidth::Ones)
    }

    /// How many neighbours there are, at most 2,048. It takes constant time.
    #[inline]
    pub fn len(&self) -> usize
        ensures count { result ≡ length self.now }
        ensures few { result ≤ MAX_LONG }
        ensures ascending { AscendsFrom 0 (keys_of self.now) }
    {
        self.packed.len
    }

    /// Whether there is no neighbour. It takes constant time.
    #[inline]
    pub fn is_empty(&self) -> bool
        ensures { IsTrue result ↔ (self.now ≡ []) }
    {
        self.len() == 0
    }

    /// The neighbour at an index. It takes constant time.
    #[inline]
    pub fn neighbour(&self, index: usize) -> u32
        requires { index < length self.now }
        ensures { result ≡ slice_index (keys_of self.now) index }
    {
        let packed = self.packed;
        if index == 0 {
            return packed.first;
        }
        packed.first + offset(packed.offsets, packed.width, packed.mask, index - 1)
    }

    /// The weight at an index. It takes constant time.
    #[inline]
    pub fn weight(&self, index: usize) -> i64
        requires { index < length self.now }
        ensures { result ≡ (get_or self.now index (0, pos 1)).1 }
    {
        let start = self.packed.width * (self.packed.len - 1) + self.weights.size() * index;
        weight_at(self.packed.offsets, self.weights, start)
    }

    /// The neighbour at an index, with its weight. It takes constant time.
    #[inline]
    pub(crate) fn entry(&self, index: usize) -> (u32, i64)
        requires { index < length self.now }
        ensures { result ≡ get_or self.now index (0, pos 1) }
    {
        (self.neighbour(index), self.weight(index))
    }

    /// The weight of a neighbour, or `None` where it is not among them. It takes time `O(log len)`.
    #[inline]
    pub fn get(&self, neighbour: u32) -> Option<i64>
        ensures { result ≡ lookup neighbour self.now }
    {
        let (at, next) = self.cut(0, neighbour);
        if at < next {
            return Some(self.weight(at));
        }
        None
    }

    /// Whether a vertex is among the neighbours. It takes time `O(log len)`.
    #[inline]
    pub fn contains(&self, neighbour: u32) -> bool
        ensures { result ≡ has neighbour (keys_of self.now) }
    {
        let (mut low, mut high) = (0, self.len());
        while low < high {
            let middle = low + (high - low) / 2;
            let found = self.neighbour(middle);
            if found == neighbour {
                return true;
            }
            if found < neighbour {
                low = middle + 1;
            } else {
                high = middle;
            }
        }
        false
    }

    /// This list by its width. A caller that goes over it by index in each arm has a loop for each width, in which the width
    /// is a literal. It takes constant time.
    #[inline(always)]
    pub fn by_width(self) -> ByWidth<'a>
        ensures { in_any_width result ≡ self.entry }
    {
        let (packed, weights) = (self.packed, self.weights);
        match packed.width {
            1 => ByWidth::One(Neighbours::new(packed.of_width(1, 0xff), weights)),
            2 => ByWidth::Two(Neighbours::new(packed.of_width(2, 0xffff), weights)),
            3 => ByWidth::Three(Neighbours::new(packed.of_width(3, 0xff_ffff), weights)),
            _ => ByWidth::Four(Neighbours::new(packed.of_width(4, 0xffff_ffff), weights)),
        }
    }

    /// A walk over the neighbours, upward.
    #[inline]
    pub fn ascending(self) -> Ascending<'a>
        ensures { result ≡ self.entry }
    {
        Ascending::new(self)
    }

    /// A walk over the neighbours, downward.
    #[inline]
    pub fn descending(self) -> Descending<'a>
        ensures { result ≡ reverse self.entry }
    {
        Descending::new(self)
    }
}

impl<'a> Neighbours<'a> {
    /// Fills a block with the neighbours from an index on.
    #[inline]
    pub(crate) fn fill_from(&self, from: usize, block: &mut [u32])
        requires { from + length block.old ≤ length self.now }
        ensures { block.new ≡ take (length block.old) (drop from (keys_of self.now)) }
    {
        if from > 0 {
            return fill_after(self.packed, from, block);
        }
        if !block.is_empty() {
            block[0] = self.packed.first;
            fill_after(self.packed, 1, &mut block[1..]);
        }
    }

    /// Fills a block with the neighbours below an index, downward.
    #[inline]
    pub(crate) fn fill_below(&self, end: usize, block: &mut [u32])
        requires within { end ≤ length self.now }
        requires room { length block.old ≤ end }
        ensures { block.new ≡ take (length block.old) (reverse (take end (keys_of self.now))) }
    {
        let count = block.len();
        if count < end {
            return fill_before(self.packed, end, block);
        }
        if count > 0 {
            fill_before(self.packed, end, &mut block[..count - 1]);
            block[count - 1] = self.packed.first;
        }
    }

    /// Fills a block with the weights from an index on.
    #[inline]
    pub(crate) fn fill_weights_from(&self, from: usize, block: &mut [i64])
        requires { from + length block.old ≤ length self.now }
        ensures { block.new ≡ take (length block.old) (drop from (values_of self.now)) }
    {
        if block.is_empty() {
            return;
        }
        let start = self.packed.width * (self.packed.len - 1) + self.weights.size() * from;
        fill_weights(self.packed.offsets, self.weights, start, block);
    }

    /// Fills a block with the weights below an index, downward.
    #[inline]
    pub(crate) fn fill_weights_below(&self, end: usize, block: &mut [i64])
        requires within { end ≤ length self.now }
        requires room { length block.old ≤ end }
        ensures { block.new ≡ take (length block.old) (reverse (take end (values_of self.now))) }
    {
        self.fill_weights_from(end - block.len(), block);
        block.reverse();
    }

    /// The index up to which the neighbours from another on are below a vertex, and the index from
    /// which they are above it. Where the vertex is among them, it is at the first index. It takes time
    /// `O(log d)`, where d is the distance of the first index from `from`.
    pub(crate) fn cut(&self, from: usize, neighbour: u32) -> (usize, usize)
        requires { from ≤ length self.now }
        ensures order { (from ≤ result.0) × (result.0 ≤ result.1) × (result.1 ≤ length self.now) }
        ensures found { result.0 < result.1 → slice_index (keys_of self.now) result.0 ≡ neighbour }
        ensures below { slice_range self.now from result.0 ≡ entries_below neighbour (drop from self.now) }
        ensures above { drop result.1 self.now ≡ entries_above neighbour (drop from self.now) }
    {
        let (mut low, mut high) = self.bracket(from, neighbour);
        while low < high {
            let middle = low + (high - low) / 2;
            let found = self.neighbour(middle);
            if found == neighbour {
                return (middle, middle + 1);
            }
            if found < neighbour {
                low = middle + 1;
            } else {
                high = middle;
            }
        }
        (low, low)
    }

    /// Two indices: the neighbours from `from` up to the first are below a vertex, and those from the
    /// second on are above it. It looks at distances that double (Bentley, Yao, An almost optimal
    /// algorithm for unbounded searching, 1976).
    fn bracket(&self, from: usize, neighbour: u32) -> (usize, usize)
        requires { from ≤ length self.now }
        ensures order { (from ≤ result.0) × (result.0 ≤ result.1) × (result.1 ≤ length self.now) }
        ensures below { (i : ℕ) → from ≤ i → i < result.0 → get_or (keys_of self.now) i 0 < neighbour }
        ensures above { (i : ℕ) → result.1 ≤ i → i < length self.now
            → neighbour < get_or (keys_of self.now) i 0 }
        ensures ascending { AscendsFrom 0 (keys_of self.now) }
    {
        let len = self.len();
        let (mut low, mut jump) = (from, 1);
        while jump <= len - low {
            let high = low + jump;
            if self.neighbour(high - 1) >= neighbour {
                return (low, high);
            }
            low = high;
            jump *= 2;
        }
        (low, len)
    }

    /// Adds the neighbours from an index up to another after others, with their weights if not all are
    /// 1. The only error is out of memory.
    pub(crate) fn append_to(
        &self,
        from: usize,
        to: usize,
        list: &mut EntryColumns,
    ) -> Result<(), AllocError>
        requires order { from ≤ to }
        requires within { to ≤ length self.now }
        ensures { IfOk result (λ _. list.new ≡ list.old ++ slice_range self.now from to) }
    {
        if from == to {
            return Ok(());
        }
        let count = to - from;
        self.append_weights(from, count, list.keys.len(), &mut list.weights)?;
        self.append_keys(from, count, &mut list.keys)?;
        Ok(())
    }

    /// Adds so many neighbours from an index on after others. The only error is out of memory.
    fn append_keys(&self, from: usize, count: usize, keys: &mut Vec<u32>) -> Result<(), AllocError>
        requires { from + count ≤ length self.now }
        ensures { IfOk result (λ _. keys.new.items
            ≡ keys.old.items ++ take count (drop from (keys_of self.now))) }
    {
        prove!(count <= self.packed.len);
        let len = keys.len();
        keys.resize(len + count, 0)?;
        self.fill_from(from, &mut keys[len..]);
        Ok(())
    }

    /// Adds the weights of n neighbours from an index on after those of n others, unless all
    /// are 1. The only error is out of memory.
    fn append_weights(
        &self,
        from: usize,
        count: usize,
        others: usize,
        weights: &mut Vec<i64>,
    ) -> Result<(), AllocError>
        requires { from + count ≤ length self.now }
        ensures { IfOk result (λ _. column_of (others + count) weights.new.items
            ≡ column_of others weights.old.items ++ take count (drop from (values_of self.now))) }
    {
        if self.weights.is_ones() {
            weights.truncate(others);
            return Ok(());
        }
        pad(weights, others)?;
        self.append_column(from, count, weights)?;
        Ok(())
    }

    /// Adds the weights of n neighbours from an index on after others. The only error is out of
    /// memory.
    fn append_column(
        &self,
        from: usize,
        count: usize,
        weights: &mut Vec<i64>,
    ) -> Result<(), AllocError>
        requires { from + count ≤ length self.now }
        ensures { IfOk result (λ _. weights.new.items
            ≡ weights.old.items ++ take count (drop from (values_of self.now))) }
    {
        prove!(count <= self.packed.len);
        let len = weights.len();
        weights.resize(len + count, 1)?;
        self.fill_weights_from(from, &mut weights[len..]);
        Ok(())
    }
}
