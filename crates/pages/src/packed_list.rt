//! Packed lists that are longer than those of a page, each in an array of its own.

ghost use Rattle.std.specs.Prelude.{◌≡◌, ℕ, pos, ◌+◌, ◌-◌, ◌*◌, ◌^◌, ◌<◌, ◌≤◌, length, get_or, IfOk};
ghost use Rattle.std.specs.Map.{keys_of};
ghost use Rattle.ascending_lists.specs.Ascending.{AscendsFrom};
ghost use Rattle.edge_updates.specs.Weighted.{weighted};
ghost use Rattle.pages.specs.inside.Weights.{weight_size, Allows};
ghost use Rattle.pages.specs.inside.Packed.{packed_in, span_of, IsPackedIn};

use crate::appending::PADDING;
use crate::neighbours::Neighbours;
use crate::offsets::{PackedOffsets, number};
use crate::weights::WeightWidth;
use crate::writing::{width_of, write, write_weights};
use std::alloc::{AllocError, Global};
use std::marker::Model;

/// How many neighbours a packed list has at most that is in an array of its own.
pub const MAX_LONG: usize = 2_048;

/// The neighbours of one vertex, ascending, each with a weight: 1 to 2,048 ([`MAX_LONG`]). A contract
/// sees the list of the pairs.
pub struct PackedList {
    /// The first neighbour, the offsets of the others, the weights, and three bytes of padding.
    bytes: Vec<u8>,
    len: usize,
    /// How many bytes each offset takes.
    width: usize,
    /// How many bytes each weight takes.
    weights: WeightWidth,
}

// By hand: a derived drop would be written out, and proved again, in each function that lets a list go.
impl Drop for PackedList {
    fn drop(self) {
        let PackedList {
            bytes: _,
            len: _,
            width: _,
            weights: _,
        } = self;
    }
}

impl Model for PackedList {
    ghost use Rattle.std.specs.Prelude.{ℕ, ℤ, List};
    ghost use Rattle.pages.specs.inside.Packed.{packed_in, IsPackedIn};

    ghost Value = { List (ℕ × ℤ) };

    ghost view = { λ l. packed_in l.width l.len l.weights l.bytes.items };

    ghost invariant = { λ l. IsPackedIn l.width l.len l.weights l.bytes.items };
}

impl PackedList {
    /// The list of these neighbours with their weights; where the weights are over, all are 1. It takes
    /// time in proportion to the neighbours.
    ///
    /// The only error is out of memory.
    pub fn new(alloc: Global, keys: &[u32], weights: &[i64]) -> Result<PackedList, AllocError>
        requires some { 0 < length keys.now }
        requires few { length keys.now ≤ MAX_LONG }
        requires ascending { AscendsFrom 0 keys.now }
        ensures { IfOk result (λ l. l ≡ weighted keys.now weights.now) }
    {
        let len = keys.len();
        let width = width_of(keys[len - 1] - keys[0]);
        let weight_width = WeightWidth::of(weights);
        let size = 4 + width * (len - 1) + weight_width.size() * len + PADDING;
        let mut bytes = Vec::with_capacity(alloc, size)?;
        bytes.resize(size, 0)?;
        write_list(&mut bytes, width, weight_width, keys, weights);
        Ok(PackedList {
            bytes,
            len,
            width,
            weights: weight_width,
        })
    }

    /// How many neighbours there are, 1 to 2,048. It takes constant time.
    #[inline]
    pub fn len(&self) -> usize
        ensures count { result ≡ length self.now }
        ensures few { result ≤ MAX_LONG }
        ensures ascending { AscendsFrom 0 (keys_of self.now) }
    {
        self.len
    }

    /// The neighbours where they lie. It takes constant time and no memory.
    #[inline]
    pub fn lend(&self) -> Neighbours<'_>
        ensures { result ≡ self.now }
    {
        let first = number(&self.bytes, 0);
        let mask = u32::MAX >> (32 - 8 * self.width as u32);
        let packed = PackedOffsets {
            first,
            width: self.width,
            mask,
            len: self.len,
            offsets: &self.bytes[4..],
        };
        Neighbours::new(packed, self.weights)
    }
}

/// Writes the neighbours and the weights into bytes that begin with them. Bytes after them may change.
fn write_list(
    bytes: &mut [u8],
    width: usize,
    weight_width: WeightWidth,
    keys: &[u32],
    weights: &[i64],
)
    requires some { 0 < length keys.now }
    requires few { length keys.now ≤ MAX_LONG }
    requires ascending { AscendsFrom 0 keys.now }
    requires width { (0 < width) × (width ≤ 4) }
    requires wide { span_of keys.now < 2 ^ (8 * width) }
    requires allows { (i : ℕ) → Allows weight_width (get_or weights.now i (pos 1)) }
    requires room { 4 + width * (length keys.now - 1) + weight_size weight_width * length keys.now + 3
        ≤ length bytes.old }
    ensures packed { IsPackedIn width (length keys.now) weight_width bytes.new }
    ensures list { packed_in width (length keys.now) weight_width bytes.new
        ≡ weighted keys.now weights.now }
{
    let keys_size = 4 + width * (keys.len() - 1);
    write(bytes, 0, width, keys);
    write_weights(bytes, keys_size, weight_width, keys.len(), weights);
}
