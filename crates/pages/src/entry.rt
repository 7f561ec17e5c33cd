//! Entries of a page, each of which says where a list lies.

ghost use Rattle.std.specs.Prelude.{◌≡◌, ◌+◌, ◌^◌, ◌<◌, ◌≤◌};
ghost use Rattle.pages.specs.inside.Entries.{keys_size, size_of, list_at, IsListed};

use crate::neighbours::Neighbours;
use crate::offsets::{PackedOffsets, number};
use crate::weights::WeightWidth;

/// A vertex that is present, with the position where its list starts, the index of its last neighbour, and
/// how many bytes each offset and each weight takes.
#[derive(Clone, Copy)]
pub(crate) struct ListEntry {
    pub(crate) start: u32,
    pub(crate) last: u8,
    pub(crate) width: u8,
    pub(crate) weights: WeightWidth,
    pub(crate) vertex: u8,
}

const _: () = prove!(size_of::<ListEntry>() == 8);

impl ListEntry {
    /// How many neighbours the list has, 1 to 256.
    #[inline]
    pub(crate) fn degree(self) -> usize
        ensures degree { result ≡ self.last + 1 }
        ensures few { result ≤ 256 }
    {
        usize::from(self.last) + 1
    }

    /// How many bytes the neighbours take.
    #[inline]
    pub(crate) fn keys_size(self) -> usize
        ensures size { result ≡ keys_size self }
        ensures small { result < 2 ^ 17 }
    {
        4 + usize::from(self.width) * usize::from(self.last)
    }

    /// How many bytes the list takes.
    #[inline]
    pub(crate) fn size(self) -> usize
        ensures size { result ≡ size_of self }
        ensures small { result < 2 ^ 17 }
    {
        self.keys_size() + self.weights.size() * self.degree()
    }
}

/// The list of an entry.
#[inline]
pub(crate) fn list_of(bytes: &[u8], entry: ListEntry) -> Neighbours<'_>
    requires { IsListed bytes.now entry }
    ensures { result ≡ list_at bytes.now entry }
{
    let (start, width) = (entry.start as usize, u32::from(entry.width));
    let first = number(bytes, start);
    let mask = u32::MAX >> (32 - 8 * width);
    let packed = PackedOffsets {
        first,
        width: width as usize,
        mask,
        len: entry.degree(),
        offsets: &bytes[start + 4..],
    };
    Neighbours::new(packed, entry.weights)
}
