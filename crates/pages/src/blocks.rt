//! Neighbours read into blocks, by a loop for each width.

ghost use Rattle.std.specs.Prelude.{◌≡◌, ◌+◌, ◌-◌, ◌*◌, ◌^◌, ◌<◌, ◌≤◌, length, take, drop, reverse};
ghost use Rattle.pages.specs.inside.Packed.{list_of, IsView};

use crate::offsets::{PackedOffsets, offset};

/// Fills a block with the neighbours from an index above 0 on.
#[inline(always)]
pub(crate) fn fill_up(packed: PackedOffsets<'_>, from: usize, block: &mut [u32])
    requires view { IsView packed.first packed.width packed.mask packed.len packed.offsets.now }
    requires some { 0 < from }
    requires room { from + length block.old ≤ packed.len }
    ensures { block.new
        ≡ take (length block.old) (drop from (list_of packed.entry.first packed.entry.width packed.entry.len packed.entry.offsets.now)) }
{
    let mut index = from - 1;
    for position in block.iter_mut() {
        *position = packed.first + offset(packed.offsets, packed.width, packed.mask, index);
        index += 1;
    }
}

/// Fills a block with the neighbours below an index, downward, without the first neighbour.
#[inline(always)]
pub(crate) fn fill_down(packed: PackedOffsets<'_>, end: usize, block: &mut [u32])
    requires view { IsView packed.first packed.width packed.mask packed.len packed.offsets.now }
    requires within { end ≤ packed.len }
    requires room { length block.old < end }
    ensures { block.new
        ≡ take (length block.old) (reverse (take end (list_of packed.entry.first packed.entry.width packed.entry.len packed.entry.offsets.now))) }
{
    let mut index = end - 1;
    for position in block.iter_mut() {
        index -= 1;
        *position = packed.first + offset(packed.offsets, packed.width, packed.mask, index);
    }
}

/// Fills a block with the neighbours from an index above 0 on, by the loop for their width.
#[inline]
pub(crate) fn fill_after(packed: PackedOffsets<'_>, from: usize, block: &mut [u32])
    requires view { IsView packed.first packed.width packed.mask packed.len packed.offsets.now }
    requires some { 0 < from }
    requires room { from + length block.old ≤ packed.len }
    ensures { block.new
        ≡ take (length block.old) (drop from (list_of packed.entry.first packed.entry.width packed.entry.len packed.entry.offsets.now)) }
{
    match packed.width {
        1 => fill_up(packed.of_width(1, 0xff), from, block),
        2 => fill_up(packed.of_width(2, 0xffff), from, block),
        3 => fill_up(packed.of_width(3, 0xff_ffff), from, block),
        _ => fill_up(packed.of_width(4, 0xffff_ffff), from, block),
    }
}

/// Fills a block with the neighbours below an index, downward, by the loop for their width.
#[inline]
pub(crate) fn fill_before(packed: PackedOffsets<'_>, end: usize, block: &mut [u32])
    requires view { IsView packed.first packed.width packed.mask packed.len packed.offsets.now }
    requires within { end ≤ packed.len }
    requires room { length block.old < end }
    ensures { block.new
        ≡ take (length block.old) (reverse (take end (list_of packed.entry.first packed.entry.width packed.entry.len packed.entry.offsets.now))) }
{
    match packed.width {
        1 => fill_down(packed.of_width(1, 0xff), end, block),
        2 => fill_down(packed.of_width(2, 0xffff), end, block),
        3 => fill_down(packed.of_width(3, 0xff_ffff), end, block),
        _ => fill_down(packed.of_width(4, 0xffff_ffff), end, block),
    }
}
