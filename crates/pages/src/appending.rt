//! Lists that come after those of a page.

ghost use Rattle.std.specs.Prelude.{◌≡◌, ℕ, pos, ◌+◌, ◌*◌, ◌^◌, ◌<◌, ◌≤◌, ◌∷◌, ◌++◌, [], length, get_or, take, IsOk};
ghost use Rattle.std.specs.Vec.{vec_len, vec_capacity};
ghost use Rattle.ascending_lists.specs.Ascending.{AscendsFrom};
ghost use Rattle.edge_updates.specs.Weighted.{weighted};
ghost use Rattle.pages.specs.inside.Weights.{Allows};
ghost use Rattle.pages.specs.inside.Packed.{span_of};
ghost use Rattle.pages.specs.inside.Entries.{size_of, keys_at, list_at, lists_in, end_of, placed_at, AreListed, IsExtended};

use crate::entry::ListEntry;
use crate::weights::WeightWidth;
use crate::writing::{width_of, write, write_weights};
use std::alloc::AllocError;

/// How many bytes are after the last list, so that each offset may be read as four bytes.
pub(crate) const PADDING: usize = 3;

/// Adds the list of a vertex after the others. The only error is out of memory, and then all is as
/// it was.
pub(crate) fn store(
    entries: &mut Vec<ListEntry>,
    bytes: &mut Vec<u8>,
    vertex: u32,
    keys: &[u32],
    weights: &[i64],
) -> Result<(), AllocError>
    requires listed { AreListed 0 bytes.old.items entries.old.items }
    requires ends { end_of 0 entries.old.items + 3 ≡ length bytes.old.items }
    requires vertex { vertex < 64 }
    requires room { length entries.old.items < 64 }
    requires some { 0 < length keys.now }
    requires few { length keys.now ≤ 256 }
    requires ascending { AscendsFrom 0 keys.now }
    ensures { IsExtended entries.old.items bytes.old.items
        ((vertex, weighted keys.now weights.now) ∷ []) result entries.new.items bytes.new.items }
{
    let start = bytes.len() - PADDING;
    let last = keys.len() - 1;
    let entry = ListEntry {
        start: start as u32,
        last: last as u8,
        width: width_of(keys[last] - keys[0]) as u8,
        weights: WeightWidth::of(weights),
        vertex: vertex as u8,
    };
    entries.reserve(1)?;
    bytes.resize(bytes.len() + entry.size(), 0)?;
    write_list(bytes, entry, keys, weights);
    entries.push(entry)?;
    Ok(())
}

/// Writes the neighbours and the weights of an entry where it says.
fn write_list(bytes: &mut [u8], entry: ListEntry, keys: &[u32], weights: &[i64])
    requires count { length keys.now ≡ entry.last + 1 }
    requires ascending { AscendsFrom 0 keys.now }
    requires width { (0 < entry.width) × (entry.width ≤ 4) }
    requires wide { span_of keys.now < 2 ^ (8 * entry.width) }
    requires allows { (i : ℕ) → Allows entry.weights (get_or weights.now i (pos 1)) }
    requires room { entry.start + size_of entry + 3 ≤ length bytes.old }
    ensures front { take entry.start bytes.new ≡ take entry.start bytes.old }
    ensures keys { keys_at bytes.new entry ≡ keys.now }
    ensures list { list_at bytes.new entry ≡ weighted keys.now weights.now }
{
    let start = entry.start as usize;
    write(bytes, start, usize::from(entry.width), keys);
    write_weights(
        bytes,
        start + entry.keys_size(),
        entry.weights,
        keys.len(),
        weights,
    );
}

/// Adds the entries of a run after others that have room, for lists which are one after the other
/// from a position on.
fn append(
    entries: &mut Vec<ListEntry>,
    run: &[ListEntry],
    mut position: usize,
) -> Result<(), AllocError>
    requires room { vec_len entries.old + length run.now ≤ vec_capacity entries.old }
    requires fits { end_of position run.now < 2 ^ 32 }
    ensures ok { IsOk result }
    ensures items { entries.new.items ≡ entries.old.items ++ placed_at position run.now }
{
    for entry in run {
        entries.push(ListEntry {
            start: position as u32,
            last: entry.last,
            width: entry.width,
            weights: entry.weights,
            vertex: entry.vertex,
        })?;
        position += entry.size();
    }
    Ok(())
}

/// Adds the lists of a run after the others, whose bytes are those from `start` up to `stop`. The
/// only error is out of memory, and then all is as it was.
pub(crate) fn copy(
    entries: &mut Vec<ListEntry>,
    bytes: &mut Vec<u8>,
    run: &[ListEntry],
    from: &[u8],
    start: usize,
    stop: usize,
) -> Result<(), AllocError>
    requires listed { AreListed 0 bytes.old.items entries.old.items }
    requires ends { end_of 0 entries.old.items + 3 ≡ length bytes.old.items }
    requires room { length entries.old.items + length run.now ≤ 64 }
    requires run { AreListed start from.now run.now }
    requires stop { stop ≡ end_of start run.now }
    requires within { stop + 3 ≤ length from.now }
    ensures { IsExtended entries.old.items bytes.old.items (lists_in from.now run.now) result
        entries.new.items bytes.new.items }
{
    let end = bytes.len() - PADDING;
    let part = &from[start..stop + PADDING];
    entries.reserve(run.len())?;
    bytes.reserve(stop - start)?;
    append(entries, run, end)?;
    bytes.truncate(end);
    bytes.extend_from_slice(part)?;
    Ok(())
}

/// Where the list of the entry at an index starts, or where the last list ends.
pub(crate) fn start_of(entries: &[ListEntry], bytes: &[u8], index: usize) -> usize
    requires listed { AreListed 0 bytes.now entries.now }
    requires ends { end_of 0 entries.now + 3 ≡ length bytes.now }
    requires within { index ≤ length entries.now }
    ensures { result ≡ end_of 0 (take index entries.now) }
{
    if index < entries.len() {
        entries[index].start as usize
    } else {
        bytes.len() - PADDING
    }
}
