//! Tails that are written one after another.

ghost use Rattle.std.specs.Prelude.{◌≡◌, ◌+◌, ◌*◌, ◌^◌, ◌<◌, ◌≤◌, ℕ, length, IfOk};
ghost use Rattle.std.specs.Map.{keys_of};
ghost use Rattle.ascending_lists.specs.Ascending.{Ascends, AscendsFrom};
ghost use Rattle.tail_codec.specs.Appending.{IsAppended};
ghost use Rattle.tail_codec.specs.Spelling.{SpellsNumbers, entry_numbers, based_list};
ghost use Rattle.tail_codec.specs.inside.Writing.{
  Fits,
  WritesNumber,
  WritesEntry,
  WritesList,
  entry_room,
  list_room,
};

use crate::base::least_over;
use crate::entries::Entries;
use crate::tail::Tail;
use crate::weight::{ONE, number_of_weight};
use std::alloc::{AllocError, Global};

/// How many bytes an entry may have.
const MAX_BYTES: usize = 15;

/// How many bytes an entry of weight 1 may have.
const MAX_BYTES_OF_ONE: usize = 5;

/// Writes tails of entries, one after another, and keeps its buffer.
pub struct TailWriter {
    buffer: Vec<u8>,
}

// By hand, as that of a tail.
impl Drop for TailWriter {
    fn drop(self) {
        let TailWriter { buffer: _ } = self;
    }
}

impl TailWriter {
    /// A writer that has written no tail. It takes no memory.
    pub fn new(alloc: Global) -> TailWriter {
        TailWriter {
            buffer: Vec::new(alloc),
        }
    }

    /// The tail of entries whose keys ascend strictly from the base. Takes time in proportion to them.
    ///
    /// The only error is out of memory.
    pub fn write(
        &mut self,
        alloc: Global,
        base: Option<u32>,
        entries: &Entries<'_>,
    ) -> Result<Tail, AllocError>
        requires { Ascends base (keys_of entries.now) }
        ensures { IfOk result (λ t. t ≡ based_list base entries.now) }
    {
        let room = room_for(entries);
        if self.buffer.len() < room {
            self.buffer.resize(room, 0)?;
        }
        let buffer: &mut [u8] = &mut self.buffer;
        let len = write_list(least_over(base), entries, buffer);
        Tail::from_spelling(alloc, base, entries.len(), &buffer[..len])
    }
}

/// Writes the bytes of an entry after other bytes, where its key is `distance` above the least that
/// might be there.
///
/// The only error is out of memory, and then a part of its bytes may be after the others.
#[inline]
pub fn append_entry(bytes: &mut Vec<u8>, distance: u64, weight: i64) -> Result<(), AllocError>
    requires { distance < 2 ^ 32 }
    ensures { IsAppended bytes.old.items result
        (λ _. SpellsNumbers (entry_numbers distance weight)) bytes.new.items }
{
    let mut buffer = [0; MAX_BYTES];
    let len = write_entry(distance, weight, &mut buffer, 0);
    bytes.extend_from_slice(&buffer[..len])
}

/// How many bytes have room for those of entries.
fn room_for(entries: &Entries<'_>) -> usize
    requires { length entries.now ≤ 2 ^ 32 }
    ensures { list_room entries.now ≤ result }
{
    if entries.has_only_ones() {
        return entries.len() * MAX_BYTES_OF_ONE;
    }
    entries.len() * MAX_BYTES
}

/// Writes the bytes of entries into the front of a buffer, and gives their number.
fn write_list(low: u64, entries: &Entries<'_>, buffer: &mut [u8]) -> usize
    requires ascending { AscendsFrom low (keys_of entries.now) }
    requires room { list_room entries.now ≤ length buffer.old }
    ensures { WritesList low entries.now buffer.new result }
{
    let mut low = low;
    let mut len = 0usize;
    let keys = entries.keys();
    for position in 0..keys.len() {
        let key = u64::from(keys[position]);
        len = write_entry(key - low, entries.weight(position), buffer, len);
        low = key + 1;
    }
    len
}

/// Writes the bytes of an entry into a buffer from a position on, and gives the position after them.
#[inline]
fn write_entry(distance: u64, weight: i64, buffer: &mut [u8], position: usize) -> usize
    requires small { distance < 2 ^ 32 }
    requires room { position + entry_room weight ≤ length buffer.old }
    ensures { WritesEntry distance weight position buffer.old result buffer.new }
{
    let number = number_of_weight(weight);
    if number == ONE {
        return write_number(2 * distance, buffer, position);
    }
    let position = write_number(2 * distance + 1, buffer, position);
    write_number(number, buffer, position)
}

/// Writes the bytes of a number into a buffer from a position on, and gives the position after them.
#[inline(always)]
fn write_number(number: u64, buffer: &mut [u8], position: usize) -> usize
    requires { (n : ℕ) × Fits number n × (position + n ≤ length buffer.old) }
    ensures { WritesNumber number position buffer.old result buffer.new }
{
    let mut rest = number;
    let mut position = position;
    while rest >= 128 {
        buffer[position] = (128 + rest % 128) as u8;
        position += 1;
        rest /= 128;
    }
    buffer[position] = rest as u8;
    position + 1
}
