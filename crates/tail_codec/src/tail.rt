//! Tails: ascending entries, kept in their bytes.

ghost use Rattle.std.specs.Prelude.{◌≡◌, ◌↔◌, ◌+◌, ◌≤◌, [], ◌++◌, length, take, IsTrue, IfOk};
ghost use Rattle.std.specs.List.{zip};
ghost use Rattle.std.specs.Map.{keys_of};
ghost use Rattle.ascending_lists.specs.Ascending.{Ascends, least};
ghost use Rattle.tail_codec.specs.Appending.{least_after};
ghost use Rattle.tail_codec.specs.Spelling.{Spells, IsBasedList, based_list};
ghost use Rattle.tail_codec.specs.Outcome.{Encodes, Reads};
ghost use Rattle.tail_codec.specs.inside.Decoding.{entries_over};

use crate::base::least_over;
use crate::entries::Entries;
use crate::entry_list::EntryList;
use crate::error::TailError;
use crate::iter::TailIter;
use crate::reading::entry_count;
use crate::shared_bytes::SharedBytes;
use crate::writer::TailWriter;
use std::alloc::{AllocError, Global};
use std::marker::Model;

/// Entries whose keys are below 2^32, ascend and are above a base, or above none, kept in their
/// bytes. A contract sees the base and the entries, pairs of a key and a weight.
pub struct Tail {
    base: Option<u32>,
    len: usize,
    bytes: SharedBytes,
}

const _: () = prove!(size_of::<Tail>() == 32);

// By hand: a derived drop would be written out, and proved again, in each function that lets a tail go.
impl Drop for Tail {
    fn drop(self) {
        let Tail {
            base: _,
            len: _,
            bytes: _,
        } = self;
    }
}

impl Model for Tail {
    ghost use Rattle.std.specs.Prelude.{◌≡◌, length};
    ghost use Rattle.tail_codec.specs.Spelling.{BasedList, based_list, Spells};
    ghost use Rattle.tail_codec.specs.inside.Decoding.{entries_over};

    ghost Value = { BasedList };

    ghost view = { λ t. based_list t.base (entries_over t.base t.bytes) };

    ghost invariant = { λ t. (t.len ≡ length (entries_over t.base t.bytes))
        × Spells t.base (entries_over t.base t.bytes) t.bytes };
}

impl Tail {
    /// The tail of no entries over the base. It takes no memory.
    pub fn new(base: Option<u32>) -> Tail
        ensures { result ≡ based_list base [] }
    {
        Tail {
            base,
            len: 0,
            bytes: SharedBytes::new(),
        }
    }

    /// The tail of these pairs of a key and a weight over the base. Takes time in proportion to them.
    ///
    /// Errors: `NotAscending` where the keys are not strictly ascending or the first is not above the
    /// base, else `NoMemory`.
    pub fn encode(alloc: Global, base: Option<u32>, pairs: &[(u32, i64)]) -> Result<Tail, TailError>
        ensures { Encodes base pairs.now result }
    {
        if !ascends_pairs(base, pairs) {
            return Err(TailError::NotAscending);
        }
        let entries = EntryList::from_pairs(alloc, pairs)?;
        Ok(Tail::from_ascending(alloc, base, &entries.lent())?)
    }

    /// The tail of entries whose keys are known to ascend strictly from the base.
    ///
    /// The only error is out of memory.
    pub fn from_ascending(
        alloc: Global,
        base: Option<u32>,
        entries: &Entries<'_>,
    ) -> Result<Tail, AllocError>
        requires { Ascends base (keys_of entries.now) }
        ensures { IfOk result (λ t. t ≡ based_list base entries.now) }
    {
        TailWriter::new(alloc).write(alloc, base, entries)
    }

    /// The tail that these bytes spell over the base. Takes time in proportion to the bytes.
    ///
    /// Errors: `BadTail` where the bytes spell no list over the base, else `NoMemory`.
    pub fn from_bytes(alloc: Global, base: Option<u32>, bytes: &[u8]) -> Result<Tail, TailError>
        ensures { Reads base bytes.now result }
    {
        let Some(len) = entry_count(least_over(base), bytes) else {
            return Err(TailError::BadTail);
        };
        Ok(Tail::from_spelling(alloc, base, len, bytes)?)
    }

    /// The tail of `len` entries that the bytes are known to spell.
    pub(crate) fn from_spelling(
        alloc: Global,
        base: Option<u32>,
        len: usize,
        bytes: &[u8],
    ) -> Result<Tail, AllocError>
        requires spelled { Spells base (entries_over base bytes.now) bytes.now }
        requires count { len ≡ length (entries_over base bytes.now) }
        ensures { IfOk result (λ t. t ≡ based_list base (entries_over base bytes.now)) }
    {
        let bytes = SharedBytes::from_slice(alloc, bytes)?;
        Ok(Tail { base, len, bytes })
    }

    /// The number above which the keys stand, if there is one.
    #[inline]
    pub fn base(&self) -> Option<u32>
        ensures base { result ≡ self.now.base }
        ensures valid { IsBasedList self.now }
    {
        self.base
    }

    /// How many entries there are. Takes no time that depends on it, and no memory.
    pub fn len(&self) -> usize
        ensures len { result ≡ length self.now.entries }
        ensures valid { IsBasedList self.now }
    {
        self.len
    }

    /// Whether there is no entry.
    pub fn is_empty(&self) -> bool
        ensures { IsTrue result ↔ (self.now.entries ≡ []) }
    {
        self.len == 0
    }

    /// The bytes that spell the entries over the base.
    #[inline]
    pub fn bytes(&self) -> &[u8]
        ensures { Spells self.now.base self.now.entries result.now }
    {
        self.bytes.as_slice()
    }

    /// The entries, in ascending order of keys. They are read from the bytes where they lie, and take no memory.
    #[inline]
    pub fn iter(&self) -> TailIter<'_>
        ensures entries { result ≡ self.now.entries }
        ensures valid { IsBasedList self.now }
    {
        TailIter::new(least_over(self.base), self.bytes.as_slice())
    }

    /// The least key that may be after the entries: one more than the last of them, or than the base
    /// where there is none. Takes time in proportion to the entries, and no memory.
    pub fn least_after(&self) -> u64
        ensures { result ≡ least_after (least self.now.base) (keys_of self.now.entries) }
    {
        let mut least = least_over(self.base);
        for (key, _) in self.iter() {
            least = u64::from(key) + 1;
        }
        least
    }

    /// The entries in columns. The only error is out of memory.
    pub fn entries(&self, alloc: Global) -> Result<EntryList, AllocError>
        ensures { IfOk result (λ l. l ≡ self.now.entries) }
    {
        let mut keys = Vec::new(alloc);
        keys.resize(self.len(), 0)?;
        let mut weights = Vec::new(alloc);
        weights.resize(self.len(), 1)?;
        self.read_into(&mut keys, &mut weights, 0);
        Ok(EntryList::new(keys, weights))
    }

    /// Reads the entries into columns from a position on, and gives the position after them.
    pub(crate) fn read_into(&self, keys: &mut [u32], weights: &mut [i64], position: usize) -> usize
        requires columns { length weights.old ≡ length keys.old }
        requires room { position + length self.now.entries ≤ length keys.old }
        ensures position { result ≡ position + length self.now.entries }
        ensures read { take result (zip keys.new weights.new)
            ≡ take position (zip keys.old weights.old) ++ self.now.entries }
    {
        let mut position = position;
        for (key, weight) in self.iter() {
            keys[position] = key;
            weights[position] = weight;
            position += 1;
        }
        position
    }

    /// One more owner of the same bytes. The only error is out of memory.
    pub fn share(&self) -> Result<Tail, AllocError>
        ensures { IfOk result (λ t. t ≡ self.now) }
    {
        let bytes = self.bytes.share()?;
        Ok(Tail {
            base: self.base,
            len: self.len,
            bytes,
        })
    }
}

/// Whether the keys of pairs ascend strictly, and the first is above the base if there is one. Takes
/// time in proportion to the pairs, and no memory.
fn ascends_pairs(base: Option<u32>, pairs: &[(u32, i64)]) -> bool
    ensures { IsTrue result ↔ Ascends base (keys_of pairs.now) }
{
    let mut low = least_over(base);
    for (key, _) in pairs {
        let key = u64::from(*key);
        if key < low {
            return false;
        }
        low = key + 1;
    }
    true
}
