//! Sets made of entries in order.

ghost use Rattle.std.specs.Prelude.{◌≡◌, ◌↔◌, ◌++◌, [], IfOk, IsTrue, None, length};
ghost use Rattle.std.specs.Map.{keys_of};
ghost use Rattle.ascending_lists.specs.Ascending.{Ascends};
ghost use Rattle.c_tree.specs.Chunks.{before_head, chunks_of, IsSetOf};
ghost use Rattle.c_tree.specs.inside.Cutting.{from_head};
ghost use Rattle.c_tree.specs.Outcome.{Builds};

use crate::chunk_size::ChunkSize;
use crate::ctree::CTree;
use crate::error::CTreeError;
use crate::part::Part;
use crate::tail::ChunkTail;
use shared_tree::Tree;
use std::alloc::{AllocError, Global};
use tail_codec::{Entries, EntryList, TailWriter};

impl CTree {
    /// The set of these pairs of a key and a weight in chunks of this size. It takes time in
    /// proportion to them.
    ///
    /// Errors: `BadChunkSize` where the size is no power of two from 1 to 256, then `NotAscending`
    /// where a key is not above the one before it, else `NoMemory`.
    pub fn from_sorted(
        alloc: Global,
        chunk_size: u32,
        pairs: &[(u32, i64)],
    ) -> Result<CTree, CTreeError>
        ensures { Builds chunk_size pairs.now result }
    {
        let chunk_size = ChunkSize::new(chunk_size)?;
        if !keys_ascend(pairs) {
            return Err(CTreeError::NotAscending);
        }
        let entries = EntryList::from_pairs(alloc, pairs)?;
        let part = Part::from_ascending(alloc, None, chunk_size, &entries.lent())?;
        Ok(part.into_set(alloc, pairs.len())?)
    }
}

/// Whether the keys of pairs ascend strictly. It takes no memory.
fn keys_ascend(pairs: &[(u32, i64)]) -> bool
    ensures { IsTrue result ↔ Ascends None (keys_of pairs.now) }
{
    let mut low = 0u64;
    for (key, _) in pairs {
        let key = u64::from(*key);
        if key < low {
            return false;
        }
        low = key + 1;
    }
    true
}

impl Part {
    /// Entries whose keys ascend strictly from a base, each chunk made anew. It takes time in
    /// proportion to them. What is before the first head is written over the base.
    ///
    /// The only error is out of memory.
    pub fn from_ascending(
        alloc: Global,
        base: Option<u32>,
        chunk_size: ChunkSize,
        entries: &Entries<'_>,
    ) -> Result<Part, AllocError>
        requires { Ascends base (keys_of entries.now) }
        ensures { IfOk result (IsSetOf entries.now chunk_size) }
    {
        let mut writer = TailWriter::new(alloc);
        let (front, rest) = split_at_head(chunk_size, entries);
        let prefix = writer.write(alloc, base, &front)?;
        let chunks = write_chunks(alloc, &mut writer, chunk_size, rest)?;
        let chunks = Tree::from_ascending(alloc, chunks)?;
        Ok(Part::new(prefix, chunks, chunk_size))
    }
}

/// What is before the first head, and the rest.
fn split_at_head<'a>(chunk_size: ChunkSize, entries: &Entries<'a>) -> (Entries<'a>, Entries<'a>)
    ensures front { result.0 ≡ before_head chunk_size entries.now }
    ensures rest { result.1 ≡ from_head chunk_size entries.now }
{
    let index = head_index(chunk_size, entries);
    (entries.up_to(index), entries.from(index))
}

/// How many entries are before the first head.
fn head_index(chunk_size: ChunkSize, entries: &Entries<'_>) -> usize
    ensures { result ≡ length (before_head chunk_size entries.now) }
{
    for (index, key) in entries.keys().iter().enumerate() {
        if chunk_size.is_head(*key) {
            return index;
        }
    }
    entries.len()
}

/// The heads of entries that begin with one, each with its weight and its tail.
fn write_chunks(
    alloc: Global,
    writer: &mut TailWriter,
    chunk_size: ChunkSize,
    entries: Entries<'_>,
) -> Result<Vec<(u32, ChunkTail)>, AllocError>
    requires ascending { Ascends None (keys_of entries) }
    requires cut { before_head chunk_size entries ≡ [] }
    ensures { IfOk result (λ v. v.items ≡ chunks_of chunk_size entries.entry) }
{
    let mut chunks = Vec::new(alloc);
    let mut rest = entries;
    while let Some(head) = rest.keys().first() {
        let weight = rest.weight(0);
        let (tail, next) = split_at_head(chunk_size, &rest.from(1));
        let tail = writer.write(alloc, Some(*head), &tail)?;
        chunks.push((*head, ChunkTail::new(weight, tail)))?;
        rest = next;
    }
    Ok(chunks)
}
