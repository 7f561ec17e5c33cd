//! Sets that are lent, and what is in them before a head or after one.

ghost use Rattle.std.specs.Prelude.{◌≡◌, ◌↔◌, ◌^◌, ◌≤◌, None, [], length, IsTrue, IfOk, MatchOption};
ghost use Rattle.std.specs.Map.{keys_of};
ghost use Rattle.ascending_lists.specs.Ascending.{Ascends};
ghost use Rattle.c_tree.specs.Chunks.{HasNoHead, chunks_of};
ghost use Rattle.c_tree.specs.inside.Chunks.{together};
ghost use Rattle.c_tree.specs.inside.Parts.{IsPart, in_chunks};
ghost use Rattle.c_tree.specs.Parts.{IsRoot};

use crate::chunk_size::ChunkSize;
use crate::heads::Heads;
use crate::iter::Iter;
use crate::part::Part;
use crate::tail::ChunkTail;
use shared_tree::{Share, Tree};
use std::alloc::{AllocError, Global};
use std::marker::Model;
use tail_codec::{EntryList, Tail};

/// A set that is lent, or what is in it before a head, or after one. A contract sees the entries
/// in ascending order of keys, the chunk size, and the depth of the tree of chunks.
#[derive(Drop)]
pub struct View<'a> {
    pub(crate) prefix: &'a Tail,
    pub(crate) chunks: &'a Tree<ChunkTail>,
    chunk_size: ChunkSize,
}

impl<'a> Model for View<'a> {
    ghost use Rattle.c_tree.specs.Chunks.{ChunkedSet};
    ghost use Rattle.c_tree.specs.inside.Parts.{IsPart, in_chunks};

    ghost Value = { ChunkedSet };

    ghost view = { λ v. in_chunks v.chunk_size v.prefix.now v.chunks.now };

    ghost invariant = { λ v. IsPart v.chunk_size v.prefix.now v.chunks.now.entries };
}

impl<'a> View<'a> {
    /// What is before all heads, and chunks.
    pub(crate) fn new(
        prefix: &'a Tail,
        chunks: &'a Tree<ChunkTail>,
        chunk_size: ChunkSize,
    ) -> View<'a>
        requires { IsPart chunk_size prefix.now chunks.now.entries }
        ensures { result ≡ in_chunks chunk_size prefix.now chunks.now }
    {
        View {
            prefix,
            chunks,
            chunk_size,
        }
    }

    /// Whether there is no entry. It takes no memory.
    pub fn is_empty(&self) -> bool
        ensures { IsTrue result ↔ (self.now.entries ≡ []) }
    {
        self.prefix.is_empty() && self.chunks.is_empty()
    }

    /// How many entries there are, at most 2^32. Takes time in proportion to the heads, and no memory.
    pub fn len(&self) -> usize
        ensures { result ≡ length self.now.entries }
    {
        total_len(self.prefix, Heads::new(self.chunks))
    }

    /// The chunk size.
    pub fn chunk_size(&self) -> ChunkSize
        ensures { result ≡ self.now.chunk_size }
    {
        self.chunk_size
    }

    /// How many nodes the longest way down the tree of the heads has, at most 64. It is 0 where there
    /// is no head. It takes no memory.
    pub fn depth(&self) -> u32
        ensures depth { result ≡ self.now.depth }
        ensures bounded { result ≤ 64 }
    {
        self.chunks.depth()
    }

    /// The heads, ascending, with their weights and tails. It takes no memory.
    #[inline]
    pub fn heads(&self) -> Heads<'a>
        ensures { result ≡ chunks_of self.now.chunk_size self.now.entries }
    {
        Heads::new(self.chunks)
    }

    /// The entries, in ascending order of keys. It takes no memory.
    #[inline]
    pub fn iter(&self) -> Iter<'a>
        ensures entries { result ≡ self.now.entries }
        ensures ascending { Ascends None (keys_of self.now.entries) }
    {
        Iter::new(self.prefix, self.chunks)
    }

    /// The entries in columns. The only error is out of memory.
    pub fn entries(&self, alloc: Global) -> Result<EntryList, AllocError>
        ensures { IfOk result (λ l. l ≡ self.now.entries) }
    {
        let mut keys = Vec::new(alloc);
        keys.resize(self.len(), 0)?;
        let mut weights = Vec::new(alloc);
        weights.resize(self.len(), 1)?;
        self.iter().fill_weighted(&mut keys, &mut weights);
        Ok(EntryList::new(keys, weights))
    }

    /// What is before the head at the root of the tree of chunks, the head, its weight, and what
    /// is after it, or `None` where there is no head. It takes no memory.
    pub fn root(&self) -> Option<(View<'a>, u32, i64, View<'a>)>
        ensures { MatchOption result (HasNoHead self.now.chunk_size self.now.entries)
            (λ p. IsRoot self.now p.0 p.1 p.2 p.3) }
    {
        let (below, key, at_head, above) = self.chunks.parts()?;
        let left = View::new(self.prefix, below, self.chunk_size);
        let right = View::new(at_head.tail(), above, self.chunk_size);
        Some((left, key, at_head.weight(), right))
    }

    /// The entries of a view that has no head.
    pub(crate) fn prefix(&self) -> &'a Tail
        requires { HasNoHead self.now.chunk_size self.now.entries }
        ensures entries { result.now.entries ≡ self.now.entries }
        ensures ascending { Ascends None (keys_of self.now.entries) }
    {
        self.prefix
    }

    /// A part with the entries of this view, and owners of its own. It takes no memory; the error comes where a count of
    /// owners is full.
    pub fn share(&self) -> Result<Part, AllocError>
        ensures { IfOk result (λ p. p ≡ self.now) }
    {
        let prefix = self.prefix.share()?;
        let chunks = self.chunks.share()?;
        Ok(Part::new(prefix, chunks, self.chunk_size))
    }
}

/// How many entries a tail and chunks have together.
fn total_len(prefix: &Tail, heads: Heads<'_>) -> usize
    requires { length (together prefix.now heads) ≤ 2 ^ 32 }
    ensures { result ≡ length (together prefix.now heads.entry) }
{
    let mut len = prefix.len();
    for (_, _, tail) in heads {
        len += tail.len() + 1;
    }
    len
}
