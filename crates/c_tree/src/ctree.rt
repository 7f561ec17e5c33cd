//! Sets of entries in chunks: how they are made, looked up and counted.

ghost use Rattle.std.specs.Prelude.{◌≡◌, ◌↔◌, ◌+◌, ◌*◌, ◌^◌, ◌<◌, ◌≤◌, [], length, IsTrue, IfOk};
ghost use Rattle.c_tree.specs.Chunks.{ChunkedSet, IsChunkedSet, prefix_of, chunks_of};
ghost use Rattle.c_tree.specs.inside.Chunks.{IsChunking};
ghost use Rattle.c_tree.specs.Outcome.{Opens};
ghost use Rattle.c_tree.specs.inside.Parts.{IsMadeOf, in_chunks};

use crate::chunk_size::ChunkSize;
use crate::error::CTreeError;
use crate::heads::Heads;
use crate::iter::Iter;
use crate::tail::ChunkTail;
use crate::view::View;
use shared_tree::{Share, Tree};
use std::alloc::AllocError;
use std::marker::Model;
use tail_codec::Tail;

/// A set of entries, pairs of a key below 2^32 and a weight, cut at its heads. A contract sees its
/// entries in ascending order of keys, its chunk size, and the depth of its tree of chunks. It is 64 bytes beside what its prefix and its
/// tree of chunks take.
pub struct CTree {
    prefix: Tail,
    chunks: Tree<ChunkTail>,
    count: usize,
    chunk_size: ChunkSize,
}

const _: () = prove!(size_of::<CTree>() == 64);

// By hand: a derived drop would be written out, and proved again, in each function that lets a set go.
impl Drop for CTree {
    fn drop(self) {
        let CTree {
            prefix: _,
            chunks: _,
            count: _,
            chunk_size: _,
        } = self;
    }
}

impl Model for CTree {
    ghost use Rattle.c_tree.specs.Heads.{IsChunkSize};
    ghost use Rattle.c_tree.specs.Chunks.{ChunkedSet};
    ghost use Rattle.c_tree.specs.inside.Parts.{IsMadeOf, in_chunks};

    ghost Value = { ChunkedSet };

    ghost view = { λ t. in_chunks t.chunk_size t.prefix t.chunks };

    ghost invariant = { λ t. IsMadeOf t.chunk_size t.count t.prefix t.chunks.entries
        × IsChunkSize t.chunk_size };
}

impl CTree {
    /// The set of no entries in chunks of this size. It takes no memory.
    ///
    /// Error: `BadChunkSize` where the size is no power of two from 1 to 256.
    pub fn new(chunk_size: u32) -> Result<CTree, CTreeError>
        ensures { Opens chunk_size result }
    {
        let chunk_size = ChunkSize::new(chunk_size)?;
        Ok(CTree::from_parts(Tail::new(None), Tree::new(), 0, chunk_size))
    }

    /// The set of a prefix and a tree of chunks that have `len` entries together.
    pub(crate) fn from_parts(
        prefix: Tail,
        chunks: Tree<ChunkTail>,
        len: usize,
        chunk_size: ChunkSize,
    ) -> CTree
        requires { IsMadeOf chunk_size len prefix chunks.entries }
        ensures { result ≡ in_chunks chunk_size prefix chunks }
    {
        CTree {
            prefix,
            chunks,
            count: len,
            chunk_size,
        }
    }

    /// The prefix, and the tree of the weights and tails by their heads.
    #[inline]
    pub(crate) fn parts(&self) -> (&Tail, &Tree<ChunkTail>)
        ensures chunked { IsChunking self.now.chunk_size self.now.entries
            result.0.now result.1.now.entries }
        ensures depth { result.1.now.depth ≡ self.now.depth }
        ensures valid { IsChunkedSet self.now }
    {
        (&self.prefix, &self.chunks)
    }

    /// The set, where it stands. It takes no memory.
    #[inline]
    pub fn view(&self) -> View<'_>
        ensures { result ≡ self.now }
    {
        View::new(&self.prefix, &self.chunks, self.chunk_size)
    }

    /// How many entries there are, at most 2^32. Takes no time that depends on it, and no memory.
    #[inline]
    pub fn len(&self) -> usize
        ensures len { result ≡ length self.now.entries }
        ensures bounded { result ≤ 2 ^ 32 }
        ensures valid { IsChunkedSet self.now }
    {
        self.count
    }

    /// Whether there is no entry. It takes no memory.
    #[inline]
    pub fn is_empty(&self) -> bool
        ensures { IsTrue result ↔ (self.now.entries ≡ []) }
    {
        self.len() == 0
    }

    /// The chunk size.
    #[inline]
    pub fn chunk_size(&self) -> ChunkSize
        ensures { result ≡ self.now.chunk_size }
    {
        self.chunk_size
    }

    /// The entries before the first head. It takes no memory.
    #[inline]
    pub fn prefix(&self) -> &Tail
        ensures { result.now ≡ prefix_of self.now.chunk_size self.now.entries }
    {
        self.parts().0
    }

    /// The heads with their weights and tails, ascending. It takes no memory.
    #[inline]
    pub fn heads(&self) -> Heads<'_>
        ensures heads { result ≡ chunks_of self.now.chunk_size self.now.entries }
        ensures bounded { length (chunks_of self.now.chunk_size self.now.entries) ≤ 2 ^ 32 }
    {
        Heads::new(self.parts().1)
    }

    /// How many nodes the longest way down the tree of the heads has, at most 64: at least so many that
    /// there is room for the heads, and 0 where there is none. It takes no memory.
    pub fn depth(&self) -> u32
        ensures depth { result ≡ self.now.depth }
        ensures shallow { 2 ^ result
            ≤ (length (chunks_of self.now.chunk_size self.now.entries) + 1)
            * (length (chunks_of self.now.chunk_size self.now.entries) + 1) }
        ensures room { length (chunks_of self.now.chunk_size self.now.entries) < 2 ^ result }
        ensures bounded { result ≤ 64 }
        ensures none { (result ≡ 0)
            ↔ (chunks_of self.now.chunk_size self.now.entries ≡ []) }
    {
        let (_, chunks) = self.parts();
        match chunks.parts() {
            None => 0,
            Some(_) => chunks.depth(),
        }
    }

    /// The entries, in ascending order of keys. It takes no memory.
    #[inline]
    pub fn iter(&self) -> Iter<'_>
        ensures entries { result ≡ self.now.entries }
        ensures bounded { length self.now.entries ≤ 2 ^ 32 }
        ensures valid { IsChunkedSet self.now }
    {
        let (prefix, chunks) = self.parts();
        Iter::new(prefix, chunks)
    }
}

impl Share for CTree {
    /// One more owner of the prefix's bytes and of the root of the tree of chunks. It takes no
    /// memory; the error comes where a count of owners is full.
    fn share(&self) -> Result<CTree, AllocError> {
        let prefix = self.prefix.share()?;
        let chunks = self.chunks.share()?;
        Ok(CTree {
            prefix,
            chunks,
            count: self.len(),
            chunk_size: self.chunk_size,
        })
    }
}
