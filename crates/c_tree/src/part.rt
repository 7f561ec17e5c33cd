//! Entries in chunks without their number, of which sets are made.

ghost use Rattle.std.specs.Prelude.{◌≡◌, length, None, IfOk};
ghost use Rattle.std.specs.Map.{keys_of};
ghost use Rattle.ascending_lists.specs.Ascending.{Ascends};
ghost use Rattle.c_tree.specs.Chunks.{HasNoHead, IsSetOf};
ghost use Rattle.c_tree.specs.inside.Parts.{IsPart, in_chunks};

use crate::chunk_size::ChunkSize;
use crate::ctree::CTree;
use crate::tail::ChunkTail;
use crate::view::View;
use shared_tree::Tree;
use std::alloc::{AllocError, Global};
use std::marker::Model;
use tail_codec::Tail;

/// Entries in chunks, of which a set may be made. A contract sees them in ascending order of keys, the
/// chunk size, and the depth of the tree of chunks. Their number is not kept.
pub struct Part {
    prefix: Tail,
    chunks: Tree<ChunkTail>,
    chunk_size: ChunkSize,
}

// By hand: a derived drop would be written out, and proved again, in each function that lets a part go.
impl Drop for Part {
    fn drop(self) {
        let Part {
            prefix: _,
            chunks: _,
            chunk_size: _,
        } = self;
    }
}

impl Model for Part {
    ghost use Rattle.c_tree.specs.Chunks.{ChunkedSet};
    ghost use Rattle.c_tree.specs.inside.Parts.{IsPart, in_chunks};

    ghost Value = { ChunkedSet };

    ghost view = { λ p. in_chunks p.chunk_size p.prefix p.chunks };

    ghost invariant = { λ p. IsPart p.chunk_size p.prefix p.chunks.entries };
}

impl Part {
    /// What is before all heads, and chunks.
    pub(crate) fn new(prefix: Tail, chunks: Tree<ChunkTail>, chunk_size: ChunkSize) -> Part
        requires { IsPart chunk_size prefix chunks.entries }
        ensures { result ≡ in_chunks chunk_size prefix chunks }
    {
        Part {
            prefix,
            chunks,
            chunk_size,
        }
    }

    /// Entries of which no key is a head.
    pub(crate) fn of_prefix(prefix: Tail, chunk_size: ChunkSize) -> Part
        requires ascending { Ascends None (keys_of prefix.entries) }
        requires no_head { HasNoHead chunk_size prefix.entries }
        ensures { IsSetOf prefix.entries chunk_size result }
    {
        Part::new(prefix, Tree::new(), chunk_size)
    }

    /// What is before all heads, the chunks, and the chunk size.
    pub(crate) fn into_parts(self) -> (Tail, Tree<ChunkTail>, ChunkSize)
        ensures part { IsPart result.2 result.0 result.1.entries }
        ensures whole { in_chunks result.2 result.0 result.1 ≡ self }
    {
        let Part {
            prefix,
            chunks,
            chunk_size,
        } = self;
        (prefix, chunks, chunk_size)
    }

    /// The entries, where they stand. It takes no memory.
    pub fn view(&self) -> View<'_>
        ensures { result ≡ self.now }
    {
        View::new(&self.prefix, &self.chunks, self.chunk_size)
    }

    /// The set of the entries, of which there are `len`.
    ///
    /// The only error is out of memory.
    pub fn into_set(self, alloc: Global, len: usize) -> Result<CTree, AllocError>
        requires { len ≡ length self.entries }
        ensures { IfOk result (λ t. t ≡ self) }
    {
        let (prefix, chunks, chunk_size) = self.into_parts();
        let prefix = prefix.over(alloc, None)?;
        Ok(CTree::from_parts(prefix, chunks, len, chunk_size))
    }
}
