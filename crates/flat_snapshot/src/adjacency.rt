//! The neighbours of all vertices in one direction.

ghost use Rattle.std.specs.Prelude.{◌≡◌, ℕ, ◌+◌, ◌^◌, ◌<◌, ◌≤◌, ◌/◌, ◌%◌, false, [], ◌∷◌, length, IfOk, IfSome, MatchOption};
ghost use Rattle.std.specs.Option.{option_copied};
ghost use Rattle.ascending_lists.specs.Maps.{Rises};
ghost use Rattle.pages.specs.Vertices.{neighbours_of};
ghost use Rattle.vertex_blocks.specs.Blocks.{lists_of, AreBlocks, vertices_at};
ghost use Rattle.vertex_blocks.specs.inside.Blocks.{vertices_from};
ghost use Rattle.flat_snapshot.specs.inside.Lists.{degrees_of};
ghost use Rattle.flat_snapshot.specs.inside.Chunks.{AreBlocksBelow, IsChunkOf, is_changed};

use crate::chunk::{CHUNK_BLOCKS, CHUNK_VERTICES, Chunk};
use crate::degrees::Degrees;
use pages::BLOCK_SIZE;
use shared_tree::Tree;
use std::alloc::{AllocError, Global};
use std::marker::Model;
use std::sync::Arc;
use vertex_blocks::{NeighbourSet, VertexBlock};

/// The neighbours of all vertices in one direction. A contract sees the vertices that have some,
/// ascending, each with the list of them and their weights.
pub(crate) struct Adjacency {
    /// The blocks of the vertices from `4096 * k` on at the index `k`.
    chunks: Vec<Arc<Chunk>>,
}

// By hand: a derived drop would be written out, and proved again, where neighbours are dropped.
impl Drop for Adjacency {
    fn drop(self) {
        let Adjacency { chunks: _ } = self;
    }
}

impl Model for Adjacency {
    ghost use Rattle.std.specs.Prelude.{ℕ, ℤ, List, ◌≤◌, ◌^◌, length};
    ghost use Rattle.tree_batch.specs.VertexBlocks.{HaveFew};
    ghost use Rattle.flat_snapshot.specs.inside.Lists.{lists_in};
    ghost use Rattle.flat_snapshot.specs.inside.Chunks.{slots_in, AreChunks};

    ghost Value = { List (ℕ × List (ℕ × ℤ)) };

    ghost view = { λ a. lists_in 0 (slots_in a.chunks.items) };

    ghost invariant = { λ a. (length a.chunks.items ≤ 2 ^ 12) × AreChunks a.chunks.items
        × HaveFew (lists_in 0 (slots_in a.chunks.items)) };
}

impl Adjacency {
    /// The neighbours of no vertex. It takes no memory.
    pub(crate) fn none(alloc: Global) -> Adjacency
        ensures { result ≡ [] }
    {
        Adjacency {
            chunks: Vec::new(alloc),
        }
    }

    /// The neighbours that the blocks of a tree have, of vertices below a count. Chunks that do not change are shared
    /// with these neighbours, the others are new. The only error is out of memory.
    pub(crate) fn following(
        &self,
        alloc: Global,
        vertices: u32,
        tree: &Tree<VertexBlock>,
        changed: &[bool],
    ) -> Result<Adjacency, AllocError>
        requires blocks { AreBlocksBelow vertices tree.now.entries }
        requires same { (u : ℕ) → is_changed changed.now (u / 4096) ≡ false
            → neighbours_of u self.now ≡ neighbours_of u (lists_of tree.now.entries) }
        ensures { IfOk result (λ a. a ≡ lists_of tree.now.entries) }
    {
        let count = vertices.div_ceil(CHUNK_VERTICES);
        let mut chunks = Vec::with_capacity(alloc, count as usize)?;
        for number in 0..count {
            chunks.push(self.chunk(alloc, number, tree, changed)?)?;
        }
        Ok(Adjacency { chunks })
    }

    /// The chunk with a number of the blocks of a tree: it is shared if it does not change, else new. The only error is
    /// out of memory.
    fn chunk(
        &self,
        alloc: Global,
        number: u32,
        tree: &Tree<VertexBlock>,
        changed: &[bool],
    ) -> Result<Arc<Chunk>, AllocError>
        requires number { number < 2 ^ 12 }
        requires map { Rises 0 (2 ^ 18) tree.now.entries }
        requires blocks { AreBlocks tree.now.entries }
        requires same { (u : ℕ) → is_changed changed.now (u / 4096) ≡ false
            → neighbours_of u self.now ≡ neighbours_of u (lists_of tree.now.entries) }
        ensures { IfOk result (λ chunk. IsChunkOf (lists_of tree.now.entries) number chunk.value.blocks) }
    {
        let index = number as usize;
        if index >= changed.len() || index >= self.chunks.len() || changed[index] {
            return Chunk::of(alloc, tree, number);
        }
        self.chunks[index].clone()
    }

    /// The block with a number, if one of its vertices has neighbours.
    #[inline]
    pub(crate) fn block_at(&self, number: u32) -> Option<&VertexBlock>
        ensures { (u : ℕ) → u / 64 ≡ number
            → neighbours_of (u % 64) (vertices_at (option_copied result)) ≡ neighbours_of u self.now }
    {
        let index = (number / CHUNK_BLOCKS) as usize;
        if index >= self.chunks.len() {
            return None;
        }
        self.chunks[index].blocks[(number % CHUNK_BLOCKS) as usize].as_ref()
    }

    /// The block of a vertex, if one of its vertices has neighbours.
    #[inline]
    fn block(&self, vertex: u32) -> Option<&VertexBlock>
        ensures lists { (u : ℕ) → u / 64 ≡ vertex / 64
            → neighbours_of (u % 64) (vertices_at (option_copied result)) ≡ neighbours_of u self.now }
        ensures few { length (neighbours_of vertex self.now) ≤ 16777216 }
    {
        let _ = &self.chunks;
        self.block_at(vertex / BLOCK_SIZE)
    }

    /// The neighbours of a vertex.
    #[inline]
    pub(crate) fn neighbours(&self, vertex: u32) -> NeighbourSet<'_>
        ensures { result ≡ neighbours_of vertex self.now }
    {
        match self.block(vertex) {
            Some(block) => block.neighbours(vertex % BLOCK_SIZE),
            None => NeighbourSet::none(),
        }
    }

    /// How many neighbours a vertex has.
    #[inline]
    pub(crate) fn degree(&self, vertex: u32) -> u32
        ensures { result ≡ length (neighbours_of vertex self.now) }
    {
        match self.block(vertex) {
            Some(block) => block.degree(vertex % BLOCK_SIZE) as u32,
            None => 0,
        }
    }

    /// The first vertex from one on that has neighbours, with their number.
    pub(crate) fn first_from(&self, from: u32) -> Option<(u32, u32)>
        ensures degrees { MatchOption result (degrees_of (vertices_from from self.now) ≡ [])
            (λ d. degrees_of (vertices_from from self.now)
            ≡ d ∷ degrees_of (vertices_from (d.0 + 1) self.now)) }
        ensures within { IfSome result (λ d. d.0 < 2 ^ 24) }
    {
        let end = self.chunks.len() as u32 * CHUNK_VERTICES;
        let mut vertex = from;
        while vertex < end {
            let Some(block) = self.block(vertex) else {
                vertex += BLOCK_SIZE - vertex % BLOCK_SIZE;
                continue;
            };
            let degree = block.degree(vertex % BLOCK_SIZE) as u32;
            if degree > 0 {
                return Some((vertex, degree));
            }
            vertex += 1;
        }
        None
    }

    /// The vertices that have neighbours, ascending, each with their number.
    pub(crate) fn degrees(&self) -> Degrees<'_>
        ensures { result ≡ degrees_of self.now }
    {
        Degrees::new(self)
    }
}
