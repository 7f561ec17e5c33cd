//! Chunks of 64 blocks, which flats share.

ghost use Rattle.std.specs.Prelude.{◌≡◌, ◌+◌, ◌^◌, ◌<◌, ◌≤◌, length, IfOk};
ghost use Rattle.ascending_lists.specs.Maps.{Rises};
ghost use Rattle.vertex_blocks.specs.Blocks.{AreBlocks, lists_of};
ghost use Rattle.flat_snapshot.specs.inside.Chunks.{ArePut, IsChunkOf};

use pages::BLOCK_SIZE;
use shared_tree::{Share, Tree};
use std::alloc::{AllocError, Global};
use std::sync::Arc;
use vertex_blocks::VertexBlock;

/// How many blocks a chunk has.
pub(crate) const CHUNK_BLOCKS: u32 = 64;

/// How many vertices the blocks of a chunk have.
pub(crate) const CHUNK_VERTICES: u32 = CHUNK_BLOCKS * BLOCK_SIZE;

/// The blocks of 4,096 vertices, each in its place, if one of its vertices has neighbours.
pub(crate) struct Chunk {
    pub(crate) blocks: [Option<VertexBlock>; 64],
}

// By hand: a derived drop would be written out, and proved again, where chunks are dropped.
impl Drop for Chunk {
    fn drop(self) {
        let Chunk { blocks: _ } = self;
    }
}

impl Chunk {
    /// The chunk with a number, of the blocks of a tree. The only error is out of memory.
    pub(crate) fn of(
        alloc: Global,
        tree: &Tree<VertexBlock>,
        number: u32,
    ) -> Result<Arc<Chunk>, AllocError>
        requires number { number < 2 ^ 12 }
        requires map { Rises 0 (2 ^ 18) tree.now.entries }
        requires blocks { AreBlocks tree.now.entries }
        ensures { IfOk result (λ chunk. IsChunkOf (lists_of tree.now.entries) number chunk.value.blocks) }
    {
        let mut blocks: [Option<VertexBlock>; 64] = Default::default();
        put_blocks(tree, number * CHUNK_BLOCKS, &mut blocks)?;
        Ok(Arc::new(alloc, Chunk { blocks })?)
    }
}

/// Puts the blocks of a tree with the 64 numbers from one on into their places. The only error is out of memory.
fn put_blocks(
    tree: &Tree<VertexBlock>,
    first: u32,
    places: &mut [Option<VertexBlock>],
) -> Result<(), AllocError>
    requires count { length places.old ≡ 64 }
    requires room { first + 64 ≤ 2 ^ 32 }
    ensures { IfOk result (λ _. ArePut tree.now.entries first places.old places.new) }
{
    let Some((below, number, block, above)) = tree.parts() else {
        return Ok(());
    };
    if number < first {
        return put_blocks(above, first, places);
    }
    if number - first >= CHUNK_BLOCKS {
        return put_blocks(below, first, places);
    }
    put_blocks(below, first, places)?;
    places[(number - first) as usize] = Some(block.share()?);
    put_blocks(above, first, places)
}
