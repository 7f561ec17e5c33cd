//! Going over the vertices of a block.

ghost use Rattle.std.specs.Prelude.{◌≡◌};
ghost use Rattle.std.specs.Iterator.{YieldsFirst, item_count};
ghost use Rattle.vertex_blocks.specs.Blocks.{IsBlock};

use crate::block::VertexBlock;
use crate::neighbour_set::NeighbourSet;
use pages::BLOCK_SIZE;
use std::marker::Model;

/// The vertices of a block that are still to come, ascending, each with its neighbours and their weights.
#[derive(Drop)]
pub struct BlockIter<'a> {
    block: &'a VertexBlock,
    vertex: u32,
}

impl<'a> Model for BlockIter<'a> {
    ghost use Rattle.vertex_blocks.specs.Blocks.{Block, IsBlock};
    ghost use Rattle.vertex_blocks.specs.inside.Blocks.{vertices_from};

    ghost Value = { Block };

    ghost view = { λ i. vertices_from i.vertex i.block.now };

    ghost invariant = { λ i. IsBlock i.block.now };
}

impl<'a> BlockIter<'a> {
    /// The vertices of a block.
    pub(crate) fn new(block: &'a VertexBlock) -> BlockIter<'a>
        requires { IsBlock block.now }
        ensures { result ≡ block.now }
    {
        BlockIter { block, vertex: 0 }
    }
}

impl<'a> Iterator for BlockIter<'a> {
    type Item = (u32, NeighbourSet<'a>);

    ghost next_gives = { YieldsFirst (λ i. i) };

    ghost remaining = { item_count (λ i. i) };

    fn next(&mut self) -> Option<(u32, NeighbourSet<'a>)> {
        while self.vertex < BLOCK_SIZE {
            let vertex = self.vertex;
            self.vertex += 1;
            let set = self.block.neighbours(vertex);
            if set.len() > 0 {
                return Some((vertex, set));
            }
        }
        None
    }
}
