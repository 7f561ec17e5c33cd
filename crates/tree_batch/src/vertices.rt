//! Going over the vertices of a graph.

ghost use Rattle.std.specs.Prelude.{◌≡◌};
ghost use Rattle.std.specs.Iterator.{YieldsFirst, item_count};
ghost use Rattle.vertex_blocks.specs.Blocks.{lists_of};
ghost use Rattle.tree_batch.specs.inside.VertexBlocks.{AreGraphBlocks};

use pages::BLOCK_SIZE;
use shared_tree::Tree;
use std::marker::Model;
use vertex_blocks::{BlockIter, NeighbourSet, VertexBlock};

/// The vertices that are still to come, ascending, each with its neighbours and their weights.
#[derive(Drop)]
pub(crate) struct AdjacencyIter<'a> {
    /// The number of the block that was begun.
    number: u32,
    /// Its vertices that are still to come.
    vertices: Option<BlockIter<'a>>,
    /// The blocks after it.
    rest: shared_tree::Iter<'a, VertexBlock>,
}

impl<'a> Model for AdjacencyIter<'a> {
    ghost use Rattle.std.specs.Prelude.{ℕ, ℤ, List, ◌++◌};
    ghost use Rattle.vertex_blocks.specs.Blocks.{vertices_at, numbered_vertices, lists_of};
    ghost use Rattle.tree_batch.specs.inside.VertexBlocks.{AreBlocksLeft};

    ghost Value = { List (ℕ × List (ℕ × ℤ)) };

    ghost view = { λ i. numbered_vertices i.number (vertices_at i.vertices) ++ lists_of i.rest };

    ghost invariant = { λ i. AreBlocksLeft i.number (vertices_at i.vertices) i.rest };
}

impl<'a> AdjacencyIter<'a> {
    /// The vertices of blocks.
    pub(crate) fn new(blocks: &'a Tree<VertexBlock>) -> AdjacencyIter<'a>
        requires { AreGraphBlocks blocks.now.entries }
        ensures { result ≡ lists_of blocks.now.entries }
    {
        AdjacencyIter {
            number: 0,
            vertices: None,
            rest: blocks.iter(),
        }
    }
}

impl<'a> Iterator for AdjacencyIter<'a> {
    type Item = (u32, NeighbourSet<'a>);

    ghost next_gives = { YieldsFirst (λ i. i) };

    ghost remaining = { item_count (λ i. i) };

    fn next(&mut self) -> Option<(u32, NeighbourSet<'a>)> {
        'rounds: loop {
            if let Some(vertices) = &mut self.vertices {
                if let Some((vertex, neighbours)) = vertices.next() {
                    return Some((BLOCK_SIZE * self.number + vertex, neighbours));
                }
            }
            let (number, block) = self.rest.next()?;
            self.number = number;
            self.vertices = Some(block.iter());
        }
    }
}
