//! The neighbours of one vertex in a tree of blocks.

ghost use Rattle.pages.specs.Vertices.{neighbours_of};
ghost use Rattle.vertex_blocks.specs.Blocks.{lists_of};
ghost use Rattle.tree_batch.specs.Neighbours.{HasNeighbours};
ghost use Rattle.tree_batch.specs.inside.VertexBlocks.{AreGraphBlocks};

use pages::BLOCK_SIZE;
use shared_tree::Tree;
use vertex_blocks::{NeighbourSet, VertexBlock};

/// The neighbours of a vertex, or `None` where it has none.
pub(crate) fn neighbours(tree: &Tree<VertexBlock>, vertex: u32) -> Option<NeighbourSet<'_>>
    requires { AreGraphBlocks tree.now.entries }
    ensures { HasNeighbours (neighbours_of vertex (lists_of tree.now.entries)) result }
{
    let Some(block) = tree.find(vertex / BLOCK_SIZE) else {
        return None;
    };
    let neighbours = block.neighbours(vertex % BLOCK_SIZE);
    if neighbours.is_empty() {
        return None;
    }
    Some(neighbours)
}
