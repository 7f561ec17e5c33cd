//! Going over the edges of a graph.

ghost use Rattle.std.specs.Prelude.{◌≡◌};
ghost use Rattle.std.specs.Iterator.{YieldsFirst, item_count};
ghost use Rattle.vertex_blocks.specs.Blocks.{lists_of};
ghost use Rattle.tree_batch.specs.Neighbours.{edges_of};
ghost use Rattle.tree_batch.specs.inside.VertexBlocks.{AreGraphBlocks};

use crate::vertices::AdjacencyIter;
use shared_tree::Tree;
use std::marker::Model;
use vertex_blocks::{NeighbourIter, VertexBlock};

/// The edges of a graph that are still to come, in ascending order, each with its weight.
#[derive(Drop)]
pub struct EdgeIter<'a> {
    source: u32,
    /// Those of the source that are still to come.
    destinations: Option<NeighbourIter<'a>>,
    vertices: AdjacencyIter<'a>,
}

impl<'a> Model for EdgeIter<'a> {
    ghost use Rattle.std.specs.Prelude.{List, ◌++◌};
    ghost use Rattle.weighted_edges.specs.Edge.{Edge};
    ghost use Rattle.tree_batch.specs.Neighbours.{edges_of};
    ghost use Rattle.tree_batch.specs.inside.Neighbours.{edges_left};

    ghost Value = { List Edge };

    ghost view = { λ i. edges_left i.source i.destinations ++ edges_of i.vertices };
}

impl<'a> EdgeIter<'a> {
    /// The edges from the vertices of blocks to their neighbours.
    pub(crate) fn new(blocks: &'a Tree<VertexBlock>) -> EdgeIter<'a>
        requires { AreGraphBlocks blocks.now.entries }
        ensures { result ≡ edges_of (lists_of blocks.now.entries) }
    {
        EdgeIter {
            source: 0,
            destinations: None,
            vertices: AdjacencyIter::new(blocks),
        }
    }
}

impl<'a> Iterator for EdgeIter<'a> {
    type Item = (u32, u32, i64);

    ghost next_gives = { YieldsFirst (λ i. i) };

    ghost remaining = { item_count (λ i. i) };

    fn next(&mut self) -> Option<(u32, u32, i64)> {
        'rounds: loop {
            if let Some(destinations) = &mut self.destinations {
                if let Some((destination, weight)) = destinations.next() {
                    return Some((self.source, destination, weight));
                }
            }
            let (source, neighbours) = self.vertices.next()?;
            self.source = source;
            self.destinations = Some(neighbours.iter());
        }
    }
}
