//! Directed graphs.

ghost use Rattle.std.specs.Prelude.{◌≡◌, length};
ghost use Rattle.std.specs.Option.{is_some};
ghost use Rattle.tree_batch.specs.Edge.{weight_in};
ghost use Rattle.tree_batch.specs.Digraph.{IsDigraph};
ghost use Rattle.vertex_blocks.specs.Blocks.{lists_of};
ghost use Rattle.tree_batch.specs.Neighbours.{destinations_of, sources_of, edges_of, HasNeighbours};
ghost use Rattle.tree_batch.specs.VertexBlocks.{AreBlocksOf};
ghost use Rattle.tree_batch.specs.Outcome.{Opens, Applies};

use crate::batch::Batch;
use crate::edges::EdgeIter;
use crate::error::GraphError;
use crate::neighbours::neighbours;
use crate::updates::{updates, updates_forked};
use c_tree::ChunkSize;
use set_ops::{Fork, Forking, MAX_FORKS};
use shared_tree::{Share, Tree};
use std::alloc::{AllocError, Global};
use std::fmt::{self, Debug};
use std::marker::Model;
use std::thread::Threads;
use vertex_blocks::{NeighbourSet, VertexBlock};

/// The greatest number of vertices of a graph.
pub const MAX_VERTICES: u32 = 16_777_216;

/// A directed graph whose vertices are the numbers below `vertices`. Self-loops are allowed, and
/// an edge is there once, with one weight, or not at all. No call changes a graph, and graphs share
/// what they have in common.
pub struct Graph {
    vertices: u32,
    chunk_size: ChunkSize,
    edge_count: usize,
    outgoing: Tree<VertexBlock>,
    incoming: Tree<VertexBlock>,
}

// By hand: a derived drop would be written out, and proved again, in each function that lets a graph go.
impl Drop for Graph {
    fn drop(self) {
        let Graph {
            vertices: _,
            chunk_size: _,
            edge_count: _,
            outgoing: _,
            incoming: _,
        } = self;
    }
}

impl Model for Graph {
    ghost use Rattle.tree_batch.specs.Digraph.{Digraph};
    ghost use Rattle.tree_batch.specs.inside.Digraph.{digraph};
    ghost use Rattle.vertex_blocks.specs.Blocks.{lists_of};
    ghost use Rattle.tree_batch.specs.Neighbours.{edges_of};
    ghost use Rattle.tree_batch.specs.inside.VertexBlocks.{IsGraph};

    ghost Value = { Digraph };

    ghost view = { λ g. digraph g.vertices (edges_of (lists_of g.outgoing.entries)) };

    ghost invariant = { λ g. IsGraph g.vertices g.edge_count
        g.outgoing.entries g.incoming.entries };
}

impl Graph {
    /// A graph with this many vertices, 1 to 16,777,216, and no edges. The chunk size, a power of
    /// two from 1 to 256, is about how many neighbours are kept together; it changes no answer.
    /// It takes no memory.
    ///
    /// Errors: `VertexRange` for another number of vertices, else `BadChunkSize` for another
    /// chunk size.
    pub fn new(vertices: u32, chunk_size: u32) -> Result<Graph, GraphError>
        ensures { Opens vertices chunk_size result }
    {
        if vertices == 0 || vertices > MAX_VERTICES {
            return Err(GraphError::VertexRange);
        }
        let Ok(chunk_size) = ChunkSize::new(chunk_size) else {
            return Err(GraphError::BadChunkSize);
        };
        Ok(Graph {
            vertices,
            chunk_size,
            edge_count: 0,
            outgoing: Tree::new(),
            incoming: Tree::new(),
        })
    }

    /// The graph after a batch: it has as many vertices as the entry that asks for most, or as many as
    /// before; for each edge that the batch names, its last entry that names the edge decides whether it is
    /// there and with which weight, and every other edge is there as before. The graph itself stays as it
    /// is, and the new one shares with it what the batch does not reach. For k entries and m edges it takes
    /// time in proportion to `k log(k + m)`, however much the graph grows.
    ///
    /// Errors: `VertexRange` where an entry names a vertex that the new graph does not have, or asks for
    /// fewer vertices than there are or for more than 16,777,216, else `NoMemory`.
    pub fn apply(&self, alloc: Global, batch: &Batch) -> Result<Graph, GraphError>
        ensures { Applies self.now batch.now result }
    {
        if batch.misfits(self.vertices) {
            return Err(GraphError::VertexRange);
        }
        let size = self.chunk_size;
        let updates = updates(alloc, batch)?;
        let out = updates.change(alloc, &self.outgoing, size)?;
        let transposed = updates.transposed(alloc)?;
        let into = transposed.change(alloc, &self.incoming, size)?;
        Ok(Graph {
            vertices: batch.vertices_after(self.vertices),
            chunk_size: self.chunk_size,
            edge_count: self.edge_count.wrapping_add(out.growth),
            outgoing: out.tree,
            incoming: into.tree,
        })
    }

    /// As [`Graph::apply`], with the entries sorted by threads, and with halves of the vertices on two
    /// threads at n levels, at most 6. Where one block of 64 vertices has more than half of the
    /// entries, what is beside it is not forked, and where one vertex of it has more than half of these,
    /// the set of that vertex goes by halves. Where no thread can be started, the caller does both
    /// halves. The answer is that of `apply` whatever `forks` is. `fork` is called with each half that
    /// begins, first of those of the edges by source and then of those by destination.
    ///
    /// Errors: those of [`Graph::apply`].
    pub fn apply_forked<R: Threads + Sync, F: Fork + Sync>(
        &self,
        rt: &R,
        alloc: Global,
        batch: &Batch,
        forks: u32,
        fork: &F,
    ) -> Result<Graph, GraphError>
        ensures { Applies self.now batch.now result }
    {
        if forks == 0 {
            return self.apply(alloc, batch);
        }
        if batch.misfits(self.vertices) {
            return Err(GraphError::VertexRange);
        }
        let (size, forks) = (self.chunk_size, forks.min(MAX_FORKS));
        let forking = Forking {
            forks,
            level: 1,
            fork,
        };
        let updates = updates_forked(rt, alloc, batch)?;
        let outs = updates.change_forked(rt, alloc, &self.outgoing, size, &forking)?;
        let transposed = updates.transposed_forked(rt, alloc)?;
        let ins = transposed.change_forked(rt, alloc, &self.incoming, size, &forking)?;
        Ok(Graph {
            vertices: batch.vertices_after(self.vertices),
            chunk_size: self.chunk_size,
            edge_count: self.edge_count.wrapping_add(outs.growth),
            outgoing: outs.tree,
            incoming: ins.tree,
        })
    }

    /// The destinations of the edges from a vertex, each with the weight of its edge, or `None` where
    /// there is none. It takes logarithmic time and no memory.
    pub fn out(&self, source: u32) -> Option<NeighbourSet<'_>>
        ensures { HasNeighbours (destinations_of source self.now.edges) result }
    {
        self.destinations(source)
    }

    /// The sources of the edges to a vertex, each with the weight of its edge, or `None` where there is
    /// none. It takes logarithmic time and no memory.
    pub fn in_(&self, destination: u32) -> Option<NeighbourSet<'_>>
        ensures { HasNeighbours (sources_of destination self.now.edges) result }
    {
        neighbours(&self.incoming, destination)
    }

    /// As [`Graph::out`], whose name a folder of proofs cannot have.
    fn destinations(&self, source: u32) -> Option<NeighbourSet<'_>>
        ensures { HasNeighbours (destinations_of source self.now.edges) result }
    {
        neighbours(&self.outgoing, source)
    }

    /// The blocks of the vertices that have out-edges, ascending, each by its number: that of a vertex
    /// is the vertex divided by 64. It takes no memory, and a step takes constant time on average.
    pub fn outgoing(&self) -> shared_tree::Iter<'_, VertexBlock>
        ensures blocks { AreBlocksOf (λ u. destinations_of u self.now.edges) result }
        ensures edges { edges_of (lists_of result) ≡ self.now.edges }
        ensures graph { IsDigraph self.now }
    {
        self.outgoing.iter()
    }

    /// The blocks of the vertices that have in-edges, as [`Graph::outgoing`] gives those of the
    /// vertices that have out-edges.
    pub fn incoming(&self) -> shared_tree::Iter<'_, VertexBlock>
        ensures blocks { AreBlocksOf (λ v. sources_of v self.now.edges) result }
    {
        self.incoming.iter()
    }

    /// The blocks that [`Graph::outgoing`] goes over, as a tree that finds one by its number in
    /// logarithmic time. It takes constant time and no memory.
    pub fn outgoing_tree(&self) -> &Tree<VertexBlock>
        ensures blocks { AreBlocksOf (λ u. destinations_of u self.now.edges) result.now.entries }
        ensures edges { edges_of (lists_of result.now.entries) ≡ self.now.edges }
        ensures graph { IsDigraph self.now }
    {
        &self.outgoing
    }

    /// The blocks that [`Graph::incoming`] goes over, as [`Graph::outgoing_tree`] gives those of the
    /// vertices that have out-edges.
    pub fn incoming_tree(&self) -> &Tree<VertexBlock>
        ensures blocks { AreBlocksOf (λ v. sources_of v self.now.edges) result.now.entries }
    {
        &self.incoming
    }

    /// Whether the edge from `source` to `destination` is there. It takes logarithmic time and no
    /// memory.
    pub fn contains(&self, source: u32, destination: u32) -> bool
        ensures { result ≡ is_some (weight_in (source, destination) self.now.edges) }
    {
        self.weight(source, destination).is_some()
    }

    /// The weight of the edge from `source` to `destination`, or `None` if it is not there. It takes
    /// logarithmic time and no memory.
    pub fn weight(&self, source: u32, destination: u32) -> Option<i64>
        ensures { result ≡ weight_in (source, destination) self.now.edges }
    {
        match neighbours(&self.outgoing, source) {
            Some(destinations) => destinations.get(destination),
            None => None,
        }
    }

    /// How many edges there are. It takes constant time and no memory.
    pub fn edge_count(&self) -> usize
        ensures { result ≡ length self.now.edges }
    {
        self.edge_count
    }

    /// How many vertices there are, 1 to 16,777,216. It takes no memory.
    pub fn vertices(&self) -> u32
        ensures count { result ≡ self.now.vertices }
        ensures graph { IsDigraph self.now }
    {
        self.vertices
    }

    /// The edges, each its source, its destination and its weight, ascending by source and then by
    /// destination. It takes no memory.
    pub fn edges(&self) -> EdgeIter<'_>
        ensures edges { result ≡ self.now.edges }
        ensures graph { IsDigraph self.now }
    {
        EdgeIter::new(&self.outgoing)
    }
}

impl Clone for Graph {
    ghost is_clone = { λ graph copy. copy ≡ graph };

    /// A second owner of the graph. It shares the edges, so it takes constant time and no memory.
    ///
    /// Errors: `AllocError` where the graph cannot be shared once more.
    fn clone(&self) -> Result<Graph, AllocError> {
        let outgoing = self.outgoing.share()?;
        let incoming = self.incoming.share()?;
        Ok(Graph {
            vertices: self.vertices,
            chunk_size: self.chunk_size,
            edge_count: self.edge_count,
            outgoing,
            incoming,
        })
    }
}

impl Debug for Graph {
    fn fmt<W: fmt::Write>(&self, f: &mut fmt::Formatter<W>) -> fmt::Result {
        write!(
            f,
            "Graph {{ vertices: {}, edge_count: {} }}",
            self.vertices, self.edge_count
        )
    }
}
