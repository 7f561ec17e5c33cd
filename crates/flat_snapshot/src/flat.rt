//! Flat snapshots of graphs.

ghost use Rattle.std.specs.Prelude.{◌≡◌, ℕ, ◌/◌, ◌%◌, ◌^◌, ◌≤◌, false, length, IfOk};
ghost use Rattle.std.specs.Option.{option_copied};
ghost use Rattle.pages.specs.Vertices.{neighbours_of};
ghost use Rattle.vertex_blocks.specs.Blocks.{vertices_at};
ghost use Rattle.tree_batch.specs.Digraph.{IsDigraph};
ghost use Rattle.tree_batch.specs.Neighbours.{destinations_of, sources_of};
ghost use Rattle.edge_differences.specs.Listed.{AreSameBut};
ghost use Rattle.flat_snapshot.specs.FlatEdges.{AreDegreesOf};
ghost use Rattle.flat_snapshot.specs.inside.Chunks.{is_changed};

use crate::adjacency::Adjacency;
use crate::changed_chunks::ChangedChunks;
use crate::degrees::Degrees;
use std::alloc::{AllocError, Global};
use std::marker::Model;
use tree_batch::Graph;
use vertex_blocks::{NeighbourIter, NeighbourSet, VertexBlock};

/// A graph's neighbours in arrays of blocks, which it shares with the graph and which never change.
/// Threads may share it.
pub struct Flat {
    vertices: u32,
    edge_count: usize,
    outgoing: Adjacency,
    incoming: Adjacency,
}

// By hand: a derived drop would be written out, and proved again, in each function that lets a flat go.
impl Drop for Flat {
    fn drop(self) {
        let Flat {
            vertices: _,
            edge_count: _,
            outgoing: _,
            incoming: _,
        } = self;
    }
}

impl Model for Flat {
    ghost use Rattle.tree_batch.specs.Digraph.{Digraph};
    ghost use Rattle.tree_batch.specs.inside.Digraph.{digraph};
    ghost use Rattle.tree_batch.specs.Neighbours.{edges_of};
    ghost use Rattle.flat_snapshot.specs.inside.FlatEdges.{IsFlat};

    ghost Value = { Digraph };

    ghost view = { λ f. digraph f.vertices (edges_of f.outgoing) };

    ghost invariant = { λ f. IsFlat f.vertices f.edge_count f.outgoing f.incoming };
}

impl Flat {
    /// The flat snapshot of a graph, which stays as it is. It copies no list of neighbours: in each
    /// direction it counts one more owner of each of the graph's blocks of 64 vertices, and takes time
    /// and memory in proportion to the number of blocks that the vertices would fill.
    ///
    /// The only error is out of memory.
    ///
    /// # Example
    ///
    /// ```
    /// let flat = Flat::of(alloc, graph)?;
    /// ```
    pub fn of(alloc: Global, graph: &Graph) -> Result<Flat, AllocError>
        ensures { IfOk result (λ f. f ≡ graph.now) }
    {
        let none = Adjacency::none(alloc);
        let all = ChangedChunks::all(alloc);
        Flat::sharing(alloc, graph, &none, &none, &all)
    }

    /// The flat snapshot of a graph whose edges are those of a former flat but for the listed ones, each its source and its
    /// destination. Edges that do not differ may be listed too, and the graph may have more vertices. Chunks of 64 blocks
    /// that no listed edge names are shared with the former flat. It takes memory in proportion to the number of chunks,
    /// and time in proportion to it, to the listed edges and to 64 for each chunk that one of them names.
    ///
    /// The only error is out of memory.
    pub fn following(
        alloc: Global,
        former: &Flat,
        graph: &Graph,
        edges: &[(u32, u32)],
    ) -> Result<Flat, AllocError>
        requires edges { AreSameBut edges.now graph.now.edges former.now.edges }
        ensures { IfOk result (λ f. f ≡ graph.now) }
    {
        let changed = ChangedChunks::of(alloc, graph.vertices(), edges)?;
        Flat::sharing(alloc, graph, &former.outgoing, &former.incoming, &changed)
    }

    /// The flat snapshot of a graph, which shares the chunks that do not change with the neighbours along edges and
    /// against them of a former flat. The only error is out of memory.
    fn sharing(
        alloc: Global,
        graph: &Graph,
        outgoing: &Adjacency,
        incoming: &Adjacency,
        changed: &ChangedChunks,
    ) -> Result<Flat, AllocError>
        requires out { (u : ℕ) → is_changed changed.now.outgoing.items (u / 4096) ≡ false
            → neighbours_of u outgoing.now ≡ destinations_of u graph.now.edges }
        requires into { (v : ℕ) → is_changed changed.now.incoming.items (v / 4096) ≡ false
            → neighbours_of v incoming.now ≡ sources_of v graph.now.edges }
        ensures { IfOk result (λ f. f ≡ graph.now) }
    {
        let vertices = graph.vertices();
        let (outs, ins) = (graph.outgoing_tree(), graph.incoming_tree());
        let outgoing = outgoing.following(alloc, vertices, outs, &changed.outgoing)?;
        let incoming = incoming.following(alloc, vertices, ins, &changed.incoming)?;
        Ok(Flat {
            vertices,
            edge_count: graph.edge_count(),
            outgoing,
            incoming,
        })
    }

    /// The destinations of the edges from a vertex, ascending, each with the weight of its edge. A number that is no vertex has none.
    /// A look-up takes constant time and no memory.
    #[inline]
    pub fn out(&self, source: u32) -> NeighbourIter<'_>
        ensures { result ≡ destinations_of source self.now.edges }
    {
        self.outgoing.neighbours(source).iter()
    }

    /// The sources of the edges to a vertex, ascending, each with the weight of its edge. A number that is no vertex has none. A
    /// look-up takes constant time and no memory.
    #[inline]
    pub fn in_(&self, destination: u32) -> NeighbourIter<'_>
        ensures { result ≡ sources_of destination self.now.edges }
    {
        self.incoming.neighbours(destination).iter()
    }

    /// The neighbours that `out` walks over, as a set: it is smaller than a walk, and a caller may match on its form.
    #[inline]
    pub fn out_set(&self, source: u32) -> NeighbourSet<'_>
        ensures { result ≡ destinations_of source self.now.edges }
    {
        self.outgoing.neighbours(source)
    }

    /// The sources of the edges to a vertex as a set, as [`Flat::out_set`].
    #[inline]
    pub fn in_set(&self, destination: u32) -> NeighbourSet<'_>
        ensures { result ≡ sources_of destination self.now.edges }
    {
        self.incoming.neighbours(destination)
    }

    /// The block of the 64 vertices with a number, vertex v in block v / 64, with the destinations of the edges from each,
    /// or `None` where there is no such edge. It takes constant time and no memory.
    #[inline]
    pub fn out_block(&self, number: u32) -> Option<&VertexBlock>
        ensures { (u : ℕ) → u / 64 ≡ number
            → neighbours_of (u % 64) (vertices_at (option_copied result)) ≡ destinations_of u self.now.edges }
    {
        self.outgoing.block_at(number)
    }

    /// The block with a number, with the sources of the edges to each of its vertices, as [`Flat::out_block`].
    #[inline]
    pub fn in_block(&self, number: u32) -> Option<&VertexBlock>
        ensures { (v : ℕ) → v / 64 ≡ number
            → neighbours_of (v % 64) (vertices_at (option_copied result)) ≡ sources_of v self.now.edges }
    {
        self.incoming.block_at(number)
    }

    /// How many edges there are from a vertex. It takes constant time and no memory.
    #[inline]
    pub fn out_degree(&self, source: u32) -> u32
        ensures { result ≡ length (destinations_of source self.now.edges) }
    {
        self.outgoing.degree(source)
    }

    /// How many edges there are to a vertex. It takes constant time and no memory.
    #[inline]
    pub fn in_degree(&self, destination: u32) -> u32
        ensures { result ≡ length (sources_of destination self.now.edges) }
    {
        self.incoming.degree(destination)
    }

    /// The vertices that have out-edges, ascending, each with the number of them. It takes no memory,
    /// and all steps together take time in proportion to the blocks and to 64 for each that has edges.
    pub fn sources(&self) -> Degrees<'_>
        ensures degrees { AreDegreesOf (λ u. destinations_of u self.now.edges) result }
        ensures bounded { length result ≤ 2 ^ 32 }
    {
        self.outgoing.degrees()
    }

    /// The vertices that have in-edges, ascending, each with the number of them. It takes no memory,
    /// and all steps together take time in proportion to the blocks and to 64 for each that has edges.
    pub fn destinations(&self) -> Degrees<'_>
        ensures degrees { AreDegreesOf (λ v. sources_of v self.now.edges) result }
        ensures bounded { length result ≤ 2 ^ 32 }
    {
        self.incoming.degrees()
    }

    /// How many edges there are. It takes constant time and no memory.
    #[inline]
    pub fn edge_count(&self) -> usize
        ensures { result ≡ length self.now.edges }
    {
        self.edge_count
    }

    /// How many vertices there are, 1 to 16,777,216. It takes no memory.
    #[inline]
    pub fn vertices(&self) -> u32
        ensures count { result ≡ self.now.vertices }
        ensures graph { IsDigraph self.now }
    {
        self.vertices
    }
}
