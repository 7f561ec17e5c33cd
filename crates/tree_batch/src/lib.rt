//! Directed graphs, and batches of edges to add and to remove and of vertices to grow to.
//!
//! Each edge has a weight, a signed number of 64 bits. A contract sees a [`Graph`] as its number of
//! vertices and the ascending list of its edges with their weights, and a [`Batch`] as the list of its
//! entries. A graph is kept as two trees of [`VertexBlock`]s, each block the neighbours of 64 vertices:
//! one tree has the destinations of the edges from each vertex, and one the sources of the edges to it.
//! The two are each other's converse, and a block without an edge is in neither. [`NeighbourSet`] is
//! how a graph lends the neighbours of one vertex.
//!
//! `Graph::apply` makes the graph after a batch, in which the last entry that names an edge decides
//! whether it is there and with which weight, and the greatest number of vertices that is asked for
//! counts, and leaves the old graph as it is. The entries are sorted by source and destination, and the
//! last of each edge is kept; a batch in which every added edge has weight 1 is sorted without weights.
//! These updates are cut by blocks, where they lie, and made in one pass over the tree; transposed and
//! sorted again, they are made the other way round. What a batch does not reach, the graphs share.
//! `Graph::apply_forked` gives the same graph: it sorts by threads, and does a pass by halves of the
//! updates that go to two threads.
//!
//! Graphs as trees of C-trees that are updated in batches are those of Dhulipala, Blelloch and Shun
//! (Aspen, PLDI 2019).
#![tactic(auto)]

mod batch;
mod batch_columns;
mod batch_iter;
mod cuts;
mod edges;
mod error;
mod forked;
mod graph;
mod laws;
mod middle;
mod neighbours;
mod sorted;
mod transposed;
mod updates;
mod vertices;
mod weights;

pub use batch::{Batch, Entry};
pub use batch_iter::BatchIter;
pub use edges::EdgeIter;
pub use error::GraphError;
pub use graph::{Graph, MAX_VERTICES};
pub use laws::{directions_are_converse, edges_ascend, graphs_never_shrink, last_entry_decides};
pub use set_ops::{Fork, Quiet};
pub use vertex_blocks::{NeighbourIter, NeighbourSet, VertexBlock};
