//! A graph's neighbours in arrays of blocks, for runs that look them up again and again.
//!
//! A contract sees a [`Flat`] as it sees a graph: its number of vertices and the ascending list of
//! its edges with their weights. `Flat::of` makes the flat of a graph. `out` and `in_` give the neighbours
//! of a vertex in both directions, ascending, with the weights, one by one or many at once; `out_degree` and `in_degree` give their
//! number. `sources` and `destinations` go over the vertices that have edges. None of these takes
//! memory.
//!
//! For each direction a flat keeps chunks of 64 slots, a slot for each 64 vertices, where the graph's
//! block of them stands ([`VertexBlock`](vertex_blocks::VertexBlock)): a look-up needs no tree. The
//! blocks are the graph's own, counted once more, so making a flat copies no list. Flats share chunks:
//! `Flat::following` makes the flat of a graph whose edges are those of a former flat but for listed
//! ones, and makes the chunks of these alone anew. A block never changes, so a flat may outlive its
//! graph, and threads may share it.
//!
//! Engines that run programs over graphs depend on this crate. Flat snapshots are those of Aspen
//! (Dhulipala, Blelloch, Shun, PLDI 2019), with a slot for each block in place of each vertex.
#![tactic(auto)]

mod adjacency;
mod changed_chunks;
mod chunk;
mod degrees;
mod flat;

pub use degrees::Degrees;
pub use flat::Flat;
