//! Blocks of 64 vertices with their neighbours, each with a weight.
//!
//! A block is the vertices of a graph from `64 * k` on, each by its number in the block, 0 to 63. A
//! vertex with at most 256 neighbours has them packed in the block's [`Page`](pages::Page); one with
//! more has them in a list of its own, which versions share where it does not change: up to 2,048 an
//! array that is packed as the page is ([`PackedList`](pages::PackedList)), and above a set in chunks
//! ([`CTree`](c_tree::CTree)). A set is packed again where it falls below 1,536, so that one that goes
//! up and down near 2,048 does not change its form each time. No answer depends on the form. A contract
//! sees a block as its vertices, ascending, each with the list of its entries: its neighbours,
//! ascending, each with a weight of 64 bits.
//! `specs/Blocks.antt` says what is a block.
//!
//! A block is counted and never changes, so trees of versions share it. [`BlockUpdates`] makes the block
//! after updates, of which `specs/Changes.antt` says what they make of one: an added edge gets the
//! update's weight, also where it was there. What does not change is taken over: the bytes of a page are
//! copied whole, and lists of their own are shared. [`blocks_are_their_lists`] is the law that leads
//! from blocks to the vertices of a graph, and does nothing when called.
//!
//! A walk fills blocks with the neighbours alone, and then looks at no weight, or a second block with
//! their weights too.
#![tactic(auto)]

mod block;
mod block_iter;
mod block_updates;
mod building;
mod laws;
mod long_list;
mod long_lists;
mod neighbour_iter;
mod neighbour_set;
mod neighbour_walk;
mod room;
mod runs;
mod set_walk;

pub use block::VertexBlock;
pub use block_iter::BlockIter;
pub use block_updates::BlockUpdates;
pub use c_tree::CTree;
pub use laws::blocks_are_their_lists;
pub use neighbour_iter::NeighbourIter;
pub use neighbour_set::{NeighbourForm, NeighbourSet};
pub use neighbour_walk::NeighbourWalk;
pub use pages::{ByWidth, Neighbours, Page};
pub use set_walk::SetWalk;
