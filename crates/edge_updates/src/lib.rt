//! Updates of edges: what is to be added and removed, sorted by edge.
//!
//! An [`EdgeUpdate`] has 8 bytes, and adds an edge with weight 1 or removes one. A [`WeightedUpdate`] has 16
//! bytes, and adds an edge with any weight. Both are an [`Update`]. A contract sees an update as a pair: its
//! vertex, its neighbour and whether the edge between them is added, and the weight that the edge then has.
//! It sees a list of updates as its decisions (`decided_weight`): the last update that names an edge decides
//! whether the edge exists, and with which weight. [`sort`] and [`keep_last`] do not change these decisions,
//! and after both the edges ascend, each once. [`transpose`] swaps the ends of each edge, and
//! [`sort_transposed`] sorts the updates too: they are the other direction, in which an edge has the same
//! weight. The compiler makes a copy of each function for each kind of update.
//!
//! [`Updates`] lends updates with the weights of the edges that they add, and [`Columns`] owns both.
//!
//! Batches of a graph are sorted by this crate: a batch in which all weights are 1 as [`EdgeUpdate`]s.
#![tactic(auto)]

mod columns;
mod converse;
mod edge_update;
mod lasts;
mod sorts;
mod update;
mod updates;
mod weighted_update;

pub use columns::Columns;
pub use converse::transpose;
pub use edge_update::EdgeUpdate;
pub use lasts::keep_last;
pub use sorts::{sort, sort_forked, sort_transposed, sort_transposed_forked};
pub use update::Update;
pub use updates::Updates;
pub use weighted_update::WeightedUpdate;
