//! Edge differences: which edges two versions of a graph may differ in.
//!
//! The batches between two versions name edges. [`named_edges`] lists the ends of these edges, ascending, each once, and
//! promises that no other edge differs between the graph before the batches and the graph after them: not in whether it is
//! there, and not in its weight (`AreSameBut`). An edge that a batch names may be as it was all the same.
//!
//! Runs that follow the record of a run on a former version depend on this crate.
#![tactic(auto)]

mod distinct;
mod named;

pub use distinct::sorted_ends;
pub use named::{named_edges, others_stay, push_named};
