//! The common parts of both engines: an apply of edge functions to the edges between two ends, and its contract.
//!
//! [`Apply`] has the parameters of an apply. `AreChangesOf` says, in the words of `algorithm_meaning` (`after_edges`), what it
//! changes: both engines promise it. Both engines use: all vertices in a list, those with edges in parts, the vertices that an
//! end lets through as bits, a block's vertices tested by bits, alone or with their weights, the results of pieces merged by
//! one worker or by several, each for its own ranges of vertices, and the set of the vertices that an apply has changed.
#![tactic(auto)]

mod appended;
mod apply;
mod joining;
mod members;
mod merging;
mod modified;
mod parts;
mod passing;
mod range_merge;
mod vertices;
mod weighted_members;

pub use apply::Apply;
pub use joining::{join_all, part_between};
pub use members::{keep_members, passes};
pub use merging::{count_found, is_worth_workers, merge_by_ranges};
pub use modified::apply_modified;
pub use parts::take_part;
pub use passing::{passing_between, passing_set};
pub use vertices::{all_vertices, number_between};
pub use weighted_members::keep_members_weighted;
