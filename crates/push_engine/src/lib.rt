//! Edge applies by push: from the sources to the destinations.
//!
//! [`push`] goes over the edges from the sources that pass, in ascending order, and says what an apply of one or two edge
//! functions to the edges between two ends changes, in the words of `algorithm_meaning` (`after_edges`). Nothing is
//! written: the functions read the vectors that are lent.
//!
//! Sources that are members of a set are gone over in the set, so that an apply costs what these and their edges cost,
//! and nothing in proportion to the graph but a word for each 64 vertices of a set in bits. Of the 64 only those that have
//! edges are looked at. By the direction `DensePush` any set is put into bits first. A filter is run over the vertices with
//! edges, a part at a time. Neighbours are read in blocks, with their weights if a function reads these, and
//! folded by `edge_fold`. If many edges are to come, the destinations that pass are put into bits first, and a block keeps
//! only these. The sources and their edges are counted once, and no further than to the number of vertices.
//!
//! [`PushWork`] is an apply in pieces, for the workers of `crew`: the sources are listed once and cut as the schedule says
//! (`crew::Partition`), a piece answers what the edges from its sources give, and [`PushWork::merge`] makes the changes of the
//! whole of all answers, in whatever order they come. [`push_crew`] has the pieces done by 1 to 64 workers. The promise of
//! both is that of [`push`].
//!
//! Push and pull are those of Ligra's edge map (Shun, Blelloch, PPoPP 2013).
#![tactic(auto)]

mod changes;
mod crew_apply;
mod list_entries;
mod listed;
mod neighbour_block;
mod pieces;
mod push_end;
mod source_degrees;
mod sources;
mod work;

pub use changes::{is_work_above, push};
pub use crew_apply::{push_by_workers, push_crew};
pub use work::PushWork;
