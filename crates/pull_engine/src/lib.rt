//! Edge applies by pull: into the destinations from their sources.
//!
//! [`pull`] goes over the destinations that pass, each with its sources in ascending order, and says what an apply of
//! one or two edge functions to the edges between two ends changes, in the words of `algorithm_meaning`
//! (`after_edges`): the same as a push. Nothing is written: the functions read the vectors that are lent.
//!
//! A pull of a range of destinations goes over blocks of 64 vertices (`ranges.rt`), each with a word in which the bits of the
//! destinations are set (`destination_words.rt`): all bits, a word of a set, 64 comparisons of entries with a number
//! (`entry_tests.rt`), or what a filter of another kind lets through, which is run first, once for each vertex. The block is
//! found once, and of the destinations only those with sources are gone over, bit by bit. Sources are tested in bits: those of
//! a set that is kept so, or bits that are made once for an apply.
//!
//! By functions of any shape, the sources of a destination are read in blocks, and what passes goes to `edge_fold`, where each
//! destination has one writer (`destinations.rt`). If a function reads the weights of edges, a second block has those of the
//! sources; that is asked once for a destination, and by other functions no weight is read.
//!
//! One function that gives a vector by its sources, or by an entry of theirs with the weight, in one of the shapes of
//! `kernels`, needs no scratch. One loop is made for it (`blocks.rt`): the entry of a destination is reduced with the numbers
//! of its sources, packed ones by index in a loop for each width (`all_sources.rt`), and if that is another number, a change is
//! added to an ascending list. If one source decides ([`one_source_decides`]), the walk over the sources ends there: downward
//! for the greatest source, upward for the least, and at the first for a number that all sources give. So breadth-first search
//! reads of each vertex that it has not reached only the sources up to the first in the frontier, as the bottom-up step of
//! direction-optimizing breadth-first search (Beamer, Asanović, Patterson, SC 2012).
//!
//! [`PullWork`] is an apply in pieces, which workers may do side by side: the destinations are cut as the schedule says
//! (`crew::Partition`), a piece answers what the edges into its destinations give, and [`PullWork::merge`] makes the changes of
//! the whole of all answers, in whatever order they come. By a function of such a shape a piece answers what changes at its
//! vertices, and the merge puts the lists one after the other. [`pull_crew`] has the pieces done by 1 to 64 workers. The promise of
//! both is that of [`pull`]. [`pull_by_workers`] does the same for workers who pull again and again on one graph: where its vertices
//! are cut is kept from pull to pull ([`KeptCut`]).
//!
//! Push and pull are those of Ligra's edge map (Shun, Blelloch, PPoPP 2013).
#![tactic(auto)]

mod all_sources;
mod block_ranges;
mod blocks;
mod changes;
mod chosen_sources;
mod crew_apply;
mod destination_words;
mod destinations;
mod early_sources;
mod entry_tests;
mod in_degrees;
mod kept_cut;
mod listed;
mod masks;
mod pieces;
mod ranges;
mod shapes;
mod source_block;
mod source_folds;
mod source_words;
mod work;

pub use changes::pull;
pub use crew_apply::{pull_by_workers, pull_crew};
pub use early_sources::one_source_decides;
pub use kept_cut::KeptCut;
pub use work::PullWork;
