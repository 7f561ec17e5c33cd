//! Edge applies that follow the record of a former apply of the same functions.
//!
//! A run on a version of a graph does mostly what a run of the same program on a former version did. [`follow`] does an edge
//! apply beside the record of a former one. It is lent the former apply with its changes ([`FormerApply`]), and the names of
//! all in which the two applies differ ([`Differences`], both in a [`Followed`]): vertices with other entries, vertices that are a source or a
//! destination in one of the two alone, and edges that one of the two graphs has alone or with another weight. More may be
//! named than differs.
//!
//! The functions may read the entries of the two ends of an edge, and its weight (`is_local_code`). Then a destination gets
//! the same in both applies unless it is reached (`is_reached`): it is named, or a named edge leads to it, or an edge leads to
//! it from a named source or from a source with a named entry. [`mark_reached`] marks these destinations. A pull into them
//! finds their changes, and all other changes are those of the record; [`splice`] makes one list of both. The contract is that
//! of the engines, for functions that, in every state, give each vector numbers by one reduction (`AreChangesReduced`).
//!
//! Following is worth it only if few destinations are reached. So a budget bounds the edges from named vertices, and then
//! those to reached destinations. If it is spent, [`follow`] answers `None`, and the caller does the whole apply by an engine.
//!
//! [`differing`] and [`all_differing`] find the vertices at which the vectors of two applies differ: the named entries.
//!
//! To keep the result of a former state and to compute only what a change reaches is incremental computation. The reached
//! destinations are found by the edges from changed values, which is Ligra's sparse edge map (Shun, Blelloch, PPoPP 2013)
//! applied to differences, as in GraphBolt (Mariappan, Vora, EuroSys 2019).
#![tactic(auto)]

mod among;
mod differences;
mod differing_vertices;
mod following;
mod laws;
mod reached;
mod splicing;
#[cfg(test)]
mod tests;
mod vector_splices;

pub use differences::{Differences, Followed, FormerApply};
pub use differing_vertices::{all_differing, differing, vectors_agree_where_none_differs};
pub use following::follow;
pub use laws::found_changes_may_be_followed;
pub use reached::mark_reached;
pub use splicing::splice;
