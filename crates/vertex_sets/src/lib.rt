//! Sets of vertices, in three forms.
//!
//! A [`VertexSet`] is a set of vertices, numbers below a count that it was made with. A contract sees it
//! as a `VertexSubset`: that count, the members as an ascending list, and the form in which they are
//! kept. Each call says the same of all three forms, and `to_form` changes the form alone.
//!
//! A [`Form::List`] is the members themselves, ascending. It takes no memory where there is no member,
//! so that a small set of many vertices costs what its members cost. A [`Form::Flags`] is a byte a
//! vertex. A [`Form::Bits`] is a bit a vertex, 64 to a word. `contains` reads one flag or
//! words, and searches a list. An [`VertexIter`] goes over the members in ascending order, in words from set
//! bit to set bit. `list`, `flags` and `words` lend what a set is kept in, so that a loop can choose the
//! form before it begins.
//!
//! Two sets of the same members have the same list, by the law `sets_of_the_same_members_are_equal`, and
//! `all_vertices_are_those_below` says what a full set has. These two do nothing when called.
//!
//! It is made for the engines, whose frontiers are such sets. It depends on none of the other crates. The
//! forms are those of Ligra's vertex subsets (Shun, Blelloch, PPoPP 2013), sparse and dense, and the bit
//! vectors of GraphIt (Zhang et al., OOPSLA 2018).
#![tactic(auto)]

mod flags;
mod form;
mod iter;
mod laws;
mod list;
mod set;
mod words;

pub use form::Form;
pub use iter::VertexIter;
pub use laws::{all_vertices_are_those_below, sets_of_the_same_members_are_equal};
pub use set::VertexSet;
