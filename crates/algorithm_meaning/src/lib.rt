//! What programs mean.
//!
//! The definitions are in `specs/`, over the pure trees of `typed_tree`: what operators give
//! (`Arithmetic`), the state that a run works on (`State`), the values of expressions (`Value`) and where
//! `main` has one (`Stand`), variables (`Variables`), entries of vectors (`Entries`), statements of
//! functions (`Function`), applies (`VertexApply`, `EdgeApply`), filters (`Filter`), vertex sets
//! (`VertexSets`), `print` (`Print`), loops with their turns (`Loop`), statements of `main` in order
//! (`Meaning`), and what a run shows in the end (`Shown`). They are total on all trees: an index outside a
//! list reads as 0, as false or as the empty list, and a write there changes nothing. So no run needs
//! a premise on types.
//!
//! A vertex function writes its own vertex at once. An edge function reads the vectors as they were before
//! the apply, and what it gives a destination is collected. An expression of `main` has a value exactly
//! where each index in it, wherever it stands, is a vertex. A run ends by a fault where a statement lacks a
//! value, and then the statement has changed nothing.
//!
//! The laws of the definitions (`Laws`) say: what division leaves, that
//! reductions are commutative and associative, that numbers given by one reduction may come in any order,
//! that an edge apply reduces each entry with all that the edges into its vertex give, so that edges may
//! come in any order, and that a vertex apply leaves other vertices alone. Their functions do nothing when called.
#![tactic(auto)]

mod arithmetic;
mod contribution;
mod laws;
mod outcome;
mod state;

pub use arithmetic::{arithmetic_of, compare, connect, negate, quotients_leave_remainders, reduce};
pub use contribution::{Contribution, Writing};
pub use laws::{
    edge_applies_reduce_entries, edges_come_in_any_order, given_numbers_change_places,
    reductions_have_no_order, remainders_have_the_sign_of_the_dividend,
    vertex_applies_leave_others,
};
pub use outcome::{End, NamedSet, NamedVector, Outcome};
pub use state::{Depth, LoopCounter, SetBinding};
