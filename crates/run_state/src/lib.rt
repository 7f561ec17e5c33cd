//! The state of a run of a plan: vectors, vertex sets, variables, printed text and turns left.
//!
//! A [`State`] has the vectors of a run, its vertex sets with their names, the visible variables, what was printed, and
//! the turns that are left. A contract sees the state of `main` as `algorithm_meaning` has it, and the number of vertices
//! (`RunState` in `specs/State.antt`). Each call does to it what a statement, or a part of one, does there. No call looks
//! a name up, and one that runs out of memory leaves the state as it was.
//!
//! Expressions, vertex functions and filters come as kernels. An edge apply stands outside, in the runner: it reads the
//! [`RunView`] that [`State::view`] lends, [`State::write`] writes what it found, and [`State::update_sets`] gives the
//! sets their new values.
//!
//! The runner depends on it.
#![tactic(auto)]

mod filtering;
mod initial_vectors;
mod named_sets;
mod outcome;
mod printed_text;
mod run_end;
mod run_view;
mod set_update;
mod state;
mod vertices;

pub use run_end::RunEnd;
pub use run_view::RunView;
pub use set_update::SetUpdate;
pub use state::State;
