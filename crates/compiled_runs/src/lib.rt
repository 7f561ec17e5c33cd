//! Runs of programs, from their texts, on the newest version of a graph that other threads change.
//!
//! [`run_text_on_latest`] compiles a text and runs it. Its contract is the whole way in one sentence: the outcome is what the text
//! means, within the turns, on the fold of the commits of the history that the reader then shows (`specs/Outcome.antt`). The laws
//! lead from a plan to its text: who compiles once and runs often has the same of each run.
//!
//! It depends on `compiler` and `snapshot_runs`.
#![tactic(auto)]

mod error;
mod laws;
mod text_run;

pub use error::TextRunError;
pub use laws::{
    plans_of_checked_programs_are_compiled, plans_show_what_their_texts_mean, texts_mean_one_thing,
};
pub use text_run::{RunBounds, run_text_on_latest};
