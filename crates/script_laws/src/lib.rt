//! Laws of scripts, in the words of a user. `scripts`, `replies` and `decimal` define the reading of lines and the writing of
//! replies step by step; these laws state the result.
//!
//! The calls do nothing: each is a fact that is proved of every line, number and command. A word is a number exactly where it
//! is its decimal digits after any zeros (`numbers_are_their_digits`). Words are read as a command exactly where they
//! spell it, its name and then its numbers (`commands_are_their_words`), and a line exactly where it is such words joined by
//! single spaces (`lines_are_their_words`). So each command has a line (`commands_have_a_line`), one alone but for zeros in
//! front of numbers, for what may be left out, and for the weight `-0`. `specs/Spelling.antt` has the spellings.
//!
//! The text of an outcome determines it (`texts_determine_their_outcomes`), so runs with one text show the same
//! (`texts_determine_what_runs_show`); `specs/Shown.antt` says of which outcomes: those whose numbers are in the ranges of their
//! types, and whose names have no colon.
//!
//! No crate of the program depends on this one, so that its proofs are off the way of a build.
#![tactic(auto)]

mod commands;
mod outcomes;

pub use commands::{
    commands_are_their_words, commands_have_a_line, lines_are_their_words, numbers_are_their_digits,
};
pub use outcomes::{texts_determine_their_outcomes, texts_determine_what_runs_show};
