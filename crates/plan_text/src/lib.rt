//! The text of a plan's instructions.
//!
//! A line of a plan's text is words with a space between. An expression is one word: its words in brackets, operands
//! first. `specs/Lines.antt` says what words each instruction has, in the names of the program. [`Lines`] puts them at the
//! end of a text, each with a space after it, and [`end_line`] makes a line of them.
//!
//! Plans depend on it, and keep the words of each instruction.
#![tactic(auto)]

mod applied_function;
mod edges;
mod expressions;
mod line;
mod names;
mod statements;
mod words;

pub use applied_function::{AppliedFunction, ChangedSet};
pub use line::end_line;
pub use names::Lines;
