//! From a source to a checked program.
//!
//! [`check`] resolves all names and gives each expression its type. `specs/Program.antt` says which program a
//! source is and which faults it has: each definition gives a value and the list of the faults on the way to it
//! (`WithFaults` of `expression_types`), and continues after a fault, with something harmless in the place of what is
//! faulty. `check` answers with the program exactly where the list is empty, and else with the least fault of it:
//! that with the least offset, and of several there that with the least number. The code keeps one fault, the
//! least so far.
//!
//! What follows from that definition, rule by rule, is said by the laws of `type_laws`. Two laws that the crates above cite
//! are here; the calls do nothing. A fault is where something in the source does, or at the length of the text
//! (`faults_stand_in_the_source`), and edge functions write by one reduction for each vector
//! (`edge_functions_only_reduce`).
//!
//! The state of the checker, the types of initializers and the forms of declarations are in `initializer_types`, on
//! which this crate depends. One file has one kind of things: declarations, blocks, in what blocks of `main` and of
//! functions differ, statements of `main`, statements of functions, schedules.
#![tactic(auto)]

mod block;
mod block_kind;
mod declaration;
mod error;
mod function;
mod laws;
mod program;
mod schedule;
mod statement;

pub use error::CheckError;
pub use laws::{edge_functions_only_reduce, faults_stand_in_the_source};
pub use program::check;
