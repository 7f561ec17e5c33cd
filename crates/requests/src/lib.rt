//! The command line of `gsnap`: the request that its words are.
//!
//! [`request`] parses the words with `clap`. It gives a [`Request`], or a [`RequestError`] with clap's own text. Its contract says
//! when it gives a request: if and only if clap finds no fault in the words, unless memory runs out. `specs/Asked.antt` defines the
//! request of each list of words, by the commands that are declared to clap.
//!
//! The other functions are laws: which words are which request, in terms of the usage lines. They do nothing when called. The
//! crate `driver` depends on this one.
#![tactic(auto)]

mod asked;
mod command_line;
mod laws;
mod reading;

pub use asked::{Request, RequestError};
pub use laws::{
    numbers_out_of_range_are_faults, options_are_numbers, plain_commands_are_taken,
    plain_commands_are_their_operands, races_are_asked_for, races_come_in_any_order,
};
pub use reading::{DEFAULT_TURNS, DEFAULT_WORKERS, request};
