//! Scripts: lines of commands on a graph, and the replies to them.
//!
//! A script is lines ended by a line feed, of which the last may lack it. A line is words with one
//! space between two. [`command`] reads a line, and [`script`] reads a script from a reader and writes
//! its replies to a writer.
//!
//! What a script replies is a definition over the lines of its bytes, apart from the code
//! (`specs/Replies.antt`): the lines are the pieces between the line feeds, a
//! table says which words are which command (`specs/Commands.antt`), and the reply to a run is the text
//! of what its program means on its version (crate `replies`). Which programs there are, and how one
//! runs, the caller says by [`Programs`].
//!
//! [`script`] is proved to write exactly those replies to the bytes that the reader gave, in whatever
//! pieces it gave them, and [`run_text`] those to a text. A reader that fails finds
//! the replies to all lines that had ended written, and no more; after the other errors a beginning of
//! the replies is there, whatever the reader would have given next (`specs/Script.antt`). A run's
//! reply is written before the next line is done.
//!
//! A run may follow the record of a former run of the same program: [`script`] keeps the records beside the versions (crate
//! `version_records`), and [`Programs`] says what a record is. No reply depends on it.
//!
//! [`joined_pieces`], [`first_piece`] and [`last_line`] are laws of the definitions themselves, and do
//! nothing when called. The program depends on this crate.
#![tactic(auto)]

mod commands;
mod error;
mod host;
mod open_graph;
mod parse;
mod pieces;
mod programs;
mod script_state;
mod scripts;
mod whole_text;
mod words;

pub use commands::{Command, DEFAULT_CHUNK_SIZE};
pub use error::ScriptError;
pub use parse::command;
pub use pieces::{first_piece, joined_pieces, last_line, split_line};
pub use programs::{ProgramRun, Programs};
pub use script_state::ScriptState;
pub use scripts::script;
pub use whole_text::run_text;
