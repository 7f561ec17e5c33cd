//! Replies to a person or a program: lines of words and numbers, on their way to a writer.
//!
//! A reply of one line is a [`LineReply`]; a list of edges and the outcome of a run are replies of several
//! lines. Their texts are definitions apart from the code (`specs/ReplyText.antt`). A
//! [`ReplyWriter`] keeps texts in a block of 64 KiB and writes the block when it is full or when it is flushed.
//! Each call that sends is proved to take its whole text, after all that was sent before, and if it fails a
//! beginning of that (`specs/Sending.antt`).
//!
//! `scripts`, `races` and `driver` depend on it.
#![tactic(auto)]

mod line_reply;
mod outcome_text;
mod reply_writer;
mod send_error;

pub use line_reply::LineReply;
pub use outcome_text::is_fault;
pub use reply_writer::{BLOCK, ReplyWriter};
pub use send_error::SendError;
