//! Sources as text that the parser reads back to the same source.
//!
//! [`write`] gives the text of a source. In the contracts that text is the source's terminals, as the grammar
//! spells them, each with a white byte after it (`specs/Text.antt`): a line feed after `;` and `end`, a
//! space after the others. Comments, and the white bytes of a text that the source came from, are not kept,
//! and numbers lose leading zeros.
//!
//! A source is writable where its terminals are tokens and nest within the limit (`specs/ReadBack.antt`). What is
//! written of one is a source for the parser, has no other answer, and is the same source but for the offsets
//! that are in it (`specs/Bare.antt`). [`parsed_sources_are_writable`] is the law that each source that a text is is writable, and
//! [`terminals_are_read_back`] the law that the text of terminals has these terminals as its tokens; they do nothing when
//! called.
//!
//! There is one function for each rule of the grammar, in the file of what it writes.
#![tactic(auto)]

mod declaration;
mod expression;
mod initial;
mod schedule;
mod simple;
mod statement;
mod terminals;
mod writer;

pub use terminals::terminals_are_read_back;
pub use writer::{parsed_sources_are_writable, write};
