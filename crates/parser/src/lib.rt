//! The parser of the algorithm language: it takes exactly the texts that are in the grammar
//! (`docs/LANGUAGE.md` has it).
//!
//! In the contracts a source is its tree (`syntax/specs/SourceTrees.antt`), and a text is the terminals of
//! its tokens. [`parse`] answers with a source only where the text has its terminals, nests within the limit,
//! and has the terminals of no other tree; each refusal names its cause and comes only where that holds
//! (`specs/Outcome.antt`). [`one_answer`] is the law that a text has one answer, and
//! [`refusals_stand_in_the_text`] that an offset is at most the text's length, as are those in a source by
//! [`sources_stand_in_the_text`]; they do nothing when called. There is one reader for each rule, in the file of what
//! it reads, and each contract says that it does what the grammar's reading function of that rule does. The offset of
//! a text that is not in the grammar is that of a token or the text's length; that it is the first with which no text
//! is in the grammar is shown by tests.
//!
//! No reader looks further ahead than three tokens, a list is a loop, and no call goes deeper than the
//! nesting limit. The checker of types and the schedule depend on this crate.
#![tactic(auto)]

mod block;
mod cursor;
mod declaration;
mod error;
mod expression;
mod front;
mod initial;
mod schedule;
mod source;
mod statement;
mod syntax_error;
mod types;

pub use error::ParseError;
pub use source::{one_answer, parse, refusals_stand_in_the_text, sources_stand_in_the_text};
