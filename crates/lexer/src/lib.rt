//! The tokens of a text of the algorithm language (`docs/LANGUAGE.md` has the rules).
//!
//! In the contracts a text is the list of its bytes, and it is pieces one after the other: white bytes,
//! comments and tokens, each the longest that can be at its place (`specs/Tokens.antt`). Which
//! bytes are a token of which kind is said kind by kind, and how keywords and symbols are spelled is a
//! table (`specs/Spelling.antt`).
//!
//! `tokens` answers with the tokens of the text, or with its first fault, and `one_reading` is the law
//! that a text has one of these and not two. `tokens_in_order` is the law that the tokens are in the
//! text one after the other, each with its own bytes at its span. The laws do nothing when called.
//!
//! The parser depends on this crate.
#![tactic(auto)]

mod bytes;
mod error;
mod front;
mod keyword;
mod scan;
mod symbol;
mod token;

pub use error::LexError;
pub use keyword::Keyword;
pub use scan::{one_reading, tokens, tokens_in_order};
pub use symbol::Symbol;
pub use token::{Span, Token, TokenKind};
