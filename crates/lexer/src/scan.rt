//! The tokens of a whole text.
ghost use Rattle.std.specs.Prelude.{◌≡◌, ℕ, List, Result};
ghost use Rattle.lexer.specs.declared.error.LexError.{LexError};
ghost use Rattle.lexer.specs.declared.token.Token.{Token};
ghost use Rattle.lexer.specs.Tokens.{HasTokens, Reads, AreTokensFrom};
ghost use Rattle.lexer.specs.Outcome.{Answers, tokens_or_error};

use crate::error::LexError;
use crate::front::{Front, read_front};
use crate::token::{Span, Token};
use std::alloc::Global;

/// The tokens of a text, in order. White bytes and comments stand between them, and each token is the
/// longest that can be at its place.
///
/// The first fault in text order is the error: `BadByte` at a byte that begins no token,
/// `NumberTooLarge` at the first digit of a number above 9223372036854775807, `UnfinishedText` at the
/// quote that opens a text which another byte than 0x20 to 0x7E, or the end, comes before its closing
/// quote. `NoMemory` is the answer where the list of tokens could not grow. The text may have any
/// bytes. One pass is made over it.
pub fn tokens(alloc: Global, source: &[u8]) -> Result<Vec<Token>, LexError>
    ensures { Answers source.now (tokens_or_error result) }
{
    let mut tokens = Vec::new(alloc);
    let mut at = 0;
    while at < source.len() {
        match read_front(&source[at..]) {
            Front::Gap(len) => at += len,
            Front::Token(kind, len) => {
                let span = Span {
                    start: at,
                    end: at + len,
                };
                tokens.push(Token { kind, span })?;
                at += len;
            }
            Front::BadByte => return Err(LexError::BadByte { at }),
            Front::NumberTooLarge => return Err(LexError::NumberTooLarge { at }),
            Front::UnfinishedText => return Err(LexError::UnfinishedText { at }),
        }
    }
    Ok(tokens)
}

/// The law that a text reads in one way: it has one list of tokens, or one first fault, and not both.
/// The call does nothing.
pub fn one_reading()
    ensures { (text : List ℕ) (a b : Result (List Token) LexError) → Reads text a → Reads text b → a ≡ b }
{}

/// The law that the tokens of a text are in it in their order: each has its own bytes at its span, the
/// spans do not overlap, and only white bytes and comments are before, between and after them. The
/// call does nothing.
pub fn tokens_in_order()
    ensures { (text : List ℕ) (tokens : List Token) → HasTokens text tokens → AreTokensFrom text 0 tokens }
{}
