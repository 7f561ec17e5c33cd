//! The error of the parser: why a text is no source, and where.

ghost use Rattle.std.specs.Prelude.{◌≡◌};
ghost use Rattle.parser.specs.declared.error.ParseError.TheVariants.{NoMemory};
ghost use Rattle.parser.specs.Refusal.{number_of, offset_of, of_lexer};

use lexer::LexError;
use refusal_numbers::{
    BAD_BYTE, NO_MEMORY, NUMBER_TOO_LARGE, TOO_DEEP, UNEXPECTED, UNFINISHED_TEXT,
};
use std::alloc::{AllocError, AllocFailed};
use thiserror::Error;

/// Why a text is no source. Each fault has its offset in the text, in bytes.
#[derive(Clone, Copy, Debug, PartialEq, Eq, Error)]
pub enum ParseError {
    /// At a byte that begins no token.
    #[error("the byte at {at} begins no token")]
    BadByte { at: usize },
    /// At a number's first digit.
    #[error("the number at {at} is above 9223372036854775807")]
    NumberTooLarge { at: usize },
    /// At the opening quote.
    #[error("the text in quotes that begins at {at} is not closed")]
    UnfinishedText { at: usize },
    /// At the first token after which no text is in the grammar, or at the length of the text.
    #[error("the text is not in the grammar at {at}")]
    Unexpected { at: usize },
    /// At the first token with which more than 64 are open.
    #[error("more than 64 are open at {at}")]
    TooDeep { at: usize },
    #[error("out of memory")]
    NoMemory,
}

impl ParseError {
    /// The number by which users know the refusal: 201, 202, 203, 211, 212 or 900.
    pub fn number(self) -> u16
        ensures { result ≡ number_of self }
    {
        match self {
            ParseError::BadByte { .. } => BAD_BYTE,
            ParseError::NumberTooLarge { .. } => NUMBER_TOO_LARGE,
            ParseError::UnfinishedText { .. } => UNFINISHED_TEXT,
            ParseError::Unexpected { .. } => UNEXPECTED,
            ParseError::TooDeep { .. } => TOO_DEEP,
            ParseError::NoMemory => NO_MEMORY,
        }
    }

    /// The offset of the fault, in bytes, or `None` if memory ran out.
    pub fn at(self) -> Option<usize>
        ensures { result ≡ offset_of self }
    {
        match self {
            ParseError::BadByte { at }
            | ParseError::NumberTooLarge { at }
            | ParseError::UnfinishedText { at }
            | ParseError::Unexpected { at }
            | ParseError::TooDeep { at } => Some(at),
            ParseError::NoMemory => None,
        }
    }
}

impl From<LexError> for ParseError {
    ghost from_gives = { λ error e. e ≡ of_lexer error };

    fn from(error: LexError) -> ParseError {
        match error {
            LexError::BadByte { at } => ParseError::BadByte { at },
            LexError::NumberTooLarge { at } => ParseError::NumberTooLarge { at },
            LexError::UnfinishedText { at } => ParseError::UnfinishedText { at },
            LexError::NoMemory => ParseError::NoMemory,
        }
    }
}
