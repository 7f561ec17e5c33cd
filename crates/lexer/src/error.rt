//! The error of the lexer: why bytes are no tokens, and where.

ghost use Rattle.std.specs.Prelude.{◌≡◌};
ghost use Rattle.lexer.specs.declared.error.LexError.TheVariants.{NoMemory};
ghost use Rattle.lexer.specs.Refusal.{number_of, offset_of};

use refusal_numbers::{BAD_BYTE, NO_MEMORY, NUMBER_TOO_LARGE, UNFINISHED_TEXT};
use std::alloc::{AllocError, AllocFailed};
use thiserror::Error;

/// Why a text has no tokens. Each fault has its offset in the text, in bytes.
#[derive(Clone, Copy, Debug, PartialEq, Eq, Error)]
pub enum LexError {
    /// At a byte that begins no token.
    #[error("the byte at {at} begins no token")]
    BadByte { at: usize },
    /// At a number's first digit.
    #[error("the number at {at} is above 9223372036854775807")]
    NumberTooLarge { at: usize },
    /// At the opening quote.
    #[error("the text in quotes that begins at {at} is not closed")]
    UnfinishedText { at: usize },
    #[error("out of memory")]
    NoMemory,
}

impl LexError {
    /// The number by which users know the refusal: 201, 202, 203 or 900.
    pub fn number(self) -> u16
        ensures { result ≡ number_of self }
    {
        match self {
            LexError::BadByte { .. } => BAD_BYTE,
            LexError::NumberTooLarge { .. } => NUMBER_TOO_LARGE,
            LexError::UnfinishedText { .. } => UNFINISHED_TEXT,
            LexError::NoMemory => NO_MEMORY,
        }
    }

    /// The offset of the fault, in bytes, or `None` if memory ran out.
    pub fn at(self) -> Option<usize>
        ensures { result ≡ offset_of self }
    {
        match self {
            LexError::BadByte { at }
            | LexError::NumberTooLarge { at }
            | LexError::UnfinishedText { at } => Some(at),
            LexError::NoMemory => None,
        }
    }
}

impl From<AllocError> for LexError {
    ghost from_gives = { λ _ e. e ≡ NoMemory };

    fn from(_error: AllocError) -> LexError {
        LexError::NoMemory
    }
}

impl<T: Drop> From<AllocFailed<T>> for LexError {
    ghost from_gives = { λ _ e. e ≡ NoMemory };

    fn from(_error: AllocFailed<T>) -> LexError {
        LexError::NoMemory
    }
}
