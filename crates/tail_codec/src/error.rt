//! The error of tails: which lists and which bytes are refused.

ghost use Rattle.std.specs.Prelude.{◌≡◌};
ghost use Rattle.tail_codec.specs.declared.error.TailError.TheVariants.{NoMemory};
ghost use Rattle.tail_codec.specs.Refusal.{number_of};

use refusal_numbers::{BAD_TAIL, NO_MEMORY, NOT_ASCENDING};
use std::alloc::{AllocError, AllocFailed};
use thiserror::Error;

/// Why a tail was not made.
#[derive(Clone, Copy, Debug, PartialEq, Eq, Error)]
pub enum TailError {
    #[error("the numbers do not ascend from the base")]
    NotAscending,
    #[error("the bytes spell no list")]
    BadTail,
    #[error("out of memory")]
    NoMemory,
}

impl TailError {
    /// The number by which scripts and users know the refusal: 101, 102 or 900.
    pub fn number(self) -> u16
        ensures { result ≡ number_of self }
    {
        match self {
            TailError::NotAscending => NOT_ASCENDING,
            TailError::BadTail => BAD_TAIL,
            TailError::NoMemory => NO_MEMORY,
        }
    }
}

impl From<AllocError> for TailError {
    ghost from_gives = { λ _ e. e ≡ NoMemory };

    fn from(_error: AllocError) -> TailError {
        TailError::NoMemory
    }
}

impl<T: Drop> From<AllocFailed<T>> for TailError {
    ghost from_gives = { λ _ e. e ≡ NoMemory };

    fn from(_error: AllocFailed<T>) -> TailError {
        TailError::NoMemory
    }
}
