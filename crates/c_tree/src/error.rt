//! The error of sets in chunks: which chunk sizes and lists are refused.

ghost use Rattle.std.specs.Prelude.{◌≡◌};
ghost use Rattle.c_tree.specs.declared.error.CTreeError.TheVariants.{NoMemory};
ghost use Rattle.c_tree.specs.Refusal.{number_of};

use refusal_numbers::{BAD_CHUNK_SIZE, NO_MEMORY, NOT_ASCENDING};
use std::alloc::{AllocError, AllocFailed};
use thiserror::Error;

/// Why a set was not made.
#[derive(Clone, Copy, Debug, PartialEq, Eq, Error)]
pub enum CTreeError {
    #[error("the keys do not ascend")]
    NotAscending,
    #[error("a chunk size is a power of two from 1 to 256")]
    BadChunkSize,
    #[error("out of memory")]
    NoMemory,
}

impl CTreeError {
    /// The number by which scripts and users know the refusal: 101, 103 or 900.
    pub fn number(self) -> u16
        ensures { result ≡ number_of self }
    {
        match self {
            CTreeError::NotAscending => NOT_ASCENDING,
            CTreeError::BadChunkSize => BAD_CHUNK_SIZE,
            CTreeError::NoMemory => NO_MEMORY,
        }
    }
}

impl From<AllocError> for CTreeError {
    ghost from_gives = { λ _ e. e ≡ NoMemory };

    fn from(_error: AllocError) -> CTreeError {
        CTreeError::NoMemory
    }
}

impl<T: Drop> From<AllocFailed<T>> for CTreeError {
    ghost from_gives = { λ _ e. e ≡ NoMemory };

    fn from(_error: AllocFailed<T>) -> CTreeError {
        CTreeError::NoMemory
    }
}
