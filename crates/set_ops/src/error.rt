//! The error of set operations: which sets do not go together.

ghost use Rattle.std.specs.Prelude.{◌≡◌};
ghost use Rattle.set_ops.specs.declared.error.SetError.TheVariants.{NoMemory};
ghost use Rattle.set_ops.specs.Refusal.{number_of};

use refusal_numbers::{CHUNK_SIZES_DIFFER, NO_MEMORY, NOT_ASCENDING};
use std::alloc::AllocError;
use thiserror::Error;

/// Why two sets, or a set and a list, were not put together.
#[derive(Clone, Copy, Debug, PartialEq, Eq, Error)]
pub enum SetError {
    #[error("the numbers do not ascend")]
    NotAscending,
    #[error("the chunk sizes of two sets differ")]
    ChunkSizesDiffer,
    #[error("out of memory")]
    NoMemory,
}

impl SetError {
    /// The number by which scripts and users know the refusal: 101, 104 or 900.
    pub fn number(self) -> u16
        ensures { result ≡ number_of self }
    {
        match self {
            SetError::NotAscending => NOT_ASCENDING,
            SetError::ChunkSizesDiffer => CHUNK_SIZES_DIFFER,
            SetError::NoMemory => NO_MEMORY,
        }
    }
}

impl From<AllocError> for SetError {
    ghost from_gives = { λ _ e. e ≡ NoMemory };

    fn from(_error: AllocError) -> SetError {
        SetError::NoMemory
    }
}
