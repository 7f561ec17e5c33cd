//! The error of trees: which lists are refused.

ghost use Rattle.std.specs.Prelude.{◌≡◌};
ghost use Rattle.shared_tree.specs.declared.error.TreeError.TheVariants.{NoMemory};
ghost use Rattle.shared_tree.specs.Refusal.{number_of};

use refusal_numbers::{NO_MEMORY, NOT_ASCENDING};
use std::alloc::{AllocError, AllocFailed};
use thiserror::Error;

/// Why a tree was not made.
#[derive(Clone, Copy, Debug, PartialEq, Eq, Error)]
pub enum TreeError {
    #[error("the keys do not ascend")]
    NotAscending,
    #[error("out of memory")]
    NoMemory,
}

impl TreeError {
    /// The number by which users know the refusal: 101 or 900.
    pub fn number(self) -> u16
        ensures { result ≡ number_of self }
    {
        match self {
            TreeError::NotAscending => NOT_ASCENDING,
            TreeError::NoMemory => NO_MEMORY,
        }
    }
}

impl From<AllocError> for TreeError {
    ghost from_gives = { λ _ e. e ≡ NoMemory };

    fn from(_error: AllocError) -> TreeError {
        TreeError::NoMemory
    }
}

impl<T: Drop> From<AllocFailed<T>> for TreeError {
    ghost from_gives = { λ _ e. e ≡ NoMemory };

    fn from(_error: AllocFailed<T>) -> TreeError {
        TreeError::NoMemory
    }
}
