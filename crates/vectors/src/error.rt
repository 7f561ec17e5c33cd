//! Grouping errors: why vectors are not put in groups.
ghost use Rattle.std.specs.Prelude.{◌≡◌};
ghost use Rattle.vectors.specs.Refusal.{number_of};
ghost use Rattle.vectors.specs.declared.error.GroupError.TheVariants.{NoMemory};

use refusal_numbers::{BAD_FIELDS, NO_MEMORY};
use std::alloc::AllocError;
use thiserror::Error;

/// Why vectors are not put in groups.
#[derive(Clone, Copy, Debug, PartialEq, Eq, Error)]
pub enum GroupError {
    /// A group names what is no vector, or a vector that is in a group already, or vectors with other numbers of
    /// entries than its first.
    #[error("the groups do not fit the vectors")]
    Unfit,
    #[error("out of memory")]
    NoMemory,
}

impl GroupError {
    /// The number by which users know the refusal: 308, which is also that of groups that a schedule may not name, or 900.
    pub fn number(self) -> u16
        ensures { result ≡ number_of self }
    {
        match self {
            GroupError::Unfit => BAD_FIELDS,
            GroupError::NoMemory => NO_MEMORY,
        }
    }
}

impl From<AllocError> for GroupError {
    ghost from_gives = { λ _ e. e ≡ NoMemory };

    fn from(_error: AllocError) -> GroupError {
        GroupError::NoMemory
    }
}
