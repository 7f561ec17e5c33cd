//! Run errors: why a run of pieces gave nothing.

ghost use Rattle.std.specs.Prelude.{◌≡◌};
ghost use Rattle.crew.specs.declared.error.CrewError.TheVariants.{NoMemory};
ghost use Rattle.crew.specs.Refusal.{number_of};

use refusal_numbers::{BAD_WORKERS, NO_MEMORY};
use std::alloc::AllocError;
use thiserror::Error;

/// Why a run of pieces gave nothing.
#[derive(Clone, Copy, Debug, PartialEq, Eq, Error)]
pub enum CrewError {
    #[error("the number of workers is not 1 to 64")]
    BadWorkers,
    #[error("out of memory")]
    NoMemory,
}

impl CrewError {
    /// The number by which scripts and users know the refusal: 411 or 900.
    pub fn number(self) -> u16
        ensures { result ≡ number_of self }
    {
        match self {
            CrewError::BadWorkers => BAD_WORKERS,
            CrewError::NoMemory => NO_MEMORY,
        }
    }
}

impl From<AllocError> for CrewError {
    ghost from_gives = { λ _ e. e ≡ NoMemory };

    fn from(_error: AllocError) -> CrewError {
        CrewError::NoMemory
    }
}
