//! Run errors: why a run by workers gave nothing.
ghost use Rattle.std.specs.Prelude.{◌≡◌};
ghost use Rattle.runner.specs.declared.run_error.RunError.TheVariants.{NoMemory};
ghost use Rattle.runner.specs.RunRefusal.{number_of};

use refusal_numbers::{BAD_WORKERS, NO_MEMORY};
use std::alloc::AllocError;
use thiserror::Error;

/// Why a run by workers gave nothing.
#[derive(Clone, Copy, Debug, PartialEq, Eq, Error)]
pub enum RunError {
    #[error("the number of workers is not 1 to 64")]
    BadWorkers,
    #[error("out of memory")]
    NoMemory,
}

impl RunError {
    /// The number by which scripts and users know the refusal: 411 or 900.
    pub fn number(self) -> u16
        ensures { result ≡ number_of self }
    {
        match self {
            RunError::BadWorkers => BAD_WORKERS,
            RunError::NoMemory => NO_MEMORY,
        }
    }
}

impl From<AllocError> for RunError {
    ghost from_gives = { λ _ e. e ≡ NoMemory };

    fn from(_error: AllocError) -> RunError {
        RunError::NoMemory
    }
}
