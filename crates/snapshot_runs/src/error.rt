//! Refusals of runs on the newest version.
ghost use Rattle.std.specs.Prelude.{◌≡◌};
ghost use Rattle.snapshot_runs.specs.declared.error.LatestRunError.TheVariants.{NoMemory};
ghost use Rattle.snapshot_runs.specs.Refusal.{number_of};
ghost use Rattle.snapshot_runs.specs.inside.Refusal.{of_latest};

use refusal_numbers::{BAD_WORKERS, CLOSED, NO_MEMORY};
use shared_graph::LatestError;
use std::alloc::AllocError;
use thiserror::Error;

/// Why a run on the newest version gave nothing.
#[derive(Clone, Copy, Debug, PartialEq, Eq, Error)]
pub enum LatestRunError {
    #[error("the number of workers is not 1 to 64")]
    BadWorkers,
    #[error("nothing is published, as after the graph was dropped")]
    Closed,
    #[error("out of memory")]
    NoMemory,
}

impl LatestRunError {
    /// The number by which users know the refusal: 411, 125 or 900.
    pub fn number(self) -> u16
        ensures { result ≡ number_of self }
    {
        match self {
            LatestRunError::BadWorkers => BAD_WORKERS,
            LatestRunError::Closed => CLOSED,
            LatestRunError::NoMemory => NO_MEMORY,
        }
    }
}

impl From<LatestError> for LatestRunError {
    ghost from_gives = { λ error e. e ≡ of_latest error };

    fn from(error: LatestError) -> LatestRunError {
        match error {
            LatestError::Closed => LatestRunError::Closed,
            LatestError::NoMemory => LatestRunError::NoMemory,
        }
    }
}

impl From<AllocError> for LatestRunError {
    ghost from_gives = { λ _ e. e ≡ NoMemory };

    fn from(_error: AllocError) -> LatestRunError {
        LatestRunError::NoMemory
    }
}
