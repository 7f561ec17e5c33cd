//! Why there was no race.
ghost use Rattle.std.specs.Prelude.{◌≡◌};
ghost use Rattle.races.specs.Refusal.{number_of, script_number_of};
ghost use Rattle.races.specs.declared.error.RaceError.TheVariants.{NotOpened, NotRun};
ghost use Rattle.races.specs.declared.error.RaceScriptError.TheVariants as script;
ghost use Rattle.snapshot_runs.specs.declared.error.LatestRunError.TheVariants as run;

use refusal_numbers::{BAD_LINE, NO_MEMORY};
use shared_graph::SharedError;
use snapshot_runs::LatestRunError;
use std::alloc::{AllocError, AllocFailed};
use thiserror::Error;

/// Why a text was not read as the script of a race.
#[derive(Clone, Copy, Debug, PartialEq, Eq, Error)]
pub enum RaceScriptError {
    #[error("a race is `vertices`, and then only `add`, `del`, `grow` and `commit`")]
    NoRace,
    #[error("out of memory")]
    NoMemory,
}

impl RaceScriptError {
    /// The number by which users know the refusal: 801 or 900.
    pub fn number(self) -> u16
        ensures { result ≡ script_number_of self }
    {
        match self {
            RaceScriptError::NoRace => BAD_LINE,
            RaceScriptError::NoMemory => NO_MEMORY,
        }
    }
}

impl From<AllocError> for RaceScriptError {
    ghost from_gives = { λ _ e. e ≡ script.NoMemory };

    fn from(_error: AllocError) -> RaceScriptError {
        RaceScriptError::NoMemory
    }
}

impl<T: Drop> From<AllocFailed<T>> for RaceScriptError {
    ghost from_gives = { λ _ e. e ≡ script.NoMemory };

    fn from(_error: AllocFailed<T>) -> RaceScriptError {
        RaceScriptError::NoMemory
    }
}

/// Why a race was not opened, or did not come to its end.
#[derive(Clone, Copy, Debug, PartialEq, Eq, Error)]
pub enum RaceError {
    /// The graph was not opened.
    #[error("{0}")]
    NotOpened(SharedError),
    /// A program was not run.
    #[error("{0}")]
    NotRun(LatestRunError),
}

impl RaceError {
    /// The number by which users know the refusal.
    pub fn number(self) -> u16
        ensures { result ≡ number_of self }
    {
        match self {
            RaceError::NotOpened(error) => error.number(),
            RaceError::NotRun(error) => error.number(),
        }
    }
}

impl From<SharedError> for RaceError {
    ghost from_gives = { λ error e. e ≡ NotOpened error };

    fn from(error: SharedError) -> RaceError {
        RaceError::NotOpened(error)
    }
}

impl From<LatestRunError> for RaceError {
    ghost from_gives = { λ error e. e ≡ NotRun error };

    fn from(error: LatestRunError) -> RaceError {
        RaceError::NotRun(error)
    }
}

impl From<AllocError> for RaceError {
    ghost from_gives = { λ _ e. e ≡ NotRun run.NoMemory };

    fn from(_error: AllocError) -> RaceError {
        RaceError::NotRun(LatestRunError::NoMemory)
    }
}

impl<T: Drop> From<AllocFailed<T>> for RaceError {
    ghost from_gives = { λ _ e. e ≡ NotRun run.NoMemory };

    fn from(_error: AllocFailed<T>) -> RaceError {
        RaceError::NotRun(LatestRunError::NoMemory)
    }
}
