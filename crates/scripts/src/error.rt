//! Script errors: what ends a script before its end.
ghost use Rattle.std.specs.Prelude.{◌≡◌};
ghost use Rattle.scripts.specs.declared.error.ScriptError.TheVariants.{NoMemory};
ghost use Rattle.scripts.specs.Refusal.{number_of, error_of_send};

use refusal_numbers::{NO_MEMORY, READ_FAILED, WRITE_FAILED};
use replies::SendError;
use std::alloc::{AllocError, AllocFailed};
use thiserror::Error;

/// What ends a script before its end.
#[derive(Clone, Copy, Debug, PartialEq, Eq, Error)]
pub enum ScriptError {
    /// There was no memory for what a line needs.
    #[error("out of memory")]
    NoMemory,
    /// The reader failed.
    #[error("the script could not be read")]
    ReadFailed,
    /// The writer failed.
    #[error("the replies could not be written")]
    WriteFailed,
}

impl ScriptError {
    /// The number by which users know the refusal: 900, 901 or 902.
    pub fn number(self) -> u16
        ensures { result ≡ number_of self }
    {
        match self {
            ScriptError::NoMemory => NO_MEMORY,
            ScriptError::ReadFailed => READ_FAILED,
            ScriptError::WriteFailed => WRITE_FAILED,
        }
    }
}

impl From<AllocError> for ScriptError {
    ghost from_gives = { λ _ e. e ≡ NoMemory };

    fn from(_error: AllocError) -> ScriptError {
        ScriptError::NoMemory
    }
}

impl<T: Drop> From<AllocFailed<T>> for ScriptError {
    ghost from_gives = { λ _ e. e ≡ NoMemory };

    fn from(_error: AllocFailed<T>) -> ScriptError {
        ScriptError::NoMemory
    }
}

impl From<SendError> for ScriptError {
    ghost from_gives = { λ error e. e ≡ error_of_send error };

    fn from(error: SendError) -> ScriptError {
        match error {
            SendError::NoMemory => ScriptError::NoMemory,
            SendError::WriteFailed => ScriptError::WriteFailed,
        }
    }
}
