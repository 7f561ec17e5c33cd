//! Why a reply could not be sent.
ghost use Rattle.std.specs.Prelude.{◌≡◌};
ghost use Rattle.replies.specs.declared.send_error.SendError.TheVariants.{NoMemory};
ghost use Rattle.replies.specs.Refusal.{number_of};

use refusal_numbers::{NO_MEMORY, WRITE_FAILED};
use std::alloc::{AllocError, AllocFailed};
use thiserror::Error;

/// Why a reply could not be sent.
#[derive(Clone, Copy, Debug, PartialEq, Eq, Error)]
pub enum SendError {
    /// There was no memory for its text.
    #[error("out of memory")]
    NoMemory,
    /// The writer failed.
    #[error("the replies could not be written")]
    WriteFailed,
}

impl SendError {
    /// The number by which users know the refusal: 900 or 902.
    pub fn number(self) -> u16
        ensures { result ≡ number_of self }
    {
        match self {
            SendError::NoMemory => NO_MEMORY,
            SendError::WriteFailed => WRITE_FAILED,
        }
    }
}

impl From<AllocError> for SendError {
    ghost from_gives = { λ _ e. e ≡ NoMemory };

    fn from(_error: AllocError) -> SendError {
        SendError::NoMemory
    }
}

impl<T: Drop> From<AllocFailed<T>> for SendError {
    ghost from_gives = { λ _ e. e ≡ NoMemory };

    fn from(_error: AllocFailed<T>) -> SendError {
        SendError::NoMemory
    }
}
