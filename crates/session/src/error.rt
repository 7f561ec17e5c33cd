//! Refusals of sessions.
ghost use Rattle.std.specs.Prelude.{◌≡◌};
ghost use Rattle.session.specs.Refusal.{number_of};
ghost use Rattle.session.specs.inside.Refusal.{of_versions};
ghost use Rattle.session.specs.declared.error.SessionError.TheVariants.{NoMemory};

use refusal_numbers::{
    BAD_CHUNK_SIZE, HISTORY_FULL, NO_JOB, NO_MEMORY, NO_PROGRAM, NOT_HELD, NOT_KEPT, VERTEX_RANGE,
};
use std::alloc::{AllocError, AllocFailed};
use thiserror::Error;
use version_list::VersionError;

/// Why a session was not opened, or a step was refused.
#[derive(Clone, Copy, Debug, PartialEq, Eq, Error)]
pub enum SessionError {
    #[error("a graph has 1 to 16777216 vertices and no fewer than before, and an entry names two of them")]
    VertexRange,
    #[error("a chunk size is a power of two from 1 to 256")]
    BadChunkSize,
    #[error("the version is neither the newest nor held")]
    NotKept,
    #[error("the ticket is not open")]
    NotHeld,
    #[error("the history has no room for the step")]
    HistoryFull,
    #[error("no program has this number")]
    NoProgram,
    #[error("no job has this number")]
    NoJob,
    #[error("out of memory")]
    NoMemory,
}

impl SessionError {
    /// The number by which users know the refusal: 111, 103, 121, 122, 123, 412, 413 or 900.
    pub fn number(self) -> u16
        ensures { result ≡ number_of self }
    {
        match self {
            SessionError::VertexRange => VERTEX_RANGE,
            SessionError::BadChunkSize => BAD_CHUNK_SIZE,
            SessionError::NotKept => NOT_KEPT,
            SessionError::NotHeld => NOT_HELD,
            SessionError::HistoryFull => HISTORY_FULL,
            SessionError::NoProgram => NO_PROGRAM,
            SessionError::NoJob => NO_JOB,
            SessionError::NoMemory => NO_MEMORY,
        }
    }
}

impl From<VersionError> for SessionError {
    ghost from_gives = { λ error e. e ≡ of_versions error };

    fn from(error: VersionError) -> SessionError {
        match error {
            VersionError::VertexRange => SessionError::VertexRange,
            VersionError::BadChunkSize => SessionError::BadChunkSize,
            VersionError::NotKept => SessionError::NotKept,
            VersionError::NotHeld => SessionError::NotHeld,
            VersionError::HistoryFull => SessionError::HistoryFull,
            VersionError::NoMemory => SessionError::NoMemory,
        }
    }
}

impl From<AllocError> for SessionError {
    ghost from_gives = { λ _ e. e ≡ NoMemory };

    fn from(_error: AllocError) -> SessionError {
        SessionError::NoMemory
    }
}

impl<T: Drop> From<AllocFailed<T>> for SessionError {
    ghost from_gives = { λ _ e. e ≡ NoMemory };

    fn from(_error: AllocFailed<T>) -> SessionError {
        SessionError::NoMemory
    }
}
