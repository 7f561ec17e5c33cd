//! The errors of shared graphs: why one is not opened, and why a step is refused.

ghost use Rattle.std.specs.Prelude.{◌≡◌};
ghost use Rattle.shared_graph.specs.declared.error.SharedError.TheVariants.{NoMemory};
ghost use Rattle.shared_graph.specs.declared.error.LatestError.TheVariants as latest;
ghost use Rattle.shared_graph.specs.Outcome.{number_of, latest_number_of};
ghost use Rattle.shared_graph.specs.inside.Refusal.{from_version};

use refusal_numbers::{
    BAD_CHUNK_SIZE, BAD_SEATS, CLOSED, HISTORY_FULL, NO_MEMORY, NOT_HELD, NOT_KEPT, VERTEX_RANGE,
};
use std::alloc::{AllocError, AllocFailed};
use thiserror::Error;
use version_list::VersionError;

/// Why a step was refused, or a graph was not opened.
#[derive(Clone, Copy, Debug, PartialEq, Eq, Error)]
pub enum SharedError {
    #[error("a graph has 1 to 16777216 vertices and no fewer than before, and an entry names two of them")]
    VertexRange,
    #[error("a chunk size is a power of two from 1 to 256")]
    BadChunkSize,
    #[error("the version is neither the newest nor held")]
    NotKept,
    #[error("the ticket is not open")]
    NotHeld,
    #[error("the history has no room for the step")]
    HistoryFull,
    #[error("a shared graph has 1 to 64 readers")]
    BadSeats,
    #[error("out of memory")]
    NoMemory,
}

impl SharedError {
    /// The number by which users know the refusal: 111, 103, 121 to 124 or 900.
    pub fn number(self) -> u16
        ensures { result ≡ number_of self }
    {
        match self {
            SharedError::VertexRange => VERTEX_RANGE,
            SharedError::BadChunkSize => BAD_CHUNK_SIZE,
            SharedError::NotKept => NOT_KEPT,
            SharedError::NotHeld => NOT_HELD,
            SharedError::HistoryFull => HISTORY_FULL,
            SharedError::BadSeats => BAD_SEATS,
            SharedError::NoMemory => NO_MEMORY,
        }
    }
}

impl From<VersionError> for SharedError {
    ghost from_gives = { λ v e. e ≡ from_version v };

    fn from(error: VersionError) -> SharedError {
        match error {
            VersionError::VertexRange => SharedError::VertexRange,
            VersionError::BadChunkSize => SharedError::BadChunkSize,
            VersionError::NotKept => SharedError::NotKept,
            VersionError::NotHeld => SharedError::NotHeld,
            VersionError::HistoryFull => SharedError::HistoryFull,
            VersionError::NoMemory => SharedError::NoMemory,
        }
    }
}

impl From<AllocError> for SharedError {
    ghost from_gives = { λ _ e. e ≡ NoMemory };

    fn from(_error: AllocError) -> SharedError {
        SharedError::NoMemory
    }
}

impl<T: Drop> From<AllocFailed<T>> for SharedError {
    ghost from_gives = { λ _ e. e ≡ NoMemory };

    fn from(_error: AllocFailed<T>) -> SharedError {
        SharedError::NoMemory
    }
}

/// Why the newest version was not given.
#[derive(Clone, Copy, Debug, PartialEq, Eq, Error)]
pub enum LatestError {
    #[error("nothing is published, as after the graph was dropped")]
    Closed,
    #[error("out of memory")]
    NoMemory,
}

impl LatestError {
    /// The number by which users know the refusal: 125 or 900.
    pub fn number(self) -> u16
        ensures { result ≡ latest_number_of self }
    {
        match self {
            LatestError::Closed => CLOSED,
            LatestError::NoMemory => NO_MEMORY,
        }
    }
}

impl From<AllocError> for LatestError {
    ghost from_gives = { λ _ e. e ≡ latest.NoMemory };

    fn from(_error: AllocError) -> LatestError {
        LatestError::NoMemory
    }
}
