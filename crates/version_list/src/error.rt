//! The error of versions: which steps are refused.

ghost use Rattle.std.specs.Prelude.{◌≡◌};
ghost use Rattle.version_list.specs.declared.error.VersionError.TheVariants.{NoMemory};
ghost use Rattle.version_list.specs.Refusal.{number_of};
ghost use Rattle.version_list.specs.inside.Refusal.{from_graph};

use refusal_numbers::{BAD_CHUNK_SIZE, HISTORY_FULL, NO_MEMORY, NOT_HELD, NOT_KEPT, VERTEX_RANGE};
use std::alloc::{AllocError, AllocFailed};
use thiserror::Error;
use tree_batch::GraphError;

/// Why a step was refused, or versions were not opened.
#[derive(Clone, Copy, Debug, PartialEq, Eq, Error)]
pub enum VersionError {
    #[error("a graph has 1 to 16777216 vertices and no fewer than before, and an entry names two of them")]
    VertexRange,
    #[error("a chunk size is a power of two from 1 to 256")]
    BadChunkSize,
    #[error("the version is neither the newest nor held")]
    NotKept,
    #[error("the ticket is not open")]
    NotHeld,
    #[error("the history has no room for the step")]
    HistoryFull,
    #[error("out of memory")]
    NoMemory,
}

impl VersionError {
    /// The number by which scripts and users know the refusal: 111, 103, 121, 122, 123 or
    /// 900.
    pub fn number(self) -> u16
        ensures { result ≡ number_of self }
    {
        match self {
            VersionError::VertexRange => VERTEX_RANGE,
            VersionError::BadChunkSize => BAD_CHUNK_SIZE,
            VersionError::NotKept => NOT_KEPT,
            VersionError::NotHeld => NOT_HELD,
            VersionError::HistoryFull => HISTORY_FULL,
            VersionError::NoMemory => NO_MEMORY,
        }
    }
}

impl From<GraphError> for VersionError {
    ghost from_gives = { λ g e. e ≡ from_graph g };

    fn from(error: GraphError) -> VersionError {
        match error {
            GraphError::VertexRange => VersionError::VertexRange,
            GraphError::BadChunkSize => VersionError::BadChunkSize,
            GraphError::NoMemory => VersionError::NoMemory,
        }
    }
}

impl From<AllocError> for VersionError {
    ghost from_gives = { λ _ e. e ≡ NoMemory };

    fn from(_error: AllocError) -> VersionError {
        VersionError::NoMemory
    }
}

impl<T: Drop> From<AllocFailed<T>> for VersionError {
    ghost from_gives = { λ _ e. e ≡ NoMemory };

    fn from(_error: AllocFailed<T>) -> VersionError {
        VersionError::NoMemory
    }
}
