//! The error of graphs: which numbers of vertices, chunk sizes and batches are refused.

ghost use Rattle.std.specs.Prelude.{◌≡◌};
ghost use Rattle.tree_batch.specs.declared.error.GraphError.TheVariants.{NoMemory};
ghost use Rattle.tree_batch.specs.Refusal.{number_of};

use refusal_numbers::{BAD_CHUNK_SIZE, NO_MEMORY, VERTEX_RANGE};
use std::alloc::{AllocError, AllocFailed};
use thiserror::Error;

/// Why a graph or a batch was not made.
#[derive(Clone, Copy, Debug, PartialEq, Eq, Error)]
pub enum GraphError {
    #[error("a graph has 1 to 16777216 vertices and no fewer than before, and an entry names two of them")]
    VertexRange,
    #[error("a chunk size is a power of two from 1 to 256")]
    BadChunkSize,
    #[error("out of memory")]
    NoMemory,
}

impl GraphError {
    /// The number by which scripts and users know the refusal: 111, 103 or 900.
    pub fn number(self) -> u16
        ensures { result ≡ number_of self }
    {
        match self {
            GraphError::VertexRange => VERTEX_RANGE,
            GraphError::BadChunkSize => BAD_CHUNK_SIZE,
            GraphError::NoMemory => NO_MEMORY,
        }
    }
}

impl From<AllocError> for GraphError {
    ghost from_gives = { λ _ e. e ≡ NoMemory };

    fn from(_error: AllocError) -> GraphError {
        GraphError::NoMemory
    }
}

impl<T: Drop> From<AllocFailed<T>> for GraphError {
    ghost from_gives = { λ _ e. e ≡ NoMemory };

    fn from(_error: AllocFailed<T>) -> GraphError {
        GraphError::NoMemory
    }
}
