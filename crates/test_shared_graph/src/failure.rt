//! Answers to calls, and why a call is answered by no number.

use shared_graph::{Naming, Reader, SharedError, Snapshot};

/// Why a call is answered by no number.
#[derive(Clone, Copy, Debug, PartialEq, Eq)]
pub(crate) enum Failure {
    /// The graph refuses it with this number.
    Refused(u16),
    /// The test has no memory for it.
    Memory,
    /// This line around it is not printed.
    Print(&'static str),
    /// A reader makes no such call, or there is no such reader.
    Call,
    /// No version is held.
    Held,
    /// A version has another ticket, number of vertices, or edges.
    Ticket,
    Vertices,
    Edges,
    /// These neighbours of a version, or of the graph after the next batch, have another chunk size.
    ChunkSize(&'static str),
    NextChunkSize(&'static str),
    /// The number of a version is not the next one, or less than one before.
    Number,
    /// Readers, or one reader again, are given another newest version.
    Newest,
    /// A reader is given other edges since a version.
    Since,
    /// A version does not come.
    Late,
    /// The pages of memory are not read.
    Pages,
}

/// The answer to a call: the number of a version, how many entries were dropped, or 0.
pub(crate) type Answer = Result<u64, Failure>;

/// `Ok` if a fact holds.
pub(crate) fn need(holds: bool, failure: Failure) -> Result<(), Failure> {
    if holds { Ok(()) } else { Err(failure) }
}

/// The answer to a step.
pub(crate) fn answer(made: Result<u64, SharedError>) -> Answer {
    made.map_err(|error| Failure::Refused(error.number()))
}

/// The newest version.
pub(crate) fn latest<J: Naming>(me: &mut Reader<J>) -> Result<Snapshot, Failure> {
    me.latest()
        .map_err(|error| Failure::Refused(error.number()))
}
