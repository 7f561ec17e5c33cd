//! Answers to calls, and why a call is answered by no number.

/// Why a call is answered by no number.
#[derive(Clone, Copy, Debug, PartialEq, Eq)]
pub(crate) enum Failure {
    /// It is refused with this number.
    Refused(u16),
    /// The program is not compiled, with this number.
    NotCompiled(u16),
    /// The test has no memory for it.
    Memory,
    /// This line around it is not printed.
    Print(&'static str),
    /// A reader makes no such call, or there is no such reader.
    Call,
    /// No version is held.
    Held,
    /// A run shows no vector, other entries, another end, or other turns.
    Vector,
    Entries,
    End,
    Turns,
    /// The gate of a run is called with another number of pieces.
    Pieces,
    /// A run is on another version.
    Version,
    /// A race has another number of vertices, other replies, or runs of another number of programs.
    Vertices,
    Replies,
    Programs,
    /// Beside runs a commit makes the version of this number, which is not the next one.
    Commit(u64),
    /// Beside runs a trim drops so many entries, and not those since the last trim.
    Trim(u64),
    /// Beside commits a run is on the version of this number, which is older than that of the run before.
    Older(u64),
}

/// The answer to a call: the number of a version, how many entries were dropped, or 0.
pub(crate) type Answer = Result<u64, Failure>;

/// `Ok` if a fact holds.
pub(crate) fn need(holds: bool, failure: Failure) -> Result<(), Failure> {
    if holds { Ok(()) } else { Err(failure) }
}

/// The answer to a call that memory ran out for.
pub(crate) const REFUSED: Answer = Err(Failure::Refused(900));
