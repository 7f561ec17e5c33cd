//! The numbers of refusals: each is spelled here alone, and never changes. `docs/REFUSALS.md` says of each what to do.
//!
//! The contracts of the other crates spell the numbers once more, so that a number that changes here is no longer proved there.
#![tactic(auto)]

// store

/// A list does not ascend.
pub const NOT_ASCENDING: u16 = 101;

/// Bytes spell no tail.
pub const BAD_TAIL: u16 = 102;

/// A chunk size is no power of two from 1 to 256.
pub const BAD_CHUNK_SIZE: u16 = 103;

/// Two sets have different chunk sizes.
pub const CHUNK_SIZES_DIFFER: u16 = 104;

// versions

/// A number of vertices is not 1 to 16,777,216, or an edge has an end that is no vertex.
pub const VERTEX_RANGE: u16 = 111;

/// A version is not kept.
pub const NOT_KEPT: u16 = 121;

/// A ticket is not open.
pub const NOT_HELD: u16 = 122;

/// The history has no room for another step.
pub const HISTORY_FULL: u16 = 123;

/// A shared graph has no reader, or more than 64.
pub const BAD_SEATS: u16 = 124;

/// A shared graph is gone.
pub const CLOSED: u16 = 125;

// texts

/// A byte begins no token.
pub const BAD_BYTE: u16 = 201;

/// A number is above 9223372036854775807.
pub const NUMBER_TOO_LARGE: u16 = 202;

/// A text in quotes is not closed on its line, or holds a byte outside 0x20 to 0x7E.
pub const UNFINISHED_TEXT: u16 = 203;

/// The tokens are not in the grammar.
pub const UNEXPECTED: u16 = 211;

/// Blocks and brackets nest deeper than 64.
pub const TOO_DEEP: u16 = 212;

// types

/// A name is not visible where it is used.
pub const UNKNOWN_NAME: u16 = 221;

/// A name is visible already, or a second constant is an edgeset.
pub const REDECLARED: u16 = 222;

/// A type or a kind of thing is wrong where it stands.
pub const WRONG_TYPE: u16 = 223;

/// An edge function assigns an entry of a vector.
pub const NOT_REDUCTION: u16 = 224;

/// An edge function reduces one vector in two ways.
pub const MIXED_REDUCTIONS: u16 = 225;

/// A vector is read or written at another vertex than may be there, or an index in `main` holds an entry.
pub const WRONG_INDEX: u16 = 226;

/// `print` is in another function than `main`.
pub const PRINT_OUTSIDE_MAIN: u16 = 227;

/// There is no function `main` without parameters and result.
pub const NO_MAIN: u16 = 228;

/// A label stands twice in a text.
pub const BAD_LABEL: u16 = 229;

// schedules

/// A schedule names a label that the program does not have.
pub const UNKNOWN_LABEL: u16 = 301;

/// A label is before no apply, or before a vertex apply where an edge apply is wanted.
pub const NO_APPLY: u16 = 302;

/// A call has too few or too many arguments, or a value that its table does not have.
pub const BAD_ARGUMENT: u16 = 303;

/// A label has a value already, or is fused already, or with itself.
pub const GIVEN_TWICE: u16 = 304;

/// The second of two fused statements is not right after the first in one block.
pub const NOT_ADJACENT: u16 = 305;

/// Two fused applies are of other kinds, sets, sources or destinations.
pub const DIFFERENT_SETS: u16 = 306;

/// The second of two fused edge applies depends on what the first writes.
pub const NOT_INDEPENDENT: u16 = 307;

/// Fewer than two fields are fused, or a name is no vector, stands twice, or is in an earlier group.
pub const BAD_FIELDS: u16 = 308;

// runs

/// An index, or what is added to a set, is no vertex: by this a run ends as a fault, and nothing is refused.
pub const OUTSIDE: u16 = 401;

/// A number of workers is not 1 to 64.
pub const BAD_WORKERS: u16 = 411;

/// No program has the number that is asked for.
pub const NO_PROGRAM: u16 = 412;

/// No job has the number that is asked for.
pub const NO_JOB: u16 = 413;

// scripts

/// A line is no command that may be there.
pub const BAD_LINE: u16 = 801;

// the machine

/// Memory ran out.
pub const NO_MEMORY: u16 = 900;

/// A file, or standard input, could not be read.
pub const READ_FAILED: u16 = 901;

/// Standard output could not be written.
pub const WRITE_FAILED: u16 = 902;
