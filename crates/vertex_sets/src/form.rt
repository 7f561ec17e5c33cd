//! The forms of a set.

/// How a set of vertices is kept.
#[derive(Clone, Copy, Debug, PartialEq, Eq)]
pub enum Form {
    /// The members, ascending: 4 bytes a member, and up to as much again where it grew.
    List,
    /// A byte for each vertex.
    Flags,
    /// A bit for each vertex, in words of 64.
    Bits,
}
