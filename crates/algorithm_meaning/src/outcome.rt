//! Outcomes: how a run ends, and what it shows.
use typed_tree::{Name, Sequence};

/// How a run ended.
#[derive(Clone, Copy, Debug, PartialEq, Eq)]
pub enum End {
    /// It reached the end of `main`.
    Finished,
    /// A loop would have entered its body when all turns were used.
    TurnsOver,
    /// The fault's number, 401 for an index that is no vertex, and the number of the statement.
    Fault(u16, u64),
}

/// A vector's name, and its entry for each vertex.
#[derive(Drop)]
pub struct NamedVector {
    pub name: Name,
    pub entries: Sequence<i64>,
}

/// A vertex set's name, and its members, ascending.
#[derive(Drop)]
pub struct NamedSet {
    pub name: Name,
    pub members: Sequence<u32>,
}

/// What a run shows.
pub struct Outcome {
    pub end: End,
    /// How many turns were used.
    pub turns: u64,
    /// The vectors, in declared order.
    pub vectors: Sequence<NamedVector>,
    /// The constant sets and then the set variables that are visible where the run ended, each in
    /// declared order.
    pub sets: Sequence<NamedSet>,
    /// The printed bytes.
    pub text: Sequence<u8>,
}

impl Drop for Outcome {
    fn drop(self) {
        let Outcome {
            end: _,
            turns: _,
            vectors: _,
            sets: _,
            text: _,
        } = self;
    }
}
