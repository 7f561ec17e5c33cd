//! Apply parts: the function of an apply, and the set that gets what it changed.
use typed_tree::{ApplyEnds, VarRef};

/// The edge function at this index, and what is done with the vertices at which it changes a vector.
#[derive(Clone, Copy, Debug, PartialEq, Eq)]
pub struct EdgePart {
    pub function: usize,
    pub result: PartResult,
}

/// What is done with the vertices at which an edge function changes a vector.
#[derive(Clone, Copy, Debug, PartialEq, Eq)]
pub enum PartResult {
    Dropped,
    /// A new set, whose name is at this index, gets those of this vector.
    Declared { name: usize, vector: usize },
    /// The set at this index gets those of this vector.
    Assigned { set: VarRef, vector: usize },
}

/// An apply of an edge function.
#[derive(Clone, Copy, Debug, PartialEq, Eq)]
pub struct EdgeApply {
    pub ends: ApplyEnds,
    pub part: EdgePart,
}

/// An apply of a vertex function.
#[derive(Clone, Copy, Debug, PartialEq, Eq)]
pub struct VertexApply {
    pub set: VarRef,
    pub function: usize,
}

/// Two applies that are done together.
#[derive(Clone, Copy, Debug, PartialEq, Eq)]
pub enum FusedPair {
    Edges {
        ends: ApplyEnds,
        first: EdgePart,
        second: EdgePart,
    },
    Vertices {
        set: VarRef,
        first: usize,
        second: usize,
    },
}
