//! What an apply follows: a former apply with its changes, and in what the two differ.
use edge_apply::Apply;
use vectors::Changes;

/// In what an apply may differ from a former one of the same functions. Each list is in any order, and may name more than
/// differs.
#[derive(Clone, Copy)]
pub struct Differences<'a> {
    /// The vertices at which a vector has another entry.
    pub entries: &'a [u32],
    /// The vertices that are in one of the two sets of sources alone.
    pub sources: &'a [u32],
    /// The vertices that are in one of the two sets of destinations alone.
    pub destinations: &'a [u32],
    /// The ends of the edges that one of the two graphs has alone, or that have another weight: source and destination.
    pub edges: &'a [(u32, u32)],
}

/// An apply that was done, and what it changed.
#[derive(Clone, Copy)]
pub struct FormerApply<'a> {
    pub apply: Apply<'a>,
    pub changes: &'a Changes,
}

/// What an apply follows, and how far.
#[derive(Clone, Copy)]
pub struct Followed<'a> {
    pub former: FormerApply<'a>,
    /// All in which the apply differs from the former one.
    pub differences: Differences<'a>,
    /// How many edges may be gone over to mark destinations, and how many to the destinations that are pulled.
    pub budget: usize,
}
