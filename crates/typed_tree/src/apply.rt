//! Applies, as statements of `main` are.

use crate::expression::VarRef;
use crate::statement::ApplyEnds;

/// What a statement applies.
#[derive(Clone, Copy, Debug, PartialEq, Eq)]
pub enum StatementApply {
    /// The vertex function at this index to each vertex of a set.
    Vertices {
        set: VarRef,
        function: usize,
    },
    /// The edge function at this index to the edges between the ends. A set that gets what the apply changed
    /// has its name at the index `result` of the program's names.
    Edges {
        ends: ApplyEnds,
        function: usize,
        result: Option<usize>,
    },
}
