//! Edges with weights, as the store and the meaning of programs speak of them.
//!
//! `specs/Edge.antt` says what an edge is: two ends and a weight.
#![tactic(auto)]

/// The weight of an edge that is given none.
pub const UNIT_WEIGHT: i64 = 1;
