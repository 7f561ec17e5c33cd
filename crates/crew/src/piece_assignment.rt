//! Piece assignment: how pieces are assigned to workers.

ghost use Rattle.std.specs.Prelude.{◌≡◌};
ghost use Rattle.crew.specs.Assignment.{assignment_of};

use apply_options::Parallelization;

/// How pieces are assigned to workers.
#[derive(Clone, Copy, Debug, PartialEq, Eq)]
pub enum PieceAssignment {
    /// Each worker claims the next piece that none has claimed, until there is none left.
    Claimed,
    /// Worker (k - 1) mod workers + 1 does piece k.
    Fixed,
}

impl PieceAssignment {
    /// How the pieces of an apply are assigned to workers by its schedule: static ones are fixed, and others are claimed.
    pub fn of(parallelization: Parallelization) -> PieceAssignment
        ensures { result ≡ assignment_of parallelization }
    {
        match parallelization {
            Parallelization::StaticVertex => PieceAssignment::Fixed,
            Parallelization::Serial
            | Parallelization::DynamicVertex
            | Parallelization::EdgeAwareDynamicVertex => PieceAssignment::Claimed,
        }
    }
}
