//! Going over the vertices that have edges.

ghost use Rattle.std.specs.Prelude.{◌≡◌};
ghost use Rattle.std.specs.Iterator.{YieldsFirst, item_count};
ghost use Rattle.flat_snapshot.specs.inside.Lists.{degrees_of};

use crate::adjacency::Adjacency;
use std::marker::Model;

/// The vertices that are still to come, ascending, each with its degree.
#[derive(Drop)]
pub struct Degrees<'a> {
    neighbours: &'a Adjacency,
    /// From which vertex on to look for the next.
    from: u32,
}

impl<'a> Model for Degrees<'a> {
    ghost use Rattle.std.specs.Prelude.{ℕ, List};
    ghost use Rattle.vertex_blocks.specs.inside.Blocks.{vertices_from};
    ghost use Rattle.flat_snapshot.specs.inside.Lists.{degrees_of};

    ghost Value = { List (ℕ × ℕ) };

    ghost view = { λ d. degrees_of (vertices_from d.from d.neighbours.now) };
}

impl<'a> Degrees<'a> {
    /// The vertices that have neighbours, with their number.
    #[inline]
    pub(crate) fn new(neighbours: &'a Adjacency) -> Degrees<'a>
        ensures { result ≡ degrees_of neighbours.now }
    {
        Degrees {
            neighbours,
            from: 0,
        }
    }
}

impl<'a> Iterator for Degrees<'a> {
    type Item = (u32, u32);

    ghost next_gives = { YieldsFirst (λ i. i) };

    ghost remaining = { item_count (λ i. i) };

    #[inline]
    fn next(&mut self) -> Option<(u32, u32)> {
        let (vertex, degree) = self.neighbours.first_from(self.from)?;
        self.from = vertex + 1;
        Some((vertex, degree))
    }
}
