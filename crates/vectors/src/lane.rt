//! Lane: one vector, lent to be read.
ghost use Rattle.std.specs.Prelude.{◌≡◌, ◌*◌, ◌<◌, ◌≤◌, ℕ, pos, IfSome, IsSome, length, slice_index_or};

/// One vector, lent to be read. The entry of vertex v is at index `v * stride + first`.
#[derive(Clone, Copy)]
pub struct Lane<'a> {
    pub(crate) numbers: &'a [i64],
    pub(crate) first: usize,
    pub(crate) stride: usize,
    pub(crate) vertices: usize,
    ghost in_row: { first < stride },
    ghost whole: { vertices * stride ≤ length numbers.now },
}

impl<'a> Lane<'a> {
    ghost use Rattle.vectors.specs.Lanes.{lane_entry};

    /// The entry at a vertex, 0 where there is none.
    #[inline(always)]
    #[tactic(auto, using(crate::proofs::Rows::index_in_row))]
    pub fn get(self, vertex: usize) -> i64
        ensures { result ≡ lane_entry self.entry vertex }
    {
        if vertex < self.vertices {
            self.numbers[vertex * self.stride + self.first]
        } else {
            0
        }
    }

    /// The entries by their vertices, where they stand one after the other: those of a vector that stands alone do.
    #[inline(always)]
    pub fn entries(self) -> Option<&'a [i64]>
        ensures entries { IfSome result (λ numbers. (v : ℕ) → slice_index_or numbers.now v (pos 0) ≡ lane_entry self.entry v) }
        ensures alone { self.entry.stride ≡ 1 → IsSome result }
    {
        if self.stride != 1 {
            return None;
        }
        Some(&self.numbers[..self.vertices])
    }
}
