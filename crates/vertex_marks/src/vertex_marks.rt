//! Marks: a bit for each vertex, and the summary of their words.
ghost use Rattle.std.specs.Prelude.{◌≢◌, ℕ, ◌*◌, ◌^◌, ◌≤◌, length, slice_index};
ghost use Rattle.vertex_marks.specs.inside.Bits.{HasBit};

/// Some of the vertices of a graph.
pub struct VertexMarks {
    pub(crate) words: Vec<u64>,
    pub(crate) summary: Vec<u64>,
    ghost few: { length words.items ≤ 2 ^ 26 },
    ghost short: { length summary.items ≤ 2 ^ 20 },
    ghost covered: { length words.items ≤ 64 * length summary.items },
    ghost summed: { (index : ℕ) → slice_index words.items index ≢ 0 → HasBit summary.items index },
}

impl Drop for VertexMarks {
    fn drop(self) {
        let VertexMarks {
            words: _,
            summary: _,
        } = self;
    }
}
