//! Accumulator: the new entries of one vector, at vertices that are marked.
ghost use Rattle.std.specs.Prelude.{◌≡◌, ℕ, ◌<◌, ◌≤◌, true, vec_len};
ghost use Rattle.vertex_marks.specs.Marks.{is_marked, room as marks_room};

use vertex_marks::VertexMarks;

/// The new entries of one vector, at the vertices that an apply has given something, which are marked. The first vertices,
/// as many as are filled, are all marked: their marks are not read.
pub(crate) struct Accumulator {
    pub(crate) values: Vec<i64>,
    pub(crate) marks: VertexMarks,
    pub(crate) filled: usize,
    ghost same: { marks_room marks ≤ vec_len values },
    ghost inside: { filled ≤ vec_len values },
    ghost whole: { (v : ℕ) → v < filled → is_marked marks v ≡ true },
}

impl Drop for Accumulator {
    fn drop(self) {
        let Accumulator {
            values: _,
            marks: _,
            filled: _,
        } = self;
    }
}
