//! The rows of vectors.
ghost use Rattle.std.specs.Prelude.{◌≡◌, true};
ghost use Rattle.run_records.specs.inside.Rows.{HaveRows};

use vectors::Vectors;

/// Whether there are so many vectors, each with an entry for each vertex and no more.
pub(crate) fn have_rows(vectors: &Vectors, count: usize, vertices: u32) -> bool
    ensures { result ≡ true → HaveRows count vertices vectors.now.vectors }
{
    if vectors.count() != count {
        return false;
    }
    'vectors: for vector in 0..count {
        if vectors.entries(vector) != vertices as usize {
            return false;
        }
    }
    true
}
