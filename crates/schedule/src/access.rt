//! Access to vectors: whether functions leave them alone.
ghost use Rattle.std.specs.Prelude.{◌≡◌, map};
ghost use Rattle.typed_tree.specs.FunctionStatementTree.{function_tree};
ghost use Rattle.typed_tree.specs.Independence.{are_apart, end_reads, function_uses, vector_of};

use typed_tree::{Access, AccessTest, Function, VertexFilter, end_passes, function_passes};

/// A test of accesses: that they are to none of these vectors.
#[derive(Drop)]
struct Avoids<'a> {
    vectors: &'a [usize],
}

impl AccessTest for Avoids<'_> {
    ghost passes = { λ test access. are_apart (vector_of access) test.vectors.now };

    fn passes(&self, access: Access) -> bool {
        match access {
            Access::ReadAtVertex(vector) | Access::ReadAtIndex(vector) | Access::Write(vector) => {
                !self.vectors.contains(&vector)
            }
            Access::ReadSet(_) => true,
        }
    }
}

/// Whether the function at this index neither reads nor writes an entry of these vectors. One that is not there
/// does neither.
pub(crate) fn function_does_avoid(functions: &[Function], index: usize, vectors: &[usize]) -> bool
    ensures { result ≡ are_apart (function_uses (map function_tree functions.now) index) vectors.now }
{
    function_passes(functions, index, &Avoids { vectors })
}

/// Whether the filter of an end reads no entry of these vectors. A vertex set reads none.
pub(crate) fn end_does_avoid(
    filters: &[Function],
    end: Option<VertexFilter>,
    vectors: &[usize],
) -> bool
    ensures { result ≡ are_apart (end_reads (map function_tree filters.now) end) vectors.now }
{
    end_passes(filters, end, &Avoids { vectors })
}
