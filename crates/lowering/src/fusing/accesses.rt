//! Access to vertex sets and to other vertices: which of it functions do without.
ghost use Rattle.std.specs.Prelude.{◌≡◌, [], ◌∷◌, map};
ghost use Rattle.typed_tree.specs.FunctionStatementTree.{function_tree};
ghost use Rattle.typed_tree.specs.Independence.{are_apart};
ghost use Rattle.plans.specs.Fusing.{end_sets, function_is_local as local_function, function_sizes, is_local, set_of};

use typed_tree::{Access, AccessTest, Function, VertexFilter, end_passes, function_passes};

/// A test of accesses: that they do not read the vertex set at this index.
#[derive(Drop)]
struct Omits {
    set: usize,
}

impl AccessTest for Omits {
    ghost passes = { λ test access. are_apart (set_of access) (test.set ∷ []) };

    fn passes(&self, access: Access) -> bool {
        match access {
            Access::ReadSet(set) => set != self.set,
            Access::ReadAtVertex(_) | Access::ReadAtIndex(_) | Access::Write(_) => true,
        }
    }
}

/// Whether the function at this index does not read the size of the set. One that is not there does not.
pub(crate) fn function_does_omit(functions: &[Function], index: usize, set: usize) -> bool
    ensures { result ≡ are_apart (function_sizes (map function_tree functions.now) index) (set ∷ []) }
{
    function_passes(functions, index, &Omits { set })
}

/// Whether an end is not the set at this index, and its filter does not read the size of that set.
pub(crate) fn end_does_omit(filters: &[Function], end: Option<VertexFilter>, set: usize) -> bool
    ensures { result ≡ are_apart (end_sets (map function_tree filters.now) end) (set ∷ []) }
{
    end_passes(filters, end, &Omits { set })
}

/// A test of accesses: that they are to no entry at an index.
#[derive(Drop)]
struct Local;

impl AccessTest for Local {
    ghost passes = { λ _. is_local };

    fn passes(&self, access: Access) -> bool {
        match access {
            Access::ReadAtIndex(_) => false,
            Access::ReadAtVertex(_) | Access::ReadSet(_) | Access::Write(_) => true,
        }
    }
}

/// Whether the function at this index reads no entry at an index, and so none but those of its own vertex. One that
/// is not there reads none.
pub(crate) fn function_is_local(functions: &[Function], index: usize) -> bool
    ensures { result ≡ local_function (map function_tree functions.now) index }
{
    function_passes(functions, index, &Local)
}
