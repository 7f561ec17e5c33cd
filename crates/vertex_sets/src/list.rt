//! Members in an ascending list.

ghost use Rattle.std.specs.Prelude.{◌≡◌, ◌↔◌, ℕ, ◌<◌, ◌⊎◌, Contains, IfOk, OnOk, OnErr, IsTrue};
ghost use Rattle.std.specs.List.Sorted.{IsStrictlyIncreasing};
ghost use Rattle.vertex_sets.specs.VertexSet.{IsAscendingBelow, IsAnswer, all_vertices};

use std::alloc::{AllocError, Global};

/// Whether a vertex is in an ascending list. Takes `O(log k)` for k members.
pub(crate) fn contains(list: &[u32], vertex: u32) -> bool
    requires { IsStrictlyIncreasing list.now }
    ensures { IsTrue result ↔ Contains list.now vertex }
{
    list.binary_search(&vertex).is_ok()
}

/// Puts a vertex at its index, unless it is there. Constant time at the end.
pub(crate) fn insert(list: &mut Vec<u32>, vertex: u32) -> Result<(), AllocError>
    requires { IsStrictlyIncreasing list.old.items }
    ensures ascending { IsStrictlyIncreasing list.new.items }
    ensures added { OnOk result ((u : ℕ)
        → Contains list.new.items u ↔ ((u ≡ vertex) ⊎ Contains list.old.items u)) }
    ensures err { OnErr result (list.new.items ≡ list.old.items) }
{
    let is_last = match list.last() {
        Some(last) => *last < vertex,
        None => true,
    };
    if is_last {
        list.push(vertex)?;
        return Ok(());
    }
    if let Err(index) = list.binary_search(&vertex) {
        list.insert(index, vertex)?;
    }
    Ok(())
}

/// All vertices.
pub(crate) fn full(alloc: Global, vertices: u32) -> Result<Vec<u32>, AllocError>
    ensures { IfOk result (λ list. list.items ≡ all_vertices vertices) }
{
    let mut list = Vec::with_capacity(alloc, vertices as usize)?;
    for vertex in 0..vertices {
        list.push(vertex)?;
    }
    Ok(list)
}

/// The vertices that pass a test.
pub(crate) fn from_test<F: Fn(u32) -> bool>(
    alloc: Global,
    vertices: u32,
    test: &F,
) -> Result<Vec<u32>, AllocError>
    requires { (v : ℕ) → v < vertices → F.pre test.now v }
    ensures ascending { IfOk result (λ list. IsAscendingBelow vertices list.items) }
    ensures tested { IfOk result (λ list. (v : ℕ) → v < vertices
        → IsAnswer (F.post test.now) list.items v) }
{
    let mut list = Vec::new(alloc);
    for vertex in 0..vertices {
        if test(vertex) {
            list.push(vertex)?;
        }
    }
    Ok(list)
}
