//! The vertices at which vectors differ.
ghost use Rattle.std.specs.Prelude.{◌≡◌, ◌≤◌, ◌++◌, ℕ, ℤ, true, false, not, if◌then◌else◌, List, [], ◌∷◌, length, IfOk, OnOk};
ghost use Rattle.algorithm_meaning.specs.Arithmetic.{int_equal};
ghost use Rattle.algorithm_meaning.specs.Value.{entry};
ghost use Rattle.std.specs.List.{filter};
ghost use Rattle.algorithm_meaning.specs.VertexSets.{all_below};
ghost use Rattle.follow_engine.specs.Differing.{differ_at};
ghost use Rattle.follow_engine.specs.Local.{AgreeAt};

use std::alloc::{AllocError, Global};
use vectors::Vectors;

/// Those of some vertices at which one of the first `count` vectors has another entry in `now` than in `was`, in their order. The
/// only error is out of memory. It takes time in proportion to the number of vertices and to `count`.
pub fn differing(
    alloc: Global,
    now: &Vectors,
    was: &Vectors,
    count: usize,
    vertices: &[u32],
) -> Result<Vec<u32>, AllocError>
    ensures { IfOk result (λ found. found.items ≡ filter (differ_at now.now.vectors was.now.vectors count) vertices.now) }
{
    let mut found = Vec::new(alloc);
    'vertices: for vertex in vertices {
        keep_if(differ(now, was, count, *vertex), *vertex, &mut found)?;
    }
    Ok(found)
}

/// The vertices below n at which one of the first `count` vectors has another entry in `now` than in `was`, in ascending order. The
/// only error is out of memory. It takes time in proportion to n and to `count`. Vectors that stand alone and differ nowhere are
/// compared as slices.
pub fn all_differing(
    alloc: Global,
    now: &Vectors,
    was: &Vectors,
    count: usize,
    n: u32,
) -> Result<Vec<u32>, AllocError>
    ensures { IfOk result (λ found. found.items ≡ filter (differ_at now.now.vectors was.now.vectors count) (all_below n)) }
{
    let mut found = Vec::new(alloc);
    if have_same_entries(now, was, count) {
        return Ok(found);
    }
    'vertices: for vertex in 0..n {
        keep_if(differ(now, was, count, vertex), vertex, &mut found)?;
    }
    Ok(found)
}

/// Whether the first `count` vectors stand alone on both sides and have the same entries.
fn have_same_entries(now: &Vectors, was: &Vectors, count: usize) -> bool
    ensures { result ≡ true → (v : ℕ) → differ_at now.now.vectors was.now.vectors count v ≡ false }
{
    'vectors: for vector in 0..count {
        if !has_same_entries(now, was, vector) {
            return false;
        }
    }
    true
}

/// Whether a vector stands alone on both sides and has the same entries.
fn has_same_entries(now: &Vectors, was: &Vectors, vector: usize) -> bool
    ensures { result ≡ true → (v : ℕ) → entry now.now.vectors vector v ≡ entry was.now.vectors vector v }
{
    match (now.lane(vector).entries(), was.lane(vector).entries()) {
        (Some(entries), Some(others)) => entries == others,
        _ => false,
    }
}

/// Appends a vertex if it is to be kept. The only error is out of memory.
fn keep_if(is_kept: bool, vertex: u32, found: &mut Vec<u32>) -> Result<(), AllocError>
    ensures { OnOk result (found.new.items ≡ found.old.items ++ (if is_kept then vertex ∷ [] else [])) }
{
    if is_kept {
        found.push(vertex)?;
    }
    Ok(())
}

/// Whether one of the first `count` vectors has another entry at a vertex.
fn differ(now: &Vectors, was: &Vectors, count: usize, vertex: u32) -> bool
    ensures { result ≡ differ_at now.now.vectors was.now.vectors count vertex }
{
    'vectors: for vector in 0..count {
        if has_another_entry(now, was, vector, vertex) {
            return true;
        }
    }
    false
}

/// Whether a vector has another entry at a vertex.
fn has_another_entry(now: &Vectors, was: &Vectors, vector: usize, vertex: u32) -> bool
    ensures { result ≡ not (int_equal (entry now.now.vectors vector vertex) (entry was.now.vectors vector vertex)) }
{
    now.lane(vector).get(vertex as usize) != was.lane(vector).get(vertex as usize)
}

/// The law that vectors agree at each vertex at which none of them differs. The call does nothing.
pub fn vectors_agree_where_none_differs()
    ensures { (now was : List (List ℤ)) (count v : ℕ) → length now ≤ count → length was ≤ count → differ_at now was count v ≡ false
        → AgreeAt now was v }
{}
