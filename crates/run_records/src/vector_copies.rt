//! Copies of vectors.
ghost use Rattle.std.specs.Prelude.{◌≡◌, [], IfOk, IfSome, slice_index_or};

use std::alloc::{AllocError, Global};
use typed_tree::Sequence;
use vectors::Vectors;

/// A copy of vectors, each in an array of its own. The only error is out of memory.
pub(crate) fn copied(alloc: Global, vectors: &Vectors) -> Result<Vectors, AllocError>
    ensures { IfOk result (λ copy. copy.vectors ≡ vectors.now.vectors) }
{
    let arrays = match copied_slices(alloc, vectors)? {
        Some(arrays) => arrays,
        None => vectors.to_arrays(alloc)?,
    };
    Vectors::new(alloc, arrays)
}

/// A copy of each vector as a slice, or `None` if one does not stand alone. The only error is out of memory.
fn copied_slices(alloc: Global, vectors: &Vectors) -> Result<Option<Vec<Sequence<i64>>>, AllocError>
    ensures { IfOk result (λ found. IfSome found (λ arrays. arrays.items ≡ vectors.now.vectors)) }
{
    let mut arrays = Vec::with_capacity(alloc, vectors.count())?;
    'vectors: for vector in 0..vectors.count() {
        let Some(array) = copied_slice(alloc, vectors, vector)? else {
            return Ok(None);
        };
        arrays.push(array)?;
    }
    Ok(Some(arrays))
}

/// A copy of a vector as a slice, or `None` if it does not stand alone. The only error is out of memory.
fn copied_slice(
    alloc: Global,
    vectors: &Vectors,
    vector: usize,
) -> Result<Option<Sequence<i64>>, AllocError>
    ensures { IfOk result (λ found. IfSome found (λ array. array ≡ slice_index_or vectors.now.vectors vector [])) }
{
    match vectors.lane(vector).entries() {
        Some(entries) if entries.len() == vectors.entries(vector) => {
            let copy = Vec::from_slice(alloc, entries)?;
            Ok(Some(Sequence::new(copy)))
        }
        _ => Ok(None),
    }
}
