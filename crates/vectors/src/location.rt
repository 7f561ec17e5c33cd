//! Vector locations: the group and the column of each vector.
ghost use Rattle.std.specs.Prelude.{◌≡◌, ◌+◌, ◌*◌, ◌^◌, ◌<◌, ◌≢◌, ℕ, pos, [], IfOk, OnOk, if◌then◌else◌, length, nat_lt, slice_index_or, slice_set, vec_len};
ghost use Rattle.vectors.specs.Lanes.{lane_entry};
ghost use Rattle.vectors.specs.inside.Layout.{StandsIn, location_at, number_at, own_location, vector_at, vectors_at};

use crate::lane::Lane;
use std::alloc::{AllocError, Global};
use typed_tree::Sequence;

/// Where a vector stands: in which array, at which index of a row, how long a row is, and how many vertices it has.
/// An array of its own has rows of one.
#[derive(Clone, Copy)]
pub(crate) struct Location {
    pub(crate) array: usize,
    pub(crate) first: usize,
    pub(crate) stride: usize,
    pub(crate) vertices: usize,
}

/// Each vector in the array of its own index.
pub(crate) fn own_locations(
    alloc: Global,
    arrays: &[Sequence<i64>],
) -> Result<Vec<Location>, AllocError>
    ensures length { IfOk result (λ ls. vec_len ls ≡ length arrays.now) }
    ensures own { IfOk result (λ ls. (i : ℕ) → i < length arrays.now → location_at ls.items i ≡ own_location arrays.now i) }
    ensures fits { IfOk result (λ ls. (i : ℕ) → i < length arrays.now → length (slice_index_or arrays.now i []) < 2 ^ 64) }
{
    let mut locations = Vec::new(alloc);
    'arrays: for (index, array) in arrays.iter().enumerate() {
        locations.push(Location {
            array: index,
            first: 0,
            stride: 1,
            vertices: array.as_slice().len(),
        })?;
    }
    Ok(locations)
}

/// The vector that is at a location, to be read.
pub(crate) fn lane_of(arrays: &[Sequence<i64>], location: Location) -> Lane<'_>
    requires { StandsIn arrays.now location }
    ensures { (v : ℕ) → lane_entry result v ≡ (if nat_lt v location.vertices then number_at arrays.now location.array
        (v * location.stride + location.first) else pos 0) }
{
    Lane {
        numbers: arrays[location.array].as_slice(),
        first: location.first,
        stride: location.stride,
        vertices: location.vertices,
    }
}

/// A copy of it. The only error is out of memory.
pub(crate) fn copy_vector(
    alloc: Global,
    arrays: &[Sequence<i64>],
    location: Location,
) -> Result<Sequence<i64>, AllocError>
    requires { StandsIn arrays.now location }
    ensures { IfOk result (λ copy. copy ≡ vector_at arrays.now location) }
{
    let lane = lane_of(arrays, location);
    let mut entries = Vec::with_capacity(alloc, location.vertices)?;
    'vertices: for vertex in 0..location.vertices {
        entries.push(lane.get(vertex))?;
    }
    Ok(Sequence::new(entries))
}

/// A copy of each vector, in the order of their locations. The only error is out of memory.
pub(crate) fn copy_vectors(
    alloc: Global,
    arrays: &[Sequence<i64>],
    locations: &[Location],
) -> Result<Vec<Sequence<i64>>, AllocError>
    requires { (i : ℕ) → i < length locations.now → StandsIn arrays.now (location_at locations.now i) }
    ensures { IfOk result (λ copies. copies.items ≡ vectors_at arrays.now locations.now) }
{
    let mut copies = Vec::new(alloc);
    'locations: for location in locations {
        copies.push(copy_vector(alloc, arrays, *location)?)?;
    }
    Ok(copies)
}

/// Puts the vector that is at a location into the array of its own index, where it is not there. The only error is out
/// of memory.
pub(crate) fn move_home(
    alloc: Global,
    arrays: &mut Vec<Sequence<i64>>,
    index: usize,
    location: Location,
) -> Result<(), AllocError>
    requires index { index < length arrays.old.items }
    requires stands { StandsIn arrays.old.items location }
    ensures moved { OnOk result (location.array ≢ index → arrays.new.items ≡ slice_set arrays.old.items index (vector_at arrays.old.items location)) }
    ensures stays { OnOk result (location.array ≡ index → arrays.new.items ≡ arrays.old.items) }
{
    if location.array != index {
        let copy = copy_vector(alloc, arrays, location)?;
        arrays[index] = copy;
    }
    Ok(())
}
