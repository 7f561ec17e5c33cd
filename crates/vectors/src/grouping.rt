//! Vectors that are put side by side.
ghost use Rattle.std.specs.Prelude.{◌≡◌, ◌+◌, ◌*◌, ◌^◌, ◌<◌, ◌≤◌, ℕ, false, [], List, IfOk, OnOk, IsTrue, length, slice_index_or, slice_set, vec_len};
ghost use Rattle.vectors.specs.declared.location.Location.{Location};
ghost use Rattle.vectors.specs.inside.Layout.{AreLocated, FitTogether, HasArrays, IsFree, location_at, vertices_of as vertices_of_names};

use crate::location::Location;
use std::alloc::{AllocError, Global};
use typed_tree::Sequence;

/// Puts the vectors of each group side by side. False where the groups do not fit.
pub(crate) fn locate_groups(locations: &mut [Location], groups: &[Sequence<usize>]) -> bool
    requires { AreLocated locations.old groups.now 0 0 locations.old }
    ensures located { IsTrue result → AreLocated locations.old groups.now (length groups.now) 0 locations.new }
    ensures fit { result ≡ false → FitTogether locations.old groups.now → ⊥ }
{
    'groups: for k in 0..groups.len() {
        if !locate_group(locations, groups, k) {
            return false;
        }
    }
    true
}

/// Puts the vectors of one group side by side, after those of the groups before it.
fn locate_group(locations: &mut [Location], groups: &[Sequence<usize>], k: usize) -> bool
    requires { k < length groups.now }
    ensures located { IsTrue result → (start : List Location) → AreLocated start groups.now k 0 locations.old
        → AreLocated start groups.now (k + 1) 0 locations.new }
    ensures fit { result ≡ false → (start : List Location) → AreLocated start groups.now k 0 locations.old → FitTogether start groups.now → ⊥ }
{
    let names = groups[k].as_slice();
    let vertices = vertices_of(locations, names);
    let array = locations.len() + k;
    'names: for (first, name) in names.iter().enumerate() {
        let location = Location {
            array,
            first,
            stride: names.len(),
            vertices,
        };
        if !locate(locations, *name, location) {
            return false;
        }
    }
    true
}

/// Puts a vector that stands alone elsewhere. False where it is not there, is not alone, or has another
/// number of entries.
fn locate(locations: &mut [Location], vector: usize, location: Location) -> bool
    ensures put { IsTrue result → locations.new ≡ slice_set locations.old vector location }
    ensures free { IsTrue result → IsFree locations.old vector location.vertices }
    ensures fit { result ≡ false → IsFree locations.old vector location.vertices → ⊥ }
{
    if vector >= locations.len() {
        return false;
    }
    let now = locations[vector];
    if now.array != vector || now.vertices != location.vertices {
        return false;
    }
    locations[vector] = location;
    true
}

/// How many entries the first vector of a group has.
fn vertices_of(locations: &[Location], names: &[usize]) -> usize
    ensures { result ≡ vertices_of_names locations.now names.now }
{
    let first = match names.first() {
        Some(first) => *first,
        None => 0,
    };
    match locations.get(first) {
        Some(location) => location.vertices,
        None => 0,
    }
}

/// Arrays for vectors where they stand, with any numbers in them.
pub(crate) fn new_arrays(
    alloc: Global,
    locations: &[Location],
    groups: &[Sequence<usize>],
) -> Result<Vec<Sequence<i64>>, AllocError>
    ensures { IfOk result (λ arrays. HasArrays locations.now groups.now arrays.items) }
{
    let mut arrays = own_arrays(alloc, locations)?;
    'groups: for names in groups {
        let count = vertices_of(locations, names.as_slice()).checked_mul(names.as_slice().len());
        let Some(count) = count else {
            return Err(AllocError);
        };
        arrays.push(zeros(alloc, count)?)?;
    }
    Ok(arrays)
}

/// An array for each vector; one without numbers for those that do not stand alone.
fn own_arrays(alloc: Global, locations: &[Location]) -> Result<Vec<Sequence<i64>>, AllocError>
    ensures { IfOk result (λ arrays. HasArrays locations.now [] arrays.items) }
{
    let mut arrays = Vec::new(alloc);
    'locations: for (index, location) in locations.iter().enumerate() {
        let count = if location.array == index {
            location.vertices
        } else {
            0
        };
        arrays.push(zeros(alloc, count)?)?;
    }
    Ok(arrays)
}

fn zeros(alloc: Global, count: usize) -> Result<Sequence<i64>, AllocError>
    ensures { IfOk result (λ xs. length xs ≡ count) }
{
    Ok(Sequence::new(vec![in alloc; 0; count]?))
}

/// The groups as they are.
pub(crate) fn copied(
    alloc: Global,
    groups: &[Sequence<usize>],
) -> Result<Vec<Sequence<usize>>, AllocError>
    ensures { IfOk result (λ made. made.items ≡ groups.now) }
{
    let mut made = Vec::new(alloc);
    'groups: for names in groups {
        made.push(Sequence::new(Vec::from_slice(alloc, names.as_slice())?))?;
    }
    Ok(made)
}
