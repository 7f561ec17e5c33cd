//! The vectors of a run, by their indices.
ghost use Rattle.std.specs.Prelude.{◌≡◌, ℕ, ◌*◌, ◌<◌, ◌≤◌, [], IfOk, MatchOption, length, slice_index_or, slice_set};
ghost use Rattle.algorithm_meaning.specs.Value.{entry};

use crate::changes::{Changes, EntryChange};
use crate::error::GroupError;
use crate::grouping::{copied, locate_groups, new_arrays};
use crate::lane::Lane;
use crate::location::{Location, copy_vectors, lane_of, move_home, own_locations};
use std::alloc::{AllocError, Global};
use std::marker::Model;
use typed_tree::Sequence;

/// The vectors of a run. A contract sees the list of them, each a list with an entry for each vertex, and the groups
/// of those that stand side by side, each the list of their indices.
pub struct Vectors {
    /// The array of each vector that stands alone, at its index, and then those of the groups.
    arrays: Vec<Sequence<i64>>,
    locations: Vec<Location>,
    groups: Vec<Sequence<usize>>,
}

impl Drop for Vectors {
    fn drop(self) {
        let Vectors {
            arrays: _,
            locations: _,
            groups: _,
        } = self;
    }
}

impl Model for Vectors {
    ghost use Rattle.vectors.specs.Vectors.{VectorsValue};
    ghost use Rattle.vectors.specs.inside.Layout.{IsLaidOut, vectors_at};

    ghost Value = { VectorsValue };

    ghost view = { λ s. record { vectors = vectors_at s.arrays.items s.locations.items; groups = s.groups.items } };

    ghost invariant = { λ s. IsLaidOut s.arrays.items s.locations.items s.groups.items };
}

impl Vectors {
    ghost use Rattle.algorithm_meaning.specs.Value.{with_entry};
    ghost use Rattle.vectors.specs.Changes.{with_all_changes, with_changes};
    ghost use Rattle.vectors.specs.Lanes.{lane_entry};
    ghost use Rattle.vectors.specs.Vectors.{HasRows, IsGrouping, VectorsValue, value_with_vectors};

    /// These vectors, in their order, each with an array of its own.
    pub fn new(alloc: Global, arrays: Vec<Sequence<i64>>) -> Result<Vectors, AllocError>
        ensures { IfOk result (λ v. v ≡ record { vectors = arrays.items; groups = [] }) }
    {
        let locations = own_locations(alloc, &arrays)?;
        Ok(Vectors {
            arrays,
            locations,
            groups: Vec::new(alloc),
        })
    }

    /// These vectors, in their order, of which those of a group stand side by side: group k is one array with a row
    /// for each vertex. `Unfit` comes where the groups do not fit, as `IsGrouping` says.
    pub fn grouped(
        alloc: Global,
        arrays: &[Sequence<i64>],
        groups: &[Sequence<usize>],
    ) -> Result<Vectors, GroupError>
        ensures vectors { IfOk result (λ v. v ≡ record { vectors = arrays.now; groups = groups.now }) }
        ensures fit { result ≡ Err GroupError.Unfit → IsGrouping arrays.now groups.now → ⊥ }
    {
        let mut locations = own_locations(alloc, arrays)?;
        if !locate_groups(&mut locations, groups) {
            return Err(GroupError::Unfit);
        }
        let mut vectors = Vectors {
            arrays: new_arrays(alloc, &locations, groups)?,
            locations,
            groups: copied(alloc, groups)?,
        };
        vectors.load_all(arrays);
        Ok(vectors)
    }

    /// How many vectors there are.
    pub fn count(&self) -> usize
        ensures { result ≡ length self.now.vectors }
    {
        self.locations.len()
    }

    /// How many entries a vector has: 0 if there is no such vector.
    pub fn entries(&self, vector: usize) -> usize
        ensures { result ≡ length (slice_index_or self.now.vectors vector []) }
    {
        if vector >= self.locations.len() {
            return 0;
        }
        self.locations[vector].vertices
    }

    /// Puts all entries.
    fn load_all(&mut self, arrays: &[Sequence<i64>])
        requires count { length arrays.now ≡ length self.old.vectors }
        requires even { (i : ℕ) → length (slice_index_or arrays.now i []) ≡ length (slice_index_or self.old.vectors i []) }
        ensures { self.new ≡ value_with_vectors self.old arrays.now }
    {
        'arrays: for (vector, array) in arrays.iter().enumerate() {
            self.load(vector, array.as_slice());
        }
    }

    /// Puts all entries of a vector.
    fn load(&mut self, vector: usize, numbers: &[i64])
        requires vector { vector < length self.old.vectors }
        requires even { length numbers.now ≡ length (slice_index_or self.old.vectors vector []) }
        ensures { self.new ≡ value_with_vectors self.old (slice_set self.old.vectors vector numbers.now) }
    {
        'numbers: for (vertex, number) in numbers.iter().enumerate() {
            self.put(vector, vertex, *number);
        }
    }

    /// The array of group k, from 0, or `None` where there are not so many: with g vectors in the group, the entry of
    /// the j-th, from 0, at vertex v is at index `v * g + j`.
    pub fn group(&self, k: usize) -> Option<&[i64]>
        ensures { MatchOption result (length self.now.groups ≤ k) (λ array. (k < length self.now.groups)
            × HasRows self.now.vectors (slice_index_or self.now.groups k []) array.now) }
    {
        if k >= self.groups.len() {
            return None;
        }
        Some(self.arrays[self.locations.len() + k].as_slice())
    }

    /// Puts an entry of a vector; where there is no such index nothing is changed.
    pub fn set(&mut self, vector: usize, vertex: u32, number: i64)
        ensures { self.new ≡ value_with_vectors self.old (with_entry self.old.vectors vector vertex number) }
    {
        self.put(vector, vertex as usize, number);
    }

    fn put(&mut self, vector: usize, vertex: usize, number: i64)
        ensures { self.new ≡ value_with_vectors self.old (with_entry self.old.vectors vector vertex number) }
    {
        if vector < self.locations.len() {
            let location = self.locations[vector];
            if vertex < location.vertices {
                let position = vertex * location.stride + location.first;
                self.arrays[location.array].set(position, number);
            }
        }
    }

    /// Writes the changes of one vector, in time in proportion to them.
    pub fn write_vector(&mut self, vector: usize, changes: &[EntryChange])
        ensures { self.new ≡ value_with_vectors self.old (with_changes vector changes.now self.old.vectors) }
    {
        'changes: for change in changes {
            self.set(vector, change.vertex(), change.number());
        }
    }

    /// Writes what an apply changes, in time in proportion to the changes.
    pub fn write(&mut self, changes: &Changes)
        ensures { self.new ≡ value_with_vectors self.old (with_all_changes changes.now.vectors.items self.old.vectors) }
    {
        'vectors: for of_vector in &changes.vectors {
            self.write_vector(of_vector.vector, &of_vector.changes);
        }
    }

    /// The vectors in their order, each in an array of its own. A vector that stands alone is handed over as it is, and one
    /// of a group is copied. The only error is out of memory.
    pub fn into_arrays(self, alloc: Global) -> Result<Vec<Sequence<i64>>, AllocError>
        ensures { IfOk result (λ arrays. arrays.items ≡ self.vectors) }
    {
        let Vectors {
            mut arrays,
            locations,
            groups: _,
        } = self;
        'positions: for position in 0..locations.len() {
            move_home(alloc, &mut arrays, position, locations[position])?;
        }
        arrays.truncate(locations.len());
        Ok(arrays)
    }

    /// A copy of the vectors in their order, each in an array of its own. The only error is out of memory.
    pub fn to_arrays(&self, alloc: Global) -> Result<Vec<Sequence<i64>>, AllocError>
        ensures { IfOk result (λ arrays. arrays.items ≡ self.now.vectors) }
    {
        copy_vectors(alloc, &self.arrays, &self.locations)
    }

    /// The vector at an index; where there is none, one without entries.
    pub fn lane(&self, vector: usize) -> Lane<'_>
        ensures { (v : ℕ) → lane_entry result v ≡ entry self.now.vectors vector v }
    {
        if vector >= self.locations.len() {
            return Lane {
                numbers: &[],
                first: 0,
                stride: 1,
                vertices: 0,
            };
        }
        lane_of(&self.arrays, self.locations[vector])
    }
}
