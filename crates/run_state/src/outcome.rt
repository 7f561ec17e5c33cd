//! Outcomes: what a run shows in the end.
ghost use Rattle.std.specs.Prelude.{◌≡◌, length, map, take, IfOk};
ghost use Rattle.algorithm_meaning.specs.Meaning.{shown_name_at, named_set, named_vectors};
ghost use Rattle.run_state.specs.inside.NamedSets.{named};

use algorithm_meaning::{NamedSet, NamedVector};
use std::alloc::{AllocError, Global};
use typed_tree::{Name, Sequence, Vector};
use vertex_sets::VertexSet;

/// The names of the vectors that are declared, and their entries.
pub(crate) fn name_vectors(
    alloc: Global,
    names: &[Name],
    declared: &[Vector],
    vectors: Vec<Sequence<i64>>,
) -> Result<Vec<NamedVector>, AllocError>
    ensures { IfOk result (λ v. v.items ≡ named_vectors names.now declared.now vectors.items) }
{
    let mut named = Vec::new(alloc);
    let mut left = vectors.into_iter();
    'vectors: for vector in declared {
        let Some(entries) = left.next() else {
            return Ok(named);
        };
        named.push(NamedVector {
            name: name_of(alloc, names, vector.name)?,
            entries,
        })?;
    }
    Ok(named)
}

/// The names of the sets and their members.
pub(crate) fn name_sets(
    alloc: Global,
    names: &[Name],
    set_names: &[usize],
    sets: &[VertexSet],
) -> Result<Vec<NamedSet>, AllocError>
    requires { length set_names.now ≡ length sets.now }
    ensures { IfOk result (λ v. v.items ≡ map (named_set names.now) (named set_names.now sets.now).sets) }
{
    let mut shown = Vec::new(alloc);
    'sets: for (position, set) in sets.iter().enumerate() {
        shown.push(NamedSet {
            name: name_of(alloc, names, set_names[position])?,
            members: members_of(alloc, set)?,
        })?;
    }
    Ok(shown)
}

/// A copy of the members.
fn members_of(alloc: Global, set: &VertexSet) -> Result<Sequence<u32>, AllocError>
    ensures { IfOk result (λ members. members ≡ set.now.members) }
{
    let members = set.iter().collect(alloc)?;
    Ok(Sequence::new(members))
}

/// A copy of the name at an index, the empty one where there is none.
fn name_of(alloc: Global, names: &[Name], index: usize) -> Result<Name, AllocError>
    ensures { IfOk result (λ name. name ≡ shown_name_at names.now index) }
{
    match names.get(index) {
        Some(name) => Ok(Sequence::new(Vec::from_slice(alloc, name.as_slice())?)),
        None => Ok(Sequence::new(Vec::new(alloc))),
    }
}

/// The items before an index.
pub(crate) fn first<T>(items: &[T], count: usize) -> &[T]
    ensures { result.now ≡ take count items.now }
{
    &items[..count.min(items.len())]
}
