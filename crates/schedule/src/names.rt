//! Vector names: the indices of the vectors that a `fuseFields` call names.
ghost use Rattle.std.specs.Prelude.{◌≡◌, IfOk, OnOk};
ghost use Rattle.typed_tree.specs.Independence.{name_at as name_of};
ghost use Rattle.schedule.specs.Schedule.{vector_names};
ghost use Rattle.schedule.specs.inside.Putting.{AreIndices, PutsIndex};

use expression_types::Names;
use std::alloc::{AllocError, Global};
use typed_tree::{Name, Vector};

/// The indices of these names, of each the first.
pub(crate) fn indices_of(alloc: Global, names: &[Name]) -> Result<Names<usize>, AllocError>
    ensures { IfOk result (λ positions. AreIndices positions names.now) }
{
    let mut positions = Names::new(alloc);
    for position in 0..names.len() {
        put_index(alloc, &mut positions, names[position].as_slice(), position)?;
    }
    Ok(positions)
}

/// The indices of the vectors with these names.
pub(crate) fn vector_indices(
    alloc: Global,
    names: &[Name],
    vectors: &[Vector],
) -> Result<Names<usize>, AllocError>
    ensures { IfOk result (λ positions. AreIndices positions (vector_names names.now vectors.now)) }
{
    let mut positions = Names::new(alloc);
    for position in 0..vectors.len() {
        put_index(
            alloc,
            &mut positions,
            name_at(names, vectors[position].name),
            position,
        )?;
    }
    Ok(positions)
}

/// Puts the index of a name, unless the name has one.
fn put_index(
    alloc: Global,
    indices: &mut Names<usize>,
    name: &[u8],
    index: usize,
) -> Result<(), AllocError>
    ensures { OnOk result (PutsIndex indices.old name.now index indices.new) }
{
    if indices.get(name).is_none() {
        indices.push(alloc, name, index)?;
    }
    Ok(())
}

/// The name at this index. One that is not there is empty.
pub(crate) fn name_at(names: &[Name], index: usize) -> &[u8]
    ensures { result.now ≡ name_of names.now index }
{
    match names.get(index) {
        Some(name) => name.as_slice(),
        None => &[],
    }
}
