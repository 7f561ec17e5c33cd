//! Changes of parts of an apply, appended to one another.
ghost use Rattle.std.specs.Prelude.{◌≡◌, ℕ, ◌==◌, false, List, [], IfOk, OnOk};
ghost use Rattle.std.specs.List.{flat_map};
ghost use Rattle.edge_fold.specs.Changed.{AreApart, changes_of, changes_or, is_named};
ghost use Rattle.edge_apply.specs.inside.Merged.{changes_in_parts};

use crate::modified::changes_in;
use crew::Found;
use edge_fold::has_vector;
use std::alloc::{AllocError, Global};
use vectors::{Changes, EntryChange, VectorChanges};

/// For each vector its changes in all parts, one part after the other. The only error is out of memory.
pub(crate) fn append_changes(alloc: Global, parts: &[Found<Changes>]) -> Result<Changes, AllocError>
    ensures once { IfOk result (λ c. AreApart c.vectors.items) }
    ensures changes { IfOk result (λ c. (x : ℕ) → changes_of x c.vectors.items ≡ changes_in_parts x parts.now) }
{
    let mut vectors = Vec::new(alloc);
    'parts: for part in parts {
        add_vectors(alloc, parts, &part.out.vectors, &mut vectors)?;
    }
    Ok(Changes { vectors })
}

/// Adds those vectors of a part that are not there yet, each with its changes in all parts.
fn add_vectors(
    alloc: Global,
    parts: &[Found<Changes>],
    part: &[VectorChanges],
    vectors: &mut Vec<VectorChanges>,
) -> Result<(), AllocError>
    ensures once { OnOk result (AreApart vectors.old.items → AreApart vectors.new.items) }
    ensures all { OnOk result ((x : ℕ) → changes_or x vectors.old.items (changes_in_parts x parts.now) ≡ changes_in_parts x parts.now
        → changes_or x vectors.new.items (changes_in_parts x parts.now) ≡ changes_in_parts x parts.now) }
    ensures named { OnOk result ((x : ℕ) → is_named x vectors.new.items ≡ false → (is_named x vectors.old.items ≡ false) × (changes_of x part.now ≡ [])) }
{
    'vectors: for of_vector in part {
        add_vector(alloc, parts, of_vector.vector, vectors)?;
    }
    Ok(())
}

/// Adds a vector with its changes in all parts, if it is not there yet.
fn add_vector(
    alloc: Global,
    parts: &[Found<Changes>],
    vector: usize,
    vectors: &mut Vec<VectorChanges>,
) -> Result<(), AllocError>
    ensures once { OnOk result (AreApart vectors.old.items → AreApart vectors.new.items) }
    ensures all { OnOk result ((x : ℕ) → changes_or x vectors.old.items (changes_in_parts x parts.now) ≡ changes_in_parts x parts.now
        → changes_or x vectors.new.items (changes_in_parts x parts.now) ≡ changes_in_parts x parts.now) }
    ensures named { OnOk result ((x : ℕ) → is_named x vectors.new.items ≡ false → (is_named x vectors.old.items ≡ false) × ((vector == x) ≡ false)) }
{
    if has_vector(vectors, vector) {
        return Ok(());
    }
    let changes = changes_of_all(alloc, parts, vector)?;
    vectors.push(VectorChanges { vector, changes })?;
    Ok(())
}

/// The changes in a vector of all parts, one part after the other.
fn changes_of_all(
    alloc: Global,
    parts: &[Found<Changes>],
    vector: usize,
) -> Result<Vec<EntryChange>, AllocError>
    ensures { IfOk result (λ cs. cs.items ≡ changes_in_parts vector parts.now) }
{
    let mut changes = Vec::new(alloc);
    'parts: for part in parts {
        changes.extend_from_slice(changes_in(&part.out, vector))?;
    }
    Ok(changes)
}
