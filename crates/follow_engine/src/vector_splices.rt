//! The changes of all vectors: those that were found, and those of a record.
ghost use Rattle.std.specs.Prelude.{◌≡◌, ◌==◌, ℕ, false, [], IfOk, OnOk};
ghost use Rattle.edge_fold.specs.Changed.{AreApart, changes_of, is_named};
ghost use Rattle.vertex_marks.specs.Marks.{is_marked};
ghost use Rattle.follow_engine.specs.Spliced.{spliced};
ghost use Rattle.follow_engine.specs.inside.Among.{HasSpliced};

use crate::splicing::splice;
use edge_fold::has_vector;
use std::alloc::{AllocError, Global};
use vectors::{Changes, EntryChange, VectorChanges};
use vertex_marks::VertexMarks;

/// For each vector the changes that were found, and those of a record at the vertices that are not marked. The only error is
/// out of memory.
pub(crate) fn splice_all(
    alloc: Global,
    marks: &VertexMarks,
    found: &Changes,
    recorded: &Changes,
) -> Result<Changes, AllocError>
    ensures once { IfOk result (λ c. AreApart c.vectors.items) }
    ensures changes { IfOk result (λ c. (x : ℕ) → changes_of x c.vectors.items
        ≡ spliced (is_marked marks.now) (changes_of x found.now.vectors.items) (changes_of x recorded.now.vectors.items)) }
{
    let mut vectors = Vec::new(alloc);
    add_vectors(alloc, marks, found, recorded, &found.vectors, &mut vectors)?;
    add_vectors(
        alloc,
        marks,
        found,
        recorded,
        &recorded.vectors,
        &mut vectors,
    )?;
    Ok(Changes { vectors })
}

/// Adds those vectors of a list that are not there yet, each with its changes on both sides.
fn add_vectors(
    alloc: Global,
    marks: &VertexMarks,
    found: &Changes,
    recorded: &Changes,
    listed: &[VectorChanges],
    vectors: &mut Vec<VectorChanges>,
) -> Result<(), AllocError>
    ensures once { OnOk result (AreApart vectors.old.items → AreApart vectors.new.items) }
    ensures all { OnOk result ((x : ℕ)
        → HasSpliced (is_marked marks.now) found.now recorded.now x vectors.old.items
        → HasSpliced (is_marked marks.now) found.now recorded.now x vectors.new.items) }
    ensures named { OnOk result ((x : ℕ) → is_named x vectors.new.items ≡ false → (is_named x vectors.old.items ≡ false) × (changes_of x listed.now ≡ [])) }
{
    'listed: for of_vector in listed {
        add_vector(alloc, marks, found, recorded, of_vector.vector, vectors)?;
    }
    Ok(())
}

/// Adds a vector if it is not there yet.
fn add_vector(
    alloc: Global,
    marks: &VertexMarks,
    found: &Changes,
    recorded: &Changes,
    vector: usize,
    vectors: &mut Vec<VectorChanges>,
) -> Result<(), AllocError>
    ensures once { OnOk result (AreApart vectors.old.items → AreApart vectors.new.items) }
    ensures all { OnOk result ((x : ℕ)
        → HasSpliced (is_marked marks.now) found.now recorded.now x vectors.old.items
        → HasSpliced (is_marked marks.now) found.now recorded.now x vectors.new.items) }
    ensures named { OnOk result ((x : ℕ) → is_named x vectors.new.items ≡ false → (is_named x vectors.old.items ≡ false) × ((vector == x) ≡ false)) }
{
    if has_vector(vectors, vector) {
        return Ok(());
    }
    let changes = splice(
        alloc,
        marks,
        changes_in(found, vector),
        changes_in(recorded, vector),
    )?;
    vectors.push(VectorChanges { vector, changes })?;
    Ok(())
}

/// The changes in a vector, none if it is not named.
fn changes_in(changes: &Changes, vector: usize) -> &[EntryChange]
    ensures { result.now ≡ changes_of vector changes.now.vectors.items }
{
    'vectors: for of_vector in &changes.vectors {
        if of_vector.vector == vector {
            return &of_vector.changes;
        }
    }
    &[]
}
