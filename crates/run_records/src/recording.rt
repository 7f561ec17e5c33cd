//! The record that a run makes.
ghost use Rattle.std.specs.Prelude.{◌≡◌, [], IfOk, OnOk};
ghost use Rattle.edge_fold.specs.Changed.{AreApart};
ghost use Rattle.follow_engine.specs.Reduced.{AreChangesReduced};
ghost use Rattle.runner.specs.EdgeMap.{IsApplyOfRun};
ghost use Rattle.vectors.specs.Changes.{with_all_changes};
ghost use Rattle.run_records.specs.Recorded.{AreRecorded, vectors_through};
ghost use Rattle.run_records.specs.inside.Copies.{AreSameChanges};

use crate::apply_record::ApplyRecord;
use crate::ends::kept_set;
use crate::vector_copies::copied;
use edge_apply::Apply;
use run_state::RunView;
use runner::EdgeMap;
use std::alloc::{AllocError, Global};
use vectors::{Changes, EntryChange, VectorChanges, Vectors};
use vertex_sets::{Form, VertexSet};

/// The applies of a run so far, and the vectors at the first.
#[derive(Drop)]
pub(crate) struct Recording {
    pub(crate) start: Vectors,
    pub(crate) applies: Vec<ApplyRecord>,
    /// How many bytes the record may still take.
    room: usize,
}

/// How many bytes an apply of a record takes at most beside its changes and its sets, with what its lists take for themselves.
const BYTES_OF_APPLY: usize = 1_024;

/// How many bytes the record of a run on a graph of so many vertices may take: 32 for each vertex, and 1 MB.
pub fn room_of_record(vertices: u32) -> usize {
    32 * vertices as usize + 1_048_576
}

impl Recording {
    /// The record of no apply, over these vectors. The only error is out of memory, also if there is no room for the vectors.
    pub(crate) fn begin(
        alloc: Global,
        vectors: &Vectors,
        vertices: u32,
    ) -> Result<Recording, AllocError>
        ensures { IfOk result (λ r. (r.start.vectors ≡ vectors.now.vectors) × (r.applies.items ≡ [])) }
    {
        let room = room_of_record(vertices);
        let needed = vectors.count().saturating_mul(8 * vertices as usize);
        if room < needed {
            return Err(AllocError);
        }
        Ok(Recording {
            start: copied(alloc, vectors)?,
            applies: Vec::new(alloc),
            room: room - needed,
        })
    }

    /// Appends an apply of a run and what it changes. The only error is out of memory, also if the record has no room left.
    pub(crate) fn add(
        &mut self,
        alloc: Global,
        run: RunView<'_>,
        asked: EdgeMap,
        apply: &Apply<'_>,
        changes: &Changes,
    ) -> Result<(), AllocError>
        requires apply { IsApplyOfRun run asked apply.now }
        requires vectors { run.vectors.now.vectors ≡ vectors_through self.old.applies.items self.old.start.vectors }
        requires once { AreApart changes.now.vectors.items }
        requires changes { AreChangesReduced apply.now changes.now.vectors.items }
        ensures recorded { OnOk result (AreRecorded run.entry.functions.now run.entry.graph.now self.old.start.vectors self.old.applies.items
            → AreRecorded run.entry.functions.now run.entry.graph.now self.new.start.vectors self.new.applies.items) }
        ensures vectors { OnOk result (vectors_through self.new.applies.items self.new.start.vectors
            ≡ with_all_changes changes.now.vectors.items run.entry.vectors.now.vectors) }
    {
        let sources = kept_set(alloc, apply.from)?;
        let destinations = kept_set(alloc, apply.to)?;
        let of_sets = bytes_of_set(&sources).saturating_add(bytes_of_set(&destinations));
        let bytes = bytes_of(changes)
            .saturating_add(of_sets)
            .saturating_add(BYTES_OF_APPLY);
        if self.room < bytes {
            return Err(AllocError);
        }
        self.room -= bytes;
        let sizes = Vec::from_slice(alloc, run.sizes)?;
        let copy = copy_of(alloc, changes)?;
        self.applies.push(ApplyRecord {
            asked,
            sizes,
            sources,
            destinations,
            changes: copy,
        })?;
        Ok(())
    }

    /// The vectors at the first apply, and the applies.
    pub(crate) fn into_parts(self) -> (Vectors, Vec<ApplyRecord>)
        ensures { (result.0 ≡ self.start) × (result.1 ≡ self.applies) }
    {
        let Recording {
            start,
            applies,
            room: _,
        } = self;
        (start, applies)
    }
}

/// How many bytes changes take: 12 for each.
fn bytes_of(changes: &Changes) -> usize {
    let mut bytes = 0usize;
    'vectors: for of_vector in &changes.vectors {
        bytes = bytes.saturating_add(of_vector.changes.len().saturating_mul(12));
    }
    bytes
}

/// How many bytes a set takes: 4 for each member of a list, and a byte or a bit for each vertex in its other forms.
fn bytes_of_set(set: &Option<VertexSet>) -> usize {
    match set {
        None => 0,
        Some(set) => match set.form() {
            Form::List => set.len().saturating_mul(4),
            Form::Flags => set.vertices() as usize,
            Form::Bits => set.vertices() as usize / 8,
        },
    }
}

/// A copy of changes. The only error is out of memory.
fn copy_of(alloc: Global, changes: &Changes) -> Result<Changes, AllocError>
    ensures { IfOk result (λ copy. AreSameChanges copy.vectors.items changes.now.vectors.items) }
{
    let mut vectors = Vec::with_capacity(alloc, changes.vectors.len())?;
    'vectors: for of_vector in &changes.vectors {
        let list: Vec<EntryChange> = Vec::from_slice(alloc, &of_vector.changes)?;
        vectors.push(VectorChanges {
            vector: of_vector.vector,
            changes: list,
        })?;
    }
    Ok(Changes { vectors })
}
