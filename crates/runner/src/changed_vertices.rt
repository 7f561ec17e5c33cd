//! The vertices at which an edge apply changes a vector.
ghost use Rattle.std.specs.Prelude.{◌≡◌, ◌<◌, ℤ, List, length, IfOk};
ghost use Rattle.algorithm_meaning.specs.EdgeApply.{modified};
ghost use Rattle.edge_apply.specs.ChangedSets.{form_of};
ghost use Rattle.runner.specs.inside.ChangedSets.{dense_vertex_set_or_flags};
ghost use Rattle.runner.specs.EdgeMap.{AreChangesTo};

use apply_options::{ApplySchedule, DenseVertexSet};
use edge_apply::apply_modified;
use std::alloc::{AllocError, Global};
use vectors::Changes;
use vertex_sets::VertexSet;

/// The vertices, of so many, at which an apply changes a vector that is there, from the changes of the apply: a list if they
/// are fewer than one in 16, and else in the form that the apply's schedule has for dense sets, flags if it has none. It
/// takes time in proportion to the changes, and that of a dense form.
///
/// The only error is out of memory.
pub fn changed_vertices(
    alloc: Global,
    changes: &Changes,
    vector: usize,
    vertices: u32,
    apply_schedule: ApplySchedule,
) -> Result<VertexSet, AllocError>
    ensures vertices { IfOk result (λ s. s.vertices ≡ vertices) }
    ensures members { IfOk result (λ s. (before after : List (List ℤ)) → vector < length before → AreChangesTo vertices before after changes.now.vectors.items
        → s.members ≡ modified vertices vector before after) }
    ensures form { IfOk result (λ s. s.form ≡ form_of (length s.members) vertices (dense_vertex_set_or_flags apply_schedule)) }
{
    let dense = apply_schedule
        .dense_vertex_set
        .unwrap_or(DenseVertexSet::BoolArray);
    apply_modified(alloc, changes, vector, vertices, dense)
}
