//! The vertices that an apply has changed.
ghost use Rattle.std.specs.Prelude.{◌≡◌, ℕ, ℤ, List, length, IfOk};
ghost use Rattle.kernels.specs.EdgeApply.{modified};
ghost use Rattle.kernels.specs.Value.{entry};
ghost use Rattle.edge_apply.specs.ChangedSets.{form_of};
ghost use Rattle.edge_fold.specs.Changed.{changed, changes_of};
ghost use Rattle.vertex_sets.specs.VertexSet.{IsAscendingBelow};

use apply_options::DenseVertexSet;
use std::alloc::{AllocError, Global};
use vectors::{Changes, EntryChange};
use vertex_sets::{Form, VertexSet};

/// The vertices of a graph of n at which an apply has changed a vector: a list if they are fewer than one in 16, and else in
/// the form that the schedule has for dense sets. It takes time in proportion to the changes, and that of a dense form.
///
/// The only error is out of memory.
pub fn apply_modified(
    alloc: Global,
    changes: &Changes,
    vector: usize,
    vertices: u32,
    dense: DenseVertexSet,
) -> Result<VertexSet, AllocError>
    ensures vertices { IfOk result (λ s. s.vertices ≡ vertices) }
    ensures members { IfOk result (λ s. (before after : List (List ℤ))
        → changes_of vector changes.now.vectors.items ≡ changed vertices (entry before vector) (entry after vector)
        → s.members ≡ modified vertices vector before after) }
    ensures form { IfOk result (λ s. s.form ≡ form_of (length s.members) vertices dense) }
{
    let members = changed_vertices(alloc, changes_in(changes, vector), vertices)?;
    let form = form_for(members.len(), vertices, dense);
    VertexSet::from_ascending(alloc, vertices, &members, form)
}

/// The changes in a vector.
pub(crate) fn changes_in(changes: &Changes, vector: usize) -> &[EntryChange]
    ensures { result.now ≡ changes_of vector changes.now.vectors.items }
{
    'vectors: for of_vector in &changes.vectors {
        if of_vector.vector == vector {
            return &of_vector.changes;
        }
    }
    &[]
}

/// Their vertices. One that is no vertex, or does not ascend, is left out.
fn changed_vertices(
    alloc: Global,
    changes: &[EntryChange],
    vertices: u32,
) -> Result<Vec<u32>, AllocError>
    ensures ascending { IfOk result (λ vs. IsAscendingBelow vertices vs.items) }
    ensures members { IfOk result (λ vs. (before after : List (List ℤ)) (vector : ℕ) → changes.now ≡ changed vertices (entry before vector) (entry after vector)
        → vs.items ≡ modified vertices vector before after) }
{
    let mut members = Vec::new(alloc);
    let mut next = 0u32;
    'changes: for change in changes {
        let vertex = change.vertex();
        if vertex < next || vertices <= vertex {
            continue;
        }
        members.push(vertex)?;
        next = vertex + 1;
    }
    Ok(members)
}

/// A list for fewer than one in 16 vertices.
fn form_for(count: usize, vertices: u32, dense: DenseVertexSet) -> Form
    ensures { result ≡ form_of count vertices dense }
{
    if count < vertices as usize / 16 {
        return Form::List;
    }
    match dense {
        DenseVertexSet::BoolArray => Form::Flags,
        DenseVertexSet::Bitvector => Form::Bits,
    }
}
