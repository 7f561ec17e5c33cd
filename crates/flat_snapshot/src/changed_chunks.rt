//! The chunks that listed edges change.

ghost use Rattle.std.specs.Prelude.{◌≡◌, ◌≤◌, ◌/◌, ◌^◌, ℕ, true, [], IfOk};
ghost use Rattle.edge_differences.specs.Listed.{is_listed};
ghost use Rattle.flat_snapshot.specs.inside.Chunks.{is_changed};

use crate::chunk::CHUNK_VERTICES;
use std::alloc::{AllocError, Global};

/// Whether the chunk with a number is changed, for each number: in one list by the sources of edges, in the other by
/// their destinations.
pub(crate) struct ChangedChunks {
    pub(crate) outgoing: Vec<bool>,
    pub(crate) incoming: Vec<bool>,
}

// By hand: a derived drop would be written out, and proved again, where the lists are dropped.
impl Drop for ChangedChunks {
    fn drop(self) {
        let ChangedChunks {
            outgoing: _,
            incoming: _,
        } = self;
    }
}

impl ChangedChunks {
    /// All chunks: those beyond the lists are changed. It takes no memory.
    pub(crate) fn all(alloc: Global) -> ChangedChunks
        ensures outgoing { result.outgoing.items ≡ [] }
        ensures incoming { result.incoming.items ≡ [] }
    {
        ChangedChunks {
            outgoing: Vec::new(alloc),
            incoming: Vec::new(alloc),
        }
    }

    /// The chunks of the sources and of the destinations of edges, among as many as there are. The only error is out of
    /// memory.
    pub(crate) fn of(
        alloc: Global,
        vertices: u32,
        edges: &[(u32, u32)],
    ) -> Result<ChangedChunks, AllocError>
        ensures outgoing { IfOk result (λ changed. (u v : ℕ) → is_listed edges.now u v ≡ true
            → is_changed changed.outgoing.items (u / 4096) ≡ true) }
        ensures incoming { IfOk result (λ changed. (u v : ℕ) → is_listed edges.now u v ≡ true
            → is_changed changed.incoming.items (v / 4096) ≡ true) }
    {
        let count = vertices.div_ceil(CHUNK_VERTICES) as usize;
        let mut outgoing = vec![in alloc; false; count]?;
        let mut incoming = vec![in alloc; false; count]?;
        for edge in edges {
            mark(&mut outgoing, edge.0);
            mark(&mut incoming, edge.1);
        }
        Ok(ChangedChunks { outgoing, incoming })
    }
}

/// Marks the chunk of a vertex, if it is one of the list.
fn mark(changed: &mut Vec<bool>, vertex: u32)
    ensures own { is_changed changed.new.items (vertex / 4096) ≡ true }
    ensures others { (k : ℕ) → is_changed changed.old.items k ≡ true → is_changed changed.new.items k ≡ true }
{
    let chunk = (vertex / CHUNK_VERTICES) as usize;
    if chunk < changed.len() {
        changed[chunk] = true;
    }
}
