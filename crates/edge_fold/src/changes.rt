//! Changes of one vector: where a new entry differs from the old one.
ghost use Rattle.std.specs.Prelude.{◌≡◌, ℕ, ℤ, ◌<◌, ◌≤◌, ◌++◌, Contains, IfOk, OnOk};
ghost use Rattle.std.specs.List.Sorted.{IsNonDecreasing};
ghost use Rattle.edge_fold.specs.Changed.{change_at, changed};
ghost use Rattle.edge_fold.specs.inside.Held.{AreMarked, held};
ghost use Rattle.vectors.specs.Lanes.{lane_entry};

use crate::accumulator::Accumulator;
use std::alloc::{AllocError, Global};
use vectors::{EntryChange, Lane};

impl Accumulator {
    /// The changes at these vertices, which do not fall, each named once, and were all given something; `new` is any account
    /// of the new entries that agrees with those of these vertices, and has the old ones at all others of the graph. The
    /// only error is out of memory.
    pub(crate) fn changes(
        &self,
        alloc: Global,
        old: Lane<'_>,
        kept: &[u32],
        vertices: u32,
    ) -> Result<Vec<EntryChange>, AllocError>
        ensures { IsNonDecreasing kept.now → AreMarked self.now kept.now → (new : ℕ → ℤ)
            → ((v : ℕ) → Contains kept.now v → new v ≡ held self.now v (lane_entry old.entry v))
            → ((v : ℕ) → v < vertices → ¬ Contains kept.now v → new v ≡ lane_entry old.entry v)
            → IfOk result (λ cs. cs.items ≡ changed vertices (lane_entry old.entry) new) }
    {
        let mut changes = Vec::new(alloc);
        let mut next = 0u32;
        'kept: for vertex in kept {
            if *vertex < next || vertices <= *vertex {
                continue;
            }
            let before = old.get(*vertex as usize);
            push_change(*vertex, before, self.given(*vertex), &mut changes)?;
            next = *vertex + 1;
        }
        Ok(changes)
    }
}

/// Adds a change, where there is one. The only error is out of memory.
#[inline]
pub fn push_change(
    vertex: u32,
    before: i64,
    number: i64,
    changes: &mut Vec<EntryChange>,
) -> Result<(), AllocError>
    ensures { OnOk result (changes.new.items ≡ changes.old.items ++ change_at (λ _. before) (λ _. number) vertex) }
{
    if before != number {
        changes.push(EntryChange::new(vertex, number))?;
    }
    Ok(())
}
