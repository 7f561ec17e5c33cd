//! Old entries as the first new ones, at all vertices.
ghost use Rattle.std.specs.Prelude.{◌≡◌, ℕ, ℤ, pos, ◌<◌, ◌≤◌, [], List, length, slice_index_or, OnOk};
ghost use Rattle.apply_options.specs.declared.reduction.Reduction.{Reduction as Reducing};
ghost use Rattle.typed_tree.specs.FunctionStatementTree.{FunctionStatementsTree};
ghost use Rattle.algorithm_meaning.specs.State.{StateValue};
ghost use Rattle.vectors.specs.Lanes.{lane_entry};
ghost use Rattle.edge_fold.specs.Folded.{IsContextOf, HasFolded};
ghost use Rattle.edge_fold.specs.inside.Held.{AreJoined};
ghost use Rattle.edge_fold.specs.Held.{held_with};
ghost use Rattle.edge_fold.specs.inside.VectorAccumulators.{HaveJoined};
ghost use Rattle.edge_fold.specs.declared.initial_entries.InitialEntries.TheVariants as seeds;

use crate::accumulator::Accumulator;
use crate::apply_context::ApplyContext;
use crate::initial_entries::InitialEntries;
use crate::scratch::Scratch;
use crate::vector_accumulator::VectorAccumulators;
use apply_options::Reduction;
use std::alloc::{AllocError, Global};
use vectors::Lane;

impl Scratch {
    /// Begins an apply to many edges, whatever became of the one before: where the shape of its function is known and new
    /// entries begin with the old ones, every vertex has its old entry from the start, so that no edge is the first one to
    /// a vertex. It takes time in proportion to the vertices. The only error is out of memory.
    pub fn begin_whole(
        &mut self,
        alloc: Global,
        context: ApplyContext<'_>,
    ) -> Result<(), AllocError>
        ensures { OnOk result ((m : StateValue) (steps : List FunctionStatementsTree) → IsContextOf context.entry m steps → HasFolded context.entry m steps [] self.new) }
    {
        self.slots.used = 0;
        self.pairs.count = 0;
        if let Some(contribution) = context.source_contribution(0) {
            return self.slots.fill(alloc, context, contribution.vector, contribution.reduction);
        }
        if let Some(given) = context.entry_contribution() {
            return self
                .slots
                .fill(alloc, context, given.vector, given.reduction);
        }
        Ok(())
    }
}

impl VectorAccumulators {
    /// Gives each vertex its old entry in a vector, if new entries begin with the old ones. No vector has an entry yet. The
    /// only error is out of memory.
    fn fill(
        &mut self,
        alloc: Global,
        context: ApplyContext<'_>,
        vector: usize,
        reduction: Reduction,
    ) -> Result<(), AllocError>
        requires { self.old.used ≡ 0 }
        ensures { OnOk result ((x : ℕ) (r : Reducing) → (vector ≡ x → reduction ≡ r) → HaveJoined context.entry x r self.old self.new []) }
    {
        let position = self.position(alloc, vector, reduction, context.vertices)?;
        let seeds = context.seeds(vector);
        self.slots[position].entries.fill(seeds, context.vertices);
        Ok(())
    }
}

impl Accumulator {
    /// Gives each of n vertices its old entry, if new entries begin with the old ones.
    fn fill(&mut self, seeds: InitialEntries<'_>, vertices: u32)
        requires { (combine : ℤ → ℤ → ℤ) (v : ℕ) (h : ℤ) → held_with combine self.old v h ≡ h }
        ensures { (r : Reducing) → AreJoined seeds.entry r self.old self.new [] }
    {
        match seeds {
            InitialEntries::Unit => {}
            InitialEntries::Entries(old) => self.fill_from(old, vertices),
        }
    }

    /// Gives each of n vertices its entry of this vector, in blocks of 64 vertices, as far as there is room.
    fn fill_from(&mut self, old: Lane<'_>, vertices: u32)
        requires { (combine : ℤ → ℤ → ℤ) (v : ℕ) (h : ℤ) → held_with combine self.old v h ≡ h }
        ensures { (r : Reducing) → AreJoined (seeds.Entries old.entry) r self.old self.new [] }
    {
        let blocks = ((vertices as usize + 63) / 64).min(self.marks.room() / 64);
        copy_entries(old, 64 * blocks, self.values.as_mut_slice());
        self.marks.insert_blocks(blocks);
        self.filled = 64 * blocks;
    }
}

/// Copies the first entries, as many as this, in one go if they are adjacent in memory.
fn copy_entries(old: Lane<'_>, count: usize, values: &mut [i64])
    requires { count ≤ length values.old }
    ensures { (v : ℕ) → v < count → slice_index_or values.new v (pos 0) ≡ lane_entry old.entry v }
{
    let mut copied = 0;
    if let Some(numbers) = old.entries() {
        copied = numbers.len().min(count);
        values[..copied].copy_from_slice(&numbers[..copied]);
    }
    'rest: for index in copied..count {
        values[index] = old.get(index);
    }
}
