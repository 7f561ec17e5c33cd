//! Changes of an apply: what its accumulators have for each vector.
ghost use Rattle.std.specs.Prelude.{◌≡◌, ℕ, ◌==◌, ◌≤◌, ◌++◌, Bool, if◌then◌else◌, List, [], length, slice_index_or, IfOk, OnOk};
ghost use Rattle.std.specs.List.{filter};
ghost use Rattle.weighted_edges.specs.Edge.{Edge};
ghost use Rattle.apply_options.specs.declared.reduction.Reduction.{Reduction};
ghost use Rattle.typed_tree.specs.FunctionStatementTree.{FunctionStatementsTree};
ghost use Rattle.algorithm_meaning.specs.EdgeApply.{IsGivenBy, after_edges};
ghost use Rattle.algorithm_meaning.specs.State.{StateValue};
ghost use Rattle.algorithm_meaning.specs.Value.{entry};
ghost use Rattle.kernels.specs.Registers.{HasSizes};
ghost use Rattle.edge_fold.specs.Changed.{AreApart, changed, changes_of, changes_or, is_named};
ghost use Rattle.vectors.specs.declared.changes.EntryChange.{EntryChange};
ghost use Rattle.edge_fold.specs.declared.apply_context.ApplyContext.{ApplyContext};
ghost use Rattle.edge_fold.specs.declared.apply_context.FoldStart.TheVariants.{OldEntry};
ghost use Rattle.edge_fold.specs.Ends.{IsEndTest, IsTest};
ghost use Rattle.edge_fold.specs.Folded.{IsContextOf, HasFolded};
ghost use Rattle.edge_fold.specs.inside.Held.{held};
ghost use Rattle.edge_fold.specs.VectorAccumulators.{active};
ghost use Rattle.edge_fold.specs.inside.VectorAccumulators.{held_in};

use crate::apply_context::ApplyContext;
use crate::passing::keep_passing;
use crate::scratch::Scratch;
use crate::vector_accumulator::{VectorAccumulator, VectorAccumulators};
use crate::whole_changes::whole_changes;
use kernels::{Block, EndpointFilter};
use std::alloc::{AllocError, Global};
use vectors::{Changes, EntryChange, VectorChanges};

impl Scratch {
    /// What the edges that were folded change, at the vertices that an end lets through; one that is not given lets all
    /// through. It promises so where new entries began with the old ones. There is one list for each vector that a function has
    /// given something, and a vector without one does
    /// not change. The next call must be `begin`. The only error is out of memory.
    pub fn changes(
        &mut self,
        alloc: Global,
        context: ApplyContext<'_>,
        to: Option<EndpointFilter<'_>>,
    ) -> Result<Changes, AllocError>
        ensures once { IfOk result (λ c. AreApart c.vectors.items) }
        ensures changes { IfOk result (λ c. (m : StateValue) (steps : List FunctionStatementsTree) (edges : List Edge) (test : ℕ → Bool)
            → IsContextOf context.entry m steps → IsEndTest to.entry m test
            → HasFolded context.entry m steps edges self.old → context.entry.start ≡ OldEntry → (x : ℕ) (r : Reduction)
            → IsGivenBy r x steps m.sets m.vectors → context.entry.vertices ≤ length (slice_index_or m.vectors x [])
            → changes_of x c.vectors.items ≡ changed context.entry.vertices (entry m.vectors x)
            (entry (after_edges steps m.sets m.vectors (filter (λ e. test e.1) edges) m.vectors) x)) }
    {
        self.flush(alloc, context)?;
        found_in_slots(alloc, context, to, &self.slots, &mut self.block)
    }

    /// Adds those of the vertices that an end lets through to a list, in their order. What was folded stays. The only
    /// error is out of memory.
    pub fn keep_passing(
        &mut self,
        context: ApplyContext<'_>,
        end: EndpointFilter<'_>,
        vertices: &[u32],
        kept: &mut Vec<u32>,
    ) -> Result<(), AllocError>
        ensures kept { OnOk result ((m : StateValue) (test : ℕ → Bool) → context.entry.vectors.now.vectors ≡ m.vectors
            → HasSizes context.entry.sizes.now m → IsTest end.entry m test
            → kept.new.items ≡ kept.old.items ++ filter test vertices.now) }
        ensures folded { (f : ApplyContext) (m : StateValue) (steps : List FunctionStatementsTree) (edges : List Edge) → HasFolded f m steps edges self.old
            → HasFolded f m steps edges self.new }
    {
        keep_passing(context, end, vertices, &mut self.block, kept)?;
        Ok(())
    }
}

/// What the slots have for their vectors.
fn found_in_slots(
    alloc: Global,
    context: ApplyContext<'_>,
    to: Option<EndpointFilter<'_>>,
    slots: &VectorAccumulators,
    block: &mut Block,
) -> Result<Changes, AllocError>
    ensures once { IfOk result (λ c. AreApart c.vectors.items) }
    ensures changes { IfOk result (λ c. (m : StateValue) (test : ℕ → Bool) → context.entry.vectors.now.vectors ≡ m.vectors
        → HasSizes context.entry.sizes.now m → IsEndTest to.entry m test
        → (x : ℕ) → changes_of x c.vectors.items ≡ changed context.entry.vertices (entry m.vectors x)
        (λ v. if test v then held_in (active slots.now) x v (entry m.vectors x v) else entry m.vectors x v)) }
{
    let mut vectors = Vec::new(alloc);
    'slots: for position in 0..slots.used {
        let found = found_in_slot(alloc, context, to, &slots.slots[position], block)?;
        push_once(found, &mut vectors)?;
    }
    Ok(Changes { vectors })
}

/// Adds the changes of a vector that is not there yet.
fn push_once(found: VectorChanges, vectors: &mut Vec<VectorChanges>) -> Result<(), AllocError>
    ensures apart { OnOk result (AreApart vectors.old.items → AreApart vectors.new.items) }
    ensures changes { OnOk result ((x : ℕ) (rest : List EntryChange)
        → changes_or x vectors.new.items rest ≡ changes_or x vectors.old.items (if found.vector == x then found.changes.items else rest)) }
{
    if has_vector(vectors, found.vector) {
        return Ok(());
    }
    vectors.push(found)?;
    Ok(())
}

/// Whether the changes of a vector are there.
pub fn has_vector(vectors: &[VectorChanges], vector: usize) -> bool
    ensures { result ≡ is_named vector vectors.now }
{
    'vectors: for of_vector in vectors {
        if of_vector.vector == vector {
            return true;
        }
    }
    false
}

/// What a slot has for its vector.
fn found_in_slot(
    alloc: Global,
    context: ApplyContext<'_>,
    to: Option<EndpointFilter<'_>>,
    slot: &VectorAccumulator,
    block: &mut Block,
) -> Result<VectorChanges, AllocError>
    ensures vector { IfOk result (λ c. c.vector ≡ slot.now.vector) }
    ensures changes { IfOk result (λ c. (m : StateValue) (test : ℕ → Bool) → context.entry.vectors.now.vectors ≡ m.vectors
        → HasSizes context.entry.sizes.now m → IsEndTest to.entry m test
        → c.changes.items ≡ changed context.entry.vertices (entry m.vectors slot.now.vector)
        (λ v. if test v then held slot.now.entries v (entry m.vectors slot.now.vector v) else entry m.vectors slot.now.vector v)) }
{
    let vector = slot.vector;
    match to {
        None => {
            let changes = all_changes(alloc, context, slot)?;
            Ok(VectorChanges { vector, changes })
        }
        Some(end) => {
            let changes = passing_changes(alloc, context, end, slot, block)?;
            Ok(VectorChanges { vector, changes })
        }
    }
}

/// Its changes at all vertices. If all of these are filled, no mark is read.
fn all_changes(
    alloc: Global,
    context: ApplyContext<'_>,
    slot: &VectorAccumulator,
) -> Result<Vec<EntryChange>, AllocError>
    ensures { IfOk result (λ cs. cs.items ≡ changed context.entry.vertices (entry context.entry.vectors.now.vectors slot.now.vector)
        (λ v. held slot.now.entries v (entry context.entry.vectors.now.vectors slot.now.vector v))) }
{
    let old = context.vectors.lane(slot.vector);
    let entries = &slot.entries;
    if context.vertices as usize <= entries.filled {
        let changes = whole_changes(alloc, old, &entries.values, context.vertices)?;
        return Ok(changes);
    }
    let marked = entries.marked(alloc)?;
    entries.changes(alloc, old, &marked, context.vertices)
}

/// Its changes at the vertices that an end lets through.
fn passing_changes(
    alloc: Global,
    context: ApplyContext<'_>,
    end: EndpointFilter<'_>,
    slot: &VectorAccumulator,
    block: &mut Block,
) -> Result<Vec<EntryChange>, AllocError>
    ensures { IfOk result (λ cs. (m : StateValue) (test : ℕ → Bool) → context.entry.vectors.now.vectors ≡ m.vectors
        → HasSizes context.entry.sizes.now m → IsTest end.entry m test
        → cs.items ≡ changed context.entry.vertices (entry m.vectors slot.now.vector)
        (λ v. if test v then held slot.now.entries v (entry m.vectors slot.now.vector v) else entry m.vectors slot.now.vector v)) }
{
    let marked = slot.entries.marked(alloc)?;
    let mut kept = Vec::new(alloc);
    keep_passing(context, end, &marked, block, &mut kept)?;
    let old = context.vectors.lane(slot.vector);
    slot.entries.changes(alloc, old, &kept, context.vertices)
}
