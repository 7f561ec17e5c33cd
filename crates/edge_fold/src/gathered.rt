//! Gathered contributions: what a piece of an apply gives.
ghost use Rattle.std.specs.Prelude.{◌≡◌, ℕ, ℤ, ◌<◌, ◌++◌, Bool, Contains, List, if◌then◌else◌, IfOk, OnOk};
ghost use Rattle.std.specs.List.{filter};
ghost use Rattle.std.specs.List.Sorted.{IsNonDecreasing};
ghost use Rattle.weighted_edges.specs.Edge.{Edge};
ghost use Rattle.apply_options.specs.declared.reduction.Reduction.{Reduction};
ghost use Rattle.typed_tree.specs.FunctionStatementTree.{FunctionStatementsTree};
ghost use Rattle.algorithm_meaning.specs.State.{StateValue};
ghost use Rattle.kernels.specs.Registers.{HasSizes};
ghost use Rattle.edge_fold.specs.declared.apply_context.FoldStart.TheVariants.{Unit as FromUnit};
ghost use Rattle.edge_fold.specs.Ends.{IsEndTest};
ghost use Rattle.edge_fold.specs.Folded.{IsContextOf, HasFolded};
ghost use Rattle.edge_fold.specs.Gathered.{AllAreNonDescending, AreGathered, IsNonDescending, IsGatheredBy, gathered_for, given_numbers};
ghost use Rattle.edge_fold.specs.inside.Gathered.{number_at};
ghost use Rattle.edge_fold.specs.Contributions.{reduced_at};
ghost use Rattle.edge_fold.specs.Held.{held_with};
ghost use Rattle.edge_fold.specs.FoldStarts.{combined_with_seed};
ghost use Rattle.edge_fold.specs.VectorAccumulators.{active, held_in_with, reduction_in};

use crate::accumulator::Accumulator;
use crate::apply_context::ApplyContext;
use crate::passing::keep_passing;
use crate::scratch::Scratch;
use crate::vector_accumulator::{VectorAccumulator, VectorAccumulators};
use crate::vector_accumulators::find;
use apply_options::Reduction;
use kernels::{Block, EndpointFilter};
use std::alloc::{AllocError, Global};
use vectors::EntryChange;

/// What edges give one vector, by its index: the reduction, and numbers for vertices. A number that is reduced with those
/// of a vertex is reduced with all that the edges give it.
#[derive(Drop)]
pub struct GatheredIn {
    pub vector: usize,
    pub reduction: Reduction,
    pub numbers: Vec<EntryChange>,
}

/// What edges give: to each vector all that is listed for it.
pub struct Gathered {
    pub vectors: Vec<GatheredIn>,
}

impl Drop for Gathered {
    fn drop(self) {
        let Gathered { vectors: _ } = self;
    }
}

impl Scratch {
    /// What the edges that were folded give, at the vertices that an end lets through; one that is not given lets all
    /// through. It promises so where new entries began with the unit. The numbers for a vector are by ascending
    /// vertices. The next call must be `begin`. The only error is out of memory.
    pub fn gathered(
        &mut self,
        alloc: Global,
        context: ApplyContext<'_>,
        to: Option<EndpointFilter<'_>>,
    ) -> Result<Gathered, AllocError>
        ensures ascending { IfOk result (λ g. AllAreNonDescending g.vectors.items) }
        ensures given { IfOk result (λ g. (m : StateValue) (steps : List FunctionStatementsTree) (edges : List Edge) (test : ℕ → Bool)
            → IsContextOf context.entry m steps → IsEndTest to.entry m test
            → HasFolded context.entry m steps edges self.old → context.entry.start ≡ FromUnit
            → AreGathered context.entry.vertices m steps (filter (λ e. test e.1) edges) g) }
    {
        self.flush(alloc, context)?;
        gathered_in_slots(alloc, context, to, &self.slots, &mut self.block)
    }

    /// Folds all edges of which another scratch has gathered what they give, from vertices of the same graph. The only
    /// error is out of memory.
    pub fn join_gathered(
        &mut self,
        alloc: Global,
        context: ApplyContext<'_>,
        gathered: &Gathered,
    ) -> Result<(), AllocError>
        ensures { OnOk result ((m : StateValue) (steps : List FunctionStatementsTree) (edges more : List Edge) → HasFolded context.entry m steps edges self.old
            → AreGathered context.entry.vertices m steps more gathered.now → HasFolded context.entry m steps (edges ++ more) self.new) }
    {
        self.slots.join_gathered(alloc, context, &gathered.vectors)?;
        Ok(())
    }
}

/// What the slots have for their vectors.
fn gathered_in_slots(
    alloc: Global,
    context: ApplyContext<'_>,
    to: Option<EndpointFilter<'_>>,
    slots: &VectorAccumulators,
    block: &mut Block,
) -> Result<Gathered, AllocError>
    ensures ascending { IfOk result (λ g. AllAreNonDescending g.vectors.items) }
    ensures reduction { IfOk result (λ g. (x : ℕ) (r : Reduction) → reduction_in (active slots.now) x r ≡ r → IsGatheredBy r x g.vectors.items) }
    ensures numbers { IfOk result (λ g. (m : StateValue) (test : ℕ → Bool) → context.entry.vectors.now.vectors ≡ m.vectors
        → HasSizes context.entry.sizes.now m → IsEndTest to.entry m test
        → (x v : ℕ) (r : Reduction) (h : ℤ) → v < context.entry.vertices → reduced_at r v h (gathered_for x g.vectors.items)
        ≡ (if test v then held_in_with (combined_with_seed FromUnit r) (active slots.now) x v h else h)) }
{
    let mut vectors = Vec::new(alloc);
    'slots: for position in 0..slots.used {
        let slot = &slots.slots[position];
        if find(&slots.slots[..position], slot.vector) < position {
            continue;
        }
        let numbers = numbers_in_slot(alloc, context, to, slot, block)?;
        vectors.push(GatheredIn {
            vector: slot.vector,
            reduction: slot.reduction,
            numbers,
        })?;
    }
    Ok(Gathered { vectors })
}

/// What a slot has for its vector.
fn numbers_in_slot(
    alloc: Global,
    context: ApplyContext<'_>,
    to: Option<EndpointFilter<'_>>,
    slot: &VectorAccumulator,
    block: &mut Block,
) -> Result<Vec<EntryChange>, AllocError>
    ensures ascending { IfOk result (λ cs. IsNonDescending cs.items) }
    ensures given { IfOk result (λ cs. (m : StateValue) (test : ℕ → Bool) → context.entry.vectors.now.vectors ≡ m.vectors
        → HasSizes context.entry.sizes.now m → IsEndTest to.entry m test
        → (r : Reduction) (v : ℕ) (h : ℤ) → v < context.entry.vertices
        → reduced_at r v h (given_numbers cs.items) ≡ (if test v then held_with (combined_with_seed FromUnit r) slot.now.entries v h else h)) }
{
    let marked = slot.entries.marked(alloc)?;
    match to {
        None => slot.entries.numbers(alloc, &marked, context.vertices),
        Some(end) => {
            let mut kept = Vec::new(alloc);
            keep_passing(context, end, &marked, block, &mut kept)?;
            slot.entries.numbers(alloc, &kept, context.vertices)
        }
    }
}

impl Accumulator {
    /// What these vertices of the graph were given, which do not fall, each named once; `new` is any account of a
    /// number that is combined with that at these vertices, and stays at all others of the graph. The only error is out
    /// of memory.
    fn numbers(
        &self,
        alloc: Global,
        kept: &[u32],
        vertices: u32,
    ) -> Result<Vec<EntryChange>, AllocError>
        ensures ascending { IfOk result (λ cs. IsNonDescending cs.items) }
        ensures given { IsNonDecreasing kept.now → (r : Reduction) (h : ℤ) (new : ℕ → ℤ)
            → ((v : ℕ) → Contains kept.now v → new v ≡ held_with (combined_with_seed FromUnit r) self.now v h)
            → ((v : ℕ) → v < vertices → ¬ Contains kept.now v → new v ≡ h)
            → IfOk result (λ cs. (v : ℕ) → v < vertices → reduced_at r v h (given_numbers cs.items) ≡ new v) }
    {
        let mut numbers = Vec::with_capacity(alloc, kept.len())?;
        let mut next = 0u32;
        'kept: for vertex in kept {
            if *vertex < next || vertices <= *vertex {
                continue;
            }
            self.push_number(*vertex, &mut numbers)?;
            next = *vertex + 1;
        }
        Ok(numbers)
    }

    /// Adds what a vertex was given, if it was.
    fn push_number(&self, vertex: u32, numbers: &mut Vec<EntryChange>) -> Result<(), AllocError>
        ensures { OnOk result (numbers.new.items ≡ numbers.old.items ++ number_at self.now vertex) }
    {
        if self.marks.contains(vertex) {
            let number = self.values[vertex as usize];
            numbers.push(EntryChange::new(vertex, number))?;
        }
        Ok(())
    }
}
