//! The vectors that an apply writes, found by their indices.
ghost use Rattle.std.specs.Prelude.{◌≡◌, ℕ, ℤ, ◌==◌, if◌then◌else◌, ◌<◌, ◌≤◌, [], length, vec_len, IfOk, OnOk};
ghost use Rattle.edge_fold.specs.Gathered.{IsGatheredBy, gathered_for, given_numbers};
ghost use Rattle.algorithm_meaning.specs.Arithmetic.{arithmetic};
ghost use Rattle.algorithm_meaning.specs.Value.{entry};
ghost use Rattle.edge_fold.specs.inside.EntryNumbers.{each_weighed};
ghost use Rattle.edge_fold.specs.Between.{firsts};
ghost use Rattle.edge_fold.specs.Contributions.{IsBy};
ghost use Rattle.edge_fold.specs.inside.Contributions.{each_given, given_from};
ghost use Rattle.edge_fold.specs.Held.{held_with};
ghost use Rattle.edge_fold.specs.inside.VectorAccumulators.{HaveJoined, index_in};
ghost use Rattle.edge_fold.specs.VectorAccumulators.{active, held_in_with, reduction_in};
ghost use Rattle.kernels.specs.declared.columns.TheConstants.{PAIRS};
ghost use Rattle.kernels.specs.ContributionColumns.{contribution_at};
ghost use Rattle.kernels.specs.Kernels.{HasRegisters, given_at};
ghost use Rattle.apply_options.specs.declared.reduction.Reduction.{Reduction};

use crate::accumulator::Accumulator;
use crate::apply_context::{ApplyContext, EntryContribution, SourceContribution};
use crate::entry_numbers::NumberWith;
use crate::gathered::GatheredIn;
use crate::joins::gives_some;
use crate::neighbour_entries::NeighbourEntries;
use crate::vector_accumulator::{VectorAccumulator, VectorAccumulators};
use apply_options::Reduction;
use kernels::{Block, ContributionColumn, EdgeKernel};
use std::alloc::{AllocError, Global};

impl VectorAccumulators {
    /// No vector.
    pub(crate) fn new(alloc: Global) -> VectorAccumulators
        ensures { result.used ≡ 0 }
    {
        VectorAccumulators {
            slots: Vec::new(alloc),
            used: 0,
        }
    }

    /// The index of a vector's slot. One that is new has this reduction, and no entry yet. The only error is out of
    /// memory, after which the entries are as they were.
    pub(crate) fn position(
        &mut self,
        alloc: Global,
        vector: usize,
        reduction: Reduction,
        vertices: u32,
    ) -> Result<usize, AllocError>
        ensures position { IfOk result (λ p. (p ≡ index_in vector (active self.new)) × (p < self.new.used)) }
        ensures held { (combine : ℤ → ℤ → ℤ) (x v : ℕ) (h : ℤ) → held_in_with combine (active self.new) x v h ≡ held_in_with combine (active self.old) x v h }
        ensures reduction { (x : ℕ) (r : Reduction) → (vector ≡ x → reduction ≡ r) → reduction_in (active self.old) x r ≡ r
            → reduction_in (active self.new) x r ≡ r }
    {
        let position = find(&self.slots[..self.used], vector);
        if position < self.used {
            return Ok(position);
        }
        self.add(alloc, vector, reduction, vertices)
    }

    /// Takes one more slot into use.
    fn add(
        &mut self,
        alloc: Global,
        vector: usize,
        reduction: Reduction,
        vertices: u32,
    ) -> Result<usize, AllocError>
        requires { self.old.used ≤ index_in vector (active self.old) }
        ensures index { IfOk result (λ p. (p ≡ index_in vector (active self.new)) × (p < self.new.used)) }
        ensures held { (combine : ℤ → ℤ → ℤ) (x v : ℕ) (h : ℤ) → held_in_with combine (active self.new) x v h ≡ held_in_with combine (active self.old) x v h }
        ensures reduction { (x : ℕ) (r : Reduction) → (vector ≡ x → reduction ≡ r) → reduction_in (active self.old) x r ≡ r
            → reduction_in (active self.new) x r ≡ r }
    {
        if self.used < self.slots.len() {
            return self.add_old(vector, reduction, vertices);
        }
        self.add_new(alloc, vector, reduction, vertices)
    }

    /// One that was not in use.
    fn add_old(
        &mut self,
        vector: usize,
        reduction: Reduction,
        vertices: u32,
    ) -> Result<usize, AllocError>
        requires inside { self.old.used < vec_len self.old.slots }
        requires none { self.old.used ≤ index_in vector (active self.old) }
        ensures position { IfOk result (λ p. (p ≡ index_in vector (active self.new)) × (p < self.new.used)) }
        ensures held { (combine : ℤ → ℤ → ℤ) (x v : ℕ) (h : ℤ) → held_in_with combine (active self.new) x v h ≡ held_in_with combine (active self.old) x v h }
        ensures reduction { (x : ℕ) (r : Reduction) → (vector ≡ x → reduction ≡ r) → reduction_in (active self.old) x r ≡ r
            → reduction_in (active self.new) x r ≡ r }
    {
        let position = self.used;
        self.slots[position].begin(vector, reduction, vertices)?;
        self.used = position + 1;
        Ok(position)
    }

    /// One more than there are.
    fn add_new(
        &mut self,
        alloc: Global,
        vector: usize,
        reduction: Reduction,
        vertices: u32,
    ) -> Result<usize, AllocError>
        requires all { self.old.used ≡ vec_len self.old.slots }
        requires none { self.old.used ≤ index_in vector (active self.old) }
        ensures index { IfOk result (λ p. (p ≡ index_in vector (active self.new)) × (p < self.new.used)) }
        ensures held { (combine : ℤ → ℤ → ℤ) (x v : ℕ) (h : ℤ) → held_in_with combine (active self.new) x v h ≡ held_in_with combine (active self.old) x v h }
        ensures reduction { (x : ℕ) (r : Reduction) → (vector ≡ x → reduction ≡ r) → reduction_in (active self.old) x r ≡ r
            → reduction_in (active self.new) x r ≡ r }
    {
        let mut entries = Accumulator::new(alloc);
        entries.begin(vertices)?;
        self.slots.push(VectorAccumulator {
            vector,
            reduction,
            entries,
        })?;
        let index = self.used;
        self.used = index + 1;
        Ok(index)
    }

    /// Reduces the entries at the destinations of pairs with a column of what is given to them. A column that gives
    /// nothing changes nothing. The only error is out of memory, after which a part was done.
    fn join_contribution(
        &mut self,
        alloc: Global,
        context: ApplyContext<'_>,
        contribution: ContributionColumn<'_>,
        destinations: &[u32],
    ) -> Result<(), AllocError>
        requires { length destinations.now ≤ length contribution.numbers.now }
        ensures { OnOk result ((x : ℕ) (r : Reduction) → ((i : ℕ) → i < length destinations.now → IsBy r x (contribution_at contribution.entry i))
            → HaveJoined context.entry x r self.old self.new (given_from x (contribution_at contribution.entry) 0 destinations.now)) }
    {
        if !gives_some(contribution, destinations.len()) {
            return Ok(());
        }
        let position = self.position(
            alloc,
            contribution.vector,
            contribution.reduction,
            context.vertices,
        )?;
        let seeds = context.seeds(contribution.vector);
        self.slots[position]
            .entries
            .join_column(seeds, contribution, destinations)?;
        Ok(())
    }

    /// Reduces the entries of a vector at destinations with one number. The only error is out of memory, after which
    /// a part was done.
    #[inline(always)]
    pub(crate) fn join_number<E: NeighbourEntries>(
        &mut self,
        alloc: Global,
        context: ApplyContext<'_>,
        contribution: SourceContribution,
        destinations: &E,
    ) -> Result<(), AllocError>
        ensures { OnOk result ((x : ℕ) (r : Reduction) → (contribution.vector ≡ x → contribution.reduction ≡ r)
            → HaveJoined context.entry x r self.old self.new (if contribution.vector == x then each_given contribution.number (firsts (E.entries destinations.now)) else [])) }
    {
        let position = self.position(
            alloc,
            contribution.vector,
            contribution.reduction,
            context.vertices,
        )?;
        let seeds = context.seeds(contribution.vector);
        let entries = &mut self.slots[position].entries;
        entries.join_number(
            contribution.reduction,
            seeds,
            contribution.number,
            destinations,
        )?;
        Ok(())
    }

    /// Reduces the entries of a vector at destinations with what a source gives them by the weights of its edges. The only
    /// error is out of memory, after which a part was done.
    #[inline(always)]
    pub(crate) fn join_weights<E: NeighbourEntries>(
        &mut self,
        alloc: Global,
        context: ApplyContext<'_>,
        given: EntryContribution,
        source: u32,
        destinations: &E,
    ) -> Result<(), AllocError>
        ensures { OnOk result ((x : ℕ) (r : Reduction) → (given.vector ≡ x → given.reduction ≡ r)
            → HaveJoined context.entry x r self.old self.new
            (if given.vector == x then each_weighed (arithmetic given.operator (entry context.entry.vectors.now.vectors given.from source))
            (E.entries destinations.now) else [])) }
    {
        let position = self.position(alloc, given.vector, given.reduction, context.vertices)?;
        let seeds = context.seeds(given.vector);
        let numbers = NumberWith {
            number: context.vectors.lane(given.from).get(source as usize),
            operator: given.operator,
        };
        let entries = &mut self.slots[position].entries;
        entries.join_weights(given.reduction, seeds, numbers, destinations)?;
        Ok(())
    }

    /// Reduces the entries of vectors with what was gathered for them. The only error is out of memory, after which a
    /// part was done.
    pub(crate) fn join_gathered(
        &mut self,
        alloc: Global,
        context: ApplyContext<'_>,
        gathered: &[GatheredIn],
    ) -> Result<(), AllocError>
        ensures { OnOk result ((x : ℕ) (r : Reduction) → IsGatheredBy r x gathered.now
            → HaveJoined context.entry x r self.old self.new (gathered_for x gathered.now)) }
    {
        'vectors: for of_vector in gathered {
            self.join_numbers(alloc, context, of_vector)?;
        }
        Ok(())
    }

    /// Reduces the entries of one vector with what was gathered for it.
    fn join_numbers(
        &mut self,
        alloc: Global,
        context: ApplyContext<'_>,
        of_vector: &GatheredIn,
    ) -> Result<(), AllocError>
        ensures { OnOk result ((x : ℕ) (r : Reduction) → (of_vector.now.vector ≡ x → of_vector.now.reduction ≡ r)
            → HaveJoined context.entry x r self.old self.new (if of_vector.now.vector == x then given_numbers of_vector.now.numbers.items else [])) }
    {
        let vector = of_vector.vector;
        let reduction = of_vector.reduction;
        let position = self.position(alloc, vector, reduction, context.vertices)?;
        let seeds = context.seeds(vector);
        let entries = &mut self.slots[position].entries;
        entries.join_changes(reduction, seeds, &of_vector.numbers)?;
        Ok(())
    }

    /// Reduces the entries at the destinations of a block's pairs with what a kernel that ran on it gave them. The
    /// only error is out of memory, after which a part was done.
    pub(crate) fn join_block(
        &mut self,
        alloc: Global,
        context: ApplyContext<'_>,
        kernel: &EdgeKernel,
        block: &Block,
        destinations: &[u32],
    ) -> Result<(), AllocError>
        requires few { length destinations.now ≤ PAIRS }
        requires registers { HasRegisters block.now kernel.now.room }
        ensures { OnOk result ((x : ℕ) (r : Reduction) → ((i : ℕ) → i < length destinations.now → IsBy r x (given_at kernel.now block.now i))
            → HaveJoined context.entry x r self.old self.new (given_from x (given_at kernel.now block.now) 0 destinations.now)) }
    {
        'contributions: for index in 0..kernel.contributions() {
            self.join_contribution(
                alloc,
                context,
                kernel.contribution(index, block),
                destinations,
            )?;
        }
        Ok(())
    }
}

impl VectorAccumulator {
    /// Becomes that of a vector, without an entry. The only error is out of memory, after which it is that of any.
    fn begin(
        &mut self,
        vector: usize,
        reduction: Reduction,
        vertices: u32,
    ) -> Result<(), AllocError>
        ensures vector { OnOk result (self.new.vector ≡ vector) }
        ensures reduction { OnOk result (self.new.reduction ≡ reduction) }
        ensures clean { OnOk result ((combine : ℤ → ℤ → ℤ) (v : ℕ) (h : ℤ) → held_with combine self.new.entries v h ≡ h) }
    {
        self.vector = vector;
        self.reduction = reduction;
        self.entries.begin(vertices)
    }
}

/// The index of the first slot of a vector, or how many there are.
pub(crate) fn find(slots: &[VectorAccumulator], vector: usize) -> usize
    ensures { result ≡ index_in vector slots.now }
{
    let mut position = 0;
    'slots: for slot in slots {
        if slot.vector == vector {
            return position;
        }
        position += 1;
    }
    position
}
