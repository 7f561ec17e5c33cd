//! Joins: contributions reduced into the entries of an accumulator.
ghost use Rattle.std.specs.Prelude.{◌≡◌, ℕ, ℤ, pos, ◌^◌, ◌∷◌, [], ◌<◌, ◌≤◌, true, false, Contains, drop, length, slice_index_or, vec_len, IfOk, OnOk};
ghost use Rattle.std.specs.List.Sorted.{IsNonDecreasing};
ghost use Rattle.edge_fold.specs.Gathered.{given_numbers};
ghost use Rattle.edge_fold.specs.inside.EntryNumbers.{each_weighed, number_with};
ghost use Rattle.edge_fold.specs.Between.{firsts};
ghost use Rattle.edge_fold.specs.inside.Contributions.{each_given, given_from};
ghost use Rattle.edge_fold.specs.Contributions.{numbers_for_vector, reduced_at};
ghost use Rattle.edge_fold.specs.FoldStarts.{combined_with_seed};
ghost use Rattle.edge_fold.specs.inside.FoldStarts.{initial_seed, start_of};
ghost use Rattle.edge_fold.specs.declared.initial_entries.InitialEntries.{InitialEntries};
ghost use Rattle.edge_fold.specs.inside.Held.{AreJoined, AreMarked, held, room};
ghost use Rattle.edge_fold.specs.Held.{held_with};
ghost use Rattle.vertex_marks.specs.Marks.{is_marked};
ghost use Rattle.kernels.specs.ContributionColumns.{contribution_at, truth_at};

use crate::accumulator::Accumulator;
use crate::entry_numbers::NumberWith;
use crate::initial_entries::InitialEntries;
use crate::neighbour_entries::NeighbourEntries;
use algorithm_meaning::reduce;
use apply_options::Reduction;
use kernels::ContributionColumn;
use std::alloc::{AllocError, Global};
use typed_tree::Operator;
use vectors::EntryChange;
use vertex_marks::VertexMarks;

impl Accumulator {
    /// No new entry, and room for no vertex.
    pub(crate) fn new(alloc: Global) -> Accumulator
        ensures { (combine : ℤ → ℤ → ℤ) (v : ℕ) (h : ℤ) → held_with combine result v h ≡ h }
    {
        Accumulator {
            values: Vec::new(alloc),
            marks: VertexMarks::new(alloc),
            filled: 0,
        }
    }

    /// Forgets all entries, and makes room for n vertices. Where the room is there it takes time in proportion to
    /// the entries that it had, and to one word for each 4,096 vertices. The only error is out of memory, after which it
    /// has no entry too.
    pub(crate) fn begin(&mut self, vertices: u32) -> Result<(), AllocError>
        ensures { (combine : ℤ → ℤ → ℤ) (v : ℕ) (h : ℤ) → held_with combine self.new v h ≡ h }
    {
        self.filled = 0;
        self.marks.clear();
        self.make_room(vertices as usize)
    }

    /// Makes room for n vertices, where it is not there. The entries stay, after an error too.
    fn make_room(&mut self, vertices: usize) -> Result<(), AllocError>
        requires { vertices ≤ 2 ^ 32 }
        ensures held { (combine : ℤ → ℤ → ℤ) (v : ℕ) (h : ℤ) → held_with combine self.new v h ≡ held_with combine self.old v h }
        ensures room { OnOk result (vertices ≤ room self.new) }
    {
        lengthen(&mut self.values, (vertices + 63) / 64 * 64)?;
        self.marks.make_room(vertices)?;
        Ok(())
    }

    /// Reduces the entries at the destinations of pairs with a column of what is given to them. Where there is no
    /// entry yet, one begins. The only error is out of memory, after which a part was done.
    pub(crate) fn join_column(
        &mut self,
        seeds: InitialEntries<'_>,
        contribution: ContributionColumn<'_>,
        destinations: &[u32],
    ) -> Result<(), AllocError>
        requires { length destinations.now ≤ length contribution.numbers.now }
        ensures { OnOk result (AreJoined seeds.entry contribution.entry.reduction self.old self.new
            (given_from contribution.entry.vector (contribution_at contribution.entry) 0 destinations.now)) }
    {
        match contribution.reduction {
            Reduction::Min => self.join_all(Reduction::Min, seeds, contribution, destinations),
            Reduction::Max => self.join_all(Reduction::Max, seeds, contribution, destinations),
            Reduction::Plus => self.join_all(Reduction::Plus, seeds, contribution, destinations),
        }
    }

    #[inline(always)]
    fn join_all(
        &mut self,
        reduction: Reduction,
        seeds: InitialEntries<'_>,
        contribution: ContributionColumn<'_>,
        destinations: &[u32],
    ) -> Result<(), AllocError>
        requires { length destinations.now ≤ length contribution.numbers.now }
        ensures { OnOk result (AreJoined seeds.entry reduction self.old self.new
            (given_from contribution.entry.vector (contribution_at contribution.entry) 0 destinations.now)) }
    {
        'pairs: for (k, vertex) in destinations.iter().enumerate() {
            self.join_pair(reduction, seeds, contribution, k, *vertex)?;
        }
        Ok(())
    }

    /// Reduces the entry at the destination of a pair with what a column gives it, if it does.
    #[inline(always)]
    fn join_pair(
        &mut self,
        reduction: Reduction,
        seeds: InitialEntries<'_>,
        contribution: ContributionColumn<'_>,
        index: usize,
        vertex: u32,
    ) -> Result<(), AllocError>
        requires { index < length contribution.numbers.now }
        ensures { OnOk result (AreJoined seeds.entry reduction self.old self.new
            (numbers_for_vector contribution.entry.vector vertex (contribution_at contribution.entry index))) }
    {
        if is_given(contribution, index) {
            self.join(reduction, seeds, vertex, contribution.numbers[index])?;
        }
        Ok(())
    }

    /// Reduces the entries at destinations with one number, each time that one comes. The only error is out of memory,
    /// after which a part was done.
    #[inline(always)]
    pub(crate) fn join_number<E: NeighbourEntries>(
        &mut self,
        reduction: Reduction,
        seeds: InitialEntries<'_>,
        number: i64,
        destinations: &E,
    ) -> Result<(), AllocError>
        ensures { OnOk result (AreJoined seeds.entry reduction self.old self.new (each_given number (firsts (E.entries destinations.now)))) }
    {
        match reduction {
            Reduction::Min => self.join_each(Reduction::Min, seeds, number, destinations),
            Reduction::Max => self.join_each(Reduction::Max, seeds, number, destinations),
            Reduction::Plus => self.join_each(Reduction::Plus, seeds, number, destinations),
        }
    }

    #[inline(always)]
    fn join_each<E: NeighbourEntries>(
        &mut self,
        reduction: Reduction,
        seeds: InitialEntries<'_>,
        number: i64,
        destinations: &E,
    ) -> Result<(), AllocError>
        ensures { OnOk result (AreJoined seeds.entry reduction self.old self.new (each_given number (firsts (E.entries destinations.now)))) }
    {
        let joined = self.join_filled(reduction, number, destinations);
        'each: for index in joined..destinations.len() {
            self.join(reduction, seeds, destinations.neighbour(index), number)?;
        }
        Ok(())
    }

    /// Reduces the entries at the first destinations with one number, as long as they are filled, and gives their number.
    #[inline(always)]
    fn join_filled<E: NeighbourEntries>(
        &mut self,
        reduction: Reduction,
        number: i64,
        destinations: &E,
    ) -> usize
        ensures inside { result ≤ length (E.entries destinations.now) }
        ensures joined { (o : InitialEntries) (v : ℕ) (h : ℤ)
            → reduced_at reduction v (held_with (combined_with_seed (start_of o) reduction) self.new v (initial_seed o v h)) (each_given number (drop result (firsts (E.entries destinations.now))))
            ≡ reduced_at reduction v (held_with (combined_with_seed (start_of o) reduction) self.old v (initial_seed o v h)) (each_given number (firsts (E.entries destinations.now))) }
    {
        let filled = self.filled;
        reduce_filled(
            reduction,
            number,
            filled,
            self.values.as_mut_slice(),
            destinations,
        )
    }

    /// Reduces the entries at destinations with the numbers of the weights of their edges. The only error is out of memory,
    /// after which a part was done.
    #[inline(always)]
    pub(crate) fn join_weights<E: NeighbourEntries>(
        &mut self,
        reduction: Reduction,
        seeds: InitialEntries<'_>,
        numbers: NumberWith,
        destinations: &E,
    ) -> Result<(), AllocError>
        ensures { OnOk result (AreJoined seeds.entry reduction self.old self.new
            (each_weighed (number_with numbers) (E.entries destinations.now))) }
    {
        match reduction {
            Reduction::Min => { self.join_weights_by(Reduction::Min, seeds, numbers, destinations) }
            Reduction::Max => { self.join_weights_by(Reduction::Max, seeds, numbers, destinations) }
            Reduction::Plus => {
                self.join_weights_by(Reduction::Plus, seeds, numbers, destinations)
            }
        }
    }

    /// A loop for each operator, so that none asks which it is.
    #[inline(always)]
    fn join_weights_by<E: NeighbourEntries>(
        &mut self,
        reduction: Reduction,
        seeds: InitialEntries<'_>,
        numbers: NumberWith,
        destinations: &E,
    ) -> Result<(), AllocError>
        ensures { OnOk result (AreJoined seeds.entry reduction self.old self.new
            (each_weighed (number_with numbers) (E.entries destinations.now))) }
    {
        let number = numbers.number;
        match numbers.operator {
            Operator::Add => {
                let operator = Operator::Add;
                let sums = NumberWith { number, operator };
                self.join_each_weight(reduction, seeds, sums, destinations)
            }
            Operator::Subtract => {
                let operator = Operator::Subtract;
                let differences = NumberWith { number, operator };
                self.join_each_weight(reduction, seeds, differences, destinations)
            }
            Operator::Multiply => {
                let operator = Operator::Multiply;
                let products = NumberWith { number, operator };
                self.join_each_weight(reduction, seeds, products, destinations)
            }
            Operator::Divide => {
                let operator = Operator::Divide;
                let quotients = NumberWith { number, operator };
                self.join_each_weight(reduction, seeds, quotients, destinations)
            }
            Operator::Remainder => {
                let operator = Operator::Remainder;
                let remainders = NumberWith { number, operator };
                self.join_each_weight(reduction, seeds, remainders, destinations)
            }
        }
    }

    #[inline(always)]
    fn join_each_weight<E: NeighbourEntries>(
        &mut self,
        reduction: Reduction,
        seeds: InitialEntries<'_>,
        numbers: NumberWith,
        destinations: &E,
    ) -> Result<(), AllocError>
        ensures { OnOk result (AreJoined seeds.entry reduction self.old self.new
            (each_weighed (number_with numbers) (E.entries destinations.now))) }
    {
        'edges: for index in 0..destinations.len() {
            let number = numbers.of(destinations.weight(index));
            self.join(reduction, seeds, destinations.neighbour(index), number)?;
        }
        Ok(())
    }

    /// Reduces the entries at vertices with a number each. The only error is out of memory, after which a part was done.
    pub(crate) fn join_changes(
        &mut self,
        reduction: Reduction,
        seeds: InitialEntries<'_>,
        numbers: &[EntryChange],
    ) -> Result<(), AllocError>
        ensures { OnOk result (AreJoined seeds.entry reduction self.old self.new (given_numbers numbers.now)) }
    {
        'numbers: for change in numbers {
            self.join(reduction, seeds, change.vertex(), change.number())?;
        }
        Ok(())
    }

    /// Reduces the entry at a vertex with a number.
    #[inline(always)]
    fn join(
        &mut self,
        reduction: Reduction,
        seeds: InitialEntries<'_>,
        vertex: u32,
        number: i64,
    ) -> Result<(), AllocError>
        ensures { OnOk result (AreJoined seeds.entry reduction self.old self.new ((vertex, number) ∷ [])) }
    {
        if vertex as usize >= self.marks.room() {
            return self.join_beyond(reduction, seeds, vertex, number);
        }
        self.join_inside(reduction, seeds, vertex, number);
        Ok(())
    }

    /// Reduces the entry at a vertex with a number, if there is no room for the vertex yet.
    #[cold]
    #[inline(never)]
    fn join_beyond(
        &mut self,
        reduction: Reduction,
        seeds: InitialEntries<'_>,
        vertex: u32,
        number: i64,
    ) -> Result<(), AllocError>
        ensures { OnOk result (AreJoined seeds.entry reduction self.old self.new ((vertex, number) ∷ [])) }
    {
        self.make_room(vertex as usize + 1)?;
        self.join_inside(reduction, seeds, vertex, number);
        Ok(())
    }

    /// Reduces the entry at a vertex with a number, if there is room for the vertex.
    #[inline(always)]
    fn join_inside(
        &mut self,
        reduction: Reduction,
        seeds: InitialEntries<'_>,
        vertex: u32,
        number: i64,
    )
        requires { vertex < room self.old }
        ensures { AreJoined seeds.entry reduction self.old self.new ((vertex, number) ∷ []) }
    {
        let index = vertex as usize;
        if self.has_entry(vertex) {
            self.values[index] = reduce(reduction, self.values[index], number);
            return;
        }
        self.values[index] = seeds.first(reduction, index, number);
        self.marks.insert(vertex);
    }

    /// Whether a vertex has an entry. Of one that is filled the mark is not read.
    #[inline(always)]
    fn has_entry(&self, vertex: u32) -> bool
        ensures { result ≡ is_marked self.now.marks vertex }
    {
        if (vertex as usize) < self.filled {
            return true;
        }
        self.marks.contains(vertex)
    }

    /// The new entry at a vertex that was given something, and some number at another: whether it was is not asked again.
    #[inline(always)]
    pub(crate) fn given(&self, vertex: u32) -> i64
        ensures { is_marked self.now.marks vertex ≡ true → (old : ℤ) → result ≡ held self.now vertex old }
    {
        match self.values.get(vertex as usize) {
            Some(number) => *number,
            None => 0,
        }
    }

    /// The vertices that were given something, ascending. All others have no new entry. It takes time in proportion to
    /// their number, and to one word for each 4,096 vertices. The only error is out of memory.
    pub(crate) fn marked(&self, alloc: Global) -> Result<Vec<u32>, AllocError>
        ensures ascending { IfOk result (λ found. IsNonDecreasing found.items) }
        ensures given { IfOk result (λ found. AreMarked self.now found.items) }
        ensures covers { IfOk result (λ found. (combine : ℤ → ℤ → ℤ) (v : ℕ) (h : ℤ) → ¬ Contains found.items v → held_with combine self.now v h ≡ h) }
    {
        self.marks.members(alloc)
    }
}

/// Reduces the numbers at the first neighbours with one number, as long as they are below a count, and gives their number.
#[inline(always)]
fn reduce_filled<E: NeighbourEntries>(
    reduction: Reduction,
    number: i64,
    filled: usize,
    values: &mut [i64],
    neighbours: &E,
) -> usize
    requires { filled ≤ length values.old }
    ensures inside { result ≤ length (E.entries neighbours.now) }
    ensures reduced { (v : ℕ) → reduced_at reduction v (slice_index_or values.new v (pos 0)) (each_given number (drop result (firsts (E.entries neighbours.now))))
        ≡ reduced_at reduction v (slice_index_or values.old v (pos 0)) (each_given number (firsts (E.entries neighbours.now))) }
    ensures others { (v : ℕ) (h : ℤ) → filled ≤ v → reduced_at reduction v h (each_given number (drop result (firsts (E.entries neighbours.now))))
        ≡ reduced_at reduction v h (each_given number (firsts (E.entries neighbours.now))) }
{
    let count = neighbours.len();
    'vertices: for index in 0..count {
        let at = neighbours.neighbour(index) as usize;
        if at >= filled {
            return index;
        }
        values[at] = reduce(reduction, values[at], number);
    }
    count
}

/// Adds zeros where there are fewer numbers than this.
fn lengthen(numbers: &mut Vec<i64>, count: usize) -> Result<(), AllocError>
    ensures same { (k : ℕ) → slice_index_or numbers.new.items k (pos 0) ≡ slice_index_or numbers.old.items k (pos 0) }
    ensures longer { vec_len numbers.old ≤ vec_len numbers.new }
    ensures enough { OnOk result (count ≤ vec_len numbers.new) }
{
    if numbers.len() < count {
        numbers.resize(count, 0)?;
    }
    Ok(())
}

/// Whether a column gives a pair something.
#[inline(always)]
fn is_given(contribution: ContributionColumn<'_>, index: usize) -> bool
    ensures { result ≡ truth_at contribution.entry.predicate index }
{
    match contribution.predicate {
        None => true,
        Some(predicate) => match predicate.get(index) {
            Some(n) => *n != 0,
            None => false,
        },
    }
}

/// Whether a column gives one of the first pairs something.
pub(crate) fn gives_some(contribution: ContributionColumn<'_>, count: usize) -> bool
    ensures some { result ≡ true → (i : ℕ) × (i < count) × (truth_at contribution.entry.predicate i ≡ true) }
    ensures none { result ≡ false → (i : ℕ) → i < count → truth_at contribution.entry.predicate i ≡ false }
{
    'pairs: for pair in 0..count {
        if is_given(contribution, pair) {
            return true;
        }
    }
    false
}
