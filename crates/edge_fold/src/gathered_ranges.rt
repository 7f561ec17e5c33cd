//! Gathered contributions to a range of vertices.
ghost use Rattle.std.specs.Prelude.{◌≡◌, ℕ, ℤ, ◌<◌, ◌≤◌, if◌then◌else◌, List, length, IfOk};
ghost use Rattle.std.specs.List.{filter};
ghost use Rattle.std.specs.List.Sorted.{IsPartitionPoint};
ghost use Rattle.weighted_edges.specs.Edge.{Edge};
ghost use Rattle.apply_options.specs.declared.reduction.Reduction.{Reduction};
ghost use Rattle.typed_tree.specs.FunctionStatementTree.{FunctionStatementsTree};
ghost use Rattle.algorithm_meaning.specs.State.{StateValue};
ghost use Rattle.edge_fold.specs.Gathered.{AllAreNonDescending, AreGathered, IsNonDescending, is_in_range, given_numbers};
ghost use Rattle.edge_fold.specs.Contributions.{reduced_at};

use crate::gathered::{Gathered, GatheredIn};
use std::alloc::{AllocError, Global};
use vectors::EntryChange;

impl Gathered {
    /// What the edges give to the vertices from `low` on up to `high`, if the numbers are by ascending vertices. It
    /// takes time in proportion to what it gives, and to the logarithm of all. The only error is out of memory.
    pub fn between(&self, alloc: Global, low: u32, high: u32) -> Result<Gathered, AllocError>
        ensures { IfOk result (λ g. (vertices : ℕ) (m : StateValue) (steps : List FunctionStatementsTree) (edges : List Edge) → AllAreNonDescending self.now.vectors.items
            → AreGathered vertices m steps edges self.now
            → AreGathered vertices m steps (filter (λ e. is_in_range low high e.1) edges) g) }
    {
        let mut vectors = Vec::with_capacity(alloc, self.vectors.len())?;
        'vectors: for of_vector in &self.vectors {
            vectors.push(of_vector.between(alloc, low, high)?)?;
        }
        Ok(Gathered { vectors })
    }
}

impl GatheredIn {
    /// What the edges give to the vertices from `low` on up to `high` in one vector.
    fn between(&self, alloc: Global, low: u32, high: u32) -> Result<GatheredIn, AllocError>
        ensures vector { IfOk result (λ g. g.vector ≡ self.now.vector) }
        ensures reduction { IfOk result (λ g. g.reduction ≡ self.now.reduction) }
        ensures numbers { IfOk result (λ g. IsNonDescending self.now.numbers.items → (r : Reduction) (v : ℕ) (h : ℤ)
            → reduced_at r v h (given_numbers g.numbers.items) ≡ (if is_in_range low high v then reduced_at r v h (given_numbers self.now.numbers.items) else h)) }
    {
        let numbers = Vec::from_slice(alloc, numbers_between(&self.numbers, low, high))?;
        Ok(GatheredIn {
            vector: self.vector,
            reduction: self.reduction,
            numbers,
        })
    }
}

/// The numbers of the vertices from one on up to another.
fn numbers_between(numbers: &[EntryChange], low: u32, high: u32) -> &[EntryChange]
    ensures { IsNonDescending numbers.now → (r : Reduction) (v : ℕ) (h : ℤ)
        → reduced_at r v h (given_numbers result.now) ≡ (if is_in_range low high v then reduced_at r v h (given_numbers numbers.now) else h) }
{
    let start = count_below(numbers, low);
    let rest = &numbers[start..];
    let end = count_below(rest, high);
    &rest[..end]
}

/// How many numbers are of vertices below this one.
fn count_below(numbers: &[EntryChange], vertex: u32) -> usize
    ensures inside { result ≤ length numbers.now }
    ensures split { IsNonDescending numbers.now → IsPartitionPoint (λ c. c.vertex < vertex) (λ c. vertex ≤ c.vertex) numbers.now result }
{
    let mut low = 0usize;
    let mut high = numbers.len();
    'halves: while low < high {
        let middle = low + (high - low) / 2;
        if numbers[middle].vertex() < vertex {
            low = middle + 1;
        } else {
            high = middle;
        }
    }
    low
}
