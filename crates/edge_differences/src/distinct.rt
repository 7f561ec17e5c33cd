//! Ends of edges, sorted, each once.
ghost use Rattle.std.specs.Prelude.{◌≡◌, ◌<◌, ◌≤◌, ◌/◌, ◌%◌, ◌^◌, ℕ, length, nat_le, slice_index, IfOk};
ghost use Rattle.std.specs.List.{list_any};
ghost use Rattle.std.specs.List.Sorted.{IsNonDecreasing};
ghost use Rattle.tree_batch.specs.Edge.{index};
ghost use Rattle.edge_differences.specs.Listed.{AreAscending, is_listed};
ghost use Rattle.edge_differences.specs.inside.Indices.{after_last, is_index_of};

use std::alloc::{AllocError, Global};

/// How many destinations the indices of one source have room for.
const DESTINATIONS: u64 = 4294967296;

/// The ends of a list, source and destination, ascending by source and then by destination, each once. The only error is
/// out of memory.
pub fn sorted_ends(alloc: Global, ends: &[(u32, u32)]) -> Result<Vec<(u32, u32)>, AllocError>
    ensures ascending { IfOk result (λ sorted. AreAscending sorted.items) }
    ensures listed { IfOk result (λ sorted. (u v : ℕ) → is_listed sorted.items u v ≡ is_listed ends.now u v) }
{
    let mut indices = Vec::new(alloc);
    'ends: for pair in ends {
        indices.push(index_of(pair.0, pair.1))?;
    }
    indices.sort_unstable();
    distinct(alloc, &indices)
}

/// The index of ends in their order.
fn index_of(source: u32, destination: u32) -> u64
    ensures index { result ≡ index (source, destination) }
    ensures source { result / 2 ^ 32 ≡ source }
    ensures destination { result % 2 ^ 32 ≡ destination }
{
    u64::from(source) * DESTINATIONS + u64::from(destination)
}

/// The ends at an index.
fn ends_at(index: u64) -> (u32, u32)
    ensures source { result.0 ≡ index / 2 ^ 32 }
    ensures destination { result.1 ≡ index % 2 ^ 32 }
{
    ((index / DESTINATIONS) as u32, (index % DESTINATIONS) as u32)
}

/// The ends at indices that do not fall, each once.
fn distinct(alloc: Global, indices: &[u64]) -> Result<Vec<(u32, u32)>, AllocError>
    requires { IsNonDecreasing indices.now }
    ensures ascending { IfOk result (λ sorted. AreAscending sorted.items) }
    ensures listed { IfOk result (λ sorted. (u v : ℕ) → is_listed sorted.items u v ≡ list_any (is_index_of u v) indices.now) }
{
    let mut sorted = Vec::new(alloc);
    'positions: for position in 0..indices.len() {
        let index = indices[position];
        if is_first(indices, position) {
            sorted.push(ends_at(index))?;
        }
    }
    Ok(sorted)
}

/// Whether the index at a position is above the one in front of it.
fn is_first(indices: &[u64], position: usize) -> bool
    requires { position < length indices.now }
    ensures { result ≡ nat_le (after_last indices.now position) (slice_index indices.now position) }
{
    position == 0 || indices[position - 1] < indices[position]
}
