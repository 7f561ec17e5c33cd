//! Changes of a vector of which every vertex has a new entry, found by words.
ghost use Rattle.std.specs.Prelude.{◌≡◌, ℕ, pos, not, ◌+◌, ◌^◌, ◌<◌, ◌≤◌, ◌==◌, ◌++◌, length, slice_index_or, IfOk, OnOk};
ghost use Rattle.std.specs.Int.{bit_at};
ghost use Rattle.algorithm_meaning.specs.Arithmetic.{int_equal};
ghost use Rattle.vertex_sets.specs.inside.Words.{bit_members};
ghost use Rattle.vectors.specs.Lanes.{lane_entry};
ghost use Rattle.edge_fold.specs.Changed.{changed, changed_from};
ghost use Rattle.edge_fold.specs.inside.Changed.{entries_at};

use crate::changes::push_change;
use algorithm_meaning::compare;
use std::alloc::{AllocError, Global};
use typed_tree::ComparisonOperator;
use vectors::{EntryChange, Lane};

/// The changes of a vector at n vertices, whose new entries are these, by blocks of 64. The only error is out of memory.
pub(crate) fn whole_changes(
    alloc: Global,
    old: Lane<'_>,
    new: &[i64],
    vertices: u32,
) -> Result<Vec<EntryChange>, AllocError>
    requires { vertices ≤ length new.now }
    ensures { IfOk result (λ cs. cs.items ≡ changed vertices (lane_entry old.entry) (λ v. slice_index_or new.now v (pos 0))) }
{
    let mut changes = Vec::new(alloc);
    let count = vertices as usize;
    'rounds: for block in 0..(count + 63) / 64 {
        let first = 64 * block;
        let end = (first + 64).min(count);
        push_block(old, new, first as u32, (end - first) as u32, &mut changes)?;
    }
    Ok(changes)
}

/// Adds the changes at so many vertices from one on. If they are a whole block and the old entries are adjacent in memory,
/// those that differ are found first. The only error is out of memory.
fn push_block(
    old: Lane<'_>,
    new: &[i64],
    first: u32,
    count: u32,
    changes: &mut Vec<EntryChange>,
) -> Result<(), AllocError>
    requires inside { first + count ≤ length new.now }
    requires few { first + count < 2 ^ 32 }
    ensures { OnOk result (changes.new.items ≡ changes.old.items ++ changed_from (lane_entry old.entry) (λ v. slice_index_or new.now v (pos 0)) first count) }
{
    let low = first as usize;
    if let Some(numbers) = old.entries() {
        if count == 64 && low + 64 <= numbers.len() {
            let word = differing(&numbers[low..low + 64], &new[low..low + 64]);
            return push_word(word, first, new, changes);
        }
    }
    push_each(old, new, first, count, changes)
}

/// Adds them one by one.
fn push_each(
    old: Lane<'_>,
    new: &[i64],
    first: u32,
    count: u32,
    changes: &mut Vec<EntryChange>,
) -> Result<(), AllocError>
    requires inside { first + count ≤ length new.now }
    requires few { first + count < 2 ^ 32 }
    ensures { OnOk result (changes.new.items ≡ changes.old.items ++ changed_from (lane_entry old.entry) (λ v. slice_index_or new.now v (pos 0)) first count) }
{
    'indices: for index in 0..count {
        let vertex = first + index;
        let before = old.get(vertex as usize);
        push_change(vertex, before, new[vertex as usize], changes)?;
    }
    Ok(())
}

/// A word with a bit for each of 64 numbers, which is set if the new one differs from the old one.
#[inline(always)]
fn differing(old: &[i64], new: &[i64]) -> u64
    requires old { length old.now ≡ 64 }
    requires new { length new.now ≡ 64 }
    ensures { (i : ℕ) → i < 64 → (bit_at result i == 1) ≡ not (int_equal (slice_index_or old.now i (pos 0)) (slice_index_or new.now i (pos 0))) }
{
    let mut word = 0u64;
    'indices: for index in 0..64usize {
        if compare(ComparisonOperator::NotEqual, old[index], new[index]) {
            word |= 1 << index;
        }
    }
    word
}

/// Adds the new entries at the vertices whose bits are set in a word, of which the lowest is that of the first vertex. The
/// only error is out of memory.
#[inline(always)]
fn push_word(
    word: u64,
    first: u32,
    new: &[i64],
    changes: &mut Vec<EntryChange>,
) -> Result<(), AllocError>
    requires inside { first + 64 ≤ length new.now }
    requires few { first + 64 < 2 ^ 32 }
    ensures { OnOk result (changes.new.items ≡ changes.old.items ++ entries_at (λ v. slice_index_or new.now v (pos 0)) (bit_members 64 first word)) }
{
    let mut left = word;
    'bits: while left != 0 {
        let vertex = first + left.trailing_zeros();
        left &= left - 1;
        changes.push(EntryChange::new(vertex, new[vertex as usize]))?;
    }
    Ok(())
}
