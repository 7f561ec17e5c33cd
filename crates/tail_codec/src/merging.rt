//! Two lists of entries that are merged.

ghost use Rattle.std.specs.Prelude.{◌≡◌, ◌≤◌, ◌<◌, nat_lt, if◌then◌else◌, length, None, IfOk, IsTrue};
ghost use Rattle.std.specs.Map.{keys_of};
ghost use Rattle.ascending_lists.specs.Ascending.{Ascends};
ghost use Rattle.ascending_lists.specs.Operations.{most};
ghost use Rattle.ascending_lists.specs.inside.Operations.{takes_second};
ghost use Rattle.tail_codec.specs.Columns.{entries_in};
ghost use Rattle.tail_codec.specs.Operations.{combined_maps};
ghost use Rattle.tail_codec.specs.inside.Merging.{IsMerged, merged, merged_keys};

use crate::entries::Entries;
use crate::entry_list::EntryList;
use crate::operation::MapOperation;
use ascending_lists::{Operation, merge};
use std::alloc::{AllocError, Global};

/// The entries that an operation makes of two lists of entries with ascending keys, in the same order.
/// Takes time in proportion to both lists. There is no column of weights where no entry of the answer
/// can have a weight other than 1.
///
/// The only error is out of memory.
pub fn merge_entries(
    alloc: Global,
    operation: MapOperation,
    first: &Entries<'_>,
    second: &Entries<'_>,
) -> Result<EntryList, AllocError>
    requires first { Ascends None (keys_of first.now) }
    requires second { Ascends None (keys_of second.now) }
    ensures { IfOk result (λ l. l ≡ combined_maps operation first.now second.now) }
{
    match operation {
        MapOperation::Union => merge_keeping_second(alloc, Operation::Union, first, second),
        MapOperation::UnionKeepingFirst => {
            merge_keeping_second(alloc, Operation::Union, second, first)
        }
        MapOperation::Difference => {
            merge_keeping_second(alloc, Operation::Difference, first, second)
        }
    }
}

/// What an operation on keys makes of two lists of entries, where the second's weight is kept.
fn merge_keeping_second(
    alloc: Global,
    operation: Operation,
    first: &Entries<'_>,
    second: &Entries<'_>,
) -> Result<EntryList, AllocError>
    requires first { Ascends None (keys_of first.now) }
    requires second { Ascends None (keys_of second.now) }
    ensures { IfOk result (λ l. l ≡ merged operation first.now second.now) }
{
    if !has_only_ones(operation, first, second) {
        return merge_columns(alloc, operation, first, second);
    }
    let keys = merge(alloc, operation, first.keys(), second.keys())?;
    Ok(EntryList::of_keys(keys))
}

/// Whether no column of weights can have one for the answer.
fn has_only_ones(operation: Operation, first: &Entries<'_>, second: &Entries<'_>) -> bool
    ensures { IsTrue result → merged operation first.now second.now
        ≡ entries_in (merged_keys operation first.now second.now) None }
{
    match operation {
        Operation::Union => first.has_only_ones() && second.has_only_ones(),
        Operation::Difference => first.has_only_ones(),
    }
}

/// As `merge_keeping_second`, with both columns.
fn merge_columns(
    alloc: Global,
    operation: Operation,
    first: &Entries<'_>,
    second: &Entries<'_>,
) -> Result<EntryList, AllocError>
    requires first { Ascends None (keys_of first.now) }
    requires second { Ascends None (keys_of second.now) }
    ensures { IfOk result (λ l. l ≡ merged operation first.now second.now) }
{
    let most = operation.most(first.len(), second.len());
    let mut keys = Vec::new(alloc);
    keys.resize(most, 0)?;
    let mut weights = Vec::new(alloc);
    weights.resize(most, 1)?;
    let merged = merge_front(operation, first, second, &mut keys, &mut weights);
    keys.truncate(merged.len);
    weights.truncate(merged.len);
    first.from(merged.first).append_to(&mut keys, &mut weights)?;
    if takes_second(operation) {
        second
            .from(merged.second)
            .append_to(&mut keys, &mut weights)?;
    }
    Ok(EntryList::new(keys, weights))
}

/// How far two lists are merged: how many entries of each are read, and how many of the answer are
/// written.
#[derive(Clone, Copy)]
struct Merged {
    first: usize,
    second: usize,
    len: usize,
}

/// Merges two lists of entries into the front of columns until one of them is over. No branch depends
/// on which key is the lesser.
fn merge_front(
    operation: Operation,
    first: &Entries<'_>,
    second: &Entries<'_>,
    keys: &mut [u32],
    weights: &mut [i64],
) -> Merged
    requires first { Ascends None (keys_of first.now) }
    requires second { Ascends None (keys_of second.now) }
    requires room { most operation (length first.now) (length second.now) ≤ length keys.old }
    requires columns { length weights.old ≡ length keys.old }
    ensures { IsMerged operation first.now second.now keys.new weights.new result }
{
    let takes_second = takes_second(operation);
    let (first_keys, second_keys) = (first.keys(), second.keys());
    let (mut from_first, mut from_second, mut len) = (0usize, 0usize, 0usize);
    while from_first < first_keys.len() && from_second < second_keys.len() {
        let (x, y) = (first_keys[from_first], second_keys[from_second]);
        keys[len] = x.min(y);
        weights[len] = weight_of_lesser(x, y, first.weight(from_first), second.weight(from_second));
        from_first += usize::from(x <= y);
        from_second += usize::from(y <= x);
        len += usize::from(takes_second | (x < y));
    }
    Merged {
        first: from_first,
        second: from_second,
        len,
    }
}

/// The weight that goes with the lesser of two keys, or the second where they are one.
#[inline]
fn weight_of_lesser(x: u32, y: u32, first: i64, second: i64) -> i64
    ensures { result ≡ (if nat_lt x y then first else second) }
{
    if x < y { first } else { second }
}

/// Whether the answer has what the second has alone.
fn takes_second(operation: Operation) -> bool
    ensures { result ≡ takes_second operation }
{
    match operation {
        Operation::Union => true,
        Operation::Difference => false,
    }
}
