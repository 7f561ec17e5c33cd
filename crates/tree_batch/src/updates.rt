//! What a batch says of edges, as updates.

ghost use Rattle.std.specs.Prelude.{◌≡◌, IfOk, false, map};
ghost use Rattle.std.specs.List.{All, list_any};
ghost use Rattle.std.specs.Option.{option_map};
ghost use Rattle.std.specs.Map.{keys_of};
ghost use Rattle.edge_updates.specs.Updates.{Ascend, decided_weight, unit_pair};
ghost use Rattle.edge_updates.specs.WeightedUpdates.{pairs_in, weighted_pair};
ghost use Rattle.tree_batch.specs.Edge.{Ends, decision, has_weight};
ghost use Rattle.tree_batch.specs.inside.Entry.{IsUpdateOf, NamesWithin};
ghost use Rattle.tree_batch.specs.inside.Sorted.{sorted_pairs};

use crate::batch::{Batch, Entry};
use crate::sorted::Sorted;
use edge_updates::{EdgeUpdate, WeightedUpdate};
use std::alloc::{AllocError, Global};
use std::thread::Threads;

/// What a batch says of edges, each named once, ascending by source and then by destination.
#[derive(Drop)]
pub(crate) enum SortedUpdates {
    /// Every added edge has weight 1.
    Unweighted(Sorted<EdgeUpdate>),
    Weighted(Sorted<WeightedUpdate>),
}

/// What a batch says of edges. A batch in which every added edge has weight 1 is sorted without weights.
pub(crate) fn updates(alloc: Global, batch: &Batch) -> Result<SortedUpdates, AllocError>
    requires { All (NamesWithin 16777216) batch.now }
    ensures order { IfOk result (λ s. Ascend (keys_of (sorted_pairs s))) }
    ensures same { IfOk result (λ s. (p : Ends)
        → decided_weight (sorted_pairs s) p ≡ decision batch.now p) }
{
    if batch.is_weighted() {
        let updates = unsorted_with_weights(alloc, batch)?;
        return Ok(SortedUpdates::Weighted(Sorted::new(alloc, updates)?));
    }
    let updates = unsorted(alloc, batch)?;
    Ok(SortedUpdates::Unweighted(Sorted::new(alloc, updates)?))
}

/// Like `updates`, sorted by as many threads as there are processors.
pub(crate) fn updates_forked<R: Threads + Sync>(
    rt: &R,
    alloc: Global,
    batch: &Batch,
) -> Result<SortedUpdates, AllocError>
    requires { All (NamesWithin 16777216) batch.now }
    ensures order { IfOk result (λ s. Ascend (keys_of (sorted_pairs s))) }
    ensures same { IfOk result (λ s. (p : Ends)
        → decided_weight (sorted_pairs s) p ≡ decision batch.now p) }
{
    if batch.is_weighted() {
        let updates = unsorted_with_weights(alloc, batch)?;
        let sorted = Sorted::new_forked(rt, alloc, updates)?;
        return Ok(SortedUpdates::Weighted(sorted));
    }
    let updates = unsorted(alloc, batch)?;
    let sorted = Sorted::new_forked(rt, alloc, updates)?;
    Ok(SortedUpdates::Unweighted(sorted))
}

/// What the entries of a batch say of edges, in their order, if each added edge has weight 1.
fn unsorted(alloc: Global, batch: &Batch) -> Result<Vec<EdgeUpdate>, AllocError>
    requires inside { All (NamesWithin 16777216) batch.now }
    requires unweighted { list_any has_weight batch.now ≡ false }
    ensures { IfOk result (λ v. (p : Ends)
        → decided_weight (map unit_pair v.items) p ≡ decision batch.now p) }
{
    let mut updates = Vec::with_capacity(alloc, batch.len())?;
    for index in 0..batch.len() {
        if let Some(update) = update(batch.entry(index)) {
            updates.push_reserved(update.update);
        }
    }
    Ok(updates)
}

/// What the entries of a batch say of edges, in their order.
fn unsorted_with_weights(alloc: Global, batch: &Batch) -> Result<Vec<WeightedUpdate>, AllocError>
    requires { All (NamesWithin 16777216) batch.now }
    ensures { IfOk result (λ v. (p : Ends)
        → decided_weight (pairs_in v.items) p ≡ decision batch.now p) }
{
    let mut updates = Vec::with_capacity(alloc, batch.len())?;
    for index in 0..batch.len() {
        if let Some(update) = update(batch.entry(index)) {
            updates.push_reserved(update);
        }
    }
    Ok(updates)
}

/// What an entry says of its edge, if it names one.
fn update(entry: Entry) -> Option<WeightedUpdate>
    requires { NamesWithin 16777216 entry }
    ensures { IsUpdateOf entry (option_map weighted_pair result) }
{
    match entry {
        Entry::Add(source, destination, weight) => Some(WeightedUpdate {
            update: EdgeUpdate::new(source, destination, true),
            weight,
        }),
        Entry::Remove(source, destination) => Some(WeightedUpdate {
            update: EdgeUpdate::new(source, destination, false),
            weight: 0,
        }),
        Entry::Grow(_) => None,
    }
}
