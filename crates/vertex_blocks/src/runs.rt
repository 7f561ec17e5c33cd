//! Lists and sets that updates of one vertex make of others.

ghost use Rattle.std.specs.Prelude.{◌≡◌, None, IfOk};
ghost use Rattle.std.specs.Map.{keys_of};
ghost use Rattle.ascending_lists.specs.Ascending.{Ascends, AscendsFrom};
ghost use Rattle.c_tree.specs.Chunks.{IsSetOf};
ghost use Rattle.pages.specs.Updates.{updated, NeighboursAscend};
ghost use Rattle.vertex_blocks.specs.inside.Runs.{added_in, removed_in};

use c_tree::{CTree, ChunkSize, Part};
use edge_updates::Updates;
use pages::{EntryColumns, Neighbours, merge};
use set_ops::{
    Fork, Forking, insert_ascending, remove_ascending, same_size_difference_forked,
    same_size_union_forked,
};
use std::alloc::{AllocError, Global};
use std::thread::Threads;
use tail_codec::{Entries, EntryList};

/// Leaves the list that updates of one vertex make of another in `after`, in place of what it held.
/// The only error is out of memory.
pub(crate) fn update_list(
    list: &Neighbours<'_>,
    updates: &Updates<'_>,
    after: &mut EntryColumns,
) -> Result<(), AllocError>
    requires { NeighboursAscend 0 updates.now }
    ensures list { IfOk result (λ _. after.new ≡ updated list.now updates.now) }
    ensures ascending { IfOk result (λ _. AscendsFrom 0 (keys_of after.new)) }
{
    if list.is_empty() {
        return collect_added(updates, after);
    }
    merge(list, updates, after)
}

/// Leaves the neighbours that updates of one vertex add in `added`, with their weights, in place of
/// what it held. The only error is out of memory.
fn collect_added(updates: &Updates<'_>, added: &mut EntryColumns) -> Result<(), AllocError>
    requires { NeighboursAscend 0 updates.now }
    ensures list { IfOk result (λ _. added.new ≡ added_in updates.now) }
    ensures ascending { IfOk result (λ _. AscendsFrom 0 (keys_of added.new)) }
{
    added.clear();
    for index in 0..updates.len() {
        let update = updates.update(index);
        if update.is_added() {
            added.push(update.neighbour(), updates.weight(index))?;
        }
    }
    Ok(())
}

/// The neighbours that updates of one vertex add, with their weights, and those that they remove. The
/// only error is out of memory.
fn parts(alloc: Global, updates: &Updates<'_>) -> Result<(EntryList, Vec<u32>), AllocError>
    requires { NeighboursAscend 0 updates.now }
    ensures added { IfOk result (λ p. p.0 ≡ added_in updates.now) }
    ensures removed { IfOk result (λ p. p.1.items ≡ removed_in updates.now) }
    ensures added_ascend { IfOk result (λ p. Ascends None (keys_of p.0)) }
    ensures removed_ascend { IfOk result (λ p. Ascends None p.1.items) }
{
    let mut added = Vec::with_capacity(alloc, updates.len())?;
    let mut weights = Vec::with_capacity(alloc, updates.len())?;
    let mut removed = Vec::new(alloc);
    for index in 0..updates.len() {
        let update = updates.update(index);
        let neighbour = update.neighbour();
        if update.is_added() {
            added.push(neighbour)?;
            weights.push(updates.weight(index))?;
        } else {
            removed.push(neighbour)?;
        }
    }
    Ok((EntryList::new(added, weights), removed))
}

/// The set that updates of one vertex make of another, in chunks of that one's size. The only error is
/// out of memory.
pub(crate) fn update_set(
    alloc: Global,
    set: &CTree,
    updates: &Updates<'_>,
) -> Result<CTree, AllocError>
    requires { NeighboursAscend 0 updates.now }
    ensures { IfOk result (λ t. t.entries ≡ updated set.now.entries updates.now) }
{
    prove!(set.len() <= 1 << 32);
    let (added, removed) = parts(alloc, updates)?;
    let grown = insert_ascending(alloc, set, &added.lent())?;
    remove_ascending(alloc, &grown, &removed)
}

/// As `update_set`, with halves of the set on two threads as `forking` says.
pub(crate) fn update_set_forked<R: Threads + Sync, F: Fork + Sync>(
    rt: &R,
    alloc: Global,
    set: &CTree,
    updates: &Updates<'_>,
    forking: &Forking<'_, F>,
) -> Result<CTree, AllocError>
    requires { NeighboursAscend 0 updates.now }
    ensures { IfOk result (λ t. t.entries ≡ updated set.now.entries updates.now) }
{
    prove!(set.len() <= 1 << 32);
    let forks = forking.forks;
    let fork = DeeperFork {
        fork: forking.fork,
        level: forking.level,
    };
    let (added, removed) = parts(alloc, updates)?;
    let more = make_set(alloc, set.chunk_size(), &added.lent())?;
    let grown = same_size_union_forked(rt, alloc, set, &more, forks, &fork)?;
    let fewer = make_set(alloc, set.chunk_size(), &Entries::of_keys(&removed))?;
    same_size_difference_forked(rt, alloc, &grown, &fewer, forks, &fork)
}

/// Tells another of forks, whose levels begin at `level`.
struct DeeperFork<'a, F> {
    fork: &'a F,
    level: u32,
}

impl<'a, F> Drop for DeeperFork<'a, F> {
    fn drop(self) {
        let DeeperFork { fork: _, level: _ } = self;
    }
}

impl<F: Fork + Sync> Fork for DeeperFork<'_, F> {
    fn enter(&self, level: u32, second: bool) {
        let below = self.level.saturating_sub(1);
        self.fork.enter(level.saturating_add(below), second);
    }
}

/// The set of entries whose keys ascend. The only error is out of memory.
fn make_set(
    alloc: Global,
    chunk_size: ChunkSize,
    entries: &Entries<'_>,
) -> Result<CTree, AllocError>
    requires { Ascends None (keys_of entries.now) }
    ensures { IfOk result (IsSetOf entries.now chunk_size) }
{
    let part = Part::from_ascending(alloc, None, chunk_size, entries)?;
    part.into_set(alloc, entries.len())
}

/// The set of a list in columns whose keys ascend. The only error is out of memory.
pub(crate) fn set_of_columns(
    alloc: Global,
    chunk_size: ChunkSize,
    list: &EntryColumns,
) -> Result<CTree, AllocError>
    requires { Ascends None (keys_of list.now) }
    ensures { IfOk result (IsSetOf list.now chunk_size) }
{
    let (keys, weights) = list.columns();
    if weights.is_empty() {
        return make_set(alloc, chunk_size, &Entries::of_keys(keys));
    }
    let mut column = Vec::from_slice(alloc, weights)?;
    column.resize(keys.len(), 1)?;
    make_set(alloc, chunk_size, &Entries::new(keys, &column))
}

/// Leaves the entries of a set in `list`, in place of what it held. The only error is out of memory.
pub(crate) fn collect(set: &CTree, list: &mut EntryColumns) -> Result<(), AllocError>
    ensures { IfOk result (λ _. list.new ≡ set.now.entries) }
{
    list.clear();
    for (neighbour, weight) in set.iter() {
        list.push(neighbour, weight)?;
    }
    Ok(())
}
