//! Lists of neighbours that updates make of others, and the runs of updates of one vertex.

ghost use Rattle.std.specs.Prelude.{◌≡◌, ◌≢◌, ℕ, ℤ, ◌+◌, ◌*◌, ◌^◌, ◌≤◌, ◌∷◌, ◌++◌, List, length, take, drop, IfOk};
ghost use Rattle.std.specs.Map.{keys_of};
ghost use Rattle.edge_updates.specs.declared.edge_update.EdgeUpdate.{EdgeUpdate};
ghost use Rattle.ascending_lists.specs.Ascending.{AscendsFrom};
ghost use Rattle.pages.specs.Updates.{updated, updates_of, NeighboursAscend, EdgesAscend};

use crate::columns::EntryColumns;
use crate::neighbours::Neighbours;
use crate::page::BLOCK_SIZE;
use edge_updates::{EdgeUpdate, Updates};
use std::alloc::AllocError;

/// Leaves the list that updates of one vertex make of another in `after`, in place of what it held.
/// An update that adds what is there gives it the new weight, and one that removes what is not makes no
/// difference. It takes time in proportion to the list, and `O(log len)` for each update. Weights are
/// neither read nor written where all of them are 1.
///
/// The only error is out of memory, and then `after` has a part of the list or what it held.
pub fn merge(
    list: &Neighbours<'_>,
    updates: &Updates<'_>,
    after: &mut EntryColumns,
) -> Result<(), AllocError>
    requires { NeighboursAscend 0 updates.now }
    ensures list { IfOk result (λ _. after.new ≡ updated list.now updates.now) }
    ensures ascending { IfOk result (λ _. AscendsFrom 0 (keys_of after.new)) }
{
    after.clear();
    let mut at = 0;
    for index in 0..updates.len() {
        at = step(
            list,
            at,
            updates.update(index),
            updates.weight(index),
            after,
        )?;
    }
    list.append_to(at, list.len(), after)?;
    Ok(())
}

/// Continues over one update, from an index of the list on, and gives the index from which to continue.
fn step(
    list: &Neighbours<'_>,
    at: usize,
    update: EdgeUpdate,
    weight: i64,
    after: &mut EntryColumns,
) -> Result<usize, AllocError>
    requires { at ≤ length list.now }
    ensures within { IfOk result (λ next. next ≤ length list.now) }
    ensures list { IfOk result (λ next. (updates : List (EdgeUpdate × ℤ))
        → after.new ++ updated (drop next list.now) updates
        ≡ after.old ++ updated (drop at list.now) ((update, weight) ∷ updates)) }
{
    let neighbour = update.neighbour();
    let (end, next) = list.cut(at, neighbour);
    list.append_to(at, end, after)?;
    if update.is_added() {
        after.push(neighbour, weight)?;
        return Ok(next);
    }
    Ok(next)
}

/// How many updates in front are of a vertex of the page, where none is of a smaller one. It takes
/// time in proportion to them.
pub fn run_length(updates: &Updates<'_>, vertex: u32) -> usize
    requires { EdgesAscend (vertex * 2 ^ 24) updates.now }
    ensures within { result ≤ length updates.now }
    ensures run { take result updates.now ≡ updates_of vertex updates.now }
    ensures ascending { NeighboursAscend 0 (take result updates.now) }
    ensures rest { EdgesAscend ((vertex + 1) * 2 ^ 24) (drop result updates.now) }
    ensures others { (u : ℕ) → u ≢ vertex → updates_of u updates.now ≡ updates_of u (drop result updates.now) }
{
    let mut count = 0;
    while count < updates.len() && updates.update(count).vertex() % BLOCK_SIZE == vertex {
        count += 1;
    }
    count
}
