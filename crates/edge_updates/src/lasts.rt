//! The last update of each edge.

ghost use Rattle.std.specs.Prelude.{◌≡◌, ◌≤◌, length, map, take, drop, vec_len};
ghost use Rattle.std.specs.Map.{keys_of};
ghost use Rattle.edge_updates.specs.Updates.{Edge, decided_weight, AreInOrder, Ascend, NamesOnce};
ghost use Rattle.edge_updates.specs.inside.LastUpdates.{begin_same, last_updates};

use crate::update::Update;

/// Keeps the last update of each edge, of updates that are in order, and drops the others. It
/// takes linear time and no memory.
pub fn keep_last<T: Update>(updates: &mut Vec<T>)
    requires { AreInOrder (keys_of (map T.pair_of updates.old.items)) }
    ensures ascending { Ascend (keys_of (map T.pair_of updates.new.items)) }
    ensures once { NamesOnce (keys_of (map T.pair_of updates.new.items)) }
    ensures same { (e : Edge) → decided_weight (map T.pair_of updates.new.items) e
        ≡ decided_weight (map T.pair_of updates.old.items) e }
    ensures fewer { vec_len updates.new ≤ vec_len updates.old }
{
    let kept = move_lasts(updates.as_mut_slice());
    updates.truncate(kept);
}

/// Moves the last update of each edge to the front, and returns their number.
fn move_lasts<T: Update>(updates: &mut [T]) -> usize
    ensures lasts { take result updates.new ≡ last_updates T.key_of updates.old }
    ensures bounded { result ≤ length updates.new }
    ensures len { length updates.new ≡ length updates.old }
{
    let mut kept = 0;
    for index in 0..updates.len() {
        let update = updates[index];
        if !is_superseded(update, updates, index + 1) {
            updates[kept] = update;
            kept += 1;
        }
    }
    kept
}

/// Whether the update at an index, if there is one, names the edge of this update.
fn is_superseded<T: Update>(update: T, updates: &[T], index: usize) -> bool
    ensures { result ≡ begin_same T.key_of update (drop index updates.now) }
{
    index < updates.len() && updates[index].key() == update.key()
}
