//! The same edges seen from their neighbours.

ghost use Rattle.std.specs.Prelude.{◌≡◌, ℕ, map, vec_len};
ghost use Rattle.std.specs.List.Sorted.{IsSortedByKey};
ghost use Rattle.std.specs.Map.{keys_of};
ghost use Rattle.std.specs.Ordering.{nat_cmp};
ghost use Rattle.edge_updates.specs.EdgeUpdate.{neighbour_of};
ghost use Rattle.edge_updates.specs.Updates.{decided_weight, Ascend, NamesOnce};

use crate::update::Update;

/// Swaps the ends of the edge of each update, which keeps its weight. If the updates ascended, their new
/// neighbours do not fall. It takes linear time and no memory.
pub fn transpose<T: Update>(updates: &mut Vec<T>)
    ensures same { (u v : ℕ) → decided_weight (map T.pair_of updates.new.items) (v, u)
        ≡ decided_weight (map T.pair_of updates.old.items) (u, v) }
    ensures once { NamesOnce (keys_of (map T.pair_of updates.old.items))
        → NamesOnce (keys_of (map T.pair_of updates.new.items)) }
    ensures rising { Ascend (keys_of (map T.pair_of updates.old.items))
        → IsSortedByKey (λ x. neighbour_of (T.pair_of x).0) nat_cmp updates.new.items }
    ensures len { vec_len updates.new ≡ vec_len updates.old }
{
    for update in updates.iter_mut() {
        *update = update.transposed();
    }
}
