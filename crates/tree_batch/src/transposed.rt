//! What sorted updates make of a tree, and the same updates seen from the other end of their edges.

ghost use Rattle.std.specs.Prelude.{◌+◌, ◌≡◌, ◌≤◌, IfOk, map};
ghost use Rattle.std.specs.Map.{keys_of};
ghost use Rattle.edge_updates.specs.Updates.{Ascend, decided_weight, unit_pair};
ghost use Rattle.tree_batch.specs.Edge.{Ends};
ghost use Rattle.tree_batch.specs.inside.Forking.{IsChangedTree};
ghost use Rattle.tree_batch.specs.inside.Sorted.{sorted_pairs};

use crate::cuts::changed;
use crate::forked::change_forked;
use crate::updates::SortedUpdates;
use c_tree::ChunkSize;
use edge_updates::{Columns, EdgeUpdate, Updates};
use set_ops::{Fork, Forking};
use shared_tree::{Changed, Tree};
use std::alloc::{AllocError, Global};
use std::thread::Threads;
use vertex_blocks::VertexBlock;

impl SortedUpdates {
    /// Updates that ascend, seen from their neighbours, ascending again.
    pub(crate) fn transposed(self, alloc: Global) -> Result<SortedUpdates, AllocError>
        requires { Ascend (keys_of (sorted_pairs self)) }
        ensures order { IfOk result (λ s. Ascend (keys_of (sorted_pairs s))) }
        ensures same { IfOk result (λ s. (p : Ends)
            → decided_weight (sorted_pairs s) p ≡ decided_weight (sorted_pairs self) (p.1, p.0)) }
    {
        match self {
            SortedUpdates::Unweighted(sorted) => {
                Ok(SortedUpdates::Unweighted(sorted.transposed(alloc)?))
            }
            SortedUpdates::Weighted(sorted) => {
                Ok(SortedUpdates::Weighted(sorted.transposed(alloc)?))
            }
        }
    }

    /// Like `transposed`, sorted by as many threads as there are processors.
    pub(crate) fn transposed_forked<R: Threads + Sync>(
        self,
        rt: &R,
        alloc: Global,
    ) -> Result<SortedUpdates, AllocError>
        requires { Ascend (keys_of (sorted_pairs self)) }
        ensures order { IfOk result (λ s. Ascend (keys_of (sorted_pairs s))) }
        ensures same { IfOk result (λ s. (p : Ends)
            → decided_weight (sorted_pairs s) p ≡ decided_weight (sorted_pairs self) (p.1, p.0)) }
    {
        match self {
            SortedUpdates::Unweighted(sorted) => {
                let transposed = sorted.transposed_forked(rt, alloc)?;
                Ok(SortedUpdates::Unweighted(transposed))
            }
            SortedUpdates::Weighted(sorted) => {
                let transposed = sorted.transposed_forked(rt, alloc)?;
                Ok(SortedUpdates::Weighted(transposed))
            }
        }
    }

    /// The tree after updates whose edges ascend. Updates without weights are lent as they are.
    pub(crate) fn change(
        &self,
        alloc: Global,
        tree: &Tree<VertexBlock>,
        chunk_size: ChunkSize,
    ) -> Result<Changed<VertexBlock>, AllocError>
        requires { Ascend (keys_of (sorted_pairs self.now)) }
        ensures { IfOk result (λ c. IsChangedTree (sorted_pairs self.now) tree.now.entries c) }
    {
        match self {
            SortedUpdates::Unweighted(sorted) => {
                let lent = with_unit_weights(&sorted.updates);
                changed(alloc, tree, &lent, chunk_size)
            }
            SortedUpdates::Weighted(sorted) => {
                let columns = Columns::of(alloc, &sorted.updates)?;
                changed(alloc, tree, &columns.lend(), chunk_size)
            }
        }
    }

    /// Like `change`, with halves of the tree on two threads as `forking` says.
    pub(crate) fn change_forked<R: Threads + Sync, F: Fork + Sync>(
        &self,
        rt: &R,
        alloc: Global,
        tree: &Tree<VertexBlock>,
        chunk_size: ChunkSize,
        forking: &Forking<'_, F>,
    ) -> Result<Changed<VertexBlock>, AllocError>
        requires order { Ascend (keys_of (sorted_pairs self.now)) }
        requires few { forking.now.forks + forking.now.level ≤ 7 }
        ensures { IfOk result (λ c. IsChangedTree (sorted_pairs self.now) tree.now.entries c) }
    {
        match self {
            SortedUpdates::Unweighted(sorted) => {
                let lent = with_unit_weights(&sorted.updates);
                change_forked(rt, alloc, tree, &lent, chunk_size, forking)
            }
            SortedUpdates::Weighted(sorted) => {
                let columns = Columns::of(alloc, &sorted.updates)?;
                let lent = columns.lend();
                change_forked(rt, alloc, tree, &lent, chunk_size, forking)
            }
        }
    }
}

/// Updates without weights, lent: each edge that they add has weight 1.
fn with_unit_weights(updates: &[EdgeUpdate]) -> Updates<'_>
    ensures { result ≡ map unit_pair updates.now }
{
    Updates::new(updates, &[])
}
