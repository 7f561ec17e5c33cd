//! Updates that are sorted, with the second array of their sort.

ghost use Rattle.std.specs.Prelude.{◌≡◌, IfOk, map};
ghost use Rattle.std.specs.Map.{keys_of};
ghost use Rattle.edge_updates.specs.Updates.{Ascend, decided_weight};
ghost use Rattle.tree_batch.specs.Edge.{Ends};

use edge_updates::{Update, keep_last, sort, sort_forked, sort_transposed, sort_transposed_forked};
use std::alloc::{AllocError, Global};
use std::thread::Threads;

/// Updates of edges, each named once, ascending by source and then by destination. The second array of
/// their sort is kept for the sort of the other direction.
#[derive(Drop)]
pub(crate) struct Sorted<T> {
    pub(crate) updates: Vec<T>,
    scratch: Vec<T>,
}

impl<T: Update> Sorted<T> {
    /// Sorts updates by edge, and keeps the last of each edge.
    pub(crate) fn new(alloc: Global, mut updates: Vec<T>) -> Result<Sorted<T>, AllocError>
        ensures order { IfOk result (λ s. Ascend (keys_of (map T.pair_of s.updates.items))) }
        ensures same { IfOk result (λ s. (p : Ends) → decided_weight (map T.pair_of s.updates.items) p
            ≡ decided_weight (map T.pair_of updates.items) p) }
    {
        let mut scratch = Vec::new(alloc);
        sort(&mut updates, &mut scratch)?;
        keep_last(&mut updates);
        Ok(Sorted { updates, scratch })
    }

    /// Updates that ascend, seen from their neighbours, ascending again. The second array is given back.
    pub(crate) fn transposed(self, alloc: Global) -> Result<Sorted<T>, AllocError>
        requires { Ascend (keys_of (map T.pair_of self.updates.items)) }
        ensures order { IfOk result (λ s. Ascend (keys_of (map T.pair_of s.updates.items))) }
        ensures same { IfOk result (λ s. (p : Ends) → decided_weight (map T.pair_of s.updates.items) p
            ≡ decided_weight (map T.pair_of self.updates.items) (p.1, p.0)) }
    {
        let Sorted {
            mut updates,
            mut scratch,
        } = self;
        sort_transposed(&mut updates, &mut scratch)?;
        Ok(Sorted {
            updates,
            scratch: Vec::new(alloc),
        })
    }
}

impl<T: Update + Send> Sorted<T> {
    /// Like `new`, by as many threads as there are processors. There is no second array.
    pub(crate) fn new_forked<R: Threads + Sync>(
        rt: &R,
        alloc: Global,
        mut updates: Vec<T>,
    ) -> Result<Sorted<T>, AllocError>
        ensures order { IfOk result (λ s. Ascend (keys_of (map T.pair_of s.updates.items))) }
        ensures same { IfOk result (λ s. (p : Ends) → decided_weight (map T.pair_of s.updates.items) p
            ≡ decided_weight (map T.pair_of updates.items) p) }
    {
        sort_forked(rt, alloc, &mut updates)?;
        keep_last(&mut updates);
        Ok(Sorted {
            updates,
            scratch: Vec::new(alloc),
        })
    }

    /// Like `transposed`, by as many threads as there are processors.
    pub(crate) fn transposed_forked<R: Threads + Sync>(
        self,
        rt: &R,
        alloc: Global,
    ) -> Result<Sorted<T>, AllocError>
        requires { Ascend (keys_of (map T.pair_of self.updates.items)) }
        ensures order { IfOk result (λ s. Ascend (keys_of (map T.pair_of s.updates.items))) }
        ensures same { IfOk result (λ s. (p : Ends) → decided_weight (map T.pair_of s.updates.items) p
            ≡ decided_weight (map T.pair_of self.updates.items) (p.1, p.0)) }
    {
        let Sorted {
            mut updates,
            scratch,
        } = self;
        sort_transposed_forked(rt, alloc, &mut updates)?;
        Ok(Sorted { updates, scratch })
    }
}
