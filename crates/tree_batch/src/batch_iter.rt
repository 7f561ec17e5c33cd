//! Going over the entries of a batch.

ghost use Rattle.std.specs.Prelude.{◌≡◌};
ghost use Rattle.std.specs.Iterator.{YieldsFirst, item_count};

use crate::batch::{Batch, Entry};
use std::marker::Model;

/// The entries of a batch that are still to come, in their order.
#[derive(Drop)]
pub struct BatchIter<'a> {
    batch: &'a Batch,
    /// The index of the next entry.
    next: usize,
}

impl<'a> Model for BatchIter<'a> {
    ghost use Rattle.std.specs.Prelude.{List, drop};
    ghost use Rattle.tree_batch.specs.declared.batch.Entry.{Entry};

    ghost Value = { List Entry };

    ghost view = { λ i. drop i.next i.batch.now };
}

impl<'a> BatchIter<'a> {
    /// All entries of a batch.
    pub(crate) fn new(batch: &'a Batch) -> BatchIter<'a>
        ensures { result ≡ batch.now }
    {
        BatchIter { batch, next: 0 }
    }
}

impl<'a> Iterator for BatchIter<'a> {
    type Item = Entry;

    ghost next_gives = { YieldsFirst (λ i. i) };

    ghost remaining = { item_count (λ i. i) };

    #[inline]
    fn next(&mut self) -> Option<Entry> {
        if self.next >= self.batch.len() {
            return None;
        }
        let entry = self.batch.entry(self.next);
        self.next += 1;
        Some(entry)
    }
}
