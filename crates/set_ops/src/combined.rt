//! Answers of operations before they are sets.

ghost use Rattle.std.specs.Prelude.{◌≡◌, ◌+◌, ◌^◌, ◌<◌, ◌≤◌, None, Some, length, true, IfOk};
ghost use Rattle.std.specs.Map.{keys_of};
ghost use Rattle.ascending_lists.specs.Operations.{most};
ghost use Rattle.ascending_lists.specs.Ascending.{Ascends};
ghost use Rattle.tail_codec.specs.Operations.{on_keys};
ghost use Rattle.c_tree.specs.Heads.{is_head};
ghost use Rattle.set_ops.specs.inside.Answers.{IsCombined, IsRejoined, kept, rejoined};

use c_tree::{CTree, ChunkSize, Part};
use std::alloc::{AllocError, Global};
use tail_codec::{Entries, MapOperation, merge_entries};

/// What is done with two sets, whose keys are above a base.
#[derive(Clone, Copy)]
pub(crate) struct Task {
    pub(crate) operation: MapOperation,
    pub(crate) base: Option<u32>,
}

impl Task {
    /// An operation on two sets without a base.
    pub(crate) fn new(operation: MapOperation) -> Task
        ensures { result ≡ record { operation = operation; base = None } }
    {
        Task {
            operation,
            base: None,
        }
    }

    /// This operation on what is above a number.
    pub(crate) fn above(self, key: u32) -> Task
        ensures { result ≡ record { operation = self.operation; base = Some key } }
    {
        Task {
            operation: self.operation,
            base: Some(key),
        }
    }

    /// Another operation over the same base.
    pub(crate) fn doing(self, operation: MapOperation) -> Task
        ensures { result ≡ record { operation = operation; base = self.base } }
    {
        Task {
            operation,
            base: self.base,
        }
    }
}

/// A head of the first set with its weight, and the weight that the second has there if it has the head.
#[derive(Clone, Copy)]
pub(crate) struct Head {
    pub(crate) key: u32,
    pub(crate) weight: i64,
    pub(crate) found: Option<i64>,
}

impl Head {
    /// The weight of the head in the answer, or `None` where the answer lacks it.
    fn kept(self, operation: MapOperation) -> Option<i64>
        ensures { result ≡ kept operation self.weight self.found }
    {
        match operation {
            MapOperation::Union => Some(self.found.unwrap_or(self.weight)),
            MapOperation::UnionKeepingFirst => Some(self.weight),
            MapOperation::Difference => match self.found {
                None => Some(self.weight),
                Some(_) => None,
            },
        }
    }
}

/// The answer for two sets, and how many keys they have in common.
#[derive(Drop)]
pub(crate) struct Combined {
    pub(crate) part: Part,
    pub(crate) common: usize,
}

impl Combined {
    /// The set of the answer for two sets of n entries.
    pub(crate) fn into_set(
        self,
        alloc: Global,
        operation: MapOperation,
        first: usize,
        second: usize,
    ) -> Result<CTree, AllocError>
        requires room { first + second < 2 ^ 64 }
        requires count { self.common + length self.part.entries ≡ most (on_keys operation) first second }
        ensures { IfOk result (λ t. t ≡ self.part) }
    {
        let len = operation.on_keys().most(first, second) - self.common;
        self.part.into_set(alloc, len)
    }
}

/// The answer for two lists of entries whose keys ascend from a base, with each chunk made anew.
pub(crate) fn combine_lists(
    alloc: Global,
    task: Task,
    chunk_size: ChunkSize,
    first: &Entries<'_>,
    second: &Entries<'_>,
) -> Result<Combined, AllocError>
    requires first_over { Ascends task.base (keys_of first.now) }
    requires second_over { Ascends task.base (keys_of second.now) }
    ensures { IfOk result
        (λ c. IsCombined task.operation chunk_size first.now second.now c.part c.common) }
{
    let list = merge_entries(alloc, task.operation, first, second)?;
    let list = list.lent();
    let most = task.operation.on_keys().most(first.len(), second.len());
    let common = most - list.len();
    let part = Part::from_ascending(alloc, task.base, chunk_size, &list)?;
    Ok(Combined { part, common })
}

/// The answer for what is below a head of the first set, then the head if it belongs to the answer,
/// then the answer for what is above it.
pub(crate) fn rejoin(
    alloc: Global,
    operation: MapOperation,
    head: Head,
    below: Combined,
    above: Combined,
) -> Result<Combined, AllocError>
    requires sizes { above.part.chunk_size ≡ below.part.chunk_size }
    requires head { is_head below.part.chunk_size head.key ≡ true }
    requires ascending { Ascends None
        (keys_of (rejoined operation below.part.entries head above.part.entries)) }
    requires below_room { below.common ≤ 2 ^ 40 }
    requires above_room { above.common ≤ 2 ^ 40 }
    ensures { IfOk result (λ c. IsRejoined operation below head above c.part c.common) }
{
    let part = match head.kept(operation) {
        Some(weight) => below.part.join(alloc, head.key, weight, above.part)?,
        None => below.part.join2(alloc, above.part)?,
    };
    let common = below.common + above.common + usize::from(head.found.is_some());
    Ok(Combined { part, common })
}
