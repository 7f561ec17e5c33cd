//! The entries of a batch in columns.

ghost use Rattle.std.specs.Prelude.{◌≡◌, ◌++◌, ◌<◌, [], ◌∷◌, ℕ, OnOk, OnErr, get_or, length};
ghost use Rattle.tree_batch.specs.declared.batch.Entry.{Entry};
ghost use Rattle.tree_batch.specs.declared.batch_columns.EntryKind.TheVariants.{Adds};
ghost use Rattle.tree_batch.specs.inside.BatchColumns.{kind_of, numbers_of, weight_of};

use crate::batch::Entry;
use crate::weights::Weights;
use std::alloc::{AllocError, Global};
use std::marker::Model;
use weighted_edges::UNIT_WEIGHT;

/// What an entry does with its numbers.
#[derive(Clone, Copy, Debug, PartialEq, Eq)]
pub(crate) enum EntryKind {
    Adds,
    Removes,
    Grows,
}

/// The numbers of an entry: the source and the destination of its edge, or how many vertices it asks for and 0.
#[derive(Clone, Copy, Debug)]
pub(crate) struct EntryNumbers {
    first: u32,
    second: u32,
}

/// Entries in columns: their numbers, kinds and weights. An entry adds its edge if the kinds are over before it, and its weight
/// is 1 if the weights are. Contracts see the list of the entries.
#[derive(Debug)]
pub(crate) struct BatchColumns {
    numbers: Vec<EntryNumbers>,
    kinds: Vec<EntryKind>,
    weights: Weights,
}

impl Drop for BatchColumns {
    fn drop(self) {
        let BatchColumns {
            numbers: _,
            kinds: _,
            weights: _,
        } = self;
    }
}

impl Model for BatchColumns {
    ghost use Rattle.std.specs.Prelude.{List};
    ghost use Rattle.tree_batch.specs.declared.batch.Entry.{Entry};
    ghost use Rattle.tree_batch.specs.inside.BatchColumns.{entries_from};
    ghost use Rattle.tree_batch.specs.inside.Weights.{weights_in};

    ghost Value = { List Entry };

    ghost view = { λ c. entries_from 0 c.numbers.items c.kinds.items (weights_in c.weights) };
}

impl BatchColumns {
    /// No entries. They take no memory.
    pub(crate) fn new(alloc: Global) -> BatchColumns
        ensures { result ≡ [] }
    {
        BatchColumns {
            numbers: Vec::new(alloc),
            kinds: Vec::new(alloc),
            weights: Weights::new(alloc),
        }
    }

    /// Adds an entry at the end. The only error is out of memory, and it leaves the entries as they were.
    pub(crate) fn push(&mut self, entry: Entry) -> Result<(), AllocError>
        ensures ok { OnOk result (self.new ≡ self.old ++ entry ∷ []) }
        ensures err { OnErr result (self.new ≡ self.old) }
    {
        let index = self.numbers.len();
        let kind = kind_of(entry);
        put_kind(&mut self.kinds, index, kind)?;
        self.weights.put(index, weight_of(entry))?;
        self.numbers.push(numbers_of(entry))?;
        Ok(())
    }

    /// How many entries there are. It takes constant time.
    #[inline]
    pub(crate) fn len(&self) -> usize
        ensures { result ≡ length self.now }
    {
        self.numbers.len()
    }

    /// The entry at an index. It takes constant time.
    #[inline]
    pub(crate) fn entry(&self, index: usize) -> Entry
        requires { index < length self.now }
        ensures { (d : Entry) → result ≡ get_or self.now index d }
    {
        prove!(index < self.numbers.len());
        let numbers = self.numbers[index];
        match kind_at(&self.kinds, index) {
            EntryKind::Adds => Entry::Add(numbers.first, numbers.second, self.weights.at(index)),
            EntryKind::Removes => Entry::Remove(numbers.first, numbers.second),
            EntryKind::Grows => Entry::Grow(numbers.first),
        }
    }
}

impl Clone for BatchColumns {
    ghost is_clone = { λ columns copy. copy ≡ columns };

    /// A copy, which has its own memory.
    fn clone(&self) -> Result<BatchColumns, AllocError> {
        let alloc = *self.numbers.allocator();
        Ok(BatchColumns {
            numbers: Vec::from_slice(alloc, &self.numbers)?,
            kinds: Vec::from_slice(alloc, &self.kinds)?,
            weights: self.weights.clone()?,
        })
    }
}

/// What an entry does.
fn kind_of(entry: Entry) -> EntryKind
    ensures { result ≡ kind_of entry }
{
    match entry {
        Entry::Add(_, _, _) => EntryKind::Adds,
        Entry::Remove(_, _) => EntryKind::Removes,
        Entry::Grow(_) => EntryKind::Grows,
    }
}

/// The numbers of an entry.
fn numbers_of(entry: Entry) -> EntryNumbers
    ensures { result ≡ numbers_of entry }
{
    let (first, second) = match entry {
        Entry::Add(source, destination, _) | Entry::Remove(source, destination) => {
            (source, destination)
        }
        Entry::Grow(vertices) => (vertices, 0),
    };
    EntryNumbers { first, second }
}

/// The weight with which an entry adds its edge, or 1 if it adds none.
fn weight_of(entry: Entry) -> i64
    ensures { result ≡ weight_of entry }
{
    match entry {
        Entry::Add(_, _, weight) => weight,
        Entry::Remove(_, _) | Entry::Grow(_) => UNIT_WEIGHT,
    }
}

/// The kind at an index, if the kinds are not over before it.
#[inline]
fn kind_at(kinds: &[EntryKind], index: usize) -> EntryKind
    ensures { result ≡ get_or kinds.now index Adds }
{
    match kinds.get(index) {
        Some(kind) => *kind,
        None => EntryKind::Adds,
    }
}

/// Puts a kind at an index, after which the kinds are over. The kinds before it are the same. The only error is out of memory.
fn put_kind(kinds: &mut Vec<EntryKind>, index: usize, kind: EntryKind) -> Result<(), AllocError>
    ensures before { (i : ℕ) → i < index → get_or kinds.new.items i Adds ≡ get_or kinds.old.items i Adds }
    ensures put { OnOk result (get_or kinds.new.items index Adds ≡ kind) }
{
    if kind == EntryKind::Adds && kinds.len() <= index {
        return Ok(());
    }
    kinds.resize(index, EntryKind::Adds)?;
    kinds.push(kind)?;
    Ok(())
}
