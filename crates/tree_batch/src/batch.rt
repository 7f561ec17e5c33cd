//! Batches of edges to add and to remove.

ghost use Rattle.std.specs.Prelude.{◌≡◌, ◌↔◌, ◌<◌, ◌++◌, [], ◌∷◌, IfErr, IsTrue, OnOk, OnErr, get_or, length};
ghost use Rattle.std.specs.List.{list_any};
ghost use Rattle.tree_batch.specs.declared.batch.Entry.{Entry};
ghost use Rattle.tree_batch.specs.declared.error.GraphError.TheVariants.{NoMemory};
ghost use Rattle.tree_batch.specs.Edge.{count_asked, entry_misfits, has_weight, misfits, named_by, vertices_after};

use crate::batch_columns::BatchColumns;
use crate::batch_iter::BatchIter;
use crate::error::GraphError;
use crate::graph::MAX_VERTICES;
use std::alloc::{AllocError, Global};
use std::marker::Model;
use weighted_edges::UNIT_WEIGHT;

/// One change of a batch: an edge, by its source and its destination, to add with a weight or to
/// remove, or how many vertices the graph has from then on.
#[derive(Clone, Copy, Debug, PartialEq, Eq)]
pub enum Entry {
    Add(u32, u32, i64),
    Remove(u32, u32),
    Grow(u32),
}

impl Entry {
    /// The source and the destination of the edge that the entry names, or `None` where it names none.
    pub fn ends(self) -> Option<(u32, u32)>
        ensures { result ≡ named_by self }
    {
        match self {
            Entry::Add(source, destination, _) | Entry::Remove(source, destination) => {
                Some((source, destination))
            }
            Entry::Grow(_) => None,
        }
    }

    /// How many vertices the entry asks for, or 0.
    fn asked(self) -> u32
        ensures { result ≡ count_asked self }
    {
        match self {
            Entry::Grow(vertices) => vertices,
            Entry::Add(_, _, _) | Entry::Remove(_, _) => 0,
        }
    }

    /// Whether the entry adds its edge with a weight other than 1.
    fn has_weight(self) -> bool
        ensures { result ≡ has_weight self }
    {
        match self {
            Entry::Add(_, _, weight) => weight != UNIT_WEIGHT,
            Entry::Remove(_, _) | Entry::Grow(_) => false,
        }
    }

    /// Whether the entry does not fit a batch by which a graph of `before` vertices gets `after`.
    fn misfits(self, before: u32, after: u32) -> bool
        ensures { result ≡ entry_misfits before after self }
    {
        match self {
            Entry::Add(source, destination, _) | Entry::Remove(source, destination) => {
                source >= after || destination >= after
            }
            Entry::Grow(vertices) => vertices < before || vertices > MAX_VERTICES,
        }
    }
}

/// Changes that are made together. For each edge that a batch names, its last entry that names
/// the edge decides. Of the numbers of vertices that it asks for, the greatest counts, wherever it
/// is.
///
/// An entry takes 8 bytes, one more from the first entry on that adds no edge, and one or eight more from the first weight
/// on that is not 1.
#[derive(Debug)]
pub struct Batch {
    entries: BatchColumns,
    /// The most vertices that an entry asks for, or 0.
    asked: u32,
    /// Whether some edge is added with a weight other than 1.
    weighted: bool,
}

// By hand: a derived drop would be written out, and proved again, in each function that lets a batch go.
impl Drop for Batch {
    fn drop(self) {
        let Batch {
            entries: _,
            asked: _,
            weighted: _,
        } = self;
    }
}

impl Model for Batch {
    ghost use Rattle.std.specs.Prelude.{◌≡◌, List};
    ghost use Rattle.tree_batch.specs.declared.batch.Entry.{Entry};
    ghost use Rattle.std.specs.List.{list_any};
    ghost use Rattle.tree_batch.specs.Edge.{has_weight, most_asked};

    ghost Value = { List Entry };

    ghost view = { λ b. b.entries };

    ghost invariant = { λ b. (b.asked ≡ most_asked b.entries)
        × (b.weighted ≡ list_any has_weight b.entries) };
}

impl Clone for Batch {
    ghost is_clone = { λ batch copy. copy ≡ batch };

    /// A batch with the same entries.
    fn clone(&self) -> Result<Batch, AllocError> {
        Ok(Batch {
            entries: self.entries.clone()?,
            asked: self.asked,
            weighted: self.weighted,
        })
    }
}

impl Batch {
    /// A batch with no entry. It takes no memory.
    pub fn new(alloc: Global) -> Batch
        ensures { result ≡ [] }
    {
        Batch {
            entries: BatchColumns::new(alloc),
            asked: 0,
            weighted: false,
        }
    }

    /// Adds an entry at the end. The only error is `NoMemory`, and it leaves the batch as it was.
    ///
    /// # Example
    ///
    /// ```
    /// let mut batch = Batch::new(alloc);
    /// batch.push(Entry::Add(vertex - 1, vertex, weight))?;
    /// ```
    #[tactic(auto, using(crate::proofs::Deciding::most_pushed, crate::proofs::Deciding::weighted_pushed))]
    pub fn push(&mut self, entry: Entry) -> Result<(), GraphError>
        ensures ok { OnOk result (self.new ≡ self.old ++ entry ∷ []) }
        ensures err { OnErr result (self.new ≡ self.old) }
        ensures no_memory { IfErr result (λ e. e ≡ NoMemory) }
    {
        self.entries.push(entry)?;
        self.asked = self.asked.max(entry.asked());
        self.weighted = self.weighted || entry.has_weight();
        Ok(())
    }

    /// How many entries there are. It takes constant time.
    #[inline]
    pub fn len(&self) -> usize
        ensures { result ≡ length self.now }
    {
        self.entries.len()
    }

    /// Whether there is no entry. It takes constant time.
    pub fn is_empty(&self) -> bool
        ensures { IsTrue result ↔ (self.now ≡ []) }
    {
        self.len() == 0
    }

    /// The entry at an index, which is below the length. It takes constant time.
    #[inline]
    pub fn entry(&self, index: usize) -> Entry
        requires { index < length self.now }
        ensures { (d : Entry) → result ≡ get_or self.now index d }
    {
        self.entries.entry(index)
    }

    /// The entries in the order in which they were pushed. It takes no memory.
    ///
    /// # Example
    ///
    /// ```
    /// for entry in batch.iter() {
    /// ```
    pub fn iter(&self) -> BatchIter<'_>
        ensures { result ≡ self.now }
    {
        BatchIter::new(self)
    }

    /// Whether some edge is added with a weight other than 1. It takes constant time.
    pub fn is_weighted(&self) -> bool
        ensures { result ≡ list_any has_weight self.now }
    {
        self.weighted
    }

    /// How many vertices a graph with this many has after the batch. It takes constant time.
    pub fn vertices_after(&self, vertices: u32) -> u32
        ensures { result ≡ vertices_after vertices self.now }
    {
        vertices.max(self.asked)
    }

    /// Whether a graph with this many vertices refuses the batch: an entry names a vertex that the graph
    /// does not have after the batch, or asks for fewer vertices than there are or for more than
    /// 16,777,216.
    pub fn misfits(&self, vertices: u32) -> bool
        ensures { result ≡ misfits vertices self.now }
    {
        let after = self.vertices_after(vertices);
        for index in 0..self.len() {
            if self.entry(index).misfits(vertices, after) {
                return true;
            }
        }
        false
    }
}
