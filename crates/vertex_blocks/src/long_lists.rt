//! The vertices of a block that have more neighbours than fit into its page.

ghost use Rattle.std.specs.Prelude.{◌≡◌, ℕ, ◌^◌, ◌<◌, ◌≤◌, ◌∷◌, ◌++◌, [], length, slice_range, IfOk, OnOk, MatchOption};
ghost use Rattle.std.specs.Int.{bit_at};
ghost use Rattle.ascending_lists.specs.Maps.{Rises};
ghost use Rattle.pages.specs.Vertices.{neighbours_of, count_below};
ghost use Rattle.vertex_blocks.specs.Blocks.{IsBlock, edge_total};
ghost use Rattle.vertex_blocks.specs.inside.LongLists.{entries_in};

use crate::long_list::LongList;
use pages::{rank, rank_below};
use shared_tree::Share;
use std::alloc::{AllocError, Global};
use std::marker::Model;

/// A vertex with its neighbours.
#[derive(Drop)]
pub(crate) struct LongEntry {
    vertex: u8,
    list: LongList,
}

/// Vertices below 64, ascending, each with its neighbours in a list of its own. A contract sees the lists.
pub(crate) struct LongLists {
    /// A bit for each vertex that has a list.
    present: u64,
    entries: Vec<LongEntry>,
}

// By hand: a derived drop would be written out, and proved again, in each function that lets lists go.
impl Drop for LongLists {
    fn drop(self) {
        let LongLists {
            present: _,
            entries: _,
        } = self;
    }
}

impl Model for LongLists {
    ghost use Rattle.vertex_blocks.specs.Blocks.{Block};
    ghost use Rattle.vertex_blocks.specs.inside.LongLists.{long_entries, AreLongLists};

    ghost Value = { Block };

    ghost view = { λ s. long_entries s.entries.items };

    ghost invariant = { λ s. AreLongLists s.present s.entries.items };
}

impl LongLists {
    /// No vertex, with room in advance for so many. The only error is out of memory.
    pub(crate) fn with_capacity(alloc: Global, count: usize) -> Result<LongLists, AllocError>
        ensures { IfOk result (λ s. s ≡ []) }
    {
        let entries = Vec::with_capacity(alloc, count)?;
        Ok(LongLists {
            present: 0,
            entries,
        })
    }

    /// How many vertices there are.
    pub(crate) fn len(&self) -> usize {
        self.entries.len()
    }

    /// A bit for each vertex: one whose bit is not set has no list.
    #[inline]
    pub(crate) fn present(&self) -> u64
        ensures { (u : ℕ) → u < 64 → bit_at result u ≡ 0 → neighbours_of u self.now ≡ [] }
    {
        self.present
    }

    /// The list of a vertex, if it has one.
    #[inline]
    pub(crate) fn get(&self, vertex: u32) -> Option<&LongList>
        requires { vertex < 64 }
        ensures { MatchOption result (neighbours_of vertex self.now ≡ [])
            (λ l. (entries_in l.now ≡ neighbours_of vertex self.now) × (0 < length (entries_in l.now))) }
    {
        match rank(self.present, vertex) {
            Some(index) => Some(&self.entries[index].list),
            None => None,
        }
    }

    /// How many vertices below one have a list.
    pub(crate) fn index(&self, vertex: u32) -> usize
        requires { vertex ≤ 64 }
        ensures index { result ≡ count_below vertex self.now }
        ensures long { IsBlock self.now }
    {
        rank_below(self.present, vertex)
    }

    /// How many neighbours are in all lists together.
    pub(crate) fn edge_count(&self) -> usize
        ensures count { result ≡ edge_total self.now }
        ensures few { result < 2 ^ 40 }
        ensures long { IsBlock self.now }
    {
        let mut total = 0;
        for entry in &self.entries {
            total += entry.list.len();
        }
        total
    }

    /// Adds a vertex that is above all others, with its list, which is not empty. The only error is out
    /// of memory.
    pub(crate) fn push(&mut self, vertex: u32, list: LongList) -> Result<(), AllocError>
        requires vertex { vertex < 64 }
        requires above { Rises 0 vertex self.old }
        requires some { 0 < length (entries_in list) }
        ensures { OnOk result (self.new ≡ self.old ++ (vertex, entries_in list) ∷ []) }
    {
        prove!(list.len() > 0);
        self.entries.push(LongEntry {
            vertex: vertex as u8,
            list,
        })?;
        self.present |= 1 << vertex;
        Ok(())
    }

    /// Adds the vertices of others from an index up to another, whose lists are shared. All vertices
    /// have to ascend. The only error is out of memory.
    pub(crate) fn push_run(
        &mut self,
        others: &LongLists,
        from: usize,
        to: usize,
    ) -> Result<(), AllocError>
        requires order { from ≤ to }
        requires within { to ≤ length others.now }
        requires map { Rises 0 64 (self.old ++ slice_range others.now from to) }
        ensures { OnOk result (self.new ≡ self.old ++ slice_range others.now from to) }
    {
        for entry in &others.entries[from..to] {
            self.push(u32::from(entry.vertex), entry.list.share()?)?;
        }
        Ok(())
    }
}
