//! Pages of the neighbours of 64 vertices: what is in one, look-ups, and building one up.

ghost use Rattle.std.specs.Prelude.{◌≡◌, ℕ, ◌+◌, ◌<◌, ◌≤◌, ◌↔◌, ◌∷◌, ◌++◌, [], length, slice_range, IfOk, OnOk, OnErr, IsTrue};
ghost use Rattle.std.specs.Int.{bit_at};
ghost use Rattle.ascending_lists.specs.Ascending.{AscendsFrom};
ghost use Rattle.ascending_lists.specs.Maps.{Rises};
ghost use Rattle.edge_updates.specs.Weighted.{weighted};
ghost use Rattle.pages.specs.Vertices.{neighbours_of, count_below, IsPage};

use crate::appending::{PADDING, copy, start_of, store};
use crate::entry::{ListEntry, list_of};
use crate::index::{rank, rank_below, with_marks};
use crate::iter::PageIter;
use crate::neighbours::Neighbours;
use std::alloc::{AllocError, Global};
use std::marker::Model;

/// How many vertices a block of a graph has.
pub const BLOCK_SIZE: u32 = 64;

/// How many neighbours a vertex has at most in a page.
pub const MAX_PACKED: usize = 256;

/// The neighbours of 64 vertices, each with a weight. A contract sees the vertices that are present,
/// ascending, each with its neighbours and their weights.
pub struct Page {
    /// A bit for each vertex that is present.
    present: u64,
    entries: Vec<ListEntry>,
    /// The lists, and three bytes of padding.
    bytes: Vec<u8>,
}

// By hand: a derived drop would be written out, and proved again, in each function that lets a page go.
impl Drop for Page {
    fn drop(self) {
        let Page {
            present: _,
            entries: _,
            bytes: _,
        } = self;
    }
}

impl Model for Page {
    ghost use Rattle.std.specs.Prelude.{ℕ, ℤ, List};
    ghost use Rattle.pages.specs.inside.Entries.{lists_in, IsStored};

    ghost Value = { List (ℕ × List (ℕ × ℤ)) };

    ghost view = { λ p. lists_in p.bytes.items p.entries.items };

    ghost invariant = { λ p. IsStored p.present p.bytes.items p.entries.items };
}

impl Page {
    /// How many vertices are present. It takes constant time.
    #[inline]
    pub fn len(&self) -> usize
        ensures count { result ≡ length self.now }
        ensures page { IsPage self.now }
    {
        self.entries.len()
    }

    /// Whether no vertex is present. It takes constant time.
    #[inline]
    pub fn is_empty(&self) -> bool
        ensures { IsTrue result ↔ (self.now ≡ []) }
    {
        self.len() == 0
    }

    /// A bit for each vertex: one whose bit is not set has no neighbour. It takes constant time.
    #[inline]
    pub fn present(&self) -> u64
        ensures { (u : ℕ) → u < 64 → bit_at result u ≡ 0 → neighbours_of u self.now ≡ [] }
    {
        self.present
    }

    /// The neighbours of a vertex, none where it is not present. It takes constant time.
    #[inline]
    pub fn list(&self, vertex: u32) -> Neighbours<'_>
        requires { vertex < 64 }
        ensures { result ≡ neighbours_of vertex self.now }
    {
        match rank(self.present, vertex) {
            Some(index) => list_of(&self.bytes, self.entries[index]),
            None => Neighbours::none(),
        }
    }

    /// How many neighbours a vertex has, none where it is not present. It takes constant time.
    #[inline]
    pub fn degree(&self, vertex: u32) -> u32
        requires { vertex < 64 }
        ensures { result ≡ length (neighbours_of vertex self.now) }
    {
        match rank(self.present, vertex) {
            Some(index) => u32::from(self.entries[index].last) + 1,
            None => 0,
        }
    }

    /// How many vertices below one are present, which is the index at which it stands or would stand.
    /// It takes constant time.
    #[inline]
    pub fn index(&self, vertex: u32) -> usize
        requires { vertex ≤ 64 }
        ensures index { result ≡ count_below vertex self.now }
        ensures page { IsPage self.now }
    {
        rank_below(self.present, vertex)
    }

    /// A page of no vertex.
    ///
    /// The only error is out of memory.
    pub fn new(alloc: Global) -> Result<Page, AllocError>
        ensures { IfOk result (λ p. p ≡ []) }
    {
        Page::with_capacity(alloc, 0, 0)
    }

    /// A page of no vertex, with room in advance for n vertices and so many bytes of lists: a
    /// list takes 4 bytes, 1 to 4 more for each neighbour after its first, and where not all weights
    /// are 1, 1 to 8 more for each neighbour.
    ///
    /// The only error is out of memory.
    pub fn with_capacity(alloc: Global, vertices: usize, size: usize) -> Result<Page, AllocError>
        ensures { IfOk result (λ p. p ≡ []) }
    {
        let entries = Vec::with_capacity(alloc, vertices)?;
        let mut bytes = Vec::with_capacity(alloc, size.saturating_add(PADDING))?;
        bytes.resize(PADDING, 0)?;
        Ok(Page {
            present: 0,
            entries,
            bytes,
        })
    }

    /// A page of no vertex, with room in advance for this one after n updates.
    ///
    /// The only error is out of memory.
    pub fn with_room(&self, alloc: Global, updates: usize) -> Result<Page, AllocError>
        ensures empty { IfOk result (λ p. p ≡ []) }
        ensures page { IsPage self.now }
    {
        let vertices = self
            .entries
            .len()
            .saturating_add(updates)
            .min(BLOCK_SIZE as usize);
        let size = updates.saturating_mul(8).saturating_add(self.bytes.len());
        Page::with_capacity(alloc, vertices, size)
    }

    /// Adds a vertex that is above all others, with its neighbours and their weights; where the weights
    /// are over, all are 1. It takes time in proportion to the neighbours. The only error is out of
    /// memory, and then the page is as it was.
    pub fn push(&mut self, vertex: u32, keys: &[u32], weights: &[i64]) -> Result<(), AllocError>
        requires vertex { vertex < 64 }
        requires above { Rises 0 vertex self.old }
        requires some { 0 < length keys.now }
        requires few { length keys.now ≤ MAX_PACKED }
        requires ascending { AscendsFrom 0 keys.now }
        ensures ok { OnOk result (self.new ≡ self.old
            ++ (vertex, weighted keys.now weights.now) ∷ []) }
        ensures err { OnErr result (self.new ≡ self.old) }
    {
        store(&mut self.entries, &mut self.bytes, vertex, keys, weights)?;
        self.present |= 1 << vertex;
        Ok(())
    }

    /// Adds the vertices of another page from an index up to another, with their neighbours, whose
    /// bytes are copied whole. All vertices have to ascend. The only error is out of memory, and then
    /// the page is as it was.
    pub fn push_run(&mut self, page: &Page, from: usize, to: usize) -> Result<(), AllocError>
        requires order { from ≤ to }
        requires within { to ≤ length page.now }
        requires map { Rises 0 64 (self.old ++ slice_range page.now from to) }
        ensures ok { OnOk result (self.new ≡ self.old ++ slice_range page.now from to) }
        ensures err { OnErr result (self.new ≡ self.old) }
    {
        let (lists, bytes) = (page.entries.as_slice(), page.bytes.as_slice());
        let (start, stop) = (start_of(lists, bytes, from), start_of(lists, bytes, to));
        let run = &lists[from..to];
        copy(&mut self.entries, &mut self.bytes, run, bytes, start, stop)?;
        self.present = with_marks(self.present, run);
        Ok(())
    }

    /// The vertices that are present, ascending, each with its neighbours. A step takes constant
    /// time.
    #[inline]
    pub fn iter(&self) -> PageIter<'_>
        ensures { result ≡ self.now }
    {
        PageIter::new(&self.entries, &self.bytes)
    }
}

impl Clone for Page {
    ghost is_clone = { λ page copy. copy ≡ page };

    /// A copy of the page. It takes time in proportion to its bytes.
    ///
    /// The only error is out of memory.
    fn clone(&self) -> Result<Page, AllocError> {
        let alloc = *self.bytes.allocator();
        Ok(Page {
            present: self.present,
            entries: Vec::from_slice(alloc, &self.entries)?,
            bytes: Vec::from_slice(alloc, &self.bytes)?,
        })
    }
}
