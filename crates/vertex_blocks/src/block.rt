//! Blocks of 64 vertices with their neighbours, each with a weight.

ghost use Rattle.std.specs.Prelude.{◌≡◌, ℕ, ◌<◌, ◌^◌, ◌++◌, length, IfOk};
ghost use Rattle.std.specs.Int.{bit_at};
ghost use Rattle.pages.specs.Vertices.{neighbours_of, IsPage};
ghost use Rattle.vertex_blocks.specs.Blocks.{IsBlock, edge_total};
ghost use Rattle.vertex_blocks.specs.Forms.{listed};
ghost use Rattle.vertex_blocks.specs.inside.Joined.{IsMadeOf, IsBlockOf, AreApart};

use crate::block_iter::BlockIter;
use crate::long_lists::LongLists;
use crate::neighbour_set::{NeighbourForm, NeighbourSet};
use pages::Page;
use shared_tree::Share;
use std::alloc::{AllocError, Global};
use std::marker::Model;
use std::sync::Arc;

/// The neighbours of 64 vertices, each with a weight. A contract sees the vertices that have some,
/// ascending, each with its neighbours and their weights.
pub struct VertexBlock {
    parts: Arc<Parts>,
}

impl Drop for VertexBlock {
    fn drop(self) {
        let VertexBlock { parts: _ } = self;
    }
}

/// The lists that are packed together, and those of their own. No vertex is in both.
pub(crate) struct Parts {
    page: Page,
    long: LongLists,
    edge_count: usize,
}

impl Drop for Parts {
    fn drop(self) {
        let Parts {
            page: _,
            long: _,
            edge_count: _,
        } = self;
    }
}

impl Model for VertexBlock {
    ghost use Rattle.std.specs.Arc.{arc_value};
    ghost use Rattle.vertex_blocks.specs.Blocks.{Block};
    ghost use Rattle.vertex_blocks.specs.inside.Joined.{joined, CanJoin};

    ghost Value = { Block };

    ghost view = { λ b. joined (arc_value b.parts).page (arc_value b.parts).long };

    ghost invariant = { λ b. CanJoin (arc_value b.parts).page (arc_value b.parts).long
        (arc_value b.parts).edge_count };
}

impl VertexBlock {
    /// The block of a page and of lists of their own, or `None` where both are empty. The only error is
    /// out of memory.
    pub(crate) fn new(
        alloc: Global,
        page: Page,
        long: LongLists,
    ) -> Result<Option<VertexBlock>, AllocError>
        requires { AreApart page long }
        ensures { IfOk result (IsBlockOf page long) }
    {
        let edge_count = packed_edges(&page) + long.edge_count();
        if edge_count == 0 {
            return Ok(None);
        }
        let parts = Parts {
            page,
            long,
            edge_count,
        };
        Ok(Some(VertexBlock {
            parts: Arc::new(alloc, parts)?,
        }))
    }

    /// The lists that are packed together, and those of their own.
    #[inline]
    pub(crate) fn parts(&self) -> (&Page, &LongLists)
        ensures { IsMadeOf self.now result.0.now result.1.now }
    {
        let parts = &*self.parts;
        (&parts.page, &parts.long)
    }

    /// The page, and a bit for each vertex, set for those that have a list of their own: any other vertex has the list
    /// that is in the page. It takes constant time and no memory.
    #[inline]
    pub fn packed(&self) -> (&Page, u64)
        ensures { (u : ℕ) → u < 64 → bit_at result.1 u ≡ 0
            → neighbours_of u result.0.now ≡ neighbours_of u self.now }
    {
        let (page, long) = self.parts();
        (page, long.present())
    }

    /// The neighbours of a vertex, in the form in which they stand.
    #[inline]
    pub(crate) fn form(&self, vertex: u32) -> NeighbourForm<'_>
        requires { vertex < 64 }
        ensures { listed result ≡ neighbours_of vertex self.now }
    {
        let (page, long) = self.parts();
        match long.get(vertex) {
            Some(list) => list.form(),
            None => NeighbourForm::Packed(page.list(vertex)),
        }
    }

    /// The neighbours of a vertex with their weights, by its number in the block. It takes constant time and no memory.
    #[inline]
    pub fn neighbours(&self, vertex: u32) -> NeighbourSet<'_>
        requires { vertex < 64 }
        ensures { result ≡ neighbours_of vertex self.now }
    {
        NeighbourSet::new(self.form(vertex))
    }

    /// How many neighbours a vertex has, by its number in the block. It takes constant time and no
    /// memory.
    #[inline]
    pub fn degree(&self, vertex: u32) -> usize
        requires { vertex < 64 }
        ensures { result ≡ length (neighbours_of vertex self.now) }
    {
        let (page, long) = self.parts();
        match long.get(vertex) {
            Some(list) => list.len(),
            None => page.degree(vertex) as usize,
        }
    }

    /// How many neighbours all vertices have together. It takes constant time and no memory.
    pub fn edge_count(&self) -> usize
        ensures count { result ≡ edge_total self.now }
        ensures block { IsBlock self.now }
    {
        self.parts.edge_count
    }

    /// The vertices that have neighbours, ascending, each by its number in the block. It takes no
    /// memory, and all its steps together take time in proportion to 64.
    pub fn iter(&self) -> BlockIter<'_>
        ensures vertices { result ≡ self.now }
        ensures block { IsBlock self.now }
    {
        let _ = &self.parts;
        BlockIter::new(self)
    }
}

impl Share for VertexBlock {
    /// One more owner of the same block. It takes no memory; the error comes where the count of owners
    /// is full.
    fn share(&self) -> Result<VertexBlock, AllocError> {
        let parts = Arc::try_clone(&self.parts)?;
        Ok(VertexBlock { parts })
    }
}

/// How many neighbours are in all lists of a page together.
fn packed_edges(page: &Page) -> usize
    ensures count { result ≡ edge_total page.now }
    ensures few { result < 2 ^ 40 }
    ensures page { IsPage page.now }
{
    prove!(page.len() <= 64);
    let mut total = 0;
    for (_, list) in page.iter() {
        total += list.len();
    }
    total
}
