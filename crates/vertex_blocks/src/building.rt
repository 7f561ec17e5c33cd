//! Blocks that are built up vertex by vertex.

ghost use Rattle.std.specs.Prelude.{◌≡◌, ℕ, ℤ, ◌<◌, ◌≤◌, [], List, IfOk, IfSome};
ghost use Rattle.std.specs.Option.{option_copied};
ghost use Rattle.std.specs.Map.{keys_of};
ghost use Rattle.ascending_lists.specs.Ascending.{AscendsFrom};
ghost use Rattle.ascending_lists.specs.Maps.{Rises};
ghost use Rattle.pages.specs.Vertices.{neighbours_of};
ghost use Rattle.pages.specs.Updates.{updated, NeighboursAscend};
ghost use Rattle.vertex_blocks.specs.Blocks.{vertices_at};
ghost use Rattle.vertex_blocks.specs.Forms.{listed};
ghost use Rattle.vertex_blocks.specs.inside.Joined.{AreApart, IsBlockOf};
ghost use Rattle.vertex_blocks.specs.inside.Steps.{IsBuilt, IsPut};

use crate::block::VertexBlock;
use crate::long_list::LongList;
use crate::long_lists::LongLists;
use crate::neighbour_set::NeighbourForm;
use crate::room::new_page;
use crate::runs::{collect, update_list, update_set};
use c_tree::{CTree, ChunkSize};
use edge_updates::Updates;
use pages::{EntryColumns, MAX_LONG, MAX_PACKED, Neighbours, Page};
use shared_tree::Share;
use std::alloc::{AllocError, Global};

/// A set is packed again where it has fewer neighbours than this.
const MIN_CHUNKED: usize = MAX_LONG / 4 * 3;

/// A vertex with a set that was made of its old one.
#[derive(Drop)]
pub(crate) struct ReadySet {
    pub(crate) vertex: u32,
    pub(crate) set: CTree,
}

/// The updates of one vertex of a block, which goes by its remainder by 64.
#[derive(Drop)]
pub(crate) struct VertexUpdates<'a> {
    pub(crate) vertex: u32,
    pub(crate) updates: Updates<'a>,
}

/// A block under construction: the vertices that came so far.
pub(crate) struct Building {
    page: Page,
    long: LongLists,
    /// That of a set that begins.
    chunk_size: ChunkSize,
}

impl Drop for Building {
    fn drop(self) {
        let Building {
            page: _,
            long: _,
            chunk_size: _,
        } = self;
    }
}

impl Building {
    /// No vertex, with room for those of a block after updates.
    pub(crate) fn new(
        alloc: Global,
        old: Option<&VertexBlock>,
        updates: &Updates<'_>,
        chunk_size: ChunkSize,
    ) -> Result<Building, AllocError>
        ensures page { IfOk result (λ b. b.page ≡ []) }
        ensures long { IfOk result (λ b. b.long ≡ []) }
    {
        let long_count = match old {
            Some(block) => block.parts().1.len(),
            None => 0,
        };
        Ok(Building {
            page: new_page(alloc, old, updates)?,
            long: LongLists::with_capacity(alloc, long_count)?,
            chunk_size,
        })
    }

    /// Adds the vertices of an old block from one up to another. The lists of the page are copied and
    /// those of their own are shared. The only error is out of memory.
    pub(crate) fn carry(
        &mut self,
        old: Option<&VertexBlock>,
        low: u32,
        high: u32,
    ) -> Result<(), AllocError>
        requires order { low ≤ high }
        requires within { high ≤ 64 }
        requires built { (f : ℕ → List (ℕ × ℤ)) × IsBuilt f low self.old.page self.old.long }
        ensures { IfOk result (λ _. (f : ℕ → List (ℕ × ℤ)) → IsBuilt f low self.old.page self.old.long
            → ((u : ℕ) → low ≤ u → u < high
            → f u ≡ neighbours_of u (vertices_at (option_copied old.entry)))
            → IsBuilt f high self.new.page self.new.long) }
    {
        let Some(block) = old else {
            return Ok(());
        };
        let (page, long) = block.parts();
        self.page.push_run(page, page.index(low), page.index(high))?;
        self.long.push_run(long, long.index(low), long.index(high))
    }

    /// Adds a vertex that is above all others, with the list that updates make of its old one, for which
    /// `list` gives the room, or with the set that is ready for it. The only error is out of memory.
    pub(crate) fn push_updated(
        &mut self,
        alloc: Global,
        old: Option<&VertexBlock>,
        run: &VertexUpdates<'_>,
        ready: Option<&ReadySet>,
        list: &mut EntryColumns,
    ) -> Result<(), AllocError>
        requires vertex { run.now.vertex < 64 }
        requires above_page { Rises 0 run.now.vertex self.old.page }
        requires above_long { Rises 0 run.now.vertex self.old.long }
        requires updates { NeighboursAscend 0 run.now.updates }
        requires ready { IfSome (option_copied ready) (λ r. r.vertex ≡ run.now.vertex → r.set.entries
            ≡ updated (neighbours_of run.now.vertex (vertices_at (option_copied old))) run.now.updates) }
        ensures { IfOk result (λ _. IsPut run.now.vertex
            (updated (neighbours_of run.now.vertex (vertices_at (option_copied old.entry))) run.now.updates)
            self.old.page self.old.long self.new.page self.new.long) }
    {
        let (vertex, updates) = (run.vertex, &run.updates);
        match form_at(old, vertex) {
            NeighbourForm::Packed(old_list) => {
                update_list(&old_list, updates, list)?;
                self.push_list(alloc, vertex, list)
            }
            NeighbourForm::Chunked(set) => {
                let after = set_after(alloc, set, vertex, updates, ready)?;
                self.push_set(alloc, vertex, after, list)
            }
        }
    }

    /// Adds a vertex that is above all others, with its list if it is not empty: in the page, or above
    /// 256 neighbours as a list of its own. The only error is out of memory.
    fn push_list(
        &mut self,
        alloc: Global,
        vertex: u32,
        list: &EntryColumns,
    ) -> Result<(), AllocError>
        requires vertex { vertex < 64 }
        requires above_page { Rises 0 vertex self.old.page }
        requires above_long { Rises 0 vertex self.old.long }
        requires ascending { AscendsFrom 0 (keys_of list.now) }
        ensures { IfOk result (λ _. IsPut vertex list.now
            self.old.page self.old.long self.new.page self.new.long) }
    {
        let (keys, weights) = list.columns();
        let count = keys.len();
        if count > MAX_PACKED {
            let long = LongList::of_columns(alloc, self.chunk_size, list)?;
            return self.long.push(vertex, long);
        }
        if count == 0 {
            return Ok(());
        }
        self.page.push(vertex, keys, weights)
    }

    /// Adds a vertex that is above all others, with its set if it is not empty: packed where it is
    /// small, and then `list` gives the room. The only error is out of memory.
    fn push_set(
        &mut self,
        alloc: Global,
        vertex: u32,
        set: CTree,
        list: &mut EntryColumns,
    ) -> Result<(), AllocError>
        requires vertex { vertex < 64 }
        requires above_page { Rises 0 vertex self.old.page }
        requires above_long { Rises 0 vertex self.old.long }
        ensures { IfOk result (λ _. IsPut vertex set.entries
            self.old.page self.old.long self.new.page self.new.long) }
    {
        if set.len() >= MIN_CHUNKED {
            return self.long.push(vertex, LongList::Chunked(set));
        }
        collect(&set, list)?;
        self.push_list(alloc, vertex, list)
    }

    /// The block of the vertices that came, or `None` where there is none. The only error is out of
    /// memory.
    pub(crate) fn into_block(self, alloc: Global) -> Result<Option<VertexBlock>, AllocError>
        requires { AreApart self.page self.long }
        ensures { IfOk result (IsBlockOf self.page self.long) }
    {
        let Building {
            page,
            long,
            chunk_size: _,
        } = self;
        VertexBlock::new(alloc, page, long)
    }
}

/// The set that is ready for a vertex, or else the one that updates make of another. The only error is
/// out of memory.
fn set_after(
    alloc: Global,
    set: &CTree,
    vertex: u32,
    updates: &Updates<'_>,
    ready: Option<&ReadySet>,
) -> Result<CTree, AllocError>
    requires updates { NeighboursAscend 0 updates.now }
    requires ready { IfSome (option_copied ready) (λ r. r.vertex ≡ vertex → r.set.entries
        ≡ updated set.now.entries updates.now) }
    ensures { IfOk result (λ t. t.entries ≡ updated set.now.entries updates.now) }
{
    match ready {
        Some(made) if made.vertex == vertex => made.set.share(),
        _ => update_set(alloc, set, updates),
    }
}

/// The neighbours of a vertex in a block, if there is one, in the form in which they stand.
pub(crate) fn form_at(old: Option<&VertexBlock>, vertex: u32) -> NeighbourForm<'_>
    requires { vertex < 64 }
    ensures { listed result ≡ neighbours_of vertex (vertices_at (option_copied old.entry)) }
{
    match old {
        Some(block) => block.form(vertex),
        None => NeighbourForm::Packed(Neighbours::none()),
    }
}
