//! Pages that updates make of others.

ghost use Rattle.std.specs.Prelude.{◌≡◌, ℕ, ◌+◌, ◌<◌, ◌≤◌, ◌++◌, length, slice_range, IfOk};
ghost use Rattle.ascending_lists.specs.Ascending.{AscendsFrom};
ghost use Rattle.ascending_lists.specs.Maps.{Rises};
ghost use Rattle.edge_updates.specs.Weighted.{weighted};
ghost use Rattle.pages.specs.Vertices.{neighbours_of, count_below};
ghost use Rattle.pages.specs.Updates.{updated, updates_of, NeighboursAscend, EdgesAscend};
ghost use Rattle.pages.specs.inside.Built.{entry_of};

use crate::columns::EntryColumns;
use crate::page::{BLOCK_SIZE, MAX_PACKED, Page};
use crate::updates::{merge, run_length};
use edge_updates::Updates;
use std::alloc::{AllocError, Global};

impl Page {
    /// The page that updates make of this one, which stays as it is. They ascend by edge, where a
    /// vertex goes by its number in the page, its remainder by 64: updates of one block that ascend
    /// do so ([`blocks_ascend`](crate::blocks_ascend)). A vertex whose last neighbour is removed is not
    /// present, and one that gets its first is. An added edge gets the update's weight, also where it
    /// was there. The bytes of lists that do not change are copied whole. It takes time in proportion to
    /// the page.
    ///
    /// The only error is out of memory.
    pub fn apply(&self, alloc: Global, updates: &Updates<'_>) -> Result<Page, AllocError>
        requires updates { EdgesAscend 0 updates.now }
        requires few { (u : ℕ) → u < 64
            → length (updated (neighbours_of u self.now) (updates_of u updates.now)) ≤ MAX_PACKED }
        ensures { IfOk result (λ p. (u : ℕ) → u < 64
            → neighbours_of u p ≡ updated (neighbours_of u self.now) (updates_of u updates.now)) }
    {
        let mut page = self.with_room(alloc, updates.len())?;
        let mut list = EntryColumns::with_capacity(alloc, MAX_PACKED)?;
        let (mut low, mut rest) = (0, updates.lend());
        while let Some(first) = rest.first() {
            let vertex = first.vertex() % BLOCK_SIZE;
            let (run, others) = rest.split_at(run_length(&rest, vertex));
            page.push_updated(self, low, vertex, &run, &mut list)?;
            low = vertex + 1;
            rest = others;
        }
        page.push_run(self, self.index(low), self.index(BLOCK_SIZE))?;
        Ok(page)
    }

    /// Adds the vertices of an old page from one up to another, and then that one with the list that
    /// updates make of its old one, for which `list` gives the room. The only error is out of memory.
    fn push_updated(
        &mut self,
        old: &Page,
        low: u32,
        vertex: u32,
        updates: &Updates<'_>,
        list: &mut EntryColumns,
    ) -> Result<(), AllocError>
        requires order { low ≤ vertex }
        requires vertex { vertex < 64 }
        requires map { Rises 0 vertex (self.old ++ slice_range old.now (count_below low old.now)
            (count_below vertex old.now)) }
        requires updates { NeighboursAscend 0 updates.now }
        requires few { length (updated (neighbours_of vertex old.now) updates.now) ≤ MAX_PACKED }
        ensures { IfOk result (λ _. self.new ≡ self.old
            ++ slice_range old.now (count_below low old.now) (count_below vertex old.now)
            ++ entry_of vertex (updated (neighbours_of vertex old.now) updates.now)) }
    {
        self.push_run(old, old.index(low), old.index(vertex))?;
        merge(&old.list(vertex), updates, list)?;
        let (keys, weights) = list.columns();
        self.push_any(vertex, keys, weights)
    }

    /// Adds a vertex that is above all others, with its neighbours if it has some. The only error is
    /// out of memory.
    fn push_any(&mut self, vertex: u32, keys: &[u32], weights: &[i64]) -> Result<(), AllocError>
        requires vertex { vertex < 64 }
        requires above { Rises 0 vertex self.old }
        requires few { length keys.now ≤ MAX_PACKED }
        requires ascending { AscendsFrom 0 keys.now }
        ensures { IfOk result (λ _. self.new ≡ self.old
            ++ entry_of vertex (weighted keys.now weights.now)) }
    {
        if keys.is_empty() {
            return Ok(());
        }
        self.push(vertex, keys, weights)?;
        Ok(())
    }
}
