//! Lists of vertices that have more neighbours than fit into a page.

ghost use Rattle.std.specs.Prelude.{◌≡◌, ◌^◌, ◌<◌, ◌≤◌, length, IfOk};
ghost use Rattle.std.specs.Map.{keys_of};
ghost use Rattle.ascending_lists.specs.Ascending.{AscendsFrom};
ghost use Rattle.vertex_blocks.specs.Forms.{listed};
ghost use Rattle.vertex_blocks.specs.inside.LongLists.{entries_in};

use crate::neighbour_set::NeighbourForm;
use crate::runs::set_of_columns;
use c_tree::{CTree, ChunkSize};
use pages::{EntryColumns, MAX_LONG, Neighbours, PackedList};
use shared_tree::Share;
use std::alloc::{AllocError, Global};
use std::marker::Model;
use std::sync::Arc;

/// A packed list that versions share. A contract sees the list.
pub(crate) struct SharedList {
    list: Arc<PackedList>,
}

impl Drop for SharedList {
    fn drop(self) {
        let SharedList { list: _ } = self;
    }
}

impl Model for SharedList {
    ghost use Rattle.std.specs.Prelude.{ℕ, ℤ, List};
    ghost use Rattle.std.specs.Arc.{arc_value};

    ghost Value = { List (ℕ × ℤ) };

    ghost view = { λ l. arc_value l.list };
}

impl SharedList {
    /// This list with one owner. The only error is out of memory.
    fn new(alloc: Global, list: PackedList) -> Result<SharedList, AllocError>
        ensures { IfOk result (λ l. l ≡ list) }
    {
        Ok(SharedList {
            list: Arc::new(alloc, list)?,
        })
    }

    /// How many neighbours there are.
    #[inline]
    fn len(&self) -> usize
        ensures len { result ≡ length self.now }
        ensures few { result ≤ MAX_LONG }
        ensures ascending { AscendsFrom 0 (keys_of self.now) }
    {
        self.list.len()
    }

    /// The neighbours where they lie.
    #[inline]
    fn lend(&self) -> Neighbours<'_>
        ensures { result ≡ self.now }
    {
        self.list.lend()
    }
}

impl Share for SharedList {
    fn share(&self) -> Result<SharedList, AllocError> {
        let list = Arc::try_clone(&self.list)?;
        Ok(SharedList { list })
    }
}

/// The neighbours of a vertex, ascending, each with a weight: packed in an array of their own, or as a
/// set in chunks.
pub(crate) enum LongList {
    Packed(SharedList),
    Chunked(CTree),
}

// By hand: a derived drop would be written out, and proved again, in each function that lets a list go.
impl Drop for LongList {
    fn drop(self) {
        match self {
            LongList::Packed(_) => {}
            LongList::Chunked(_) => {}
        }
    }
}

impl LongList {
    /// The neighbours of columns: packed where they are at most 2,048, and else a set. The only error is
    /// out of memory.
    pub(crate) fn of_columns(
        alloc: Global,
        chunk_size: ChunkSize,
        list: &EntryColumns,
    ) -> Result<LongList, AllocError>
        requires some { 0 < length list.now }
        requires ascending { AscendsFrom 0 (keys_of list.now) }
        ensures { IfOk result (λ l. entries_in l ≡ list.now) }
    {
        let (keys, weights) = list.columns();
        if keys.len() > MAX_LONG {
            let set = set_of_columns(alloc, chunk_size, list)?;
            return Ok(LongList::Chunked(set));
        }
        let packed = PackedList::new(alloc, keys, weights)?;
        Ok(LongList::Packed(SharedList::new(alloc, packed)?))
    }

    /// How many neighbours there are. It takes constant time.
    #[inline]
    pub(crate) fn len(&self) -> usize
        ensures len { result ≡ length (entries_in self.now) }
        ensures bounded { result ≤ 2 ^ 32 }
        ensures ascending { AscendsFrom 0 (keys_of (entries_in self.now)) }
    {
        match self {
            LongList::Packed(list) => list.len(),
            LongList::Chunked(set) => set.len(),
        }
    }

    /// The neighbours in the form in which they stand.
    #[inline]
    pub(crate) fn form(&self) -> NeighbourForm<'_>
        ensures { listed result ≡ entries_in self.now }
    {
        match self {
            LongList::Packed(list) => NeighbourForm::Packed(list.lend()),
            LongList::Chunked(set) => NeighbourForm::Chunked(set),
        }
    }
}

impl Share for LongList {
    /// One more owner of the same list. It takes no memory; the error comes where a count of owners is
    /// full.
    fn share(&self) -> Result<LongList, AllocError> {
        match self {
            LongList::Packed(list) => Ok(LongList::Packed(list.share()?)),
            LongList::Chunked(set) => Ok(LongList::Chunked(set.share()?)),
        }
    }
}
