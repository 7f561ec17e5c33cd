//! Packed lists of destinations, read by index.
ghost use Rattle.std.specs.Prelude.{◌≡◌};

use edge_fold::NeighbourEntries;
use vertex_blocks::Neighbours;

/// The destinations of a packed list, with the weights of their edges.
#[derive(Drop)]
pub(crate) struct ListEntries<'a, 'b> {
    pub(crate) list: &'a Neighbours<'b>,
}

impl NeighbourEntries for ListEntries<'_, '_> {
    ghost entries = { λ l. l.list.now };

    #[inline(always)]
    fn len(&self) -> usize {
        self.list.len()
    }

    #[inline(always)]
    fn neighbour(&self, index: usize) -> u32 {
        self.list.neighbour(index)
    }

    #[inline(always)]
    fn weight(&self, index: usize) -> i64 {
        self.list.weight(index)
    }
}
