//! Updates of blocks.

ghost use Rattle.std.specs.Prelude.{◌≡◌, IfOk, IfSome};
ghost use Rattle.std.specs.Option.{option_copied};
ghost use Rattle.pages.specs.Updates.{updates_of, NeighboursAscend, EdgesAscend};
ghost use Rattle.vertex_blocks.specs.Changes.{IsBlockAfter};
ghost use Rattle.vertex_blocks.specs.inside.Steps.{IsBuilt, list_after};

use crate::block::VertexBlock;
use crate::building::{Building, ReadySet, VertexUpdates, form_at};
use crate::neighbour_set::NeighbourForm;
use crate::runs::update_set_forked;
use c_tree::ChunkSize;
use edge_updates::Updates;
use pages::{BLOCK_SIZE, EntryColumns, MAX_PACKED, run_length};
use set_ops::{Fork, Forking};
use shared_tree::ValueChange;
use std::alloc::{AllocError, Global};
use std::marker::Model;
use std::thread::Threads;

/// Updates of the vertices of one block that ascend by edge, each with a weight for the edge if it is
/// added, and the chunk size of a set that begins. A vertex goes by its remainder by 64.
#[derive(Drop)]
pub struct BlockUpdates<'a> {
    updates: Updates<'a>,
    chunk_size: ChunkSize,
}

impl<'a> Model for BlockUpdates<'a> {
    ghost use Rattle.pages.specs.Updates.{EdgesAscend};
    ghost use Rattle.vertex_blocks.specs.Changes.{BlockChange};

    ghost Value = { BlockChange };

    ghost view = { λ b. record { updates = b.updates; chunk_size = b.chunk_size } };

    ghost invariant = { λ b. EdgesAscend 0 b.updates };
}

impl<'a> BlockUpdates<'a> {
    /// These updates of one block, which ascend by edge
    /// ([`blocks_ascend`](pages::blocks_ascend)).
    pub fn new(updates: Updates<'a>, chunk_size: ChunkSize) -> BlockUpdates<'a>
        requires { EdgesAscend 0 updates }
        ensures updates { result.updates ≡ updates.entry }
        ensures chunk_size { result.chunk_size ≡ chunk_size }
    {
        BlockUpdates {
            updates,
            chunk_size,
        }
    }

    /// How many updates there are.
    pub fn len(&self) -> usize {
        self.updates.len()
    }

    /// The block after the updates, as [`ValueChange::change`] gives it. Where a vertex whose
    /// neighbours are a set has more than half of the updates, halves of the set go to two threads as
    /// `forking` says.
    ///
    /// The only error is out of memory.
    pub fn change_forked<R: Threads + Sync, F: Fork + Sync>(
        &self,
        rt: &R,
        alloc: Global,
        old: Option<&VertexBlock>,
        forking: &Forking<'_, F>,
    ) -> Result<Option<VertexBlock>, AllocError>
        ensures { IfOk result (λ new. IsBlockAfter self.now (option_copied old.entry) new) }
    {
        let ready = ready_set(rt, alloc, old, &self.updates, forking)?;
        self.change_with(alloc, old, ready.as_ref())
    }

    /// The block after the updates, with the set that is ready for a vertex. The only error is out of
    /// memory.
    fn change_with(
        &self,
        alloc: Global,
        old: Option<&VertexBlock>,
        ready: Option<&ReadySet>,
    ) -> Result<Option<VertexBlock>, AllocError>
        requires { IfSome (option_copied ready) (λ r. r.set.entries
            ≡ list_after self.now.updates (option_copied old) r.vertex) }
        ensures { IfOk result (λ new. IsBlockAfter self.now (option_copied old.entry) new) }
    {
        build(alloc, old, &self.updates, self.chunk_size, ready)?.into_block(alloc)
    }
}

/// The set after updates, where halves may go to two threads, of a vertex that has more than half of
/// them, or `None` where no vertex has a set and so many. The only error is out of memory.
fn ready_set<R: Threads + Sync, F: Fork + Sync>(
    rt: &R,
    alloc: Global,
    old: Option<&VertexBlock>,
    updates: &Updates<'_>,
    forking: &Forking<'_, F>,
) -> Result<Option<ReadySet>, AllocError>
    requires { EdgesAscend 0 updates.now }
    ensures { IfOk result (λ ready. IfSome ready (λ r. r.set.entries
        ≡ list_after updates.now (option_copied old.entry) r.vertex)) }
{
    let middle = updates.len() / 2;
    if forking.forks == 0 || middle == 0 {
        return Ok(None);
    }
    let vertex = updates.update(middle).vertex() % BLOCK_SIZE;
    let run = updates_at(updates, vertex);
    match form_at(old, vertex) {
        NeighbourForm::Chunked(set) if run.len() > middle => {
            let set = update_set_forked(rt, alloc, set, &run, forking)?;
            Ok(Some(ReadySet { vertex, set }))
        }
        _ => Ok(None),
    }
}

/// The updates of a vertex.
fn updates_at<'a>(updates: &Updates<'a>, vertex: u32) -> Updates<'a>
    requires updates { EdgesAscend 0 updates.now }
    ensures run { result ≡ updates_of vertex updates.now }
    ensures ascending { NeighboursAscend 0 result }
{
    let mut start = 0;
    while start < updates.len() && updates.update(start).vertex() % BLOCK_SIZE < vertex {
        start += 1;
    }
    let (_, rest) = updates.split_at(start);
    let (run, _) = rest.split_at(run_length(&rest, vertex));
    run
}

/// All vertices of a block after updates, with the set that is ready for a vertex. The only error is out
/// of memory.
fn build(
    alloc: Global,
    old: Option<&VertexBlock>,
    updates: &Updates<'_>,
    chunk_size: ChunkSize,
    ready: Option<&ReadySet>,
) -> Result<Building, AllocError>
    requires updates { EdgesAscend 0 updates.now }
    requires ready { IfSome (option_copied ready) (λ r. r.set.entries
        ≡ list_after updates.now (option_copied old) r.vertex) }
    ensures { IfOk result (λ b.
        IsBuilt (list_after updates.now (option_copied old.entry)) 64 b.page b.long) }
{
    let mut building = Building::new(alloc, old, updates, chunk_size)?;
    let mut list = EntryColumns::with_capacity(alloc, MAX_PACKED)?;
    let (mut low, mut rest) = (0, updates.lend());
    while let Some(first) = rest.first() {
        let vertex = first.vertex() % BLOCK_SIZE;
        let (run, others) = rest.split_at(run_length(&rest, vertex));
        building.carry(old, low, vertex)?;
        let run = VertexUpdates {
            vertex,
            updates: run,
        };
        building.push_updated(alloc, old, &run, ready, &mut list)?;
        low = vertex + 1;
        rest = others;
    }
    building.carry(old, low, BLOCK_SIZE)?;
    Ok(building)
}

impl ValueChange<VertexBlock> for BlockUpdates<'_> {
    ghost use Rattle.vertex_blocks.specs.Blocks.{edge_total};
    ghost use Rattle.vertex_blocks.specs.Changes.{IsBlockAfter};

    ghost makes = { IsBlockAfter };

    ghost weight = { edge_total };

    fn change(
        &self,
        alloc: Global,
        old: Option<&VertexBlock>,
    ) -> Result<Option<VertexBlock>, AllocError> {
        self.change_with(alloc, old, None)
    }

    fn weigh(value: &VertexBlock) -> usize
        ensures { result ≡ edge_total value.now }
    {
        value.edge_count()
    }
}
