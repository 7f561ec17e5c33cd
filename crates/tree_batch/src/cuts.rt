//! What a batch says, by blocks of vertices.

ghost use Rattle.std.specs.Prelude.{◌≤◌, ◌/◌, length, take, drop, IfOk};
ghost use Rattle.std.specs.Map.{keys_of};
ghost use Rattle.edge_updates.specs.Updates.{Ascend};
ghost use Rattle.pages.specs.Updates.{AreOfBlock};
ghost use Rattle.tree_batch.specs.inside.BlockCuts.{AreCut, BeginsElsewhere};
ghost use Rattle.tree_batch.specs.inside.Forking.{IsChangedTree};

use c_tree::ChunkSize;
use edge_updates::Updates;
use pages::BLOCK_SIZE;
use shared_tree::{Changed, Tree};
use std::alloc::{AllocError, Global};
use vertex_blocks::{BlockUpdates, VertexBlock};

/// The tree after updates whose edges ascend.
pub(crate) fn changed(
    alloc: Global,
    tree: &Tree<VertexBlock>,
    updates: &Updates<'_>,
    chunk_size: ChunkSize,
) -> Result<Changed<VertexBlock>, AllocError>
    requires { Ascend (keys_of updates.now) }
    ensures { IfOk result (λ c. IsChangedTree updates.now tree.now.entries c) }
{
    let changes = cut_by_block(alloc, updates, chunk_size)?;
    Ok(tree.change_all(alloc, &changes)?)
}

/// Updates whose edges ascend, by blocks: each block that they name, ascending, with its updates.
fn cut_by_block<'a>(
    alloc: Global,
    updates: &Updates<'a>,
    chunk_size: ChunkSize,
) -> Result<Vec<(u32, BlockUpdates<'a>)>, AllocError>
    requires { Ascend (keys_of updates.now) }
    ensures { IfOk result (λ v. AreCut updates.now v.items) }
{
    let mut changes = Vec::new(alloc);
    let mut rest = updates.lend();
    while let Some(first) = rest.first() {
        let block = first.vertex() / BLOCK_SIZE;
        let (cut, after) = rest.split_at(cut_length(&rest, block));
        changes.push((block, BlockUpdates::new(cut, chunk_size)))?;
        rest = after;
    }
    Ok(changes)
}

/// How many updates in front are of this block.
pub(crate) fn cut_length(updates: &Updates<'_>, block: u32) -> usize
    ensures bounded { result ≤ length updates.now }
    ensures cut { AreOfBlock block (take result updates.now) }
    ensures rest { BeginsElsewhere block (drop result updates.now) }
{
    let mut count = 0;
    while count < updates.len() {
        if updates.update(count).vertex() / BLOCK_SIZE != block {
            return count;
        }
        count += 1;
    }
    count
}
