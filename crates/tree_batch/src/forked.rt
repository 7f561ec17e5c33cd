//! The pass over a tree of blocks by halves that go to two threads.

ghost use Rattle.std.specs.Prelude.{ℕ, ℤ, ◌+◌, ◌<◌, ◌≤◌, ◌≡◌, List, IfOk};
ghost use Rattle.std.specs.Option.{option_copied};
ghost use Rattle.std.specs.Map.{keys_of};
ghost use denote.Param.Send.{IsSync};
ghost use Rattle.shared_tree.specs.inside.ChangedMaps.{weight_at};
ghost use Rattle.shared_tree.specs.ChangedMaps.{GrewBy};
ghost use Rattle.edge_updates.specs.declared.edge_update.EdgeUpdate.{EdgeUpdate};
ghost use Rattle.edge_updates.specs.Updates.{Ascend};
ghost use Rattle.edge_updates.specs.Weighted.{weighted};
ghost use Rattle.pages.specs.Updates.{EdgesAscend};
ghost use Rattle.vertex_blocks.specs.Blocks.{Block, edge_total};
ghost use Rattle.tree_batch.specs.inside.Forking.{IsChangedTree, IsChangedBlock, AreSides, AreAround, CanRejoin};

use crate::cuts::changed;
use crate::middle::{Middle, cut_at_middle};
use c_tree::ChunkSize;
use edge_updates::Updates;
use set_ops::{Fork, Forking};
use shared_tree::{Changed, Tree, ValueChange, join_around};
use std::alloc::{AllocError, Global};
use std::thread::{self, Threads};
use vertex_blocks::{BlockUpdates, VertexBlock};

/// The tree after updates whose edges ascend, with halves on two threads as `forking` says.
/// Where one block has more than half of the updates, that block goes by halves.
#[cycle(forked)]
pub(crate) fn change_forked<R: Threads + Sync, F: Fork + Sync>(
    rt: &R,
    alloc: Global,
    tree: &Tree<VertexBlock>,
    updates: &Updates<'_>,
    chunk_size: ChunkSize,
    forking: &Forking<'_, F>,
) -> Result<Changed<VertexBlock>, AllocError>
    requires order { Ascend (keys_of updates.now) }
    requires few { forking.now.forks + forking.now.level ≤ 7 }
    ensures { IfOk result (λ c. IsChangedTree updates.now tree.now.entries c) }
{
    if forking.forks == 0 {
        return changed(alloc, tree, updates, chunk_size);
    }
    let Some(middle) = cut_at_middle(alloc, tree, updates)? else {
        return changed(alloc, tree, updates, chunk_size);
    };
    let (below, above) = sides(rt, alloc, &middle, chunk_size, forking)?;
    let block = block_after(rt, alloc, &middle, chunk_size, forking)?;
    rejoin(alloc, &middle, below, block, above)
}

/// Both sides of a block, each on a thread of its own where the block has no more than half of the
/// updates.
#[cycle(forked)]
fn sides<R: Threads + Sync, F: Fork + Sync>(
    rt: &R,
    alloc: Global,
    middle: &Middle<'_>,
    chunk_size: ChunkSize,
    forking: &Forking<'_, F>,
) -> Result<(Changed<VertexBlock>, Changed<VertexBlock>), AllocError>
    requires left { 0 < forking.now.forks }
    requires few { forking.now.forks + forking.now.level ≤ 7 }
    requires below { Ascend (keys_of middle.now.below.updates) }
    requires above { Ascend (keys_of middle.now.above.updates) }
    ensures { IfOk result (λ p. AreSides middle.now p.0 p.1) }
{
    if middle.is_heavy {
        return sides_alone(alloc, middle, chunk_size);
    }
    in_two(rt, alloc, middle, chunk_size, forking)
}

/// Both sides of a block, one after the other.
fn sides_alone(
    alloc: Global,
    middle: &Middle<'_>,
    chunk_size: ChunkSize,
) -> Result<(Changed<VertexBlock>, Changed<VertexBlock>), AllocError>
    requires below { Ascend (keys_of middle.now.below.updates) }
    requires above { Ascend (keys_of middle.now.above.updates) }
    ensures { IfOk result (λ p. AreSides middle.now p.0 p.1) }
{
    let below = changed(alloc, &middle.below.tree, &middle.below.updates, chunk_size)?;
    let above = changed(alloc, &middle.above.tree, &middle.above.updates, chunk_size)?;
    Ok((below, above))
}

/// Both sides of a block, each on a thread of its own.
#[cycle(forked)]
fn in_two<R: Threads + Sync, F: Fork + Sync>(
    rt: &R,
    alloc: Global,
    middle: &Middle<'_>,
    chunk_size: ChunkSize,
    forking: &Forking<'_, F>,
) -> Result<(Changed<VertexBlock>, Changed<VertexBlock>), AllocError>
    requires left { 0 < forking.now.forks }
    requires few { forking.now.forks + forking.now.level ≤ 7 }
    requires below { Ascend (keys_of middle.now.below.updates) }
    requires above { Ascend (keys_of middle.now.above.updates) }
    ensures { IfOk result (λ p. AreSides middle.now p.0 p.1) }
{
    let (forks, level, fork) = (forking.forks, forking.level, forking.fork);
    let (lower, upper) = (&middle.below.tree, &middle.above.tree);
    let (lower_updates, lower_weights) = middle.below.updates.columns();
    let (upper_updates, upper_weights) = middle.above.updates.columns();
    let (below, above) = thread::join(
        rt,
        || -> Result<Changed<VertexBlock>, AllocError>
            requires { IsSync R.row × IsSync F.row × (0 < forks) × (forks + level ≤ 7)
                × Ascend (keys_of (weighted lower_updates.now lower_weights.now)) }
            ensures { IfOk result (λ c. IsChangedTree
                (weighted lower_updates.entry.now lower_weights.entry.now) lower.entry.now.entries c) }
        {
            fork.enter(level, false);
            let updates = Updates::new(lower_updates, lower_weights);
            let deeper = Forking {
                forks: forks - 1,
                level: level + 1,
                fork,
            };
            change_forked(rt, alloc, lower, &updates, chunk_size, &deeper)
        },
        || -> Result<Changed<VertexBlock>, AllocError>
            requires { IsSync R.row × IsSync F.row × (0 < forks) × (forks + level ≤ 7)
                × Ascend (keys_of (weighted upper_updates.now upper_weights.now)) }
            ensures { IfOk result (λ c. IsChangedTree
                (weighted upper_updates.entry.now upper_weights.entry.now) upper.entry.now.entries c) }
        {
            fork.enter(level, true);
            let updates = Updates::new(upper_updates, upper_weights);
            let deeper = Forking {
                forks: forks - 1,
                level: level + 1,
                fork,
            };
            change_forked(rt, alloc, upper, &updates, chunk_size, &deeper)
        },
    );
    Ok((below?, above?))
}

/// The block in the middle.
fn block_after<R: Threads + Sync, F: Fork + Sync>(
    rt: &R,
    alloc: Global,
    middle: &Middle<'_>,
    chunk_size: ChunkSize,
    forking: &Forking<'_, F>,
) -> Result<Option<VertexBlock>, AllocError>
    requires { EdgesAscend 0 middle.now.updates }
    ensures { IfOk result (IsChangedBlock middle.now.updates middle.now.found) }
{
    let found = middle.found.as_ref();
    let updates = BlockUpdates::new(middle.updates.lend(), chunk_size);
    if middle.is_heavy {
        Ok(updates.change_forked(rt, alloc, found, forking)?)
    } else {
        Ok(updates.change(alloc, found)?)
    }
}

/// The tree of both sides and the block between them.
fn rejoin(
    alloc: Global,
    middle: &Middle<'_>,
    below: Changed<VertexBlock>,
    block: Option<VertexBlock>,
    above: Changed<VertexBlock>,
) -> Result<Changed<VertexBlock>, AllocError>
    requires { CanRejoin middle.now below block above }
    ensures { IfOk result (λ c. (bs : List (ℕ × Block)) (us : List (EdgeUpdate × ℤ))
        → Ascend (keys_of us) → AreAround bs us middle.now → IsChangedTree us bs c) }
{
    let growth = growth(middle.found.as_ref(), block.as_ref());
    let tree = join_around(alloc, below.tree, middle.number, block, above.tree)?;
    let growth = growth.wrapping_add(below.growth.wrapping_add(above.growth));
    Ok(Changed { tree, growth })
}

/// How many more edges the new block has than the old one, modulo 2^64.
fn growth(old: Option<&VertexBlock>, new: Option<&VertexBlock>) -> usize
    ensures { GrewBy (weight_at edge_total (option_copied old.entry)) result
        (weight_at edge_total (option_copied new.entry)) }
{
    edge_count(new).wrapping_sub(edge_count(old))
}

/// How many edges there are.
fn edge_count(block: Option<&VertexBlock>) -> usize
    ensures { result ≡ weight_at edge_total (option_copied block.entry) }
{
    match block {
        Some(block) => block.edge_count(),
        None => 0,
    }
}
