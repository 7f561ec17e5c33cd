//! Trees and updates cut where half of the updates are on either side.

ghost use Rattle.std.specs.Prelude.{◌≤◌, length, take, drop, IfOk, IfSome};
ghost use Rattle.std.specs.Map.{keys_of};
ghost use Rattle.shared_tree.specs.Changes.{IsSplit};
ghost use Rattle.edge_updates.specs.Updates.{Ascend};
ghost use Rattle.tree_batch.specs.inside.BlockCuts.{AreBelow, BeginsFrom};
ghost use Rattle.tree_batch.specs.inside.Forking.{AreAround};

use crate::cuts::cut_length;
use edge_updates::Updates;
use pages::BLOCK_SIZE;
use shared_tree::Tree;
use std::alloc::{AllocError, Global};
use vertex_blocks::VertexBlock;

/// A tree, and updates of its vertices.
pub(crate) struct Half<'a> {
    pub(crate) tree: Tree<VertexBlock>,
    pub(crate) updates: Updates<'a>,
}

impl Drop for Half<'_> {
    fn drop(self) {
        let Half {
            tree: _,
            updates: _,
        } = self;
    }
}

/// The updates of a block, with the block that is there, and what is below and above its number.
pub(crate) struct Middle<'a> {
    pub(crate) below: Half<'a>,
    pub(crate) number: u32,
    pub(crate) found: Option<VertexBlock>,
    pub(crate) updates: Updates<'a>,
    pub(crate) above: Half<'a>,
    /// Whether the block has more than half of the updates.
    pub(crate) is_heavy: bool,
}

impl Drop for Middle<'_> {
    fn drop(self) {
        let Middle {
            below: _,
            number: _,
            found: _,
            updates: _,
            above: _,
            is_heavy: _,
        } = self;
    }
}

/// A tree and updates whose edges ascend, cut at the block of the update in the middle, or `None` where
/// there is no update.
pub(crate) fn cut_at_middle<'a>(
    alloc: Global,
    tree: &Tree<VertexBlock>,
    updates: &Updates<'a>,
) -> Result<Option<Middle<'a>>, AllocError>
    requires { Ascend (keys_of updates.now) }
    ensures { IfOk result (λ o. IfSome o (AreAround tree.now.entries updates.now)) }
{
    let half = updates.len() / 2;
    if half >= updates.len() {
        return Ok(None);
    }
    let middle = updates.update(half).vertex() / BLOCK_SIZE;
    let (below, rest) = updates.split_at(count_below(updates, middle));
    let Some(first) = rest.first() else {
        return Ok(None);
    };
    let number = first.vertex() / BLOCK_SIZE;
    let (block, above) = rest.split_at(cut_length(&rest, number));
    let (lower, found, upper) = split_at(alloc, tree, number)?;
    let is_heavy = block.len() > half;
    Ok(Some(Middle {
        below: Half {
            tree: lower,
            updates: below,
        },
        number,
        found,
        updates: block,
        above: Half {
            tree: upper,
            updates: above,
        },
        is_heavy,
    }))
}

/// The tree of the blocks below this one, the block if there is one, and the tree of those above.
fn split_at(
    alloc: Global,
    tree: &Tree<VertexBlock>,
    number: u32,
) -> Result<(Tree<VertexBlock>, Option<VertexBlock>, Tree<VertexBlock>), AllocError>
    ensures { IfOk result (λ p. IsSplit number tree.now.entries p.0.entries p.1 p.2.entries) }
{
    tree.split(alloc, number).map_err(|_| AllocError)
}

/// How many updates in front are of blocks below this one.
fn count_below(updates: &Updates<'_>, block: u32) -> usize
    ensures bounded { result ≤ length updates.now }
    ensures below { AreBelow block (take result updates.now) }
    ensures rest { BeginsFrom block (drop result updates.now) }
{
    let mut count = 0;
    while count < updates.len() {
        if updates.update(count).vertex() / BLOCK_SIZE >= block {
            return count;
        }
        count += 1;
    }
    count
}
