//! Pulls to the vertices of a block of 64, those whose bits are set in a word.
ghost use Rattle.std.specs.Prelude.{◌≡◌, ℕ, ◌^◌, ◌<◌, ◌++◌, [], OnOk};
ghost use Rattle.std.specs.Int.{bit_at};
ghost use Rattle.pages.specs.Vertices.{neighbours_of};
ghost use Rattle.edge_apply.specs.Words.{passes_words};
ghost use Rattle.pull_engine.specs.inside.Blocks.{block_changes};

use crate::source_block::SourceBlock;
use crate::source_folds::SourceFold;
use edge_fold::push_change;
use flat_snapshot::Flat;
use pages::BLOCK_SIZE;
use std::alloc::AllocError;
use vectors::{EntryChange, Lane};
use vertex_blocks::{NeighbourForm, VertexBlock};

/// What the blocks of a pull have in common: the graph, the entries before it, and the words of the sources that pass.
#[derive(Clone, Copy)]
pub(crate) struct BlockPull<'a> {
    pub(crate) flat: &'a Flat,
    pub(crate) old: Lane<'a>,
    pub(crate) from: Option<&'a [u64]>,
}

/// Adds what a pull changes at those vertices of a block whose bits are set in a word, ascending. The block is found once,
/// and only vertices that have sources are gone over. The only error is out of memory.
pub(crate) fn pull_block<F: SourceFold>(
    pull: BlockPull<'_>,
    block: u32,
    word: u64,
    fold: &F,
    room: &mut SourceBlock,
    changes: &mut Vec<EntryChange>,
) -> Result<(), AllocError>
    requires block { block < 2 ^ 26 }
    requires serves { F.serves fold.now (passes_words pull.from) }
    ensures { OnOk result (changes.new.items ≡ changes.old.items
        ++ block_changes pull.entry (F.reduction fold.now) (F.number fold.now) block word) }
{
    let Some(found) = pull.flat.in_block(block) else {
        return Ok(());
    };
    let mut left = word & present_in(found);
    'vertices: while left != 0 {
        let vertex = left.trailing_zeros();
        left &= left - 1;
        let destination = block * BLOCK_SIZE + vertex;
        let before = pull.old.get(destination as usize);
        let number = match found.neighbours(vertex).into_form() {
            NeighbourForm::Packed(list) => fold.fold_packed(before, list, pull.from, room),
            NeighbourForm::Chunked(set) => fold.fold_chunked(before, set, pull.from, room),
        };
        push_change(destination, before, number, changes)?;
    }
    Ok(())
}

/// A bit for each vertex of a block: one whose bit is not set has no neighbour.
#[inline(always)]
pub(crate) fn present_in(found: &VertexBlock) -> u64
    ensures { (u : ℕ) → u < 64 → bit_at result u ≡ 0 → neighbours_of u found.now ≡ [] }
{
    let (page, own) = found.packed();
    page.present() | own
}
