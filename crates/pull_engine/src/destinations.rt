//! Going over the destinations of an apply.
ghost use Rattle.std.specs.Prelude.{◌≡◌, ℕ, ◌-◌, ◌*◌, ◌^◌, ◌<◌, ◌≤◌, ◌++◌, Bool, true, false, List, length, OnOk};
ghost use Rattle.std.specs.List.{filter, range_with_len};
ghost use Rattle.weighted_edges.specs.Edge.{Edge};
ghost use Rattle.kernels.specs.declared.columns.TheConstants.{PAIRS};
ghost use Rattle.kernels.specs.FunctionStatementTree.{FunctionStatementsTree};
ghost use Rattle.kernels.specs.State.{StateValue};
ghost use Rattle.edge_fold.specs.Ends.{IsEndTest};
ghost use Rattle.edge_fold.specs.Folded.{IsContextOf, HasFolded};
ghost use Rattle.edge_fold.specs.Contributions.{column};
ghost use Rattle.flat_snapshot.specs.Neighbours.{sources_of};
ghost use Rattle.vertex_blocks.specs.Forms.{listed};
ghost use Rattle.pull_engine.specs.Columns.{columns, passing};
ghost use Rattle.pull_engine.specs.inside.Lets.{IsInBits, lets};
ghost use Rattle.pull_engine.specs.inside.Words.{in_word};
ghost use Rattle.edge_apply.specs.Words.{passes_words};

use crate::block_ranges::{blocks_below, range_word};
use crate::blocks::present_in;
use crate::destination_words::DestinationWords;
use crate::ranges::PullRange;
use crate::source_block::SourceBlock;
use edge_apply::{keep_members, keep_members_weighted};
use edge_fold::{ApplyContext, Scratch};
use flat_snapshot::Flat;
use pages::BLOCK_SIZE;
use std::alloc::{AllocError, Global};
use vertex_blocks::{NeighbourForm, NeighbourWalk, SetWalk};

/// What columns are folded of: the functions, and the edges from the sources whose bits are set. Words that are not given
/// let all sources through.
#[derive(Clone, Copy)]
pub(crate) struct ColumnInput<'a> {
    pub(crate) flat: &'a Flat,
    pub(crate) context: ApplyContext<'a>,
    pub(crate) from: Option<&'a [u64]>,
}

/// Folds the edges to those vertices of a range that pass, in place of what was folded before. It goes over blocks of 64
/// vertices, each with a word for those that are destinations. The only error is out of memory.
pub(crate) fn fold_range(
    alloc: Global,
    range: PullRange<'_>,
    scratch: &mut Scratch,
) -> Result<(), AllocError>
    requires { range.low ≤ range.high }
    ensures { OnOk result ((m : StateValue) (steps : List FunctionStatementsTree) (test : ℕ → Bool) → IsContextOf range.entry.context m steps → IsEndTest range.entry.to m test
        → HasFolded range.entry.context m steps
        (columns (passes_words range.entry.from) range.entry.flat.now.edges (filter test (range_with_len range.entry.low (range.entry.high - range.entry.low)))) scratch.new) }
{
    let to = range.destinations(alloc, scratch)?;
    scratch.begin();
    let input = ColumnInput {
        flat: range.flat,
        context: range.context,
        from: range.from,
    };
    let mut room = SourceBlock::new();
    let first = range.low / BLOCK_SIZE;
    let stop = blocks_below(range.high);
    'rounds: for block in first..stop {
        let word = range_word(block, range.low, range.high) & to.word(block);
        fold_block(alloc, input, block, word, &mut room, scratch)?;
    }
    Ok(())
}

/// Folds the edges to those vertices of a block whose bits are set in a word. Only vertices that have sources are gone over.
fn fold_block(
    alloc: Global,
    input: ColumnInput<'_>,
    block: u32,
    word: u64,
    room: &mut SourceBlock,
    scratch: &mut Scratch,
) -> Result<(), AllocError>
    requires { block < 2 ^ 26 }
    ensures { OnOk result ((m : StateValue) (steps : List FunctionStatementsTree) (edges : List Edge) → IsContextOf input.entry.context m steps
        → HasFolded input.entry.context m steps edges scratch.old
        → HasFolded input.entry.context m steps (edges ++ columns (passes_words input.entry.from) input.entry.flat.now.edges
        (filter (in_word (64 * block) word) (range_with_len (64 * block) 64))) scratch.new) }
{
    let Some(found) = input.flat.in_block(block) else {
        return Ok(());
    };
    let mut left = word & present_in(found);
    'vertices: while left != 0 {
        let destination = block * BLOCK_SIZE + left.trailing_zeros();
        left &= left - 1;
        fold_column(alloc, input, destination, room, scratch)?;
    }
    Ok(())
}

/// Folds the edges to a destination.
#[inline]
fn fold_column(
    alloc: Global,
    input: ColumnInput<'_>,
    destination: u32,
    room: &mut SourceBlock,
    scratch: &mut Scratch,
) -> Result<(), AllocError>
    ensures { OnOk result ((m : StateValue) (steps : List FunctionStatementsTree) (edges : List Edge) → IsContextOf input.entry.context m steps
        → HasFolded input.entry.context m steps edges scratch.old
        → HasFolded input.entry.context m steps (edges ++ column destination
        (passing (passes_words input.entry.from) (sources_of destination input.entry.flat.now.edges))) scratch.new) }
{
    match input.flat.in_set(destination).into_form() {
        NeighbourForm::Packed(list) => {
            fold_walk(alloc, input, list.ascending(), destination, room, scratch)
        }
        NeighbourForm::Chunked(set) => {
            fold_walk(alloc, input, SetWalk::new(set), destination, room, scratch)
        }
    }
}

/// Folds the edges from the sources of a walk to a destination. Whether a function reads weights is asked once for all sources: if
/// none does, no weight is read.
#[inline]
fn fold_walk<W: NeighbourWalk + Drop>(
    alloc: Global,
    input: ColumnInput<'_>,
    mut walk: W,
    destination: u32,
    room: &mut SourceBlock,
    scratch: &mut Scratch,
) -> Result<(), AllocError>
    ensures { OnOk result ((m : StateValue) (steps : List FunctionStatementsTree) (edges : List Edge) → IsContextOf input.entry.context m steps
        → HasFolded input.entry.context m steps edges scratch.old
        → HasFolded input.entry.context m steps (edges ++ column destination (passing (passes_words input.entry.from) (W.coming walk))) scratch.new) }
{
    if input.context.weighted {
        return fold_weighted_walk(alloc, input, walk, destination, room, scratch);
    }
    'rounds: while walk.len() > 0 {
        let count = walk.fill(&mut room.sources);
        let kept = keep_members(input.from, &mut room.sources, count);
        scratch.fold_into(alloc, input.context, &room.sources[..kept], destination)?;
    }
    Ok(())
}

/// Folds the edges from the sources of a walk to a destination, with their weights.
#[inline]
fn fold_weighted_walk<W: NeighbourWalk + Drop>(
    alloc: Global,
    input: ColumnInput<'_>,
    mut walk: W,
    destination: u32,
    room: &mut SourceBlock,
    scratch: &mut Scratch,
) -> Result<(), AllocError>
    requires { input.context.weighted ≡ true }
    ensures { OnOk result ((m : StateValue) (steps : List FunctionStatementsTree) (edges : List Edge) → IsContextOf input.entry.context m steps
        → HasFolded input.entry.context m steps edges scratch.old
        → HasFolded input.entry.context m steps (edges ++ column destination (passing (passes_words input.entry.from) (W.coming walk))) scratch.new) }
{
    'rounds: while walk.len() > 0 {
        let count = walk.fill_weighted(&mut room.sources, &mut room.weights);
        let kept = keep_members_weighted(input.from, &mut room.sources, &mut room.weights, count);
        let lent = &room.weights[..kept];
        scratch.fold_into_weighted(
            alloc,
            input.context,
            &room.sources[..kept],
            lent,
            destination,
        )?;
    }
    Ok(())
}
