//! Going over the sources of an apply.
ghost use Rattle.std.specs.Prelude.{◌≡◌, ℕ, ◌+◌, ◌*◌, ◌%◌, ◌^◌, ◌<◌, ◌≤◌, ◌==◌, ◌++◌, Bool, false, true, List, [], drop, length, take, IfOk, OnOk};
ghost use Rattle.std.specs.Int.{bit_at};
ghost use Rattle.std.specs.List.{filter, range_with_len};
ghost use Rattle.std.specs.Map.{keys_of};
ghost use Rattle.std.specs.Option.{option_copied};
ghost use Rattle.weighted_edges.specs.Edge.{Edge};
ghost use Rattle.kernels.specs.FunctionStatementTree.{FunctionStatementsTree};
ghost use Rattle.kernels.specs.EdgeApply.{is_member};
ghost use Rattle.kernels.specs.State.{StateValue};
ghost use Rattle.edge_fold.specs.Between.{edges_between};
ghost use Rattle.edge_fold.specs.Ends.{IsTest};
ghost use Rattle.edge_fold.specs.Folded.{IsContextOf, HasFolded};
ghost use Rattle.edge_fold.specs.Contributions.{row};
ghost use Rattle.flat_snapshot.specs.Neighbours.{destinations_of};
ghost use Rattle.edge_apply.specs.Words.{is_set, passes_words};
ghost use Rattle.pages.specs.Vertices.{neighbours_of};
ghost use Rattle.vertex_blocks.specs.Blocks.{vertices_at};
ghost use Rattle.push_engine.specs.inside.PushEnds.{AreTests, IsInBits};
ghost use Rattle.push_engine.specs.inside.Rows.{rows_to};

use crate::list_entries::ListEntries;
use crate::neighbour_block::NeighbourBlock;
use edge_apply::{keep_members, keep_members_weighted, passes, take_part};
use edge_fold::{ApplyContext, Scratch};
use flat_snapshot::Flat;
use kernels::{EndpointFilter, PAIRS};
use pages::BLOCK_SIZE;
use std::alloc::{AllocError, Global};
use vertex_blocks::{
    ByWidth, CTree, NeighbourForm, NeighbourWalk, Neighbours, SetWalk, VertexBlock,
};
use vertex_sets::VertexSet;

/// What rows are folded of: the functions, and the edges to the destinations whose bits are set. Words that are not given
/// let all destinations through.
#[derive(Clone, Copy)]
pub(crate) struct RowInput<'a> {
    pub(crate) flat: &'a Flat,
    pub(crate) context: ApplyContext<'a>,
    pub(crate) to: Option<&'a [u64]>,
}

/// Folds the edges from the sources whose bits are set, a block of 64 after the other; words that are not given let all sources
/// through.
pub(crate) fn fold_words(
    alloc: Global,
    input: RowInput<'_>,
    words: Option<&[u64]>,
    block: &mut NeighbourBlock,
    scratch: &mut Scratch,
) -> Result<(), AllocError>
    ensures { OnOk result ((m : StateValue) (steps : List FunctionStatementsTree) → IsContextOf input.entry.context m steps → HasFolded input.entry.context m steps [] scratch.old
        → HasFolded input.entry.context m steps (edges_between (passes_words words.entry) (passes_words input.entry.to) input.entry.flat.now.edges)
        scratch.new) }
{
    let stop = input.flat.vertices() / BLOCK_SIZE + 1;
    'rounds: for number in 0..stop {
        fold_block(alloc, input, words, number, block, scratch)?;
    }
    Ok(())
}

/// Folds the edges from those sources of a block of 64 whose bits are set. Only vertices that have edges are gone over.
fn fold_block(
    alloc: Global,
    input: RowInput<'_>,
    words: Option<&[u64]>,
    number: u32,
    block: &mut NeighbourBlock,
    scratch: &mut Scratch,
) -> Result<(), AllocError>
    requires { number < 2 ^ 26 }
    ensures { OnOk result ((m : StateValue) (steps : List FunctionStatementsTree) (edges : List Edge) → IsContextOf input.entry.context m steps
        → HasFolded input.entry.context m steps edges scratch.old
        → HasFolded input.entry.context m steps (edges ++ rows_to (passes_words input.entry.to) input.entry.flat.now.edges
        (filter (passes_words words.entry) (range_with_len (64 * number) 64))) scratch.new) }
{
    let Some(found) = input.flat.out_block(number) else {
        return Ok(());
    };
    let mut left = word_at(words, number) & present_in(found);
    'vertices: while left != 0 {
        let source = number * BLOCK_SIZE + left.trailing_zeros();
        left &= left - 1;
        fold_row(alloc, input, source, Some(found), block, scratch)?;
    }
    Ok(())
}

/// The word of a block, in which a bit is set for each vertex that passes.
#[inline(always)]
fn word_at(words: Option<&[u64]>, number: u32) -> u64
    ensures { (i : ℕ) → i < 64 → (bit_at result i == 1) ≡ passes_words words.entry (64 * number + i) }
{
    match words {
        None => u64::MAX,
        Some(given) => given_word(given, number),
    }
}

/// The word of a block among words that are given, and 0 after the last of them.
#[inline(always)]
fn given_word(words: &[u64], number: u32) -> u64
    ensures { (i : ℕ) → i < 64 → (bit_at result i == 1) ≡ is_set words.now (64 * number + i) }
{
    match words.get(number as usize) {
        Some(word) => *word,
        None => 0,
    }
}

/// A bit for each vertex of a block: one whose bit is not set has no neighbour.
#[inline(always)]
fn present_in(found: &VertexBlock) -> u64
    ensures { (u : ℕ) → u < 64 → bit_at result u ≡ 0 → neighbours_of u found.now ≡ [] }
{
    let (page, own) = found.packed();
    page.present() | own
}

/// Folds the edges from the sources that an end lets through: from the members of a set, or from those of all vertices that a
/// filter lets through.
pub(crate) fn fold_end(
    alloc: Global,
    input: RowInput<'_>,
    from: EndpointFilter<'_>,
    block: &mut NeighbourBlock,
    scratch: &mut Scratch,
) -> Result<(), AllocError>
    ensures { OnOk result ((m : StateValue) (steps : List FunctionStatementsTree) (test : ℕ → Bool) → IsContextOf input.entry.context m steps → IsTest from.entry m test
        → HasFolded input.entry.context m steps [] scratch.old
        → HasFolded input.entry.context m steps (edges_between test (passes_words input.entry.to) input.entry.flat.now.edges)
        scratch.new) }
{
    match from {
        EndpointFilter::Members(set) => fold_members(alloc, input, set, block, scratch),
        EndpointFilter::Filter(_) => fold_passing(alloc, input, from, block, scratch),
    }
}

/// Folds the edges from the members of a set.
pub(crate) fn fold_members(
    alloc: Global,
    input: RowInput<'_>,
    set: &VertexSet,
    block: &mut NeighbourBlock,
    scratch: &mut Scratch,
) -> Result<(), AllocError>
    ensures { OnOk result ((m : StateValue) (steps : List FunctionStatementsTree) (from : ℕ → Bool) → IsContextOf input.entry.context m steps
        → ((v : ℕ) → from v ≡ is_member v set.now.members)
        → HasFolded input.entry.context m steps [] scratch.old
        → HasFolded input.entry.context m steps (edges_between from (passes_words input.entry.to) input.entry.flat.now.edges)
        scratch.new) }
{
    'sources: for source in set.iter() {
        let found = input.flat.out_block(source / BLOCK_SIZE);
        fold_row(alloc, input, source, found, block, scratch)?;
    }
    Ok(())
}

/// Folds the edges from the sources that an end lets through. Each vertex with an edge is tested once.
pub(crate) fn fold_passing(
    alloc: Global,
    input: RowInput<'_>,
    from: EndpointFilter<'_>,
    block: &mut NeighbourBlock,
    scratch: &mut Scratch,
) -> Result<(), AllocError>
    ensures { OnOk result ((m : StateValue) (steps : List FunctionStatementsTree) (test : ℕ → Bool) → IsContextOf input.entry.context m steps → IsTest from.entry m test
        → HasFolded input.entry.context m steps [] scratch.old
        → HasFolded input.entry.context m steps (edges_between test (passes_words input.entry.to) input.entry.flat.now.edges)
        scratch.new) }
{
    let mut sources = input.flat.sources();
    let mut part = Vec::new(alloc);
    let mut kept = Vec::new(alloc);
    'parts: loop {
        take_part(&mut sources, &mut part)?;
        if part.is_empty() {
            return Ok(());
        }
        kept.clear();
        scratch.keep_passing(input.context, from, &part, &mut kept)?;
        fold_rows(alloc, input, &kept, block, scratch)?;
    }
}

/// Folds the edges from listed sources.
pub(crate) fn fold_rows(
    alloc: Global,
    input: RowInput<'_>,
    sources: &[u32],
    block: &mut NeighbourBlock,
    scratch: &mut Scratch,
) -> Result<(), AllocError>
    ensures { OnOk result ((m : StateValue) (steps : List FunctionStatementsTree) (edges : List Edge) → IsContextOf input.entry.context m steps
        → HasFolded input.entry.context m steps edges scratch.old → HasFolded input.entry.context m steps (edges
        ++ rows_to (passes_words input.entry.to) input.entry.flat.now.edges sources.now) scratch.new) }
{
    'sources: for source in sources {
        let found = input.flat.out_block(*source / BLOCK_SIZE);
        fold_row(alloc, input, *source, found, block, scratch)?;
    }
    Ok(())
}

/// Folds the edges from one source, whose list is read from its block.
#[inline(always)]
fn fold_row(
    alloc: Global,
    input: RowInput<'_>,
    source: u32,
    found: Option<&VertexBlock>,
    block: &mut NeighbourBlock,
    scratch: &mut Scratch,
) -> Result<(), AllocError>
    ensures { OnOk result ((m : StateValue) (steps : List FunctionStatementsTree) (edges : List Edge) → IsContextOf input.entry.context m steps
        → HasFolded input.entry.context m steps edges scratch.old → HasFolded input.entry.context m steps (edges
        ++ row source (filter (λ e. passes_words input.entry.to e.0) (neighbours_of (source % 64) (vertices_at (option_copied found.entry))))) scratch.new) }
{
    let Some(lists) = found else {
        return Ok(());
    };
    match lists.neighbours(source % BLOCK_SIZE).into_form() {
        NeighbourForm::Packed(list) => fold_list(alloc, input, source, list, block, scratch),
        NeighbourForm::Chunked(set) => fold_chunked(alloc, input, source, set, block, scratch),
    }
}

/// Folds the edges from a source to the neighbours of a packed list, in a loop for each width.
#[inline(always)]
fn fold_list(
    alloc: Global,
    input: RowInput<'_>,
    source: u32,
    list: Neighbours<'_>,
    block: &mut NeighbourBlock,
    scratch: &mut Scratch,
) -> Result<(), AllocError>
    ensures { OnOk result ((m : StateValue) (steps : List FunctionStatementsTree) (edges : List Edge) → IsContextOf input.entry.context m steps
        → HasFolded input.entry.context m steps edges scratch.old → HasFolded input.entry.context m steps (edges
        ++ row source (filter (λ e. passes_words input.entry.to e.0) list.entry)) scratch.new) }
{
    if input.context.weighted {
        return fold_weighted(alloc, input, source, list.ascending(), block, scratch);
    }
    match list.by_width() {
        ByWidth::One(narrow) => fold_narrow(alloc, input, source, &narrow, block, scratch),
        ByWidth::Two(narrow) => fold_narrow(alloc, input, source, &narrow, block, scratch),
        ByWidth::Three(narrow) => fold_narrow(alloc, input, source, &narrow, block, scratch),
        ByWidth::Four(narrow) => fold_narrow(alloc, input, source, &narrow, block, scratch),
    }
}

/// Folds the edges from a source to the neighbours of a packed list of one width, if no function reads weights: by index if no
/// destination is tested, and else in blocks.
#[inline(always)]
fn fold_narrow(
    alloc: Global,
    input: RowInput<'_>,
    source: u32,
    list: &Neighbours<'_>,
    block: &mut NeighbourBlock,
    scratch: &mut Scratch,
) -> Result<(), AllocError>
    requires { input.context.weighted ≡ false }
    ensures { OnOk result ((m : StateValue) (steps : List FunctionStatementsTree) (edges : List Edge) → IsContextOf input.entry.context m steps
        → HasFolded input.entry.context m steps edges scratch.old → HasFolded input.entry.context m steps (edges
        ++ row source (filter (λ e. passes_words input.entry.to e.0) list.now)) scratch.new) }
{
    let done = fold_untested(alloc, input, source, list, scratch)?;
    if done {
        return Ok(());
    }
    let len = list.len();
    let mut first = 0usize;
    'parts: while first < len {
        let count = (len - first).min(PAIRS);
        let kept = read_passing(input.to, list, first, count, &mut block.keys);
        scratch.fold(alloc, input.context, source, &block.keys[..kept])?;
        first += count;
    }
    Ok(())
}

/// Folds the edges from a source to the neighbours of a packed list by index, if no destination is tested and what is given on an
/// edge depends on its source and its weight alone. It gives whether that is so: if not, nothing is changed.
#[inline(always)]
fn fold_untested(
    alloc: Global,
    input: RowInput<'_>,
    source: u32,
    list: &Neighbours<'_>,
    scratch: &mut Scratch,
) -> Result<bool, AllocError>
    ensures folded { IfOk result (λ done. done ≡ true → (m : StateValue) (steps : List FunctionStatementsTree) (edges : List Edge) → IsContextOf input.entry.context m steps
        → HasFolded input.entry.context m steps edges scratch.old → HasFolded input.entry.context m steps (edges
        ++ row source (filter (λ e. passes_words input.entry.to e.0) list.now)) scratch.new) }
    ensures unchanged { IfOk result (λ done. done ≡ false → scratch.new ≡ scratch.old) }
{
    if input.to.is_some() {
        return Ok(false);
    }
    scratch.fold_entries(alloc, input.context, source, &ListEntries { list })
}

/// Reads so many neighbours from an index on, keeps those whose bits are set at the front of a block, in their order, and
/// gives their number. All are kept if no words are given.
#[inline(always)]
fn read_passing(
    words: Option<&[u64]>,
    list: &Neighbours<'_>,
    first: usize,
    count: usize,
    keys: &mut [u32],
) -> usize
    requires inside { first + count ≤ length list.now }
    requires room { count ≤ length keys.old }
    requires few { length list.now < 2 ^ 32 }
    ensures few { result ≤ count }
    ensures room { length keys.new ≡ length keys.old }
    ensures kept { take result keys.new ≡ filter (passes_words words.entry) (take count (drop first (keys_of list.now))) }
{
    let mut kept = 0usize;
    'indices: for index in 0..count {
        let vertex = list.neighbour(first + index);
        keys[kept] = vertex;
        kept += usize::from(passes(words, vertex));
    }
    kept
}

/// Folds the edges from a source to the neighbours of a set in chunks, in blocks.
#[inline(never)]
fn fold_chunked(
    alloc: Global,
    input: RowInput<'_>,
    source: u32,
    set: &CTree,
    block: &mut NeighbourBlock,
    scratch: &mut Scratch,
) -> Result<(), AllocError>
    ensures { OnOk result ((m : StateValue) (steps : List FunctionStatementsTree) (edges : List Edge) → IsContextOf input.entry.context m steps
        → HasFolded input.entry.context m steps edges scratch.old → HasFolded input.entry.context m steps (edges
        ++ row source (filter (λ e. passes_words input.entry.to e.0) set.now.entries)) scratch.new) }
{
    let mut walk = SetWalk::new(set);
    if input.context.weighted {
        return fold_weighted(alloc, input, source, walk, block, scratch);
    }
    'rounds: while walk.len() > 0 {
        let count = walk.fill(&mut block.keys);
        let kept = keep_members(input.to, &mut block.keys, count);
        scratch.fold(alloc, input.context, source, &block.keys[..kept])?;
    }
    Ok(())
}

/// Folds the edges from a source to the destinations of a walk, with their weights.
#[inline]
fn fold_weighted<W: NeighbourWalk + Drop>(
    alloc: Global,
    input: RowInput<'_>,
    source: u32,
    mut walk: W,
    block: &mut NeighbourBlock,
    scratch: &mut Scratch,
) -> Result<(), AllocError>
    requires { input.context.weighted ≡ true }
    ensures { OnOk result ((m : StateValue) (steps : List FunctionStatementsTree) (edges : List Edge) → IsContextOf input.entry.context m steps
        → HasFolded input.entry.context m steps edges scratch.old → HasFolded input.entry.context m steps (edges
        ++ row source (filter (λ e. passes_words input.entry.to e.0) (W.coming walk))) scratch.new) }
{
    'rounds: while walk.len() > 0 {
        let count = walk.fill_weighted(&mut block.keys, &mut block.weights);
        let kept = keep_members_weighted(input.to, &mut block.keys, &mut block.weights, count);
        let weights = &block.weights[..kept];
        scratch.fold_weighted(alloc, input.context, source, &block.keys[..kept], weights)?;
    }
    Ok(())
}
