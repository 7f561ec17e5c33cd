//! Numbers of all vertices, with the unit of a reduction for those that do not pass, so that a fold looks at no bit.
ghost use Rattle.std.specs.Prelude.{◌≡◌, pos, if◌then◌else◌, IfOk};
ghost use Rattle.algorithm_meaning.specs.Arithmetic.{reduced};
ghost use Rattle.algorithm_meaning.specs.Laws.{unit_of};
ghost use Rattle.edge_apply.specs.Words.{passes_words};
ghost use Rattle.edge_fold.specs.EntryNumbers.{reduced_over};
ghost use Rattle.pull_engine.specs.Columns.{passing};
ghost use Rattle.pull_engine.specs.inside.Masked.{AreMasked, number_or_unit};

use crate::source_block::SourceBlock;
use crate::source_folds::{SourceFold, fold_walk};
use algorithm_meaning::reduce;
use apply_options::Reduction;
use edge_apply::passes;
use edge_fold::SourceNumbers;
use std::alloc::{AllocError, Global};
use vertex_blocks::{ByWidth, CTree, Neighbours, SetWalk};

/// A number of each source, whatever the weight: the walk goes over all, by index where they are packed, and else in blocks.
/// `masked` has the numbers of those vertices that pass, with the unit for others, or is empty. A vertex beyond it is looked up
/// by its bit.
#[derive(Drop)]
pub(crate) struct AllSources<'a, N> {
    pub(crate) reduction: Reduction,
    pub(crate) numbers: N,
    pub(crate) masked: &'a [i64],
}

impl<'a, N: Drop> AllSources<'a, N> {
    /// The numbers of all sources.
    pub(crate) fn new(reduction: Reduction, numbers: N, masked: &'a [i64]) -> AllSources<'a, N>
        ensures { result ≡ record { reduction = reduction; numbers = numbers; masked = masked.entry } }
    {
        AllSources {
            reduction,
            numbers,
            masked,
        }
    }
}

impl<N: SourceNumbers> SourceFold for AllSources<'_, N> {
    ghost reduction = { λ f. f.reduction };

    ghost number = { λ f s _. N.number f.numbers s };

    ghost serves = { λ f passes. AreMasked f.reduction (N.number f.numbers) passes f.masked.now };

    #[inline(always)]
    fn fold_packed(
        &self,
        old: i64,
        sources: Neighbours<'_>,
        from: Option<&[u64]>,
        _block: &mut SourceBlock,
    ) -> i64 {
        match sources.by_width() {
            ByWidth::One(list) => fold_list(self, old, &list, from),
            ByWidth::Two(list) => fold_list(self, old, &list, from),
            ByWidth::Three(list) => fold_list(self, old, &list, from),
            ByWidth::Four(list) => fold_list(self, old, &list, from),
        }
    }

    #[inline]
    fn fold_chunked(
        &self,
        old: i64,
        sources: &CTree,
        from: Option<&[u64]>,
        block: &mut SourceBlock,
    ) -> i64 {
        let walk = SetWalk::new(sources);
        fold_walk(
            self.reduction,
            &self.numbers,
            old,
            walk,
            from,
            &mut block.sources,
        )
    }
}

/// The entry reduced with the numbers of those sources of a packed list that pass. A loop is made for each reduction, with a mask
/// and without one, so that none asks for them at a source.
#[inline(always)]
fn fold_list<N: SourceNumbers>(
    fold: &AllSources<'_, N>,
    old: i64,
    sources: &Neighbours<'_>,
    from: Option<&[u64]>,
) -> i64
    requires { AreMasked fold.now.reduction (N.number fold.now.numbers) (passes_words from) fold.now.masked.now }
    ensures { result ≡ reduced_over fold.now.reduction (λ s _. N.number fold.now.numbers s) old (passing (passes_words from.entry) sources.now) }
{
    let reduction = fold.reduction;
    if fold.masked.is_empty() {
        return fold_by(reduction, &fold.numbers, &[], old, sources, from);
    }
    fold_by(reduction, &fold.numbers, fold.masked, old, sources, from)
}

/// The entry reduced with the numbers of those sources of a packed list that pass, by a loop for each reduction.
#[inline(always)]
fn fold_by<N: SourceNumbers>(
    reduction: Reduction,
    numbers: &N,
    masked: &[i64],
    old: i64,
    sources: &Neighbours<'_>,
    from: Option<&[u64]>,
) -> i64
    requires { AreMasked reduction (N.number numbers.now) (passes_words from) masked.now }
    ensures { result ≡ reduced_over reduction (λ s _. N.number numbers.now s) old (passing (passes_words from.entry) sources.now) }
{
    match reduction {
        Reduction::Min => fold_each(Reduction::Min, numbers, masked, old, sources, from),
        Reduction::Max => fold_each(Reduction::Max, numbers, masked, old, sources, from),
        Reduction::Plus => fold_each(Reduction::Plus, numbers, masked, old, sources, from),
    }
}

/// The entry reduced with the numbers of those sources of a packed list that pass, one by one.
#[inline(always)]
fn fold_each<N: SourceNumbers>(
    reduction: Reduction,
    numbers: &N,
    masked: &[i64],
    old: i64,
    sources: &Neighbours<'_>,
    from: Option<&[u64]>,
) -> i64
    requires { AreMasked reduction (N.number numbers.now) (passes_words from) masked.now }
    ensures { result ≡ reduced_over reduction (λ s _. N.number numbers.now s) old (passing (passes_words from.entry) sources.now) }
{
    let mut number = old;
    'sources: for index in 0..sources.len() {
        let given = given_by(reduction, numbers, masked, from, sources.neighbour(index));
        number = reduce(reduction, number, given);
    }
    number
}

/// The number of a source that passes, and the unit for another.
#[inline(always)]
fn given_by<N: SourceNumbers>(
    reduction: Reduction,
    numbers: &N,
    masked: &[i64],
    from: Option<&[u64]>,
    source: u32,
) -> i64
    requires { AreMasked reduction (N.number numbers.now) (passes_words from) masked.now }
    ensures { result ≡ number_or_unit reduction (N.number numbers.now) (passes_words from.entry) source }
{
    let index = source as usize;
    if masked.is_empty() {
        return number_or_unit(reduction, numbers, from, source);
    }
    if index < masked.len() {
        return masked[index];
    }
    number_beyond(reduction, numbers, from, source)
}

/// The number of a source beyond a mask, which no graph has.
#[cold]
#[inline(never)]
fn number_beyond<N: SourceNumbers>(
    reduction: Reduction,
    numbers: &N,
    from: Option<&[u64]>,
    source: u32,
) -> i64
    ensures { result ≡ number_or_unit reduction (N.number numbers.now) (passes_words from.entry) source }
{
    number_or_unit(reduction, numbers, from, source)
}

/// The numbers of so many vertices that pass, with the unit of a reduction for others. The only error is out of memory.
pub(crate) fn masked_numbers<N: SourceNumbers>(
    alloc: Global,
    reduction: Reduction,
    numbers: &N,
    from: Option<&[u64]>,
    vertices: u32,
) -> Result<Vec<i64>, AllocError>
    ensures { IfOk result (λ xs. AreMasked reduction (N.number numbers.now) (passes_words from.entry) xs.items) }
{
    let mut found = Vec::with_capacity(alloc, vertices as usize)?;
    'vertices: for vertex in 0..vertices {
        found.push(number_or_unit(reduction, numbers, from, vertex))?;
    }
    Ok(found)
}

/// The number of a vertex that passes, and the unit for another.
#[inline(always)]
fn number_or_unit<N: SourceNumbers>(
    reduction: Reduction,
    numbers: &N,
    from: Option<&[u64]>,
    vertex: u32,
) -> i64
    ensures { result ≡ number_or_unit reduction (N.number numbers.now) (passes_words from.entry) vertex }
{
    number_if(passes(from, vertex), numbers.of(vertex), unit(reduction))
}

/// What changes no number that is reduced with it.
#[inline(always)]
fn unit(reduction: Reduction) -> i64
    ensures { result ≡ unit_of reduction }
{
    match reduction {
        Reduction::Min => i64::MAX,
        Reduction::Max => i64::MIN,
        Reduction::Plus => 0,
    }
}

/// A number if a vertex passes, and else another: no branch depends on a bit.
#[inline(always)]
fn number_if(passes: bool, number: i64, other: i64) -> i64
    ensures { result ≡ (if passes then number else other) }
{
    if passes { number } else { other }
}
