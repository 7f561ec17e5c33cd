//! Folds of the sources of a vertex, with the weights of their edges, into its entry, by one function.
ghost use Rattle.std.specs.Prelude.{◌≡◌, ℕ, ℤ, pos, Bool, length};
ghost use Rattle.apply_options.specs.declared.reduction.Reduction.{Reduction as Reducing};
ghost use Rattle.apply_options.specs.declared.reduction.Reduction.TheVariants.{Min, Max};
ghost use Rattle.edge_apply.specs.Words.{passes_words};
ghost use Rattle.edge_fold.specs.EntryNumbers.{entry_with, reduced_over};
ghost use Rattle.pull_engine.specs.Columns.{passing};
ghost use Rattle.pull_engine.specs.EarlySources.{CountsOnce, reduced_once};
ghost use Rattle.kernels.specs.declared.columns.TheConstants.{PAIRS};

use crate::chosen_sources::fold_chosen;
use crate::early_sources::{first_chunked, first_packed, last_chunked, last_packed};
use crate::source_block::SourceBlock;
use algorithm_meaning::reduce;
use apply_options::Reduction;
use edge_apply::{keep_members, keep_members_weighted};
use edge_fold::{EntryWith, SourceNumbers, reduce_columns, reduce_sources};
use vertex_blocks::{CTree, NeighbourWalk, Neighbours, SetWalk};

/// An entry, reduced with the numbers of sources, by the sources and the weights of their edges.
pub(crate) trait SourceFold {
    ghost reduction: { Self → Reducing };

    ghost number: { Self → ℕ → ℤ → ℤ };

    /// It may fold the sources that such a test lets through.
    ghost serves: { Self → (ℕ → Bool) → Type 0 };

    /// The entry reduced with the numbers of those sources of a packed list whose bits are set. The block is lent.
    fn fold_packed(
        &self,
        old: i64,
        sources: Neighbours<'_>,
        from: Option<&[u64]>,
        block: &mut SourceBlock,
    ) -> i64
        requires { serves self.now (passes_words from) }
        ensures { result ≡ reduced_over (reduction self.now) (number self.now) old (passing (passes_words from.entry) sources.entry) };

    /// The entry reduced with the numbers of those sources of a set in chunks whose bits are set.
    fn fold_chunked(
        &self,
        old: i64,
        sources: &CTree,
        from: Option<&[u64]>,
        block: &mut SourceBlock,
    ) -> i64
        requires { serves self.now (passes_words from) }
        ensures { result ≡ reduced_over (reduction self.now) (number self.now) old (passing (passes_words from.entry) sources.now.entries) };
}

/// The greatest source: the walk goes downward, and ends at the first that passes.
#[derive(Drop)]
pub(crate) struct GreatestSource;

/// The least source: the walk goes upward, and ends at the first that passes.
#[derive(Drop)]
pub(crate) struct LeastSource;

/// One number of all sources, for the least or the greatest: the walk ends at the first source that passes.
#[derive(Drop)]
pub(crate) struct OneForAny {
    pub(crate) reduction: Reduction,
    pub(crate) number: i64,
    ghost once: { CountsOnce reduction },
}

/// An entry of each source with the weight of its edge: it goes over all, in blocks, and reads the weights, in a packed list
/// only of those that pass.
#[derive(Drop)]
pub(crate) struct WeightedSources<'a> {
    pub(crate) reduction: Reduction,
    pub(crate) numbers: EntryWith<'a>,
}

impl SourceFold for GreatestSource {
    ghost reduction = { λ _. Max };

    ghost number = { λ _ s _. pos s };

    ghost serves = { λ _ _. Unit {0} };

    #[inline(always)]
    fn fold_packed(
        &self,
        old: i64,
        sources: Neighbours<'_>,
        from: Option<&[u64]>,
        _block: &mut SourceBlock,
    ) -> i64 {
        let _ = sources.len();
        let source = last_packed(sources, from);
        reduce_source(Reduction::Max, old, source)
    }

    #[inline]
    fn fold_chunked(
        &self,
        old: i64,
        sources: &CTree,
        from: Option<&[u64]>,
        block: &mut SourceBlock,
    ) -> i64 {
        let _ = sources.len();
        let source = last_chunked(SetWalk::new(sources), from, &mut block.sources);
        reduce_source(Reduction::Max, old, source)
    }
}

impl SourceFold for LeastSource {
    ghost reduction = { λ _. Min };

    ghost number = { λ _ s _. pos s };

    ghost serves = { λ _ _. Unit {0} };

    #[inline(always)]
    fn fold_packed(
        &self,
        old: i64,
        sources: Neighbours<'_>,
        from: Option<&[u64]>,
        _block: &mut SourceBlock,
    ) -> i64 {
        let _ = sources.len();
        let source = first_packed(sources, from);
        reduce_source(Reduction::Min, old, source)
    }

    #[inline]
    fn fold_chunked(
        &self,
        old: i64,
        sources: &CTree,
        from: Option<&[u64]>,
        _block: &mut SourceBlock,
    ) -> i64 {
        let _ = sources.len();
        let source = first_chunked(SetWalk::new(sources), from);
        reduce_source(Reduction::Min, old, source)
    }
}

impl SourceFold for OneForAny {
    ghost reduction = { λ f. f.reduction };

    ghost number = { λ f _ _. f.number };

    ghost serves = { λ _ _. Unit {0} };

    #[inline(always)]
    fn fold_packed(
        &self,
        old: i64,
        sources: Neighbours<'_>,
        from: Option<&[u64]>,
        _block: &mut SourceBlock,
    ) -> i64 {
        let source = first_packed(sources, from);
        reduce_number(self.reduction, self.number, old, source)
    }

    #[inline]
    fn fold_chunked(
        &self,
        old: i64,
        sources: &CTree,
        from: Option<&[u64]>,
        _block: &mut SourceBlock,
    ) -> i64 {
        let source = first_chunked(SetWalk::new(sources), from);
        reduce_number(self.reduction, self.number, old, source)
    }
}

impl SourceFold for WeightedSources<'_> {
    ghost reduction = { λ f. f.reduction };

    ghost number = { λ f. entry_with f.numbers };

    ghost serves = { λ _ _. Unit {0} };

    #[inline(always)]
    fn fold_packed(
        &self,
        old: i64,
        sources: Neighbours<'_>,
        from: Option<&[u64]>,
        block: &mut SourceBlock,
    ) -> i64 {
        fold_weighted_list(self.reduction, self.numbers, old, sources, from, block)
    }

    #[inline]
    fn fold_chunked(
        &self,
        old: i64,
        sources: &CTree,
        from: Option<&[u64]>,
        block: &mut SourceBlock,
    ) -> i64 {
        let walk = SetWalk::new(sources);
        fold_weighted_walk(self.reduction, self.numbers, old, walk, from, block)
    }
}

/// An entry reduced with a source, where there is one.
#[inline(always)]
fn reduce_source(reduction: Reduction, old: i64, source: Option<u32>) -> i64
    ensures { result ≡ reduced_once reduction (λ s. pos s) old source }
{
    match source {
        Some(source) => reduce(reduction, old, i64::from(source)),
        None => old,
    }
}

/// An entry reduced with a number, where there is a source.
#[inline(always)]
fn reduce_number(reduction: Reduction, number: i64, old: i64, source: Option<u32>) -> i64
    ensures { result ≡ reduced_once reduction (λ _. number) old source }
{
    match source {
        Some(_) => reduce(reduction, old, number),
        None => old,
    }
}

/// The entry reduced with the numbers of all sources of a walk that pass.
#[inline]
pub(crate) fn fold_walk<N: SourceNumbers, W: NeighbourWalk + Drop>(
    reduction: Reduction,
    numbers: &N,
    old: i64,
    mut sources: W,
    from: Option<&[u64]>,
    block: &mut [u32],
) -> i64
    requires { length block.old ≡ PAIRS }
    ensures room { length block.new ≡ PAIRS }
    ensures number { result ≡ reduced_over reduction (λ s _. N.number numbers.now s) old (passing (passes_words from.entry) (W.coming sources)) }
{
    let mut number = old;
    'rounds: while sources.len() > 0 {
        let count = sources.fill(block);
        let kept = keep_members(from, block, count);
        number = reduce_sources(reduction, numbers, number, &block[..kept]);
    }
    number
}

/// Folds the sources of a packed list with the weights of their edges. If sources are tested, only the weights of those
/// are read that pass.
#[inline]
fn fold_weighted_list(
    reduction: Reduction,
    numbers: EntryWith<'_>,
    old: i64,
    list: Neighbours<'_>,
    from: Option<&[u64]>,
    block: &mut SourceBlock,
) -> i64
    ensures { result ≡ reduced_over reduction (entry_with numbers.entry) old (passing (passes_words from.entry) list.entry) }
{
    match from {
        Some(words) => fold_chosen(reduction, numbers, old, &list, words, &mut block.sources),
        None => {
            let walk = list.ascending();
            fold_weighted_walk(reduction, numbers, old, walk, None, block)
        }
    }
}

/// Folds the sources of a walk with the weights of their edges.
#[inline]
fn fold_weighted_walk<W: NeighbourWalk + Drop>(
    reduction: Reduction,
    numbers: EntryWith<'_>,
    old: i64,
    mut sources: W,
    from: Option<&[u64]>,
    block: &mut SourceBlock,
) -> i64
    ensures { result ≡ reduced_over reduction (entry_with numbers.entry) old (passing (passes_words from.entry) (W.coming sources)) }
{
    let mut number = old;
    'rounds: while sources.len() > 0 {
        let count = sources.fill_weighted(&mut block.sources, &mut block.weights);
        let kept = keep_members_weighted(from, &mut block.sources, &mut block.weights, count);
        let weights = &block.weights[..kept];
        number = reduce_columns(reduction, numbers, number, &block.sources[..kept], weights);
    }
    number
}
