//! Numbers that depend on the source of an edge alone.
ghost use Rattle.std.specs.Prelude.{◌≡◌, ℕ, ℤ, pos, IfSome};
ghost use Rattle.typed_tree.specs.declared.expression.Operator.TheVariants as operator;
ghost use Rattle.algorithm_meaning.specs.Arithmetic.{arithmetic};
ghost use Rattle.edge_fold.specs.inside.ReducedContributions.{IsReducedTo};
ghost use Rattle.edge_fold.specs.ReducedContributions.{reduced_with};
ghost use Rattle.vectors.specs.Lanes.{lane_entry};

use algorithm_meaning::{arithmetic_of, reduce};
use apply_options::Reduction;
use typed_tree::Operator;
use vectors::Lane;

/// A number for each source.
pub trait SourceNumbers {
    ghost number: { Self → ℕ → ℤ };

    fn of(&self, source: u32) -> i64
        ensures { result ≡ number self.now source };
}

/// The number of the source itself.
#[derive(Clone, Copy)]
pub struct OwnNumber;

/// The source's entry of a vector.
#[derive(Clone, Copy)]
pub struct OwnEntry<'a> {
    pub lane: Lane<'a>,
}

/// The source's entry of a vector with a number added.
#[derive(Clone, Copy)]
pub struct OwnEntryPlus<'a> {
    pub lane: Lane<'a>,
    pub number: i64,
}

/// One number for all sources.
#[derive(Clone, Copy)]
pub struct OneNumber {
    pub number: i64,
}

impl SourceNumbers for OwnNumber {
    ghost number = { λ _ s. pos s };

    #[inline(always)]
    fn of(&self, source: u32) -> i64 {
        i64::from(source)
    }
}

impl<'a> SourceNumbers for OwnEntry<'a> {
    ghost number = { λ o s. lane_entry o.lane s };

    #[inline(always)]
    fn of(&self, source: u32) -> i64 {
        self.lane.get(source as usize)
    }
}

impl<'a> SourceNumbers for OwnEntryPlus<'a> {
    ghost number = { λ o s. arithmetic operator.Add (lane_entry o.lane s) o.number };

    #[inline(always)]
    fn of(&self, source: u32) -> i64 {
        arithmetic_of(Operator::Add, self.lane.get(source as usize), self.number)
    }
}

impl SourceNumbers for OneNumber {
    ghost number = { λ o _. o.number };

    #[inline(always)]
    fn of(&self, _source: u32) -> i64 {
        self.number
    }
}

/// A number reduced with those of sources, in their order.
#[inline]
pub fn reduce_sources<N: SourceNumbers>(
    reduction: Reduction,
    numbers: &N,
    number: i64,
    sources: &[u32],
) -> i64
    ensures { result ≡ reduced_with reduction (N.number numbers.now) number sources.now }
{
    reduce_rest(reduction, numbers, number, sources)
}

/// The numbers of sources reduced to one, where there is a source.
pub(crate) fn reduce_numbers<N: SourceNumbers>(
    reduction: Reduction,
    numbers: &N,
    sources: &[u32],
) -> Option<i64>
    ensures { IfSome result (λ n. IsReducedTo reduction (N.number numbers.now) sources.now n) }
{
    let (first, rest) = sources.split_first()?;
    let number = reduce_rest(reduction, numbers, numbers.of(*first), rest);
    Some(number)
}

/// A number reduced with those of sources.
fn reduce_rest<N: SourceNumbers>(
    reduction: Reduction,
    numbers: &N,
    first: i64,
    sources: &[u32],
) -> i64
    ensures { result ≡ reduced_with reduction (N.number numbers.now) first sources.now }
{
    match reduction {
        Reduction::Min => reduce_each(Reduction::Min, numbers, first, sources),
        Reduction::Max => reduce_each(Reduction::Max, numbers, first, sources),
        Reduction::Plus => reduce_each(Reduction::Plus, numbers, first, sources),
    }
}

#[inline(always)]
fn reduce_each<N: SourceNumbers>(
    reduction: Reduction,
    numbers: &N,
    first: i64,
    sources: &[u32],
) -> i64
    ensures { result ≡ reduced_with reduction (N.number numbers.now) first sources.now }
{
    let mut number = first;
    'sources: for source in sources {
        number = reduce(reduction, number, numbers.of(*source));
    }
    number
}
