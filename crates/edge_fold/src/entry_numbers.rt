//! Numbers that depend on the source of an edge and on its weight.
ghost use Rattle.std.specs.Prelude.{◌≡◌, ◌<◌, ℕ, ℤ, pos, List, IfSome, length, get_or};
ghost use Rattle.edge_fold.specs.Contributions.{weighted_entries};
ghost use Rattle.edge_fold.specs.inside.EntryNumbers.{IsReducedOver, number_with};
ghost use Rattle.edge_fold.specs.EntryNumbers.{entry_with, reduced_over};

use crate::neighbour_entries::{NeighbourEntries, WeightedColumns};
use algorithm_meaning::{arithmetic_of, reduce};
use apply_options::Reduction;
use typed_tree::Operator;
use vectors::Lane;

/// The source's entry of a vector on the left of an operator, with the weight of the edge on its right.
#[derive(Clone, Copy)]
pub struct EntryWith<'a> {
    pub lane: Lane<'a>,
    pub operator: Operator,
}

impl EntryWith<'_> {
    #[inline(always)]
    fn of(self, source: u32, weight: i64) -> i64
        ensures { result ≡ entry_with self.entry source weight }
    {
        arithmetic_of(self.operator, self.lane.get(source as usize), weight)
    }
}

/// A number on the left of an operator, with the weight of an edge on its right.
#[derive(Clone, Copy)]
pub(crate) struct NumberWith {
    pub(crate) number: i64,
    pub(crate) operator: Operator,
}

impl NumberWith {
    #[inline(always)]
    pub(crate) fn of(self, weight: i64) -> i64
        ensures { result ≡ number_with self weight }
    {
        arithmetic_of(self.operator, self.number, weight)
    }
}

/// A number reduced with those of sources and weights, in their order.
#[inline]
pub fn reduce_entries<E: NeighbourEntries>(
    reduction: Reduction,
    numbers: EntryWith<'_>,
    number: i64,
    entries: &E,
) -> i64
    ensures { result ≡ reduced_over reduction (entry_with numbers.entry) number (E.entries entries.now) }
{
    match reduction {
        Reduction::Min => reduce_by(Reduction::Min, numbers, number, entries),
        Reduction::Max => reduce_by(Reduction::Max, numbers, number, entries),
        Reduction::Plus => reduce_by(Reduction::Plus, numbers, number, entries),
    }
}

/// A number reduced with those of sources and weights in two columns, in their order.
#[inline]
pub fn reduce_columns(
    reduction: Reduction,
    numbers: EntryWith<'_>,
    number: i64,
    sources: &[u32],
    weights: &[i64],
) -> i64
    requires { length weights.now ≡ length sources.now }
    ensures { result ≡ reduced_over reduction (entry_with numbers.entry) number (weighted_entries sources.now weights.now) }
{
    let columns = WeightedColumns {
        neighbours: sources,
        weights,
    };
    reduce_entries(reduction, numbers, number, &columns)
}

/// The numbers of sources and weights reduced to one, where there is a source.
pub(crate) fn reduce_all_entries(
    reduction: Reduction,
    numbers: EntryWith<'_>,
    sources: &[u32],
    weights: &[i64],
) -> Option<i64>
    requires { length weights.now ≡ length sources.now }
    ensures { IfSome result (λ n. IsReducedOver reduction (entry_with numbers.entry) (weighted_entries sources.now weights.now) n) }
{
    let (first, rest) = sources.split_first()?;
    let (weight, weights_of_rest) = weights.split_first()?;
    let begun = numbers.of(*first, *weight);
    let number = reduce_columns(reduction, numbers, begun, rest, weights_of_rest);
    Some(number)
}

/// A loop for each operator, so that none asks which it is.
#[inline(always)]
fn reduce_by<E: NeighbourEntries>(
    reduction: Reduction,
    numbers: EntryWith<'_>,
    first: i64,
    entries: &E,
) -> i64
    ensures { result ≡ reduced_over reduction (entry_with numbers.entry) first (E.entries entries.now) }
{
    let lane = numbers.lane;
    match numbers.operator {
        Operator::Add => {
            let operator = Operator::Add;
            reduce_each(reduction, EntryWith { lane, operator }, first, entries)
        }
        Operator::Subtract => {
            let operator = Operator::Subtract;
            reduce_each(reduction, EntryWith { lane, operator }, first, entries)
        }
        Operator::Multiply => {
            let operator = Operator::Multiply;
            reduce_each(reduction, EntryWith { lane, operator }, first, entries)
        }
        Operator::Divide => {
            let operator = Operator::Divide;
            reduce_each(reduction, EntryWith { lane, operator }, first, entries)
        }
        Operator::Remainder => {
            let operator = Operator::Remainder;
            reduce_each(reduction, EntryWith { lane, operator }, first, entries)
        }
    }
}

#[inline(always)]
fn reduce_each<E: NeighbourEntries>(
    reduction: Reduction,
    numbers: EntryWith<'_>,
    first: i64,
    entries: &E,
) -> i64
    ensures { result ≡ reduced_over reduction (entry_with numbers.entry) first (E.entries entries.now) }
{
    let mut number = first;
    'entries: for index in 0..entries.len() {
        let given = numbers.of(entries.neighbour(index), entries.weight(index));
        number = reduce(reduction, number, given);
    }
    number
}
