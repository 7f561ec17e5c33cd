//! Pulls of a range of destinations, where one function gives each of them by its sources and the weights of their edges.
ghost use Rattle.std.specs.Prelude.{◌≡◌, ℕ, ◌≤◌, IfOk, Some};
ghost use Rattle.edge_apply.specs.Words.{passes_words};
ghost use Rattle.kernels.specs.EdgeApply.{is_member};
ghost use Rattle.pull_engine.specs.inside.Lets.{IsInBits, lets};
ghost use Rattle.pull_engine.specs.inside.Pulls.{IsRangeEnd, IsRangePulled};

use crate::block_ranges::{blocks_below, range_word};
use crate::blocks::{BlockPull, pull_block};
use crate::destination_words::DestinationWords;
use crate::entry_tests::entry_test;
use crate::source_block::SourceBlock;
use crate::source_folds::SourceFold;
use edge_apply::passing_between;
use edge_fold::{ApplyContext, Scratch};
use flat_snapshot::Flat;
use kernels::EndpointFilter;
use pages::BLOCK_SIZE;
use std::alloc::{AllocError, Global};
use vectors::EntryChange;
use vertex_sets::{Form, VertexSet};

/// What a pull of a range goes over: the destinations from `low` up to `high` that `to` lets through, from the sources
/// whose bits are set. Words or an end that are not given let all through.
#[derive(Clone, Copy)]
pub(crate) struct PullRange<'a> {
    pub(crate) flat: &'a Flat,
    pub(crate) context: ApplyContext<'a>,
    pub(crate) from: Option<&'a [u64]>,
    pub(crate) to: Option<EndpointFilter<'a>>,
    pub(crate) low: u32,
    pub(crate) high: u32,
    /// The numbers of vertices that pass, for a function of a shape, or nothing: see [`crate::masks`].
    pub(crate) masked: &'a [i64],
}

impl<'a> PullRange<'a> {
    /// The destinations of the range. A set that is not kept as bits is put into bits, and a filter of no known shape is run
    /// for each vertex of the range, once. The only error is out of memory.
    pub(crate) fn destinations(
        self,
        alloc: Global,
        scratch: &mut Scratch,
    ) -> Result<DestinationWords<'a>, AllocError>
        requires { self.low ≤ self.high }
        ensures bits { IfOk result IsInBits }
        ensures end { IfOk result (λ d. IsRangeEnd self.entry (lets d)) }
    {
        match self.to {
            None => Ok(DestinationWords::All),
            Some(EndpointFilter::Members(set)) => members_in_words(alloc, set),
            Some(end) => self.passing(alloc, end, scratch),
        }
    }

    /// The vertices of the range that a filter lets through.
    fn passing(
        self,
        alloc: Global,
        end: EndpointFilter<'a>,
        scratch: &mut Scratch,
    ) -> Result<DestinationWords<'a>, AllocError>
        requires order { self.low ≤ self.high }
        requires end { self.to ≡ Some end }
        ensures bits { IfOk result IsInBits }
        ensures end { IfOk result (λ d. IsRangeEnd self.entry (lets d)) }
    {
        if let Some(test) = entry_test(self) {
            return Ok(DestinationWords::Entries(test));
        }
        let (low, high) = (self.low, self.high);
        let set = passing_between(alloc, self.context, end, low, high, scratch)?;
        Ok(DestinationWords::Members(set))
    }
}

/// The members of a set. One that is not kept as bits is put into bits.
fn members_in_words<'a>(
    alloc: Global,
    set: &'a VertexSet,
) -> Result<DestinationWords<'a>, AllocError>
    ensures bits { IfOk result IsInBits }
    ensures members { IfOk result (λ d. (v : ℕ) → lets d v ≡ is_member v set.entry.now.members) }
{
    if let Some(words) = set.words() {
        return Ok(DestinationWords::Given(words));
    }
    let bits = set.to_form(alloc, Form::Bits)?;
    Ok(DestinationWords::Members(bits))
}

/// What a pull of a range changes in a vector, ascending. It goes over blocks of 64 vertices, each with a word for those
/// that are destinations. The only error is out of memory.
pub(crate) fn pull_range<F: SourceFold>(
    alloc: Global,
    range: PullRange<'_>,
    vector: usize,
    fold: &F,
    scratch: &mut Scratch,
) -> Result<Vec<EntryChange>, AllocError>
    requires order { range.low ≤ range.high }
    requires serves { F.serves fold.now (passes_words range.from) }
    ensures { IfOk result (λ cs. IsRangePulled range.entry vector (F.reduction fold.now) (F.number fold.now) cs.items) }
{
    let to = range.destinations(alloc, scratch)?;
    let pull = BlockPull {
        flat: range.flat,
        old: range.context.vectors.lane(vector),
        from: range.from,
    };
    let mut room = SourceBlock::new();
    let mut changes = Vec::new(alloc);
    let first = range.low / BLOCK_SIZE;
    let stop = blocks_below(range.high);
    'rounds: for block in first..stop {
        let word = range_word(block, range.low, range.high) & to.word(block);
        pull_block(pull, block, word, fold, &mut room, &mut changes)?;
    }
    Ok(changes)
}
