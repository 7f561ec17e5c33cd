//! The two ends of a push, as words if vertices are tested by their bits.
ghost use Rattle.std.specs.Prelude.{◌≡◌, ℕ, ◌<◌, Bool, false, IfOk};
ghost use Rattle.kernels.specs.EdgeApply.{is_member};
ghost use Rattle.kernels.specs.Registers.{HasSizes};
ghost use Rattle.kernels.specs.State.{StateValue};
ghost use Rattle.edge_fold.specs.Ends.{IsEndTest, IsTest};
ghost use Rattle.edge_apply.specs.Words.{passes_words};
ghost use Rattle.push_engine.specs.inside.PushEnds.{AreTests, IsInBits, is_untested, passes_bits, untested_end};
ghost use Rattle.push_engine.specs.inside.Work.{AnswersUpTo, tests_last};
ghost use Rattle.push_engine.specs.Work.{is_kept_as_bits, work_from_end};

use apply_options::Direction;
use edge_apply::{Apply, passing_set};
use edge_fold::{FoldStart, Scratch};
use kernels::EndpointFilter;
use std::alloc::{AllocError, Global};
use vertex_sets::{Form, VertexSet};

/// The vertices that an end of a push lets through.
#[derive(Drop)]
pub(crate) enum PushEnd<'a> {
    All,
    /// Those whose bits are set in words, bit v % 64 of word v / 64 that of vertex v.
    Given(&'a [u64]),
    /// The members of a set in bits.
    Members(VertexSet),
    /// Those that an end lets through, which is still to be tested.
    Untested(EndpointFilter<'a>),
}

impl<'a> PushEnd<'a> {
    /// The words by whose bits vertices are tested, if they are.
    pub(crate) fn words(&self) -> Option<&[u64]>
        requires { IsInBits self.now }
        ensures { (v : ℕ) → passes_words result v ≡ passes_bits self.now v }
    {
        match self {
            PushEnd::All => None,
            PushEnd::Given(words) => Some(*words),
            PushEnd::Members(set) => set.words(),
            PushEnd::Untested(_) => None,
        }
    }

    /// The end that is still to be tested, if one is.
    pub(crate) fn untested(&self) -> Option<EndpointFilter<'a>>
        ensures { result ≡ untested_end self.now }
    {
        match self {
            PushEnd::All => None,
            PushEnd::Given(_) => None,
            PushEnd::Members(_) => None,
            PushEnd::Untested(end) => Some(*end),
        }
    }
}

/// The destinations of an apply, whose work was counted up to the number of vertices. They are tested as edges come if a set
/// of them is kept as bits, or if the work is more than one for each 8 vertices. A filter is then run for each vertex, once,
/// and a set in another form is put into bits. The only error is out of memory.
pub(crate) fn destinations_of<'a>(
    alloc: Global,
    apply: &Apply<'a>,
    work: usize,
    scratch: &mut Scratch,
) -> Result<PushEnd<'a>, AllocError>
    requires { AnswersUpTo apply.now.flat.now.vertices work (work_from_end apply.now.flat.now.edges apply.now.from) }
    ensures bits { IfOk result IsInBits }
    ensures last { IfOk result (λ d. is_untested d ≡ tests_last apply.now.flat.now apply.now.from apply.now.to) }
    ensures lets { IfOk result (λ d. (m : StateValue) (to : ℕ → Bool) → apply.now.vectors.now.vectors ≡ m.vectors
        → HasSizes apply.now.sizes.now m → IsEndTest apply.now.to m to → AreTests apply.now.flat.now.vertices m to d) }
{
    let Some(end) = apply.to else {
        return Ok(PushEnd::All);
    };
    if is_in_bits(end) || work > apply.flat.vertices() as usize / 8 {
        return end_in_bits(alloc, apply, end, scratch);
    }
    Ok(PushEnd::Untested(end))
}

/// Whether an end is a set that is kept as bits.
pub(crate) fn is_in_bits(end: EndpointFilter<'_>) -> bool
    ensures { result ≡ is_kept_as_bits end.entry }
{
    match end {
        EndpointFilter::Members(set) => set.words().is_some(),
        EndpointFilter::Filter(_) => false,
    }
}

/// The vertices that an end lets through, in bits.
fn end_in_bits<'a>(
    alloc: Global,
    apply: &Apply<'a>,
    to: EndpointFilter<'a>,
    scratch: &mut Scratch,
) -> Result<PushEnd<'a>, AllocError>
    ensures bits { IfOk result IsInBits }
    ensures first { IfOk result (λ d. is_untested d ≡ false) }
    ensures lets { IfOk result (λ d. (m : StateValue) (test : ℕ → Bool) → apply.now.vectors.now.vectors ≡ m.vectors
        → HasSizes apply.now.sizes.now m → IsTest to.entry m test → AreTests apply.now.flat.now.vertices m test d) }
{
    match to {
        EndpointFilter::Members(set) => members_in_bits(alloc, set),
        EndpointFilter::Filter(_) => {
            let context = apply.context(FoldStart::OldEntry);
            let passing = passing_set(alloc, context, to, scratch)?;
            Ok(PushEnd::Members(passing))
        }
    }
}

/// The members of a set: its words if it is kept as bits, and else a set in bits that is made here.
fn members_in_bits<'a>(alloc: Global, set: &'a VertexSet) -> Result<PushEnd<'a>, AllocError>
    ensures bits { IfOk result IsInBits }
    ensures first { IfOk result (λ d. is_untested d ≡ false) }
    ensures lets { IfOk result (λ d. (n : ℕ) (m : StateValue) (to : ℕ → Bool) → ((v : ℕ) → to v ≡ is_member v set.now.members) → AreTests n m to d) }
{
    if let Some(words) = set.words() {
        return Ok(PushEnd::Given(words));
    }
    let bits = set.to_form(alloc, Form::Bits)?;
    Ok(PushEnd::Members(bits))
}

/// The sources of an apply. A set of them is gone over by the words of its bits if it is kept as bits, and by `DensePush`,
/// which puts any other into bits first. The only error is out of memory.
pub(crate) fn sources_of<'a>(alloc: Global, apply: &Apply<'a>) -> Result<PushEnd<'a>, AllocError>
    ensures bits { IfOk result IsInBits }
    ensures lets { IfOk result (λ e. (n : ℕ) (m : StateValue) (from : ℕ → Bool) → IsEndTest apply.now.from m from → AreTests n m from e) }
{
    let Some(end) = apply.from else {
        return Ok(PushEnd::All);
    };
    if let EndpointFilter::Members(set) = end {
        if apply.direction == Direction::DensePush || set.words().is_some() {
            return members_in_bits(alloc, set);
        }
    }
    Ok(PushEnd::Untested(end))
}
