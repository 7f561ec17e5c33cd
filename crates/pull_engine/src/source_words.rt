//! Sources of a pull as words, a bit for each vertex.
ghost use Rattle.std.specs.Prelude.{◌≡◌, ℕ, ◌<◌, Bool, IfOk};
ghost use Rattle.kernels.specs.State.{StateValue};
ghost use Rattle.kernels.specs.Registers.{HasSizes};
ghost use Rattle.edge_fold.specs.Ends.{IsEndTest};
ghost use Rattle.edge_apply.specs.Words.{passes_words};
ghost use Rattle.pull_engine.specs.inside.Sources.{AreInBits, is_source};

use edge_apply::passing_set;
use edge_fold::{ApplyContext, Scratch};
use kernels::EndpointFilter;
use std::alloc::{AllocError, Global};
use vertex_sets::{Form, VertexSet};

/// Which vertices a pull comes from.
#[derive(Drop)]
pub(crate) enum SourceWords<'a> {
    All,
    /// Those whose bits are set in words, bit v % 64 of word v / 64 that of vertex v.
    Given(&'a [u64]),
    /// The members of a set in bits.
    Members(VertexSet),
}

impl<'a> SourceWords<'a> {
    /// The sources that an end lets through. A set that is not kept as bits is put into bits, and a filter is run for each
    /// vertex, once. The only error is out of memory.
    pub(crate) fn of(
        alloc: Global,
        from: Option<EndpointFilter<'a>>,
        context: ApplyContext<'_>,
        scratch: &mut Scratch,
    ) -> Result<SourceWords<'a>, AllocError>
        ensures bits { IfOk result AreInBits }
        ensures passing { IfOk result (λ s. (m : StateValue) (test : ℕ → Bool) → context.entry.vectors.now.vectors ≡ m.vectors
            → HasSizes context.entry.sizes.now m → IsEndTest from.entry m test
            → (v : ℕ) → v < context.entry.vertices → is_source s v ≡ test v) }
    {
        let Some(end) = from else {
            return Ok(SourceWords::All);
        };
        let EndpointFilter::Members(set) = end else {
            let passing = passing_set(alloc, context, end, scratch)?;
            return Ok(SourceWords::Members(passing));
        };
        if let Some(words) = set.words() {
            return Ok(SourceWords::Given(words));
        }
        let bits = set.to_form(alloc, Form::Bits)?;
        Ok(SourceWords::Members(bits))
    }

    /// The words, and none if all vertices are sources.
    pub(crate) fn words(&self) -> Option<&[u64]>
        requires { AreInBits self.now }
        ensures { (v : ℕ) → passes_words result v ≡ is_source self.now v }
    {
        match self {
            SourceWords::All => None,
            SourceWords::Given(words) => Some(words),
            SourceWords::Members(set) => set.words(),
        }
    }
}
