//! The merge of what the pieces of an apply have gathered, in pieces.
ghost use Rattle.std.specs.Prelude.{◌<◌, ◌^◌};
ghost use Rattle.crew.specs.Partition.{AreEnds};
ghost use Rattle.edge_apply.specs.inside.Propositions.{AreEnds-prop};

use crate::apply::Apply;
use crew::{Found, Partition};
use edge_fold::Gathered;

/// The merge of what the pieces of an apply have gathered, in pieces: each is a range of vertices.
pub(crate) struct RangeMerge<'a> {
    pub(crate) apply: Apply<'a>,
    pub(crate) found: &'a [Found<Gathered>],
    pub(crate) ranges: Partition,
    ghost few: { apply.flat.now.vertices < 2 ^ 32 },
    ghost whole: { AreEnds 0 apply.flat.now.vertices ranges } by { AreEnds-prop 0 apply.flat.now.vertices ranges },
}

impl Drop for RangeMerge<'_> {
    fn drop(self) {
        let RangeMerge {
            apply: _,
            found: _,
            ranges: _,
        } = self;
    }
}
