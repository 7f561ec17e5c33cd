//! Destinations of a pull as words, a bit for each vertex of a block.
ghost use Rattle.std.specs.Prelude.{◌≡◌, ℕ, ◌*◌, ◌/◌, ◌^◌, ◌<◌};
ghost use Rattle.edge_apply.specs.Words.{is_set};
ghost use Rattle.kernels.specs.EdgeApply.{is_member};
ghost use Rattle.vertex_sets.specs.declared.form.Form.TheVariants as Form;
ghost use Rattle.pull_engine.specs.inside.Lets.{IsInBits, lets};
ghost use Rattle.pull_engine.specs.inside.Words.{in_word};

use crate::entry_tests::EntryTest;
use vertex_sets::VertexSet;

/// Which vertices a pull goes to.
#[derive(Drop)]
pub(crate) enum DestinationWords<'a> {
    All,
    /// Those whose bits are set in words, bit v % 64 of word v / 64 that of vertex v.
    Given(&'a [u64]),
    /// The members of a set in bits.
    Members(VertexSet),
    /// Those whose entries compare so with a number.
    Entries(EntryTest<'a>),
}

impl DestinationWords<'_> {
    /// The word of a block of 64 vertices, in which the bits of those are set that are let through.
    #[inline(always)]
    pub(crate) fn word(&self, block: u32) -> u64
        requires block { block < 2 ^ 26 }
        requires bits { IsInBits self.now }
        ensures { (v : ℕ) → v / 64 ≡ block → in_word (64 * block) result v ≡ lets self.now v }
    {
        match self {
            DestinationWords::All => u64::MAX,
            DestinationWords::Given(words) => word_at(words, block),
            DestinationWords::Members(set) => members_word(set, block),
            DestinationWords::Entries(test) => test.word(block),
        }
    }
}

/// The word of a block, and 0 after the last one.
#[inline(always)]
fn word_at(words: &[u64], block: u32) -> u64
    ensures { (v : ℕ) → v / 64 ≡ block → in_word (64 * block) result v ≡ is_set words.now v }
{
    match words.get(block as usize) {
        Some(word) => *word,
        None => 0,
    }
}

/// The word of a block of a set in bits.
#[inline(always)]
fn members_word(set: &VertexSet, block: u32) -> u64
    requires { set.now.form ≡ Form.Bits }
    ensures { (v : ℕ) → v / 64 ≡ block → in_word (64 * block) result v ≡ is_member v set.now.members }
{
    let Some(words) = set.words() else {
        unreachable!();
    };
    word_at(words, block)
}
