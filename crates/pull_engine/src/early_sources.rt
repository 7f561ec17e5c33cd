//! The first and the last of a vertex's sources that pass.
ghost use Rattle.std.specs.Prelude.{◌≡◌, ℕ, ℤ, pos, Bool, List, length};
ghost use Rattle.std.specs.List.{filter};
ghost use Rattle.std.specs.Map.{keys_of};
ghost use Rattle.ascending_lists.specs.Ascending.{AscendsFrom};
ghost use Rattle.apply_options.specs.declared.reduction.Reduction.{Reduction};
ghost use Rattle.apply_options.specs.declared.reduction.Reduction.TheVariants.{Min, Max};
ghost use Rattle.edge_apply.specs.Words.{passes_words};
ghost use Rattle.edge_fold.specs.ReducedContributions.{reduced_with};
ghost use Rattle.pull_engine.specs.EarlySources.{CountsOnce, first_of, last_source, reduced_once};
ghost use Rattle.kernels.specs.declared.columns.TheConstants.{PAIRS};

use edge_apply::{keep_members, passes};
use vertex_blocks::{NeighbourWalk, Neighbours, SetWalk};

/// Which source alone decides: of those that pass, the last one where a number is reduced with the greatest source, the
/// first one where it is reduced with the least, and any one, as the first, where all give the same number and no sum is
/// made. So a walk may end at that source, and the entry is the same as after all sources. The call does nothing.
pub fn one_source_decides()
    ensures greatest { (from : ℕ → Bool) (old : ℤ) (sources : List ℕ) → AscendsFrom 0 sources
        → reduced_with Max (λ s. pos s) old (filter from sources) ≡ reduced_once Max (λ s. pos s) old (last_source (filter from sources)) }
    ensures least { (from : ℕ → Bool) (old : ℤ) (sources : List ℕ) → AscendsFrom 0 sources
        → reduced_with Min (λ s. pos s) old (filter from sources) ≡ reduced_once Min (λ s. pos s) old (first_of (filter from sources)) }
    ensures any { (r : Reduction) → CountsOnce r → (number old : ℤ) (sources : List ℕ)
        → reduced_with r (λ _. number) old sources ≡ reduced_once r (λ _. number) old (first_of sources) }
{}

/// The first source of a packed list whose bit is set. Sources are read one by one, so what is after it is not.
#[inline(always)]
pub(crate) fn first_packed(sources: Neighbours<'_>, from: Option<&[u64]>) -> Option<u32>
    ensures { result ≡ first_of (filter (passes_words from.entry) (keys_of sources.entry)) }
{
    let mut index = 0usize;
    'up: while index < sources.len() {
        let source = sources.neighbour(index);
        if passes(from, source) {
            return Some(source);
        }
        index += 1;
    }
    None
}

/// The last source of a packed list whose bit is set. Sources are read downward, so what is before it is not.
#[inline(always)]
pub(crate) fn last_packed(sources: Neighbours<'_>, from: Option<&[u64]>) -> Option<u32>
    ensures { result ≡ last_source (filter (passes_words from.entry) (keys_of sources.entry)) }
{
    let mut end = sources.len();
    'down: while end > 0 {
        end -= 1;
        let source = sources.neighbour(end);
        if passes(from, source) {
            return Some(source);
        }
    }
    None
}

/// The first source of a set in chunks whose bit is set.
pub(crate) fn first_chunked(mut sources: SetWalk<'_>, from: Option<&[u64]>) -> Option<u32>
    ensures { result ≡ first_of (filter (passes_words from.entry) (keys_of sources.entry)) }
{
    'up: while let Some((source, _)) = sources.next() {
        if passes(from, source) {
            return Some(source);
        }
    }
    None
}

/// The last source of a set in chunks whose bit is set. The set is walked upward, whole.
pub(crate) fn last_chunked(
    mut sources: SetWalk<'_>,
    from: Option<&[u64]>,
    block: &mut [u32],
) -> Option<u32>
    requires { length block.old ≡ PAIRS }
    ensures room { length block.new ≡ PAIRS }
    ensures last { result ≡ last_source (filter (passes_words from.entry) (keys_of sources.entry)) }
{
    let mut last = None;
    'rounds: while sources.len() > 0 {
        let count = sources.fill(block);
        let kept = keep_members(from, block, count);
        if kept > 0 {
            last = Some(block[kept - 1]);
        }
    }
    last
}
