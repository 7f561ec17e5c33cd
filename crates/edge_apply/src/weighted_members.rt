//! Tests of vertices in the bits of a set, where each vertex has a weight.
ghost use Rattle.std.specs.Prelude.{◌≡◌, ◌≤◌, length, take};
ghost use Rattle.std.specs.List.{filter};
ghost use Rattle.edge_fold.specs.Contributions.{weighted_entries};
ghost use Rattle.edge_apply.specs.Words.{is_set, passes_words};

use crate::members::is_set;

/// Keeps those of the first vertices of a block whose bits are set, in their order, at its front, and the weights of
/// these at the front of the weights. It gives their number. All are kept where no words are given.
#[inline]
pub fn keep_members_weighted(
    words: Option<&[u64]>,
    block: &mut [u32],
    weights: &mut [i64],
    count: usize,
) -> usize
    requires same { length weights.old ≡ length block.old }
    requires inside { count ≤ length block.old }
    ensures few { result ≤ count }
    ensures room { length block.new ≡ length block.old }
    ensures weights_room { length weights.new ≡ length weights.old }
    ensures kept { weighted_entries (take result block.new) (take result weights.new)
        ≡ filter (λ e. passes_words words.entry e.0) (weighted_entries (take count block.old) (take count weights.old)) }
{
    match words {
        None => count,
        Some(words) => keep_set_weighted(words, block, weights, count),
    }
}

/// Moves the members of a set of words to the front, each with its weight. It gives how many they are.
#[inline(always)]
fn keep_set_weighted(words: &[u64], block: &mut [u32], weights: &mut [i64], count: usize) -> usize
    requires same { length weights.old ≡ length block.old }
    requires inside { count ≤ length block.old }
    ensures few { result ≤ count }
    ensures room { length block.new ≡ length block.old }
    ensures weights_room { length weights.new ≡ length weights.old }
    ensures kept { weighted_entries (take result block.new) (take result weights.new)
        ≡ filter (λ e. is_set words.now e.0) (weighted_entries (take count block.old) (take count weights.old)) }
{
    let mut kept = 0usize;
    'positions: for position in 0..count {
        let vertex = block[position];
        block[kept] = vertex;
        weights[kept] = weights[position];
        kept += usize::from(is_set(words, vertex));
    }
    kept
}
