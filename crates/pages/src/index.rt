//! A bit for each of the 64 vertices of a page, and ranks.

ghost use Rattle.std.specs.Prelude.{◌≡◌, ℕ, ℤ, ◌/◌, ◌%◌, ◌^◌, ◌<◌, ◌≤◌, ◌++◌, count_ones, List, MatchOption};
ghost use Rattle.ascending_lists.specs.Maps.{Rises};
ghost use Rattle.pages.specs.inside.Entries.{lists_in};
ghost use Rattle.pages.specs.inside.Index.{IsIndex};

use crate::entry::ListEntry;

/// How many vertices below one are present, or `None` where the vertex is not. It takes constant time.
#[inline]
pub fn rank(present: u64, vertex: u32) -> Option<usize>
    requires { vertex < 64 }
    ensures { MatchOption result (present / 2 ^ vertex % 2 ≡ 0)
        (λ r. (present / 2 ^ vertex % 2 ≡ 1) × (r ≡ count_ones (present % 2 ^ vertex))) }
{
    if (present >> vertex) % 2 == 0 {
        return None;
    }
    let below = present % (1 << vertex);
    Some(below.count_ones() as usize)
}

/// How many vertices below one are present. It takes constant time.
#[inline]
pub fn rank_below(present: u64, vertex: u32) -> usize
    requires { vertex ≤ 64 }
    ensures { result ≡ count_ones (present % 2 ^ vertex) }
{
    let below = match vertex {
        64 => present,
        _ => present % (1 << vertex),
    };
    below.count_ones() as usize
}

/// Bits with those of the vertices of a run.
pub(crate) fn with_marks(present: u64, run: &[ListEntry]) -> u64
    ensures { (es : List (ℕ × List (ℕ × ℤ))) (bytes : List ℕ) → IsIndex present es
        → Rises 0 64 (es ++ lists_in bytes run.now) → IsIndex result (es ++ lists_in bytes run.now) }
{
    let mut bits = present;
    for entry in run {
        bits |= 1 << (entry.vertex % 64);
    }
    bits
}
