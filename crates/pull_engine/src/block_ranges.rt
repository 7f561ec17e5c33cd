//! Ranges of vertices in blocks of 64.
ghost use Rattle.std.specs.Prelude.{◌≡◌, ℕ, ◌+◌, ◌-◌, ◌*◌, ◌/◌, ◌^◌, ◌<◌, ◌≤◌};
ghost use Rattle.edge_fold.specs.Gathered.{is_in_range};
ghost use Rattle.pull_engine.specs.inside.Words.{in_word};

use pages::BLOCK_SIZE;

/// How many blocks have a vertex below a number.
#[inline(always)]
pub(crate) fn blocks_below(vertices: u32) -> u32
    ensures covered { vertices ≤ 64 * result }
    ensures few { 64 * result < vertices + 64 }
{
    if vertices % BLOCK_SIZE == 0 {
        return vertices / BLOCK_SIZE;
    }
    vertices / BLOCK_SIZE + 1
}

/// The word of a block in which the bits of the vertices from one up to another are set.
#[inline(always)]
pub(crate) fn range_word(block: u32, low: u32, high: u32) -> u64
    requires few { block < 2 ^ 26 }
    requires order { low ≤ high }
    ensures { (v : ℕ) → v / 64 ≡ block → in_word (64 * block) result v ≡ is_in_range low high v }
{
    let first = block * BLOCK_SIZE;
    let start = low.saturating_sub(first).min(BLOCK_SIZE);
    let end = high.saturating_sub(first).min(BLOCK_SIZE);
    ones_below(end) - ones_below(start)
}

/// The word whose lowest bits, so many of them, are set.
#[inline(always)]
fn ones_below(count: u32) -> u64
    requires { count ≤ 64 }
    ensures { result ≡ 2 ^ count - 1 }
{
    if count == BLOCK_SIZE {
        return u64::MAX;
    }
    (1 << count) - 1
}
