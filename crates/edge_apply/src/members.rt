//! Tests of vertices in the bits of a set.
ghost use Rattle.std.specs.Prelude.{◌≡◌, ◌≤◌, length, take};
ghost use Rattle.std.specs.List.{filter};
ghost use Rattle.edge_apply.specs.Words.{is_set, passes_words};

/// Keeps those of the first vertices of a block whose bits are set, in their order, at its front, and gives their
/// number. All are kept where no words are given.
#[inline]
pub fn keep_members(words: Option<&[u64]>, block: &mut [u32], count: usize) -> usize
    requires { count ≤ length block.old }
    ensures few { result ≤ count }
    ensures room { length block.new ≡ length block.old }
    ensures kept { take result block.new ≡ filter (passes_words words.entry) (take count block.old) }
{
    match words {
        None => count,
        Some(words) => keep_set(words, block, count),
    }
}

/// Whether the bit of a vertex is set. All pass where no words are given.
#[inline(always)]
pub fn passes(words: Option<&[u64]>, vertex: u32) -> bool
    ensures { result ≡ passes_words words.entry vertex }
{
    match words {
        None => true,
        Some(words) => is_set(words, vertex),
    }
}

/// Moves the members of a set of words to the front. It gives how many they are.
#[inline(always)]
fn keep_set(words: &[u64], block: &mut [u32], count: usize) -> usize
    requires { count ≤ length block.old }
    ensures few { result ≤ count }
    ensures room { length block.new ≡ length block.old }
    ensures kept { take result block.new ≡ filter (is_set words.now) (take count block.old) }
{
    let mut kept = 0usize;
    'positions: for position in 0..count {
        let vertex = block[position];
        block[kept] = vertex;
        kept += usize::from(is_set(words, vertex));
    }
    kept
}

/// Whether the bit of a vertex is set.
#[inline(always)]
pub(crate) fn is_set(words: &[u64], vertex: u32) -> bool
    ensures { result ≡ is_set words.now vertex }
{
    match words.get(vertex as usize / 64) {
        Some(word) => (word >> (vertex % 64)) & 1 == 1,
        None => false,
    }
}
