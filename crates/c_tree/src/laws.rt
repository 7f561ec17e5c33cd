//! What the definitions that contracts cite come to.

ghost use Rattle.std.specs.Prelude.{◌≡◌, ℕ, ℤ, List};
ghost use Rattle.tail_codec.specs.Spelling.{BasedList};
ghost use Rattle.c_tree.specs.Chunks.{HeadValue, prefix_of, chunks_of};
ghost use Rattle.c_tree.specs.inside.Chunks.{together, IsChunking};

/// The law that a list of entries has exactly one chunking at a chunk size, its prefix and its chunks,
/// and that prefix, heads with their weights, and tails put together give the list back. The call does nothing.
pub fn lists_have_one_chunking()
    ensures whole { (b : ℕ) (es : List (ℕ × ℤ))
        → es ≡ together (prefix_of b es) (chunks_of b es) }
    ensures chunked { (b : ℕ) (es : List (ℕ × ℤ))
        → IsChunking b es (prefix_of b es) (chunks_of b es) }
    ensures once { (b : ℕ) (es : List (ℕ × ℤ)) (prefix : BasedList) (chunks : List (ℕ × HeadValue))
        → IsChunking b es prefix chunks
        → (prefix ≡ prefix_of b es) × (chunks ≡ chunks_of b es) }
{}
