//! Blocks into which the sources of a destination are read.

use kernels::PAIRS;

/// Room for a block of sources, and for the weights of their edges where these count.
#[derive(Drop)]
pub(crate) struct SourceBlock {
    pub(crate) sources: [u32; PAIRS],
    pub(crate) weights: [i64; PAIRS],
}

impl SourceBlock {
    /// Room that is lent to all destinations of a range.
    #[inline]
    pub(crate) fn new() -> SourceBlock {
        SourceBlock {
            sources: [0; PAIRS],
            weights: [0; PAIRS],
        }
    }
}
