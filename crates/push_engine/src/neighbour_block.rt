//! Blocks into which the neighbours of a source are read.

use kernels::PAIRS;

/// Room for a block of neighbours, and for their weights where these count.
#[derive(Drop)]
pub(crate) struct NeighbourBlock {
    pub(crate) keys: [u32; PAIRS],
    pub(crate) weights: [i64; PAIRS],
}

impl NeighbourBlock {
    /// Room that is lent to all rows of an apply.
    pub(crate) fn new() -> NeighbourBlock {
        NeighbourBlock {
            keys: [0; PAIRS],
            weights: [0; PAIRS],
        }
    }
}
