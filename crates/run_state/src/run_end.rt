//! Ends of runs, as they are shown.
use algorithm_meaning::{Depth, End};

/// How a run ended that began with this many turns, and what is visible then.
#[derive(Clone, Copy, Debug)]
pub struct RunEnd {
    pub turns: u64,
    pub end: End,
    pub visible: Depth,
}
