//! The vectors that an apply writes.
ghost use Rattle.std.specs.Prelude.{◌≤◌, vec_len};

use crate::accumulator::Accumulator;
use apply_options::Reduction;

/// A vector that an apply writes, by its index, the reduction by which it was first given something, and its new entries.
#[derive(Drop)]
pub(crate) struct VectorAccumulator {
    pub(crate) vector: usize,
    pub(crate) reduction: Reduction,
    pub(crate) entries: Accumulator,
}

/// The vectors that an apply has given something: the first slots, as many as are in use. The others keep their memory
/// for the next apply.
#[derive(Drop)]
pub(crate) struct VectorAccumulators {
    pub(crate) slots: Vec<VectorAccumulator>,
    pub(crate) used: usize,
    ghost few: { used ≤ vec_len slots },
}
