//! How many workers a run may have.

/// The most workers of a run; the fewest is 1.
pub const MAX_WORKERS: usize = 64;
