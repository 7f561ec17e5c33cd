//! Tests of edge applies in pieces: when gates are called, in how many pieces workers do an apply, and pieces that are held.
//!
//! What runs show by each schedule and any workers is compared by `tests/checks/applies_in_pieces`, and random applies are compared
//! with the slow run by `bench_engines`. Shapes of kernels are tested here too, runs of plans that go one instruction at a time,
//! and states that open with groups.
#![tactic(auto)]

#[cfg(test)]
mod applies;
#[cfg(test)]
mod gates;
#[cfg(test)]
mod jobs;
#[cfg(test)]
mod kernel_shapes;
#[cfg(test)]
mod roll;
#[cfg(test)]
mod states;
