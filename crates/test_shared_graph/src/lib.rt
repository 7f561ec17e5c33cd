//! Tests of shared graphs on threads, of facts that no contract states: two readers between which no token passed, chunk sizes,
//! and calls after a refusal; and calls that memory may run out for.
//!
//! All tests but `writers.rt` are tables of calls with their answers (`tables.rt`, `since.rt`, `beside.rt`,
//! `memory.rt` and `refused_growths.rt`), which `calls.rt` makes on a graph that it opens.
//!
//! They stand apart from `test_library`, so that no other test has leave to wait, and both crates are
//! proved side by side.
#![tactic(auto)]

#[cfg(test)]
mod batches;
#[cfg(test)]
mod beside;
#[cfg(test)]
mod calls;
#[cfg(test)]
mod failure;
#[cfg(test)]
mod kept;
#[cfg(test)]
mod memory;
#[cfg(test)]
mod refused_growths;
#[cfg(test)]
mod roles;
#[cfg(test)]
mod seats;
#[cfg(test)]
mod since;
#[cfg(test)]
mod tables;
#[cfg(test)]
mod writers;
