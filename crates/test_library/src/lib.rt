//! Tests of what only a call of a library shows: devices that are slow and interrupted, batches and their entries, histories with little room, bytes of tails
//! and sets, forms of lists, forks and threads. What a script or a program can show is a case in `crates/test_cases/data`, or a script
//! in `tests/checks` that makes many, and what a contract says of every value is not said again here.
//!
//! They are above the crates that they test, so that each of those is proved once.
#![tactic(auto)]

#[cfg(test)]
mod batches;
#[cfg(test)]
mod chunk_sizes;
#[cfg(test)]
mod chunked_sets;
#[cfg(test)]
mod crew_runs;
#[cfg(test)]
mod forked_graphs;
#[cfg(test)]
mod forked_sets;
#[cfg(test)]
mod graph_blocks;
#[cfg(test)]
mod refused_growths;
#[cfg(test)]
mod script_devices;
#[cfg(test)]
mod sets_of_vertices;
#[cfg(test)]
mod tails;
#[cfg(test)]
mod version_steps;
#[cfg(test)]
mod written_sources;
