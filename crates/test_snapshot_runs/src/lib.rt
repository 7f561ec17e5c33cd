//! Tests of runs on the versions of a shared graph, on threads: what no contract says of when a version is given;
//! and compiling, runs and a race that memory may run out for.
//!
//! Most tests are tables of calls with their answers (`tables.rt`), which `calls.rt` makes.
#![tactic(auto)]

#[cfg(test)]
mod beside;
#[cfg(test)]
mod calls;
#[cfg(test)]
mod failure;
#[cfg(test)]
mod following;
#[cfg(test)]
mod programs;
#[cfg(test)]
mod racing;
#[cfg(test)]
mod refused_growths;
#[cfg(test)]
mod running;
#[cfg(test)]
mod tables;
