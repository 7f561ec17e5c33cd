//! Tests of runs beside the record of a former run: streams of random edits, with a run after each, compared with runs from nothing.
//!
//! They are above the crate that they test, since they need programs.
#![tactic(auto)]

#[cfg(test)]
mod streams;
