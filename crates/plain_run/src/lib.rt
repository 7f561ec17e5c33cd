//! A slow run of programs, which gives what they mean.
//!
//! [`plain_run`] goes over the trees of a checked program, on a list of edges, and gives the meaning, whole: what the definitions of
//! `algorithm_meaning` say, in the order in which they say it. Runs of plans are compared with it.
//!
//! Tests and benchmark programs depend on it; no run of the product does.
#![tactic(auto)]

mod edge_apply;
mod entries;
mod evaluate;
mod filter;
mod function;
mod initial_state;
mod outcome;
mod print;
mod run;
mod sets;
mod state;
mod values;
mod variables;
mod vertex_apply;

pub use run::plain_run;
