//! Runs of plans: one instruction after the other, to the end or one at a time.
//!
//! [`run_by`] runs a plan on a snapshot of a graph and tells what the run shows: what the program means on the graph's
//! edges, whatever its schedule. A [`Job`] is a run that does one instruction with each call, and is where the machine
//! of the crate `plans` is after as many steps. `specs/Position.antt` says where a run stands, and `specs/Resting.antt`
//! what a job is.
//!
//! [`run`] runs a plan by 1 to 64 workers; what it shows is the same however the pieces of applies fall to them.
//!
//! A run leaves its edge applies to an [`EdgeApplier`], and says when it writes to its vectors otherwise. So an applier may
//! keep what it did, and take from that what an apply changes. Each [`ApplyEngine`] is one that keeps nothing: [`apply_of`] makes
//! an apply for the engines of two ends, one or two functions and what the schedule says of them; [`edge_map`] chooses push or
//! pull ([`Traversal`]), and gives what the apply changes: written to the vectors, the changes are those after the apply
//! (`after_edge_apply` of `algorithm_meaning`). The promise is for a program whose functions give each vector numbers by one
//! reduction (`specs/Reducing.antt` of `plans`). A [`SerialApplier`] goes over the edges by one worker, and a
//! [`ParallelApplier`] by many, who keep where the vertices of their graph are cut. [`pick_direction`] is the rule of the hybrid:
//! it pulls if the sources and the edges from them are more than a twentieth of all edges. That rule, and the name of the operator, are those of Ligra (Shun, Blelloch, PPoPP
//! 2013).
//!
//! Every value of a plan is that of some program, and so a run ends: its turns are bounded, and between two turns each
//! step leads to an index of lower rank.
#![tactic(auto)]

mod applies;
mod changed_vertices;
mod control;
mod direction;
mod edge_applier;
mod edge_maps;
mod employment;
mod ends;
mod entries;
mod flow;
mod job;
mod memory;
mod plan_run;
mod run_error;
mod sets;
mod steps;
mod traversal;
mod variables;
mod whole_run;

pub use direction::{Traversal, pick_direction};
pub use edge_applier::{ApplyEngine, EdgeApplier, ParallelApplier, SerialApplier};
pub use edge_maps::{EdgeMap, apply_of, edge_map};
pub use job::{Job, Stand};
pub use pull_engine::KeptCut;
pub use run_error::RunError;
pub use traversal::traverse;
pub use whole_run::{run, run_alone, run_by, run_by_workers};
