//! Runs of compiled programs on versions of a graph that other threads change.
//!
//! [`run_latest`] takes the newest version that is published and runs a plan on it; [`run_held`] runs one on a version that is
//! held. Both say all that a caller wants to know in one contract: the outcome is what the plan's program means, within the turns,
//! on the fold of the batches of one list, which is that of the commits in the history that the reader shows. That history begins
//! with all that the reader had shown, whole where the newest version was asked for, and it does not depend on who commits, holds
//! or releases meanwhile, on the number of workers, or on the schedule. `specs/Outcome.antt` says what an outcome on a graph is.
//!
//! [`run_latest_after`] is [`run_latest`] for a caller who runs a plan again and again: [`Runs`] keep the record of the last run, and
//! the next one follows it if few edges differ (`run_records`). The contract is the same. The record belongs to a history that the
//! reader of that run showed, which is a beginning of all longer ones, so each reader of the graph may run next.
//! [`run_held_after`] is [`run_held`] with the same [`Runs`]: a run on a held version follows the record if that is of this version.
//!
//! It depends on `run_records` and `shared_graph`, and uses nothing of them but their public contracts.
#![tactic(auto)]

mod error;
mod last_run;
mod recorded;
mod runs;
mod snapshot_run;

pub use error::LatestRunError;
pub use runs::{Runs, run_held_after, run_latest_after};
pub use snapshot_run::{run_held, run_latest};
