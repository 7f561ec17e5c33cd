//! Sessions: many jobs beside commits, one step at a time.
//!
//! A [`Session`] has the versions of a graph, the plans of some programs, and jobs: runs of these programs that go one
//! instruction at a time. A step commits a batch, holds a version or lets it go, starts a job on a version that is held, or
//! does one instruction of a job. Each job keeps the version that it was started on, whatever is committed or released later.
//!
//! A contract sees a session as the plans, the state of the versions and the jobs (`specs/Standing.antt`), and says that it
//! is where a world stands. The world (`specs/World.antt`) is a state of the version machine and a list of jobs, each a
//! program, a graph, a bound of turns and a count of the instructions that it has done; each step changes one of them. The
//! promise is that replies and state are the world's for every list of steps, where the plans are those of compiled programs.
//! The laws of the world (`laws`) say in plain words what follows: a job goes by its own steps alone, a version is the fold
//! of the batches up to it, and steps of different jobs may change places.
//!
//! Jobs on one version share its flat snapshot, jobs of one program share its plan, and one scratch serves the applies of all
//! jobs. There are no threads here.
#![tactic(auto)]

mod error;
mod laws;
mod session;
mod started_job;
mod step;

pub use error::SessionError;
pub use laws::{
    compiled_plans_have_their_programs, jobs_go_by_their_own_steps, jobs_show_their_own_runs,
    steps_of_jobs_change_places, versions_are_folds_of_their_batches,
};
pub use session::Session;
pub use step::{SessionReply, SessionStep};
