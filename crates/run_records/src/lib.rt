//! Records of runs, and runs that follow the record of a run of the same plan on another version of the graph.
//!
//! A [`Follower`] does the edge applies of a run. It makes a record: for each apply what was asked, the sizes and the sets that
//! it read, and what it changed ([`ApplyRecord`]). Each entry of a record is true by itself: an apply of these functions, on this
//! graph, over these vectors and between these ends changes this (`AreRecorded`). So nothing is stated of two runs.
//!
//! If a follower is given the record of a former run ([`RunRecord`]) and the edges in which the two graphs may differ, it goes
//! beside that record. Of each apply it names all in which it may differ from the recorded one, and `follow_engine` finds the
//! changes, with a budget of half of the apply's own edges. If the two applies have other functions or other ends, or if the
//! budget is spent, the engine does this apply and all later ones from nothing.
//!
//! A record ends where a run writes to its vectors by anything but an edge apply, or if it would take more memory than
//! [`room_of_record`] allows. If memory is refused for a record, or while a record is followed, the record is dropped: that is
//! no error of the run.
//!
//! [`run_with_record`] runs a plan by workers, beside a record if there is one.
//!
//! To keep the result of a former state and to compute only what a change reaches is incremental computation; see
//! `follow_engine`.
#![tactic(auto)]

mod apply_record;
mod differences;
mod ends;
mod follower;
mod former_run;
mod recorded_run;
mod recording;
mod rows;
mod run_record;
#[cfg(test)]
mod tests;
mod vector_copies;

pub use apply_record::ApplyRecord;
pub use follower::Follower;
pub use recorded_run::{FormerRecord, RecordedRun, run_after, run_recorded, run_with_record};
pub use recording::room_of_record;
pub use run_record::RunRecord;
