//! The records of runs on the versions that a script or a session keeps, from which later runs take what they can.
//!
//! [`VersionRecords`] has the record of each program's last run on the newest version, and the last one of each version that was
//! run on by a ticket. It does not know what a record is: a contract takes that as a relation between the number of a program,
//! a record and a graph (`specs/VersionRecords.antt`). What holds of the records is a relation to the state of the versions, and
//! each later state keeps it.
//!
//! [`VersionRecords::predecessor`] gives the record that a run follows, and the edges in which the two graphs may differ.
//! [`VersionRecords::keep`] takes the record that the run has made. Which records are kept decides only how fast later runs are.
//!
//! `session`, `scripts` and `driver` depend on it.
#![tactic(auto)]

mod version_records;

pub use version_records::{Predecessor, VersionRecords};
