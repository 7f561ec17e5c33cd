//! Flat snapshots of the versions that are kept, each made once for all runs on its version.
//!
//! [`VersionFlats`] is a map from the number of a version to its flat, which its users share. Its invariant is
//! a relation to the state of the versions (`specs/VersionFlats.antt`): the map has the flats of kept versions
//! alone. [`VersionFlats::flat`] keeps this true, and [`VersionFlats::let_go`] does so after a step that may
//! drop a version.
//!
//! One more flat is kept beside the map: the last one that was made of a version that was the newest then. The flat of a
//! later newest version shares with it what did not change. It is kept until that flat is made, also if a commit
//! has dropped its version.
//!
//! `version_records`, `session` and `scripts` depend on it.
#![tactic(auto)]

mod version_flats;

pub use version_flats::VersionFlats;
