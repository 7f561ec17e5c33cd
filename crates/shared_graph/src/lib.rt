//! A graph that many threads read while some commit, hold, release and trim.
//!
//! A [`SharedGraph`] has the versions of a graph under a lock and publishes the newest one. It is
//! opened with 1 to 64 [`Reader`]s. A reader takes the newest version by [`Reader::latest`], which
//! takes no lock and waits for nobody, and it is the one in whose name its owner commits, holds,
//! releases and trims.
//!
//! A contract sees a reader as what it shows: a history of accepted steps, each with its reply and
//! the reader that made it, which only grows at its end (`specs/Histories.antt`). After a step the
//! history shown ends in that step; a refusal is the version machine's at the end of the history
//! shown; a snapshot has the fold of its batches. A [`Token`] carries the history that one reader showed;
//! another reader learns it. In contracts the state under the lock is a history. It is the published one,
//! and the versions are its replay. A trim drops entries of the versions, and none of a history that a
//! reader shows.
//!
//! The history itself is in the proofs alone (`logbook`): threads share its length, one word, and
//! each reader has a beginning of it. The newest version is published in two copies, of which readers
//! take one while the writer changes the other (left-right, Ramalhete and Correia, 2015).
//!
//! Which graph a reader or a token belongs to is a type parameter, a [`Naming`]. It depends on
//! `version_list`; `snapshot_runs` and `races` depend on it.
#![tactic(auto)]

mod book;
mod entry;
mod error;
mod held;
mod history_prefix;
mod laws;
mod locked_state;
mod naming;
mod never;
mod newest_version;
mod published_log;
mod publisher;
mod reader;
mod recent_edges;
mod shared;
mod shown;
mod snapshot;

pub use book::Opening;
pub use entry::Entry;
pub use error::{LatestError, SharedError};
pub use held::{Held, Unreleased};
pub use laws::{
    commits_are_counted, held_versions_are_of_the_history, longer_histories_keep_their_versions,
    versions_are_folds_of_commits,
};
pub use naming::Naming;
pub use reader::{Reader, Token};
pub use shared::{MAX_READERS, SharedGraph};
pub use snapshot::Snapshot;
