//! Races: programs that run while the batches of a script are committed.
//!
//! The first line of a race script opens a graph; the others are `add`, `del`, `grow` and `commit`. [`race_script`] reads it
//! whole, as a [`RaceScript`] (`specs/RaceScript.antt`). [`race`] opens a shared graph with one reader more than there are programs. One thread commits the
//! batches, in order, while for each program another runs it on the version that is the newest when it begins. Once all batches
//! are committed, each program's reader learns what the committing one showed and the program runs again. What that gives is a
//! [`Race`] (`specs/Race.antt`): the replies of the commits in order, and for each program an early and a late run, each of which shows what the
//! program means on the fold of a history. The late one's begins with the early one's and with that of all commits.
//! [`write_race`] writes its text (`specs/RaceText.antt`).
//!
//! No contract says which version an early run is on, that a thread runs, or that a wait ends. The crate `driver` depends on
//! this one.
#![tactic(auto)]

mod entrants;
mod error;
mod laws;
mod lines;
mod outcomes;
mod race_text;
mod racing;
mod reading;

pub use error::{RaceError, RaceScriptError};
pub use laws::{numbered_races_have_no_other_commits, race_scripts_mean_what_scripts_mean};
pub use outcomes::{CommitReply, ProgramRuns, Race, VersionRun};
pub use race_text::write_race;
pub use racing::race;
pub use reading::{RaceScript, race_script};
