//! Versions of a graph, one after another, with the history of the steps that made and held them.
//!
//! A version is kept while it is the newest or a ticket holds it. A contract sees [`Versions`] as a
//! timeline: a base, which is the state in which it began or that after the last trim, the steps that
//! it accepted since, each with its reply, and the state now. The machine that says what each step replies and changes is a definition of
//! its own; every call is proved to be its step, and the history to be legal and to replay to the
//! state. Shared graphs and script runs depend on this crate.
#![tactic(auto)]

mod base;
mod error;
mod held;
mod laws;
mod prepared;
mod since;
mod step;
mod versions;

pub use error::VersionError;
pub use laws::{histories_are_counted, versions_never_shrink};
pub use prepared::{Prepared, PreparedAcquire, PreparedTrim};
pub use step::{Done, Reply, Step, Ticket, Which};
pub use versions::{MAX_HISTORY, Versions};
