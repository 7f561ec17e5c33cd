//! The options of an apply, as plain data: by which reduction numbers are joined to entries, and what a schedule says of how
//! the apply is done.
//!
//! [`Reduction`] is part of an algorithm; a [`Setting`] is a call of a schedule by its name, and an [`ApplySchedule`] is what
//! the calls say of one label. `specs/ScheduleTree.antt` is a whole schedule as contracts see it: what it says of each label,
//! and the groups of vectors that are kept together. That an algorithm stands apart from its schedule is GraphIt's idea (Zhang, Yang,
//! Baghdadi, Kamil, Shun, Amarasinghe, OOPSLA 2018).
//!
//! The crates of the language, of plans and of the engines depend on this one, so that an engine knows no syntax.
#![tactic(auto)]

mod apply_schedule;
mod reduction;
mod setting;
mod workers;

pub use apply_schedule::{ApplySchedule, DenseVertexSet, Direction, Fused, Parallelization};
pub use reduction::Reduction;
pub use setting::Setting;
pub use workers::MAX_WORKERS;
