//! Schedules: which calls are accepted, and what they say.
//!
//! [`accept`] reads the calls of a checked program, one after the other, and answers with a [`Schedule`], or with the
//! rule that the first faulty call breaks. Contracts see a `Schedule` as a `ScheduleTree`: what the calls say of each
//! label that they name, and the groups of vectors. `specs/Calls.antt` says what a call makes of the schedule before
//! it, and `specs/Schedule.antt` which statement follows a label. `specs/Independence.antt` of `typed_tree` says which applies may
//! be fused, and `specs/Laws.antt` what holds of each accepted schedule.
//!
//! `specs/BrokenRules.antt` says which rules a call breaks, one case for each rule. A schedule is refused exactly at the
//! first call that breaks one, and by the least that it breaks (`refused_calls_break_the_least_rule`), and it is accepted
//! exactly where no call breaks any (`accepted_calls_break_no_rule`).
//!
//! One pass over `main` finds what the labels are before, and labels and vectors are found by a hash. So the time is
//! in proportion to the program and to the calls, and for a fusing to the two functions and the filters besides.
//!
//! The idea of a schedule beside the algorithm is that of GraphIt (Zhang, Yang, Baghdadi, Kamil, Shun, Amarasinghe,
//! OOPSLA 2018). The lowering to plans depends on this crate.
#![tactic(auto)]

mod access;
mod calls;
mod config_values;
mod error;
mod laws;
mod names;
mod rules;
mod schedule;
mod site;

pub use calls::accept;
pub use error::{ScheduleError, ScheduleRule};
pub use laws::{
    accepted_calls_break_no_rule, fused_statements_are_neighbours, labels_are_fused_once,
    labels_have_one_call_of_a_kind, labels_have_the_values_of_calls,
    labels_without_calls_have_the_defaults, refused_calls_break_the_least_rule,
    vectors_are_in_one_group,
};
pub use rules::are_independent;
pub use schedule::Schedule;
