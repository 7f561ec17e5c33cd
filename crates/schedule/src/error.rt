//! The error of a schedule: the rule that a call breaks, and where.
ghost use Rattle.std.specs.Prelude.{◌≡◌};
ghost use Rattle.schedule.specs.Refusal.{number_of, number_of_rule, offset_of};
ghost use Rattle.schedule.specs.declared.error.ScheduleError.TheVariants.{NoMemory};

use refusal_numbers::{
    BAD_ARGUMENT, BAD_FIELDS, DIFFERENT_SETS, GIVEN_TWICE, NO_APPLY, NO_MEMORY, NOT_ADJACENT,
    NOT_INDEPENDENT, UNKNOWN_LABEL,
};
use std::alloc::{AllocError, AllocFailed};
use thiserror::Error;

/// A rule of schedules.
#[derive(Clone, Copy, Debug, PartialEq, Eq)]
pub enum ScheduleRule {
    /// A label that a call names is in the program.
    UnknownLabel,
    /// A label of a `config` call is that of an edge apply, and one of `fuseApplyFunctions` that of an edge or
    /// vertex apply.
    NoApply,
    /// A call has as many arguments as it takes, and a value that is in its table.
    BadArgument,
    /// A `config` call of one kind names a label once, and a label is in one fusing, and once.
    GivenTwice,
    /// Of two fused statements the second is right after the first in one block.
    NotAdjacent,
    /// Two fused applies are both vertex applies or both edge applies, of the same sets and filters.
    DifferentSets,
    /// Two fused edge applies are independent.
    NotIndependent,
    /// The fields that are fused are two vectors at least, each in one group and once.
    BadFields,
}

/// Why a schedule is refused.
#[derive(Clone, Copy, Debug, PartialEq, Eq, Error)]
pub enum ScheduleError {
    /// The first faulty call, whose first token is at this offset in bytes, breaks this rule: of several the one
    /// with the least number, and the number of arguments before all.
    #[error("the schedule breaks a rule")]
    Faulty { rule: ScheduleRule, at: usize },
    #[error("out of memory")]
    NoMemory,
}

impl ScheduleRule {
    /// The number by which users know the rule: 301 to 308.
    pub fn number(self) -> u16
        ensures { result ≡ number_of_rule self }
    {
        match self {
            ScheduleRule::UnknownLabel => UNKNOWN_LABEL,
            ScheduleRule::NoApply => NO_APPLY,
            ScheduleRule::BadArgument => BAD_ARGUMENT,
            ScheduleRule::GivenTwice => GIVEN_TWICE,
            ScheduleRule::NotAdjacent => NOT_ADJACENT,
            ScheduleRule::DifferentSets => DIFFERENT_SETS,
            ScheduleRule::NotIndependent => NOT_INDEPENDENT,
            ScheduleRule::BadFields => BAD_FIELDS,
        }
    }
}

impl ScheduleError {
    /// The number by which users know the refusal: 301 to 308, or 900.
    pub fn number(self) -> u16
        ensures { result ≡ number_of self }
    {
        match self {
            ScheduleError::Faulty { rule, .. } => rule.number(),
            ScheduleError::NoMemory => NO_MEMORY,
        }
    }

    /// The offset of the faulty call, in bytes, or `None` if memory ran out.
    pub fn at(self) -> Option<usize>
        ensures { result ≡ offset_of self }
    {
        match self {
            ScheduleError::Faulty { at, .. } => Some(at),
            ScheduleError::NoMemory => None,
        }
    }
}

impl From<AllocError> for ScheduleError {
    ghost from_gives = { λ _ e. e ≡ NoMemory };

    fn from(_error: AllocError) -> ScheduleError {
        ScheduleError::NoMemory
    }
}

impl<T: Drop> From<AllocFailed<T>> for ScheduleError {
    ghost from_gives = { λ _ e. e ≡ NoMemory };

    fn from(_error: AllocFailed<T>) -> ScheduleError {
        ScheduleError::NoMemory
    }
}
