//! The error of the compiler: which rule a text breaks, and where.

ghost use Rattle.std.specs.Prelude.{◌≡◌};
ghost use Rattle.compiler.specs.declared.error.CompileError.TheVariants.{NoMemory};
ghost use Rattle.compiler.specs.Refusal.{number_of, offset_of};
ghost use Rattle.compiler.specs.inside.Refusal.{of_parser, of_schedule, of_types};

use expression_types::Fault;
use parser::ParseError;
use refusal_numbers::NO_MEMORY;
use schedule::{ScheduleError, ScheduleRule};
use std::alloc::AllocError;
use thiserror::Error;
use types::CheckError;

/// Why a text is not compiled.
#[derive(Clone, Copy, Debug, PartialEq, Eq, Error)]
pub enum CompileError {
    /// It is no source; the parser's error says why. It is never that the parser is out of memory.
    #[error("{0}")]
    NotParsed(ParseError),
    /// It is a source that breaks a rule of types: the fault has the rule and the offset.
    #[error("the text breaks a rule of types")]
    NotTyped(Fault),
    /// It is a program with a schedule that is not accepted: the first faulty call, whose first token is at this
    /// offset in bytes, breaks this rule.
    #[error("the schedule breaks a rule")]
    NotScheduled { rule: ScheduleRule, at: usize },
    #[error("out of memory")]
    NoMemory,
}

impl CompileError {
    /// The number by which users know the refusal: 201, 202, 203, 211, 212, 221 to 229, 301 to 308, or 900.
    pub fn number(self) -> u16
        ensures { result ≡ number_of self }
    {
        match self {
            CompileError::NotParsed(error) => error.number(),
            CompileError::NotTyped(fault) => fault.rule.number(),
            CompileError::NotScheduled { rule, .. } => rule.number(),
            CompileError::NoMemory => NO_MEMORY,
        }
    }

    /// The offset of the fault, in bytes, or `None` if memory ran out.
    pub fn at(self) -> Option<usize>
        ensures { result ≡ offset_of self }
    {
        match self {
            CompileError::NotParsed(error) => error.at(),
            CompileError::NotTyped(fault) => Some(fault.at),
            CompileError::NotScheduled { at, .. } => Some(at),
            CompileError::NoMemory => None,
        }
    }
}

impl From<ParseError> for CompileError {
    ghost from_gives = { λ error e. e ≡ of_parser error };

    fn from(error: ParseError) -> CompileError {
        match error {
            ParseError::NoMemory => CompileError::NoMemory,
            _ => CompileError::NotParsed(error),
        }
    }
}

impl From<CheckError> for CompileError {
    ghost from_gives = { λ error e. e ≡ of_types error };

    fn from(error: CheckError) -> CompileError {
        match error {
            CheckError::Faulty(fault) => CompileError::NotTyped(fault),
            CheckError::NoMemory => CompileError::NoMemory,
        }
    }
}

impl From<ScheduleError> for CompileError {
    ghost from_gives = { λ error e. e ≡ of_schedule error };

    fn from(error: ScheduleError) -> CompileError {
        match error {
            ScheduleError::Faulty { rule, at } => CompileError::NotScheduled { rule, at },
            ScheduleError::NoMemory => CompileError::NoMemory,
        }
    }
}

impl From<AllocError> for CompileError {
    ghost from_gives = { λ error e. e ≡ NoMemory };

    fn from(_error: AllocError) -> CompileError {
        CompileError::NoMemory
    }
}
