//! The error of the checker: why a source is no program.
ghost use Rattle.std.specs.Prelude.{◌≡◌};
ghost use Rattle.types.specs.Refusal.{number_of, offset_of};
ghost use Rattle.types.specs.declared.error.CheckError.TheVariants.{NoMemory};

use expression_types::Fault;
use refusal_numbers::NO_MEMORY;
use std::alloc::{AllocError, AllocFailed};

/// Why a source is no program.
#[derive(Clone, Copy, Debug, PartialEq, Eq)]
pub enum CheckError {
    /// It breaks a rule of types: of all its faults the one with the least offset, and of several there the one
    /// with the least number.
    Faulty(Fault),
    NoMemory,
}

impl CheckError {
    /// The number by which users know the refusal: 221 to 229, or 900.
    pub fn number(self) -> u16
        ensures { result ≡ number_of self }
    {
        match self {
            CheckError::Faulty(fault) => fault.rule.number(),
            CheckError::NoMemory => NO_MEMORY,
        }
    }

    /// The offset of the fault, in bytes, or `None` if memory ran out.
    pub fn at(self) -> Option<usize>
        ensures { result ≡ offset_of self }
    {
        match self {
            CheckError::Faulty(fault) => Some(fault.at),
            CheckError::NoMemory => None,
        }
    }
}

impl From<AllocError> for CheckError {
    ghost from_gives = { λ _ e. e ≡ NoMemory };

    fn from(_error: AllocError) -> CheckError {
        CheckError::NoMemory
    }
}

impl<T: Drop> From<AllocFailed<T>> for CheckError {
    ghost from_gives = { λ _ e. e ≡ NoMemory };

    fn from(_error: AllocFailed<T>) -> CheckError {
        CheckError::NoMemory
    }
}
