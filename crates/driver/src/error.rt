//! Why a request is not done to its end.

ghost use Rattle.std.specs.Prelude.{◌≡◌};
ghost use Rattle.driver.specs.Endings.{number_of, of_file_read, of_script, of_send, status_of};
ghost use Rattle.driver.specs.declared.error.ServeError.TheVariants.{NoMemory};

use crate::status;
use compiler::CompileError;
use refusal_numbers::{CLOSED, NO_MEMORY, READ_FAILED, WRITE_FAILED};
use replies::SendError;
use scripts::ScriptError;
use std::alloc::{AllocError, AllocFailed};
use std::io::ErrorKind;
use std::{fmt, io};

/// Why a request is not done to its end. The text is what is written to standard error.
#[derive(Clone, Copy, Debug)]
pub enum ServeError<'a> {
    /// Memory ran out.
    NoMemory,
    /// The standard input cannot be read.
    ReadFailed,
    /// The file of this name cannot be read, for this reason.
    FileFailed { file: &'a str, kind: ErrorKind },
    /// The output cannot be written.
    WriteFailed,
    /// The text in the file of this name is no program. The error is never that memory ran out.
    Refused { file: &'a str, error: CompileError },
    /// The script in the file of this name is none of a race, or its graph is refused, by this number.
    RaceRefused { file: &'a str, number: u16 },
    /// A race found nothing published.
    Closed,
}

impl ServeError<'_> {
    /// The number by which users know it: 900 if memory ran out, 901 where reading failed, 902 where writing did, 125
    /// where nothing was published, else that of the text, the script or the graph that is refused.
    pub fn number(&self) -> u16
        ensures { result ≡ number_of self.now }
    {
        match self {
            ServeError::NoMemory => NO_MEMORY,
            ServeError::ReadFailed | ServeError::FileFailed { .. } => READ_FAILED,
            ServeError::WriteFailed => WRITE_FAILED,
            ServeError::Refused { error, .. } => error.number(),
            ServeError::RaceRefused { number, .. } => *number,
            ServeError::Closed => CLOSED,
        }
    }

    /// The exit status: 4 if memory ran out or nothing was published, 5 where reading or writing failed, 1 where a
    /// text or what it opens is refused.
    pub fn status(&self) -> u8
        ensures { result ≡ status_of self.now }
    {
        match self {
            ServeError::NoMemory | ServeError::Closed => status::NO_MEMORY,
            ServeError::ReadFailed | ServeError::FileFailed { .. } | ServeError::WriteFailed => {
                status::DEVICE_FAILED
            }
            ServeError::Refused { .. } | ServeError::RaceRefused { .. } => status::REFUSED,
        }
    }
}

impl fmt::Display for ServeError<'_> {
    fn fmt<W: fmt::Write>(&self, f: &mut fmt::Formatter<W>) -> fmt::Result {
        match self {
            ServeError::Refused { file, error } => match error.at() {
                Some(at) => write!(f, "{file}: refused {} at {at}", self.number()),
                None => write!(f, "{file}: refused {}", self.number()),
            },
            ServeError::RaceRefused { file, .. } => write!(f, "{file}: refused {}", self.number()),
            ServeError::FileFailed { file, kind } => match kind {
                ErrorKind::NotFound => write!(f, "refused {}: {file}: no such file", self.number()),
                _ => write!(f, "refused {}: {file}: {kind}", self.number()),
            },
            ServeError::NoMemory
            | ServeError::ReadFailed
            | ServeError::WriteFailed
            | ServeError::Closed => write!(f, "refused {}", self.number()),
        }
    }
}

impl From<AllocError> for ServeError<'_> {
    ghost from_gives = { λ _ e. e ≡ NoMemory };

    fn from(_error: AllocError) -> Self {
        ServeError::NoMemory
    }
}

impl<T: Drop> From<AllocFailed<T>> for ServeError<'_> {
    ghost from_gives = { λ _ e. e ≡ NoMemory };

    fn from(_error: AllocFailed<T>) -> Self {
        ServeError::NoMemory
    }
}

// What becomes of a failed read of the file of this name.
pub(crate) fn of_file_read<'a>(file: &'a str, error: io::Error) -> ServeError<'a>
    ensures { result ≡ of_file_read file.entry error }
{
    match error.kind() {
        ErrorKind::OutOfMemory => ServeError::NoMemory,
        kind => ServeError::FileFailed { file, kind },
    }
}

impl From<ScriptError> for ServeError<'_> {
    ghost from_gives = { λ error e. e ≡ of_script error };

    fn from(error: ScriptError) -> Self {
        match error {
            ScriptError::NoMemory => ServeError::NoMemory,
            ScriptError::ReadFailed => ServeError::ReadFailed,
            ScriptError::WriteFailed => ServeError::WriteFailed,
        }
    }
}

impl From<SendError> for ServeError<'_> {
    ghost from_gives = { λ error e. e ≡ of_send error };

    fn from(error: SendError) -> Self {
        match error {
            SendError::NoMemory => ServeError::NoMemory,
            SendError::WriteFailed => ServeError::WriteFailed,
        }
    }
}
