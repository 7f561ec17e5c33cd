//! What a command line can ask for, and why one is refused.

ghost use Rattle.std.specs.Prelude.{◌≡◌};
ghost use Rattle.clap.specs.Words.{kind_of};
ghost use Rattle.requests.specs.Refusal.{number_of, of_fault};
ghost use Rattle.requests.specs.declared.asked.RequestError.TheVariants.{NoMemory};

use clap::error::ErrorKind;
use refusal_numbers::NO_MEMORY;
use std::alloc::AllocError;
use thiserror::Error;

/// What a command line asks for.
#[derive(Debug, Drop)]
pub enum Request<'a> {
    /// To run the standard input as a script.
    Input,
    /// To compile the program in the file of this name.
    Check {
        file: &'a str,
    },
    /// To print the plan of the program in the file of this name.
    Plan {
        file: &'a str,
    },
    /// To run the file of this name as a script, with the programs in the other files, in order.
    Script {
        script: &'a str,
        programs: Vec<&'a str>,
    },
    /// To commit the batches of the script in the file of this name while the programs in the other files run, each by so many
    /// workers, 1 to 64, for at most n turns.
    Race {
        script: &'a str,
        programs: Vec<&'a str>,
        workers: usize,
        turns: u64,
    },
}

/// Why a command line is not done. The text is what is written to standard error.
#[derive(Debug, Drop, Error)]
pub enum RequestError {
    #[error("refused 900\n")]
    NoMemory,
    #[error("error: a word of the command line is not UTF-8\n")]
    NotText,
    /// The words are no request, or they ask for help.
    #[error("{0}")]
    Fault(clap::Error),
}

impl RequestError {
    /// The number by which users know it: 900 if memory ran out, or `None` where the words are no request.
    pub fn number(&self) -> Option<u16>
        ensures { result ≡ number_of self.now }
    {
        match self {
            RequestError::NoMemory => Some(NO_MEMORY),
            RequestError::NotText | RequestError::Fault(_) => None,
        }
    }
}

impl From<AllocError> for RequestError {
    ghost from_gives = { λ _ e. e ≡ NoMemory };

    fn from(_error: AllocError) -> RequestError {
        RequestError::NoMemory
    }
}

impl From<clap::Error> for RequestError {
    ghost from_gives = { λ e r. r ≡ of_fault (kind_of e) e };

    fn from(error: clap::Error) -> RequestError {
        if error.kind() == ErrorKind::OutOfMemory {
            RequestError::NoMemory
        } else {
            RequestError::Fault(error)
        }
    }
}
