//! The first of a request's runs that ended by a fault, and where it was.

ghost use Rattle.std.specs.Prelude.{◌≡◌};

use crate::refused_lines::RefusedLines;
use algorithm_meaning::End;
use std::cell::Cell;

/// A fault of a run: the index of its program among those of the request, from 0, its number, and that of the statement.
#[derive(Clone, Copy)]
pub(crate) struct RunFault {
    pub(crate) program: usize,
    pub(crate) number: u16,
    pub(crate) statement: u64,
}

/// Keeps the first fault that it is shown.
#[derive(Drop)]
pub(crate) struct FirstFault(Cell<Option<RunFault>>);

impl FirstFault {
    pub(crate) fn new() -> FirstFault {
        FirstFault(Cell::new(None))
    }

    /// Shows how a run of the program at this index ended.
    pub(crate) fn see(&self, program: usize, end: End) {
        let End::Fault(number, statement) = end else {
            return;
        };
        if self.0.get().is_none() {
            self.0.set(Some(RunFault {
                program,
                number,
                statement,
            }));
        }
    }

    /// The first fault, if there was one.
    pub(crate) fn get(&self) -> Option<RunFault> {
        self.0.get()
    }
}

/// The names of the files of a request's programs, and where the first fault of their runs and the refused lines of the script are
/// kept.
#[derive(Clone, Copy)]
pub(crate) struct ProgramFiles<'p, 'a> {
    pub(crate) names: &'p [&'a str],
    pub(crate) first_fault: &'p FirstFault,
    pub(crate) refused: &'p RefusedLines,
}

impl<'p, 'a> ProgramFiles<'p, 'a> {
    /// The files of these names.
    pub(crate) fn new(
        names: &'p [&'a str],
        first_fault: &'p FirstFault,
        refused: &'p RefusedLines,
    ) -> ProgramFiles<'p, 'a>
        ensures { result.names ≡ names.entry }
    {
        ProgramFiles {
            names,
            first_fault,
            refused,
        }
    }
}
