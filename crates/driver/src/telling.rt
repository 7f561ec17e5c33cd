//! Standard error: the text on a request that is not done, and on a run that ends by a fault.

ghost use Rattle.std.specs.Prelude.{◌≡◌, ◌++◌};
ghost use Rattle.driver.specs.Endings.{status_of_end};

use crate::error::ServeError;
use crate::files::{Files, STREAM};
use crate::first_fault::ProgramFiles;
use crate::refused_lines::RefusedLines;
use crate::status;
use devices::{Drain, write_all};
use refusal_text::{explanation, fault_explanation, refused_lines};
use std::alloc::{AllocError, Global};
use std::fmt;
use std::fmt::Write;

/// Tells how a request ended where it was not done, or where a run of its programs ended by a fault, and answers the status. Where
/// telling fails too, the status alone tells.
pub(crate) fn told<F: Files, E: Drain>(
    alloc: Global,
    ended: Result<bool, ServeError<'_>>,
    programs: Option<ProgramFiles<'_, '_>>,
    files: &F,
    err: &mut E,
) -> u8
    ensures { result ≡ status_of_end ended.entry }
{
    match ended {
        Ok(false) => status::DONE,
        Ok(true) => {
            if let Some(programs) = programs {
                explain_fault(alloc, programs, files, err);
            }
            status::FAULTED
        }
        Err(error) => {
            let _ = writeln!(TextWriter(err), "{error}");
            explain(alloc, error, files, err);
            error.status()
        }
    }
}

/// Reports how a script in the file of this name ended, as `told` does, and after it which of its lines were refused, if it was run
/// to its end and is not the standard input.
pub(crate) fn told_of_script<F: Files, E: Drain>(
    alloc: Global,
    ended: Result<bool, ServeError<'_>>,
    script: &str,
    programs: ProgramFiles<'_, '_>,
    files: &F,
    err: &mut E,
) -> u8
    ensures { result ≡ status_of_end ended.entry }
{
    let is_shown = ended.is_ok() && script != STREAM;
    let status = told(alloc, ended, Some(programs), files, err);
    if is_shown {
        report_refused(alloc, script, programs.refused, files, err);
    }
    status
}

// Shows the first refused lines of the script in the file of this name, and how many there were. The file is read once more for it;
// nothing is shown if that fails, or if memory runs out.
fn report_refused<F: Files, E: Drain>(
    alloc: Global,
    script: &str,
    refused: &RefusedLines,
    files: &F,
    err: &mut E,
) {
    let count = refused.count();
    if count == 0 {
        return;
    }
    if let Ok(text) = files.read(alloc, script) {
        let kept = refused.kept();
        let shown = kept.len().min(usize::try_from(count).unwrap_or(kept.len()));
        show(
            refused_lines(alloc, script, &text, &kept[..shown], count),
            err,
        );
    }
}

// Shows where a program's text is refused, what that means and what to do. The file is read once more for it; nothing is shown if
// that fails, or if memory runs out.
fn explain<F: Files, E: Drain>(alloc: Global, error: ServeError<'_>, files: &F, err: &mut E) {
    if let ServeError::Refused { file, error } = error
        && let (Some(at), Ok(text)) = (error.at(), files.read(alloc, file))
    {
        show(explanation(alloc, file, &text, at, error.number()), err);
    }
}

// Shows at which statement the first of the runs that ended by a fault did so, and what that means.
fn explain_fault<F: Files, E: Drain>(
    alloc: Global,
    programs: ProgramFiles<'_, '_>,
    files: &F,
    err: &mut E,
) {
    let Some(fault) = programs.first_fault.get() else {
        return;
    };
    let Some(file) = programs.names.get(fault.program) else {
        return;
    };
    let (number, statement) = (fault.number, fault.statement);
    let _ = writeln!(
        TextWriter(err),
        "{file}: fault {number} in statement {statement}"
    );
    if let Ok(text) = files.read(alloc, file) {
        show(fault_explanation(alloc, file, &text, statement), err);
    }
}

// Writes lines, where there was memory for them.
fn show<E: Drain>(lines: Result<Vec<u8>, AllocError>, err: &mut E) {
    if let Ok(lines) = lines {
        let _ = write_all(err, &lines);
    }
}

// Takes text for a writer of bytes.
#[derive(Drop)]
pub(crate) struct TextWriter<'a, E: Drain>(pub &'a mut E);

impl<E: Drain> fmt::Write for TextWriter<'_, E> {
    ghost write_str_gives = { λ old text new. E.bytes_written new.0.now ≡ E.bytes_written old.0.now ++ text };

    fn write_str(&mut self, text: &str) -> fmt::Result {
        write_all(self.0, text.as_bytes()).map_err(|_| fmt::Error)
    }
}
