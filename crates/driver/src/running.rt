//! A command line, done.

ghost use Rattle.std.specs.Prelude.{◌≡◌, map};
ghost use Rattle.scripts.specs.Script.{input as input_of, taken_by_writer};
ghost use Rattle.driver.specs.Endings.{refusal_status_of};
ghost use Rattle.driver.specs.Serving.{Runs};

use crate::files::Files;
use crate::serving::serve;
use crate::status;
use crate::telling::TextWriter;
use devices::{Drain, Feed};
use requests::{RequestError, request};
use scripts::ScriptState;
use std::fmt::Write;
use std::sync::Wait;
use std::thread::Threads;

/// Reads the words after the program's name, and does what they ask for; the answer is the exit status.
///
/// It is that of `serve` where the words are a request. Where they are none, or ask for help, it is 2, and 4 where memory runs
/// out over them; the reason is then written to `err`, and `out` took nothing. With it comes what a script opened, as by `serve`.
pub fn run<T: AllocGlobal + Threads + Wait + Sync, F: Files, R: Feed, W: Drain, E: Drain>(
    rt: &T,
    words: &[&str],
    files: &F,
    input: &mut R,
    out: &mut W,
    err: &mut E,
) -> (u8, Option<ScriptState>)
    ensures { Runs (F.may_hold files.now) (F.may_fail files.now) (map (λ w. w.now) words.entry.now)
        (input_of (R.bytes_read input.old) (R.ended input.old) (R.failures input.old))
        (input_of (R.bytes_read input.new) (R.ended input.new) (R.failures input.new))
        (taken_by_writer (W.bytes_written out.old) (W.failures out.old))
        (taken_by_writer (W.bytes_written out.new) (W.failures out.new)) result.0 }
{
    let alloc = rt.alloc();
    match request(alloc, words) {
        Ok(request) => serve(rt, alloc, &request, files, input, out, err),
        Err(error) => (refused(&error, err), None),
    }
}

// Tells a refusal, and answers its status. Where telling fails too, the status alone tells.
fn refused<E: Drain>(error: &RequestError, err: &mut E) -> u8
    ensures { result ≡ refusal_status_of error.now }
{
    let _ = write!(TextWriter(err), "{error}");
    refusal_status(error)
}

/// The exit status after words that are no request, or that ask for help: 2, and 4 if memory ran out.
pub fn refusal_status(error: &RequestError) -> u8
    ensures { result ≡ refusal_status_of error.now }
{
    match error {
        RequestError::NoMemory => status::NO_MEMORY,
        RequestError::NotText | RequestError::Fault(_) => status::BAD_COMMAND_LINE,
    }
}
