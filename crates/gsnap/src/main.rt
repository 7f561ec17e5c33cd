//! The program `gsnap`: runs graph programs on versions of a graph that a script edits.
//!
//! It hands the words of its command line, the files of the system and the standard streams to the crate
//! `driver`, which does the rest, and ends with the exit status that comes back.
#![tactic(auto)]

use devices::Device;
use driver::{Disk, RequestError, ScriptState, refusal_status, run};
use std::env;
use std::io::ErrorKind;
use std::mem::forget;
use std::process::ExitCode;
use std::rt::Env;
use std::sync::Wait;
use std::thread::Threads;

fn main(rt: HostRuntime) -> ExitCode {
    let (status, state) = match words(&rt) {
        Ok(words) => serve(&rt, &rt, &words),
        Err(error) => refuse(&rt, &error),
    };
    // The graph goes with the process: to free its nodes one by one takes time, and nobody needs them freed.
    forget(state);
    ExitCode::from(status)
}

// The words after the program's name.
fn words(rt: &(impl Env + AllocGlobal)) -> Result<Vec<String>, RequestError> {
    match env::args(rt) {
        Ok(words) => Ok(words.skip(1).collect(rt.alloc())?),
        Err(error) if error.kind() == ErrorKind::OutOfMemory => Err(RequestError::NoMemory),
        Err(_) => Err(RequestError::NotText),
    }
}

// Reports on standard error why nothing was done, and answers the exit status. If the report fails too, the status alone says it.
fn refuse(rt: &HostRuntime, error: &RequestError) -> (u8, Option<ScriptState>) {
    let _ = eprint!(rt; "{error}");
    (refusal_status(error), None)
}

// Does what the words ask for, with workers and races in threads of `threads`, and answers the exit status and what a script opened.
fn serve(
    rt: &HostRuntime,
    threads: &(impl AllocGlobal + Threads + Wait + Sync),
    words: &[String],
) -> (u8, Option<ScriptState>) {
    let Ok(words) = words.iter().map(|word| word.as_str()).collect(rt.alloc()) else {
        return refuse(rt, &RequestError::NoMemory);
    };
    let words: Vec<&str> = words;
    let mut input = Device::new(rt.stdin());
    let mut out = Device::new(rt.stdout());
    let mut err = Device::new(rt.stderr());
    run(
        threads,
        &words,
        &Disk::new(rt),
        &mut input,
        &mut out,
        &mut err,
    )
}
