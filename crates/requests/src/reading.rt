//! The request that a command line's words are.

ghost use Rattle.std.specs.Prelude.{◌≡◌, IfOk, codes, map};
ghost use Rattle.clap.specs.Words.{found_of, rows_of, subcommand_rows_of};
ghost use Rattle.requests.specs.Asked.{Answers, HasFewWorkers, asked_by, command_named, file_of, files_of, found_request, number_of, race_of, script_with};
ghost use Rattle.requests.specs.inside.Numbers.{within};

use crate::asked::{Request, RequestError};
use crate::command_line::{
    CHECK, FILE, PLAN, RACE, RACE_PROGRAMS, RACE_SCRIPT, TURNS, WORKERS, command,
};
use apply_options::MAX_WORKERS;
use clap::ArgMatches;
use std::alloc::{AllocError, Global};

/// How many workers a run of a race has where the words give no number.
pub const DEFAULT_WORKERS: usize = 2;

/// How many turns a run of a race may use where the words give no number.
pub const DEFAULT_TURNS: u64 = 1_000_000;

/// Reads the words after the program's name. No words are `Input`, `check FILE` is `Check`, `plan FILE` is `Plan`,
/// `script SCRIPT [PROGRAM..]` is `Script`, and `race SCRIPT PROGRAM.. [--workers W] [--turns T]` is `Race`, with the options
/// anywhere after `race`. A `--` may be before files whose names begin with a hyphen.
///
/// Errors: `Fault`, with the text to show, at other words and where help is asked for, and `NoMemory`.
pub fn request<'a>(alloc: Global, words: &'a [&'a str]) -> Result<Request<'a>, RequestError>
    ensures answers { Answers (map (λ w. w.now) words.entry.now) result }
    ensures workers { IfOk result (λ r. HasFewWorkers (asked_by r)) }
{
    let matches = command(alloc)?.try_get_matches_from(words)?;
    let asked = asked_for(alloc, &matches);
    drop(matches);
    Ok(asked?)
}

// What words that were parsed ask for.
fn asked_for<'a>(alloc: Global, matches: &ArgMatches<'a>) -> Result<Request<'a>, AllocError>
    ensures { IfOk result (λ r. asked_by r ≡ found_request (subcommand_rows_of matches.now)) }
{
    match matches.subcommand() {
        Some((name, found)) => named_request(alloc, name, found),
        None => Ok(Request::Input),
    }
}

// What the command of this name asks for, with what was found after it.
fn named_request<'a>(
    alloc: Global,
    name: &str,
    found: &ArgMatches<'a>,
) -> Result<Request<'a>, AllocError>
    ensures { IfOk result (λ r. asked_by r ≡ command_named name.now (rows_of (found_of found.now))) }
{
    if name == CHECK {
        Ok(Request::Check {
            file: file(found, FILE),
        })
    } else if name == PLAN {
        Ok(Request::Plan {
            file: file(found, FILE),
        })
    } else if name == RACE {
        race(alloc, found)
    } else {
        script(alloc, found)
    }
}

fn script<'a>(alloc: Global, found: &ArgMatches<'a>) -> Result<Request<'a>, AllocError>
    ensures { IfOk result (λ r. asked_by r ≡ script_with (files_of (codes "FILE") (rows_of (found_of found.now)))) }
{
    first_is_script(alloc, found.get_raw(FILE).unwrap_or(&[]))
}

// The first file is that of the script.
fn first_is_script<'a>(alloc: Global, files: &[&'a str]) -> Result<Request<'a>, AllocError>
    ensures { IfOk result (λ r. asked_by r ≡ script_with (map (λ f. f.now) files.entry.now)) }
{
    match files.split_first() {
        Some((script, programs)) => Ok(Request::Script {
            script,
            programs: Vec::from_slice(alloc, programs)?,
        }),
        None => Ok(Request::Input),
    }
}

fn race<'a>(alloc: Global, found: &ArgMatches<'a>) -> Result<Request<'a>, AllocError>
    ensures { IfOk result (λ r. asked_by r ≡ race_of (rows_of (found_of found.now))) }
{
    Ok(Request::Race {
        script: file(found, RACE_SCRIPT),
        programs: files(alloc, found, RACE_PROGRAMS)?,
        workers: workers(found),
        turns: turns(found),
    })
}

// The files that were found by this name.
fn files<'a>(alloc: Global, found: &ArgMatches<'a>, name: &str) -> Result<Vec<&'a str>, AllocError>
    ensures { IfOk result (λ files. map (λ f. f.now) files.items ≡ files_of name.now (rows_of (found_of found.now))) }
{
    Vec::from_slice(alloc, found.get_raw(name).unwrap_or(&[]))
}

// The file that was found by this name.
fn file<'a>(found: &ArgMatches<'a>, name: &str) -> &'a str
    ensures { result.now ≡ file_of name.now (rows_of (found_of found.now)) }
{
    found.get_str(name).unwrap_or("")
}

// How many workers a run has.
fn workers(found: &ArgMatches) -> usize
    ensures { result ≡ number_of (codes "workers") 1 64 2 (rows_of (found_of found.now)) }
{
    number(
        found,
        WORKERS,
        (1, MAX_WORKERS as u64),
        DEFAULT_WORKERS as u64,
    ) as usize
}

// How many turns a run may use.
fn turns(found: &ArgMatches) -> u64
    ensures { result ≡ number_of (codes "turns") 0 18446744073709551615 1000000 (rows_of (found_of found.now)) }
{
    number(found, TURNS, (0, u64::MAX), DEFAULT_TURNS)
}

// The number that was found by this name, in this range, or else the default.
fn number(found: &ArgMatches, name: &str, range: (u64, u64), default: u64) -> u64
    ensures { result ≡ number_of name.now range.0 range.1 default (rows_of (found_of found.now)) }
{
    match found.get_one::<u64>(name) {
        Some(number) => in_range(number, range, default),
        None => default,
    }
}

// The number, where it is in this range, or else the default.
fn in_range(number: u64, range: (u64, u64), default: u64) -> u64
    ensures { result ≡ within range.0 range.1 default number }
{
    if range.0 <= number && number <= range.1 {
        number
    } else {
        default
    }
}
