//! Races of programs in files, beside the commits of a script in a file.

ghost use Rattle.std.specs.Prelude.{◌≡◌, IfOk, map};
ghost use Rattle.std.specs.Arc.{arc_value};
ghost use Rattle.scripts.specs.Script.{taken_by_writer};
ghost use Rattle.driver.specs.Endings.{of_race, of_race_script};
ghost use Rattle.driver.specs.Racing.{RacesFiles};
ghost use Rattle.driver.specs.inside.Racing.{ReadsFile};

use crate::compiled_plan::CompiledPlan;
use crate::error::ServeError;
use crate::files::{Files, read_file};
use crate::first_fault::{FirstFault, ProgramFiles};
use crate::serving::compiled_files;
use devices::Drain;
use plans::Plan;
use races::{Race, RaceError, RaceScript, RaceScriptError, race, race_script, write_race};
use shared_graph::SharedError;
use snapshot_runs::LatestRunError;
use std::alloc::{AllocError, Global};
use std::sync::{Arc, Wait};
use std::thread::Threads;

/// The files of a race: the script, and the programs.
#[derive(Clone, Copy)]
pub(crate) struct RaceFiles<'p, 'a> {
    pub(crate) script: &'a str,
    pub(crate) programs: ProgramFiles<'p, 'a>,
}

/// How many workers a run of a race has, and how many turns it may use.
#[derive(Clone, Copy)]
pub(crate) struct RaceBounds {
    pub(crate) workers: usize,
    pub(crate) turns: u64,
}

/// Compiles the programs in the files of these names, and then runs the race of the script that a file holds, and
/// writes its text.
pub(crate) fn race_files<'a, T: Threads + Wait + Sync, F: Files, W: Drain>(
    rt: &T,
    alloc: Global,
    names: RaceFiles<'_, 'a>,
    bounds: RaceBounds,
    files: &F,
    out: &mut W,
) -> Result<bool, ServeError<'a>>
    ensures { RacesFiles (F.may_hold files.now) (F.may_fail files.now) names.entry.script.now (map (λ p. p.now) names.entry.programs.names.now)
        bounds.workers bounds.turns
        (taken_by_writer (W.bytes_written out.old) (W.failures out.old))
        (taken_by_writer (W.bytes_written out.new) (W.failures out.new)) result }
{
    let compiled = compiled_files(alloc, names.programs.names, files)?;
    let order = read_script(alloc, names.script, files)?;
    let plans = plans_of(alloc, &compiled)?;
    let raced = match race(rt, alloc, order, &plans, bounds.workers, bounds.turns) {
        Ok(raced) => raced,
        Err(error) => return Err(of_race(names.script, error)),
    };
    write_race(alloc, &raced, out)?;
    note_faults(&raced, names.programs.first_fault);
    Ok(raced.has_faulted())
}

// Shows how the runs of a race ended, program by program.
fn note_faults(raced: &Race, first_fault: &FirstFault) {
    'programs: for (program, runs) in raced.runs.iter().enumerate() {
        first_fault.see(program, runs.early.outcome.end);
        first_fault.see(program, runs.late.outcome.end);
    }
}

// The plans of programs that were compiled.
fn plans_of<'a>(
    alloc: Global,
    compiled: &'a [CompiledPlan],
) -> Result<Vec<&'a Arc<Plan>>, AllocError>
    ensures { IfOk result (λ plans. map (λ p. arc_value p.now) plans.items ≡ map (λ c. arc_value c.plan) compiled.now) }
{
    compiled.iter().map(|one| &one.plan).collect(alloc)
}

// The script of a race that the file of this name holds.
fn read_script<'a, F: Files>(
    alloc: Global,
    file: &'a str,
    files: &F,
) -> Result<RaceScript, ServeError<'a>>
    ensures { ReadsFile (F.may_hold files.now file.entry.now) (F.may_fail files.now file.entry.now) file.entry.now result }
{
    let text = read_file(alloc, file, files)?;
    match race_script(alloc, &text) {
        Ok(order) => Ok(order),
        Err(error) => Err(of_race_script(file, error)),
    }
}

// What becomes of a refusal of a script.
fn of_race_script<'a>(file: &'a str, error: RaceScriptError) -> ServeError<'a>
    ensures { result ≡ of_race_script file.entry error }
{
    match error {
        RaceScriptError::NoMemory => ServeError::NoMemory,
        RaceScriptError::NoRace => ServeError::RaceRefused {
            file,
            number: error.number(),
        },
    }
}

// What becomes of a refusal of a race.
fn of_race<'a>(file: &'a str, error: RaceError) -> ServeError<'a>
    ensures { result ≡ of_race file.entry error }
{
    match error {
        RaceError::NotOpened(SharedError::NoMemory) | RaceError::NotRun(LatestRunError::NoMemory) =>
            ServeError::NoMemory,
        RaceError::NotRun(LatestRunError::Closed) => ServeError::Closed,
        _ => ServeError::RaceRefused {
            file,
            number: error.number(),
        },
    }
}
