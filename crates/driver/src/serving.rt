//! Requests served: scripts, checks, plans and races.

ghost use Rattle.std.specs.Prelude.{◌≡◌, codes, map, IfOk};
ghost use Rattle.std.specs.Arc.{arc_value};
ghost use Rattle.std.specs.Str.{bytes_eq};
ghost use Rattle.plans.specs.PlanOf.{IsCompiled};
ghost use Rattle.crew.specs.Outcome.{AreWorkers};
ghost use Rattle.driver.specs.inside.Programs.{MayFollow, ShowsRun};
ghost use Rattle.scripts.specs.Script.{input as input_of, taken_by_writer, RunsScript};
ghost use Rattle.driver.specs.inside.Reading.{CompilesFile, CompilesFiles};
ghost use Rattle.driver.specs.Serving.{script_end_of, ChecksFile, PrintsPlan, RunsFiles, RunsStream, Serves, ServesScript};

use crate::compiled_plan::CompiledPlan;
use crate::error::ServeError;
use crate::files::{Files, STREAM, read_file};
use crate::first_fault::{FirstFault, ProgramFiles};
use crate::programs::{CompiledPrograms, RunOrder, run_by_workers};
use crate::racing::{RaceBounds, RaceFiles, race_files};
use crate::refused_lines::RefusedLines;
use crate::telling::{told, told_of_script};
use compiler::{CompileError, compile};
use devices::{Drain, Feed, write_all};
use plans::Plan;
use requests::Request;
use run_records::RecordedRun;
use scripts::{ScriptError, ScriptState, run_text, script};
use std::alloc::{AllocError, Global};
use std::sync::{Arc, Wait};
use std::thread::Threads;

// What is written of a program that compiles.
const OK_LINE: &[u8] = b"ok\n";

/// Does a request, and answers the exit status: 0 where all was done, or 3 where some run ended by a fault. `out` has then
/// taken the line `ok` of a check, the text of a plan, the replies of a script, or the text of a race. With it comes what a
/// script opened, where one was run, for the caller to drop: that takes time in proportion to the graph. A race may wait, for
/// the threads that commit and run; a script may, for those of a run by more than one worker.
///
/// `Check` and `Plan` write once the program is compiled. `Script` and `Race` compile each program before they read the next
/// file, and read the script's file last; a script of the name `-` is `input`, whose lines are answered as they come. The
/// status is 1 if a program's text, the script of a race or the graph of a race is refused. Then `err` has the file,
/// `refused`, the number and the place if it is known; for a program's text it also has the source line, the meaning of the
/// number and the cure. `out` took nothing. It is 4 if memory runs out, or a run of a race finds nothing published, and 5 if a
/// file or `input` cannot be read or `out` fails; `refused` and the number are then written to `err`, and `out` took a
/// beginning of that line or text or of the replies. A race writes nothing before all is run.
pub fn serve<T: Threads + Wait + Sync, F: Files, R: Feed, W: Drain, E: Drain>(
    rt: &T,
    alloc: Global,
    request: &Request<'_>,
    files: &F,
    input: &mut R,
    out: &mut W,
    err: &mut E,
) -> (u8, Option<ScriptState>)
    ensures { Serves (F.may_hold files.now) (F.may_fail files.now) request.now
        (input_of (R.bytes_read input.old) (R.ended input.old) (R.failures input.old))
        (input_of (R.bytes_read input.new) (R.ended input.new) (R.failures input.new))
        (taken_by_writer (W.bytes_written out.old) (W.failures out.old))
        (taken_by_writer (W.bytes_written out.new) (W.failures out.new)) result.0 }
{
    match request {
        Request::Input => serve_script(rt, alloc, STREAM, &[], files, input, out, err),
        Request::Script { script, programs } => {
            serve_script(rt, alloc, script, programs, files, input, out, err)
        }
        Request::Check { file } => {
            let ended = check_file(alloc, file, files, out);
            (told(alloc, ended, None, files, err), None)
        }
        Request::Plan { file } => {
            let ended = print_plan(alloc, file, files, out);
            (told(alloc, ended, None, files, err), None)
        }
        Request::Race {
            script,
            programs: names,
            workers,
            turns,
        } => {
            let first_fault = &FirstFault::new();
            let refused = &RefusedLines::new();
            let programs = ProgramFiles::new(names, first_fault, refused);
            let bounds = RaceBounds {
                workers: *workers,
                turns: *turns,
            };
            let names = RaceFiles { script, programs };
            let ended = race_files(rt, alloc, names, bounds, files, out);
            (told(alloc, ended, Some(programs), files, err), None)
        }
    }
}

// Runs the script in the file of this name, or the standard input if the name is `-`, with the programs in files, and answers the
// exit status and what the script opened.
fn serve_script<'a, T: Threads + Sync, F: Files, R: Feed, W: Drain, E: Drain>(
    rt: &T,
    alloc: Global,
    script: &'a str,
    names: &[&'a str],
    files: &F,
    input: &mut R,
    out: &mut W,
    err: &mut E,
) -> (u8, Option<ScriptState>)
    ensures { ServesScript (bytes_eq script.entry.now (codes "-")) (F.may_hold files.now) (F.may_fail files.now) script.entry.now
        (map (λ n. n.now) names.entry.now)
        (input_of (R.bytes_read input.old) (R.ended input.old) (R.failures input.old))
        (input_of (R.bytes_read input.new) (R.ended input.new) (R.failures input.new))
        (taken_by_writer (W.bytes_written out.old) (W.failures out.old))
        (taken_by_writer (W.bytes_written out.new) (W.failures out.new)) result.0 }
{
    let first_fault = &FirstFault::new();
    let refused = &RefusedLines::new();
    let programs = ProgramFiles::new(names, first_fault, refused);
    let by = |alloc: Global, order: RunOrder<'_, '_, '_>| -> Result<RecordedRun, AllocError>
        requires workers { AreWorkers order.workers }
        requires former { MayFollow order }
        ensures { IfOk result (ShowsRun order.entry) }
    { run_by_workers(rt, alloc, order, first_fault) };
    let (ended, state) = if script == STREAM {
        run_stream(alloc, programs, by, files, input, out)
    } else {
        run_file(alloc, script, programs, by, files, out)
    };
    let status = told_of_script(alloc, ended, script, programs, files, err);
    (status, state)
}

// The end of a script, with the errors of requests.
fn ended_as<'a>(ended: Result<bool, ScriptError>) -> Result<bool, ServeError<'a>>
    ensures { result ≡ script_end_of ended }
{
    match ended {
        Ok(faulted) => Ok(faulted),
        Err(error) => Err(ServeError::from(error)),
    }
}

// Compiles the program in the file of this name, and then writes the line `ok`. No run ends by a fault.
fn check_file<'a, F: Files, W: Drain>(
    alloc: Global,
    file: &'a str,
    files: &F,
    out: &mut W,
) -> Result<bool, ServeError<'a>>
    ensures { ChecksFile (F.may_hold files.now file.entry.now) (F.may_fail files.now file.entry.now) file.entry.now
        (taken_by_writer (W.bytes_written out.old) (W.failures out.old))
        (taken_by_writer (W.bytes_written out.new) (W.failures out.new)) result }
{
    drop(compiled_file(alloc, file, files)?);
    match write_all(out, OK_LINE) {
        Ok(()) => Ok(false),
        Err(_) => Err(ServeError::WriteFailed),
    }
}

// Compiles the program in the file of this name, and then writes the text of its plan. No run ends by a fault.
fn print_plan<'a, F: Files, W: Drain>(
    alloc: Global,
    file: &'a str,
    files: &F,
    out: &mut W,
) -> Result<bool, ServeError<'a>>
    ensures { PrintsPlan (F.may_hold files.now file.entry.now) (F.may_fail files.now file.entry.now) file.entry.now
        (taken_by_writer (W.bytes_written out.old) (W.failures out.old))
        (taken_by_writer (W.bytes_written out.new) (W.failures out.new)) result }
{
    let plan = compiled_file(alloc, file, files)?;
    let text = lowering::write(alloc, &plan)?;
    match write_all(out, &text) {
        Ok(()) => Ok(false),
        Err(_) => Err(ServeError::WriteFailed),
    }
}

// Compiles the programs in the files of these names, and then runs the script that a file holds, each program by `by`.
fn run_file<
    'a,
    B: Fn(Global, RunOrder<'_, '_, '_>) -> Result<RecordedRun, AllocError>,
    F: Files,
    W: Drain,
>(
    alloc: Global,
    script: &'a str,
    programs: ProgramFiles<'_, 'a>,
    by: B,
    files: &F,
    out: &mut W,
) -> (Result<bool, ServeError<'a>>, Option<ScriptState>)
    requires may_run { (alloc : _) (order : _) → AreWorkers order.workers → MayFollow order → B.pre by alloc order }
    requires runs { (alloc : _) (order : _) (r : _) → B.post by alloc order r → IfOk r (ShowsRun order) }
    ensures { RunsFiles (F.may_hold files.now) (F.may_fail files.now) script.entry.now (map (λ p. p.now) programs.entry.names.now)
        (taken_by_writer (W.bytes_written out.old) (W.failures out.old))
        (taken_by_writer (W.bytes_written out.new) (W.failures out.new)) result.0 }
{
    let plans = match compiled_files(alloc, programs.names, files) {
        Ok(plans) => plans,
        Err(error) => return (Err(error), None),
    };
    let text = match read_file(alloc, script, files) {
        Ok(text) => text,
        Err(error) => return (Err(error), None),
    };
    let programs = CompiledPrograms::new(plans, programs.refused, by);
    let (ended, state) = run_text(alloc, &programs, text, out);
    (ended_as(ended), Some(state))
}

// Compiles the programs in the files of these names, and then runs the standard input as a script with them, each by `by`.
fn run_stream<
    'a,
    B: Fn(Global, RunOrder<'_, '_, '_>) -> Result<RecordedRun, AllocError>,
    F: Files,
    R: Feed,
    W: Drain,
>(
    alloc: Global,
    programs: ProgramFiles<'_, 'a>,
    by: B,
    files: &F,
    input: &mut R,
    out: &mut W,
) -> (Result<bool, ServeError<'a>>, Option<ScriptState>)
    requires may_run { (alloc : _) (order : _) → AreWorkers order.workers → MayFollow order → B.pre by alloc order }
    requires runs { (alloc : _) (order : _) (r : _) → B.post by alloc order r → IfOk r (ShowsRun order) }
    ensures { RunsStream (F.may_hold files.now) (F.may_fail files.now) (map (λ p. p.now) programs.entry.names.now)
        (input_of (R.bytes_read input.old) (R.ended input.old) (R.failures input.old))
        (input_of (R.bytes_read input.new) (R.ended input.new) (R.failures input.new))
        (taken_by_writer (W.bytes_written out.old) (W.failures out.old))
        (taken_by_writer (W.bytes_written out.new) (W.failures out.new)) result.0 }
{
    let plans = match compiled_files(alloc, programs.names, files) {
        Ok(plans) => plans,
        Err(error) => return (Err(error), None),
    };
    let programs = CompiledPrograms::new(plans, programs.refused, by);
    let (ended, state) = script(alloc, &programs, input, out);
    (ended_as(ended), Some(state))
}

// The programs in the files of these names.
pub(crate) fn compiled_files<'a, F: Files>(
    alloc: Global,
    names: &[&'a str],
    files: &F,
) -> Result<Vec<CompiledPlan>, ServeError<'a>>
    ensures { CompilesFiles (F.may_hold files.now) (F.may_fail files.now) (map (λ n. n.now) names.entry.now) result }
{
    let mut compiled = Vec::new(alloc);
    'names: for name in names {
        let plan = compiled_file(alloc, name, files)?;
        compiled.push(shared(alloc, plan)?)?;
    }
    Ok(compiled)
}

// The plan of a program that was compiled, to be shared. The only error is out of memory.
fn shared(alloc: Global, plan: Plan) -> Result<CompiledPlan, AllocError>
    requires { ∥ IsCompiled plan ∥₁ }
    ensures { IfOk result (λ one. arc_value one.plan ≡ plan) }
{
    let plan = Arc::new(alloc, plan)?;
    Ok(CompiledPlan { plan })
}

// The plan of the program in the file of this name.
fn compiled_file<'a, F: Files>(
    alloc: Global,
    file: &'a str,
    files: &F,
) -> Result<Plan, ServeError<'a>>
    ensures { CompilesFile (F.may_hold files.now file.entry.now) (F.may_fail files.now file.entry.now) file.entry.now result }
{
    let text = read_file(alloc, file, files)?;
    match compile(alloc, &text) {
        Ok(plan) => Ok(plan),
        Err(CompileError::NoMemory) => Err(ServeError::NoMemory),
        Err(error) => Err(ServeError::Refused { file, error }),
    }
}
