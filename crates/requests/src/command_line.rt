//! What is declared to clap: the commands, their files and their options, and the texts of help.

ghost use Rattle.std.specs.Prelude.{◌≡◌, IfOk, codes, false};
ghost use Rattle.clap.specs.Words.{App, app_of, rule_of, with_rule, with_subcommand};
ghost use Rattle.clap.specs.declared.builder.command.Command.TheViews.{out-Command as fields_of};
ghost use Rattle.requests.specs.Asked.{command_line, file_command, one_file as file_rule, program as program_alone, script_command, script_files, file_commands as commands_of_files, race_command, race_script as script_rule, race_programs as programs_rule, workers_option, turns_option};

use apply_options::MAX_WORKERS;
use clap::{Arg, ArgAction, Command, value_parser};
use std::alloc::{AllocError, Global};

pub(crate) const CHECK: &str = "check";

pub(crate) const PLAN: &str = "plan";

pub(crate) const SCRIPT: &str = "script";

pub(crate) const FILE: &str = "FILE";

/// The command `race`.
pub(crate) const RACE: &str = "race";

/// The file with the script of a race.
pub(crate) const RACE_SCRIPT: &str = "SCRIPT";

/// The files with the programs of a race.
pub(crate) const RACE_PROGRAMS: &str = "PROGRAM";

/// The option of how many workers a run has.
pub(crate) const WORKERS: &str = "workers";

/// The option of how many turns a run may use.
pub(crate) const TURNS: &str = "turns";

const SHOWN: &[&str] = &["SCRIPT", "PROGRAM"];

const VERSION: &str = "0.1.0";

const ABOUT: &str = "Runs graph programs on versions of a graph that a script edits.";

const USAGE: &str =
    "gsnap\n       gsnap check FILE\n       gsnap plan FILE\n       gsnap script SCRIPT [PROGRAM]..\n       \
    gsnap race SCRIPT PROGRAM.. [--workers W] [--turns T]";

const HELP: &str =
    "With no command, the script is read from standard input, and it has no programs.\n\
    Example: gsnap script examples/squares.script examples/squares.program\n\
    docs/SCRIPTS.md lists the lines of scripts, and docs/LANGUAGE.md describes programs.";

const CHECK_ABOUT: &str = "Compiles the program in a file, and prints `ok`";

const CHECK_HELP: &str =
    "If the text is refused, the number and the place of the first fault are reported, then line and column, what the number means\n\
    and what to do. The exit status is 0 if the program compiles, 1 if its text is refused, and 5 if the file cannot be read.\n\
    \n\
    201 to 203  a byte, a number or a text in quotes is no token\n\
    211         the text is outside the grammar\n\
    212         blocks and brackets nest deeper than 64\n\
    221, 222    a name is not visible, or is so already\n\
    223         the type or the kind is wrong there\n\
    224 to 226  an edge function assigns an entry, reduces one vector in two ways, or uses another vertex than it may\n\
    227 to 229  `print` outside `main`, no `main`, a label twice\n\
    301 to 308  a call of the schedule names a label, a value or a vector that it may not\n\
    900, 901    out of memory; the file cannot be read\n\
    \n\
    docs/REFUSALS.md has an example and a cure for each.\n\
    Example: gsnap check examples/squares.program";

const PLAN_ABOUT: &str = "Compiles the program in a file, and prints its plan";

const PLAN_HELP: &str =
    "Each line of the plan is one step of a run, as docs/PLANS.md lists them. A text is refused as by `check`.\n\
    Example: gsnap plan examples/reachability.program";

const SCRIPT_ABOUT: &str =
    "Compiles the programs in files, runs the script in a file, and prints its replies";

const SCRIPT_HELP: &str =
    "A SCRIPT of the name - is the standard input, whose lines are answered as they come.\n\
    \n\
    vertices N [B]   opens a graph of N vertices, as the first line\n\
    add U V [W]      adds an edge to the pending batch, of weight W or 1\n\
    del U V          removes an edge\n\
    grow N           raises the number of vertices to N\n\
    commit           makes the batch a version\n\
    hold [at K]      keeps the newest version, or that of number K, under a ticket\n\
    release T        closes the ticket\n\
    edges [T]        lists the edges of the newest version, or of the ticket's\n\
    run P TURNS WORKERS [T]   runs the P-th PROGRAM for at most TURNS turns by WORKERS workers, 1 to 64\n\
    \n\
    A line that is refused is answered `refused N` and changes nothing, but a refused commit drops its batch. Of a SCRIPT that is a file,\n\
    standard error names the first ten such lines with their causes. The exit status is 0, also if lines were refused; 1 if a program's\n\
    text is refused; 3 if a run ended by a fault; 4 out of memory; 5 if reading or writing fails.\n\
    docs/SCRIPTS.md says more.\n\
    Example: gsnap script examples/squares.script examples/squares.program";

const RACE_ABOUT: &str = "Runs programs while a script's batches are committed";

const RACE_HELP: &str =
    "The script is `vertices`, and then only `add`, `del`, `grow` and `commit`. Each PROGRAM runs on the version that is the\n\
    newest when it begins, and again once all batches are committed.\n\
    Example: gsnap race examples/race.script examples/reachability.program";

/// All commands.
pub(crate) fn command<'a>(alloc: Global) -> Result<Command<'a>, AllocError>
    ensures { IfOk result (λ c. app_of c ≡ command_line) }
{
    let program = file_commands(alloc);
    with_command(program, race_command(alloc))
}

// The program with the commands that files alone follow.
fn file_commands<'a>(alloc: Global) -> Result<Command<'a>, AllocError>
    ensures { IfOk result (λ c. app_of c ≡ commands_of_files) }
{
    let program = bare_program(alloc);
    let program = with_command(program, check_command(alloc));
    let program = with_command(program, plan_command(alloc));
    with_command(program, script_command(alloc))
}

// The program without its commands.
fn bare_program<'a>(alloc: Global) -> Result<Command<'a>, AllocError>
    ensures { IfOk result (λ c. app_of c ≡ program_alone) }
{
    let program = Command::new(alloc, "gsnap")
        .bin_name("gsnap")?
        .no_binary_name(true)
        .version(VERSION);
    Ok(with_texts(program, ABOUT, USAGE, HELP))
}

// A command with what help tells of it.
fn with_texts<'a>(
    command: Command<'a>,
    about: &'a str,
    usage: &'a str,
    help: &'a str,
) -> Command<'a>
    ensures app { app_of result ≡ app_of command.entry }
    ensures local { (fields_of result).has_globals ≡ (fields_of command.entry).has_globals }
{
    command.about(about).override_usage(usage).after_help(help)
}

// The program with one command more, where there is memory for both.
fn with_command<'a>(
    program: Result<Command<'a>, AllocError>,
    command: Result<Command<'a>, AllocError>,
) -> Result<Command<'a>, AllocError>
    ensures { (whole app : App) → IfOk program.entry (λ c. app_of c ≡ whole)
        → IfOk command.entry (λ c. app_of c ≡ app)
        → IfOk command.entry (λ c. (fields_of c).has_globals ≡ false)
        → IfOk result (λ p. app_of p ≡ with_subcommand whole app.top) }
{
    let program = match program {
        Ok(program) => program,
        Err(error) => {
            drop(command);
            return Err(error);
        }
    };
    match command {
        Ok(command) => program.subcommand(command),
        Err(error) => {
            drop(program);
            Err(error)
        }
    }
}

fn check_command<'a>(alloc: Global) -> Result<Command<'a>, AllocError>
    ensures app { IfOk result (λ c. app_of c ≡ file_command (codes "check")) }
    ensures local { IfOk result (λ c. (fields_of c).has_globals ≡ false) }
{
    let command = Command::new(alloc, CHECK);
    let command = with_texts(command, CHECK_ABOUT, "gsnap check FILE", CHECK_HELP);
    let file = one_file(alloc);
    with_argument(command, file)
}

fn plan_command<'a>(alloc: Global) -> Result<Command<'a>, AllocError>
    ensures app { IfOk result (λ c. app_of c ≡ file_command (codes "plan")) }
    ensures local { IfOk result (λ c. (fields_of c).has_globals ≡ false) }
{
    let command = Command::new(alloc, PLAN);
    let command = with_texts(command, PLAN_ABOUT, "gsnap plan FILE", PLAN_HELP);
    let program = one_file(alloc);
    with_argument(command, program)
}

fn script_command<'a>(alloc: Global) -> Result<Command<'a>, AllocError>
    ensures app { IfOk result (λ c. app_of c ≡ script_command) }
    ensures local { IfOk result (λ c. (fields_of c).has_globals ≡ false) }
{
    let command = Command::new(alloc, SCRIPT);
    let command = with_texts(
        command,
        SCRIPT_ABOUT,
        "gsnap script SCRIPT [PROGRAM]..",
        SCRIPT_HELP,
    );
    with_argument(command, all_files(alloc))
}

// A command with one more argument: names of files, or an option.
fn with_argument<'a>(command: Command<'a>, argument: Arg<'a>) -> Result<Command<'a>, AllocError>
    ensures app { argument.entry.global ≡ false → IfOk result (λ c. app_of c ≡ with_rule (app_of command.entry) (rule_of argument.entry)) }
    ensures local { argument.entry.global ≡ false → (fields_of command.entry).has_globals ≡ false
        → IfOk result (λ c. (fields_of c).has_globals ≡ false) }
{
    command.arg(argument)
}

// The name of the one file that a command takes.
fn one_file<'a>(alloc: Global) -> Arg<'a>
    ensures rule { rule_of result ≡ file_rule }
    ensures local { result.global ≡ false }
{
    Arg::new(alloc, FILE)
        .required(true)
        .help("The file with the program, or - for the standard input")
}

// The names of the script's file and of its programs'.
fn all_files<'a>(alloc: Global) -> Arg<'a>
    ensures rule { rule_of result ≡ script_files }
    ensures local { result.global ≡ false }
{
    Arg::new(alloc, FILE)
        .required(true)
        .num_args(1..)
        .action(ArgAction::Append)
        .value_names(SHOWN)
        .help("The file with the script, and then the files with its programs, in order")
}

fn race_command<'a>(alloc: Global) -> Result<Command<'a>, AllocError>
    ensures app { IfOk result (λ c. app_of c ≡ race_command) }
    ensures local { IfOk result (λ c. (fields_of c).has_globals ≡ false) }
{
    let command = Command::new(alloc, RACE);
    let command = with_texts(
        command,
        RACE_ABOUT,
        "gsnap race SCRIPT PROGRAM.. [--workers W] [--turns T]",
        RACE_HELP,
    );
    let command = with_argument(command, race_script(alloc))?;
    let command = with_argument(command, race_programs(alloc))?;
    let command = with_argument(command, workers_option(alloc))?;
    with_argument(command, turns_option(alloc))
}

// The name of the file with the script of a race.
fn race_script<'a>(alloc: Global) -> Arg<'a>
    ensures rule { rule_of result ≡ script_rule }
    ensures local { result.global ≡ false }
{
    Arg::new(alloc, RACE_SCRIPT)
        .required(true)
        .help("The file with the script")
}

// The names of the files with the programs of a race.
fn race_programs<'a>(alloc: Global) -> Arg<'a>
    ensures rule { rule_of result ≡ programs_rule }
    ensures local { result.global ≡ false }
{
    Arg::new(alloc, RACE_PROGRAMS)
        .required(true)
        .num_args(1..)
        .help("The files with the programs, in order")
}

fn workers_option<'a>(alloc: Global) -> Arg<'a>
    ensures rule { rule_of result ≡ workers_option }
    ensures local { result.global ≡ false }
{
    Arg::new(alloc, WORKERS)
        .long(WORKERS)
        .value_parser(value_parser!(usize).range(1..=MAX_WORKERS as i64))
        .help("How many workers a run has, 1 to 64; 2 if none is given")
}

fn turns_option<'a>(alloc: Global) -> Arg<'a>
    ensures rule { rule_of result ≡ turns_option }
    ensures local { result.global ≡ false }
{
    Arg::new(alloc, TURNS)
        .long(TURNS)
        .value_parser(value_parser!(u64))
        .help("How many turns a run may use; 1000000 if none is given")
}
