//! From a text to a plan: the passes, and laws of what they give.
ghost use Rattle.std.specs.Prelude.{ℕ, List, Ok, Err};
ghost use Rattle.parser.specs.SourceTrees.{SourceTree};
ghost use Rattle.schedule.specs.ProgramTree.{ProgramTree};
ghost use Rattle.types.specs.Program.{Checks};
ghost use Rattle.schedule.specs.ScheduleTree.{ScheduleTree};
ghost use Rattle.plans.specs.Plan.{plan_of};
ghost use Rattle.plans.specs.Reducing.{AppliesReduce};
ghost use Rattle.compiler.specs.declared.error.CompileError as error;
ghost use Rattle.compiler.specs.Outcome.{Compiles, StandsIn};

use crate::error::CompileError;
use lowering::lower;
use parser::parse;
use plans::Plan;
use schedule::accept;
use std::alloc::Global;
use types::check;

/// The plan of the program that a text is, under the program's schedule. The text may have any bytes. The plan keeps its text,
/// which [`lowering::write`] writes. Whatever the state of a run of the plan, each edge apply in it gives a vector numbers by one
/// reduction.
///
/// Errors: `NotParsed` where the text is no source, with the parser's reason and its offset; else
/// `NotTyped` where the source breaks a rule of types, with the fault of the least offset, and of several
/// there the one of the least number; else `NotScheduled` where a call of the schedule breaks a rule, with
/// the first such call's offset and the least number of the rules that it breaks; and `NoMemory` at any time.
///
/// # Example
///
/// ```
/// let plan = compile(alloc, DISTANCES)?;
/// ```
pub fn compile(alloc: Global, text: &[u8]) -> Result<Plan, CompileError>
    ensures { Compiles text.now result }
{
    let source = parse(alloc, text)?;
    let program = check(alloc, &source)?;
    let schedule = accept(alloc, &program)?;
    Ok(lower(alloc, &program, &schedule)?)
}

/// The law that a refusal is in the text, or at its end: its offset is at most the text's length. The call does nothing.
pub fn refusals_stand_in_the_text()
    ensures { (text : List ℕ) (refusal : error.CompileError) → Compiles text (Err refusal) → StandsIn text refusal }
{}

/// The law that the plan of a checked program, from whatever text and under any schedule, gives a vector numbers by one reduction
/// in each of its edge applies: what a run of the plan asks for. The call does nothing.
pub fn checked_programs_reduce_each_vector_in_one_way()
    ensures { (source : SourceTree) (length : ℕ) (program : ProgramTree) (schedule : ScheduleTree) → Checks source length (Ok program)
        → AppliesReduce program (plan_of program schedule) }
{}
