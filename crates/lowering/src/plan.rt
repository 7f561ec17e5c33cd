//! The lowering of whole programs.
ghost use Rattle.std.specs.Prelude.{◌≡◌, ◌++◌, IfOk, OnOk};
ghost use Rattle.typed_tree.specs.ProgramTree.{program_tree};
ghost use Rattle.plans.specs.Plan.{plan_of};
ghost use Rattle.plans.specs.PlanOf.{IsPlan, program_of};
ghost use Rattle.plan_text.specs.Lines.{group_words};
ghost use Rattle.lowering.specs.Text.{AreWritten, HasText, group_lines, line_of};

use crate::blocks::Lowering;
use crate::copies::copied;
use crate::leaves::plain;
use crate::visible::Visible;
use plan_text::{Lines, end_line};
use plans::{ControlOperation, FunctionKernels, Instruction, Plan, PlanOperation};
use schedule::Schedule;
use std::alloc::{AllocError, Global};
use std::snapshot::Snapshot;
use typed_tree::Typed;

/// The plan of a checked program under a schedule, which must be one that was accepted for it where a plan of it is to
/// be shown: `lower` itself takes any. The time is in proportion to the program, and for each two applies that the schedule
/// fuses to what decides whether they fit. The only error is out of memory.
pub fn lower(alloc: Global, program: &Typed, schedule: &Schedule) -> Result<Plan, AllocError>
    ensures plan { IfOk result (λ plan. IsPlan plan (program_tree program.now) schedule.now) }
    ensures program { IfOk result (λ plan. program_of plan ≡ program_tree program.now) }
    ensures text { IfOk result (λ plan. HasText plan (program_tree program.now) schedule.now) }
{
    let instructions = instructions_of(alloc, program, schedule)?;
    let functions = FunctionKernels::of(alloc, program)?;
    let vectors = Vec::from_slice(alloc, &program.vectors)?;
    let sets = Vec::from_slice(alloc, &program.sets)?;
    let names = copied(alloc, &program.names)?;
    let groups = copied(alloc, schedule.groups())?;
    let fields = fields_of(alloc, program, schedule)?;
    Ok(Plan {
        instructions,
        functions,
        vectors,
        sets,
        names,
        groups,
        fields,
        program: Snapshot::of(program),
    })
}

/// The instructions of `main`, and the end.
fn instructions_of(
    alloc: Global,
    program: &Typed,
    schedule: &Schedule,
) -> Result<Vec<Instruction>, AllocError>
    ensures { IfOk result (λ code. AreWritten (program_tree program.now) code.items (plan_of (program_tree program.now) schedule.now)) }
{
    let mut visible = Visible::new(alloc, &program.sets)?;
    let mut code = Vec::new(alloc);
    let lowering = Lowering {
        alloc,
        program,
        schedule,
    };
    lowering.put_all(&program.main, &mut visible, &mut code)?;
    let mut words = Vec::new(alloc);
    words.extend_from_slice(b"end ")?;
    code.push(plain(
        0,
        visible.depth(),
        PlanOperation::Control(ControlOperation::End),
        words,
    ))?;
    Ok(code)
}

/// The text of the groups, a line for each.
fn fields_of(alloc: Global, program: &Typed, schedule: &Schedule) -> Result<Vec<u8>, AllocError>
    ensures { IfOk result (λ fields. fields.items ≡ group_lines (program_tree program.now) schedule.now.groups) }
{
    let groups = schedule.groups();
    let mut fields = Vec::new(alloc);
    'groups: for group in groups {
        put_fields(&mut fields, Lines { program }, group.as_slice())?;
    }
    Ok(fields)
}

/// The line of a group.
fn put_fields(fields: &mut Vec<u8>, lines: Lines<'_>, vectors: &[usize]) -> Result<(), AllocError>
    ensures { OnOk result (fields.new.items ≡ fields.old.items ++ line_of (group_words (program_tree lines.entry.program.now) vectors.now)) }
{
    lines.put_group(fields, vectors)?;
    end_line(fields)
}
