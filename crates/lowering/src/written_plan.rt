//! Plan text: a plan, written line by line.
ghost use Rattle.std.specs.Prelude.{◌≡◌, ◌++◌, IfOk, OnOk};
ghost use Rattle.typed_tree.specs.ProgramTree.{ProgramTree};
ghost use Rattle.apply_options.specs.ScheduleTree.{ScheduleTree};
ghost use Rattle.plans.specs.Instruction.{InstructionTree};
ghost use Rattle.plan_text.specs.Expressions.{spaced};
ghost use Rattle.lowering.specs.inside.Targets.{indices_of};
ghost use Rattle.lowering.specs.Text.{HasText, IsWritten, instruction_line, text_of};

use decimal::push_number;
use plan_text::end_line;
use plans::{ControlOperation, Instruction, Plan, PlanOperation};
use std::alloc::{AllocError, Global};

/// The text of a plan: a line `fields` with names for each group of vectors, in the order of the schedule; then a line for
/// each instruction, with its number from 0, its words, and the number of the instruction that it may go to. The only
/// error is out of memory.
pub fn write(alloc: Global, plan: &Plan) -> Result<Vec<u8>, AllocError>
    ensures { IfOk result (λ text. (p : ProgramTree) (s : ScheduleTree) → HasText plan.now p s → text.items ≡ text_of p s) }
{
    let mut text = Vec::new(alloc);
    text.extend_from_slice(&plan.fields)?;
    'instructions: for (index, instruction) in plan.instructions.iter().enumerate() {
        put_line(&mut text, index as u64, instruction)?;
    }
    Ok(text)
}

/// The line of the instruction at an index.
fn put_line(text: &mut Vec<u8>, index: u64, instruction: &Instruction) -> Result<(), AllocError>
    ensures { OnOk result ((p : ProgramTree) (t : InstructionTree) → IsWritten p instruction.now t
        → text.new.items ≡ text.old.items ++ instruction_line p index t) }
{
    push_number(text, index)?;
    text.push(b' ')?;
    text.extend_from_slice(&instruction.words)?;
    put_target(text, &instruction.operation)?;
    end_line(text)
}

/// The number of the instruction that an operation may go to.
fn put_target(text: &mut Vec<u8>, operation: &PlanOperation) -> Result<(), AllocError>
    ensures { OnOk result (text.new.items ≡ text.old.items ++ spaced (indices_of operation.now)) }
{
    match operation {
        PlanOperation::Control(
            ControlOperation::Unless { to, .. }
            | ControlOperation::UnlessBelow { to, .. }
            | ControlOperation::Jump { to },
        ) => {
            push_number(text, *to as u64)?;
            text.push(b' ')?;
        }
        _ => {}
    }
    Ok(())
}
