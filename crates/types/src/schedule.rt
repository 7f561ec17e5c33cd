//! The calls of a schedule, with their arguments without quotes.
ghost use Rattle.std.specs.Prelude.{◌≡◌, ◌∷◌, ◌++◌, IfOk, OnOk, map};
ghost use Rattle.syntax.specs.SourceViews.{call_tree as source_call, chain_tree};
ghost use Rattle.typed_tree.specs.ProgramTree.{call_tree};
ghost use Rattle.types.specs.Program.{schedule_call, schedule_calls};
ghost use Rattle.std.specs.Option.{option_map};

use initializer_types::between_ends;
use std::alloc::{AllocError, Global};
use syntax::{Call, Chain};
use typed_tree::ScheduleCall;

/// The calls of a schedule, in the order of the text.
pub(crate) fn calls(
    alloc: Global,
    schedule: &Option<Vec<Chain>>,
) -> Result<Vec<ScheduleCall>, AllocError>
    ensures { IfOk result (λ calls. map call_tree calls.items ≡ schedule_calls (option_map (λ chains. map chain_tree chains.items) schedule.now)) }
{
    let mut calls = Vec::new(alloc);
    let Some(chains) = schedule else {
        return Ok(calls);
    };
    'chains: for chain in chains {
        push_chain(alloc, chain, &mut calls)?;
    }
    Ok(calls)
}

fn push_chain(alloc: Global, chain: &Chain, calls: &mut Vec<ScheduleCall>) -> Result<(), AllocError>
    ensures { OnOk result (map call_tree calls.new.items ≡ map call_tree calls.old.items
        ++ map schedule_call (source_call chain.now.first ∷ map source_call chain.now.more.items)) }
{
    calls.push(call_of(alloc, &chain.first)?)?;
    'calls: for call in &chain.more {
        calls.push(call_of(alloc, call)?)?;
    }
    Ok(())
}

/// A call with its arguments without their quotes.
fn call_of(alloc: Global, call: &Call) -> Result<ScheduleCall, AllocError>
    ensures { IfOk result (λ c. call_tree c ≡ schedule_call (source_call call.now)) }
{
    let mut arguments = Vec::new(alloc);
    arguments.push(between_ends(alloc, call.first.bytes())?)?;
    'texts: for text in &call.more {
        arguments.push(between_ends(alloc, text.bytes())?)?;
    }
    Ok(ScheduleCall {
        at: call.at,
        setting: call.setting,
        arguments,
    })
}
