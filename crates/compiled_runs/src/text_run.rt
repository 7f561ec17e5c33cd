//! Runs of a text on the newest version of a shared graph.
ghost use Rattle.std.specs.Prelude.{◌≡◌, Err, IfOk, IfErr, length};
ghost use Rattle.compiler.specs.declared.error.CompileError as why;
ghost use Rattle.compiler.specs.Outcome.{Compiles};
ghost use Rattle.crew.specs.Outcome.{AreWorkers};
ghost use Rattle.shared_graph.specs.Histories.{batches_of, fold_of, Shows};
ghost use Rattle.snapshot_runs.specs.declared.error.LatestRunError as run;
ghost use Rattle.snapshot_runs.specs.declared.error.LatestRunError.TheVariants.{BadWorkers};
ghost use Rattle.compiled_runs.specs.declared.error.TextRunError.TheVariants.{NotCompiled, NotRun};
ghost use Rattle.compiled_runs.specs.Outcome.{HasPlan, IsMeaningOf, LeavesText};
ghost use Rattle.version_list.specs.Machine.{opened};

use crate::error::TextRunError;
use algorithm_meaning::Outcome;
use compiler::compile;
use crew::Gate;
use shared_graph::{Naming, Reader};
use snapshot_runs::run_latest;
use std::alloc::Global;
use std::thread::Threads;

/// By how many workers a program is run, 1 to 64, and for at most how many turns.
#[derive(Clone, Copy, Debug, PartialEq, Eq)]
pub struct RunBounds {
    pub workers: usize,
    pub turns: u64,
}

/// Compiles a text and runs it on the newest version, as [`run_latest`] does: the outcome is what the program that the text is
/// means, within the turns, on the fold of the batches in the history that the reader then shows.
///
/// Errors: `NotCompiled` where the text has no plan or memory runs out before it has one, and the reader is then as it was; else
/// `NotRun` with the refusal of [`run_latest`].
pub fn run_text_on_latest<J: Naming, R: Threads + Sync, G: Gate + Sync>(
    rt: &R,
    alloc: Global,
    text: &[u8],
    reader: &mut Reader<J>,
    bounds: RunBounds,
    gate: &G,
) -> Result<(u64, Outcome), TextRunError>
    ensures history { IfOk result (λ r. Shows (opened J.vertices J.room) reader.old reader.new) }
    ensures number { IfOk result (λ r. r.0 ≡ length (batches_of reader.new.shown)) }
    ensures outcome { IfOk result (λ r. IsMeaningOf text.now (fold_of J.vertices reader.new.shown) bounds.turns r.1) }
    ensures workers { IfOk result (λ _. AreWorkers bounds.workers) }
    ensures bad_workers { result ≡ Err (NotRun BadWorkers) → ¬ AreWorkers bounds.workers }
    ensures workers_first { (reason : run.LatestRunError) → result ≡ Err (NotRun reason) → (¬ AreWorkers bounds.workers) → reason ≡ BadWorkers }
    ensures not_compiled { (reason : why.CompileError) → result ≡ Err (NotCompiled reason) → Compiles text.now (Err reason) }
    ensures planned { (reason : run.LatestRunError) → result ≡ Err (NotRun reason) → HasPlan text.now }
    ensures refused { IfErr result (λ e. LeavesText (opened J.vertices J.room) e reader.old reader.new) }
{
    let RunBounds { workers, turns } = bounds;
    let plan = compile(alloc, text)?;
    Ok(run_latest(rt, alloc, &plan, reader, workers, turns, gate)?)
}
