//! The first of some runs that are recorded, on the newest version or on one that is held.
ghost use Rattle.std.specs.Prelude.{◌≡◌, Err, IfOk, IfErr};
ghost use Rattle.std.specs.Arc.{arc_value};
ghost use Rattle.shared_graph.specs.Histories.{Shows};
ghost use Rattle.snapshot_runs.specs.declared.error.LatestRunError.TheVariants.{BadWorkers};
ghost use Rattle.snapshot_runs.specs.Outcome.{Leaves};
ghost use Rattle.snapshot_runs.specs.inside.Recorded.{IsRecordedOn, IsRecordedRun};
ghost use Rattle.version_list.specs.Machine.{opened};

use crate::error::LatestRunError;
use crew::{Gate, Workers};
use flat_snapshot::Flat;
use plans::Plan;
use run_records::{RecordedRun, run_with_record};
use shared_graph::{Held, Naming, Reader};
use std::alloc::{AllocError, Global};
use std::sync::Arc;
use std::thread::Threads;
use tree_batch::Graph;

/// Runs a plan on the newest version, and makes a record of the run.
pub(crate) fn run_first<J: Naming, R: Threads + Sync, G: Gate + Sync>(
    workers: &Workers<'_, R, G>,
    alloc: Global,
    plan: &Arc<Plan>,
    reader: &mut Reader<J>,
    turns: u64,
) -> Result<(u64, RecordedRun), LatestRunError>
    ensures history { IfOk result (λ r. Shows (opened J.vertices J.room) reader.old reader.new) }
    ensures run { IfOk result (λ r. IsRecordedRun J.vertices (arc_value plan.now) turns reader.new.shown r.0 r.1) }
    ensures workers { result ≡ Err BadWorkers → ⊥ }
    ensures refused { IfErr result (λ e. Leaves (opened J.vertices J.room) e reader.old reader.new) }
{
    let snapshot = reader.latest()?;
    let graph = flat_of(alloc, &snapshot.graph)?;
    let run = run_with_record(workers, alloc, plan, &graph, turns, None)?;
    Ok((snapshot.number, run))
}

/// Runs a plan on a version that is held, and makes a record of the run. The only error is out of memory.
pub(crate) fn run_first_held<J: Naming, R: Threads + Sync, G: Gate + Sync>(
    workers: &Workers<'_, R, G>,
    alloc: Global,
    plan: &Arc<Plan>,
    held: &Held<J>,
    turns: u64,
) -> Result<RecordedRun, AllocError>
    ensures { IfOk result (IsRecordedOn (arc_value plan.now) held.now.graph turns) }
{
    let snapshot = held.snapshot();
    let graph = flat_of(alloc, &snapshot.graph)?;
    run_with_record(workers, alloc, plan, &graph, turns, None)
}

/// The flat snapshot of a graph, shared. The only error is out of memory.
pub(crate) fn flat_of(alloc: Global, graph: &Graph) -> Result<Arc<Flat>, AllocError>
    ensures { IfOk result (λ flat. arc_value flat ≡ graph.now) }
{
    let flat = Flat::of(alloc, graph)?;
    Ok(Arc::new(alloc, flat)?)
}
