//! Applies by pull that workers do side by side.
ghost use Rattle.std.specs.Prelude.{◌≡◌, Err, IfOk};
ghost use Rattle.crew.specs.declared.error.CrewError.TheVariants.{BadWorkers, NoMemory};
ghost use Rattle.crew.specs.Outcome.{AreWorkers};
ghost use Rattle.edge_fold.specs.Changed.{AreApart};
ghost use Rattle.edge_apply.specs.Applied.{AreChangesOf};
ghost use Rattle.pull_engine.specs.KeptCut.{IsCutOf};

use crate::kept_cut::KeptCut;
use crate::work::PullWork;
use crew::{CrewError, Gate, PieceAssignment, WorkerCount, Workers};
use edge_apply::Apply;
use edge_fold::Scratch;
use std::alloc::{AllocError, Global};
use std::thread::Threads;
use vectors::Changes;

/// What an apply of edge functions changes, as [`crate::pull`] tells it, done in pieces by n workers, 1 to 64, of whom
/// the caller is worker 1: however the pieces fall to them, the changes are the same. The pieces are those of
/// [`PullWork`]: static ones are fixed to their workers, and others are claimed. `gate` is called for each piece before it is
/// done.
///
/// A worker takes its scratch from `states`, and after the apply the scratches of all workers are there, for the next one.
/// `scratch` is that of the caller's own work, before and after the pieces, and serves any apply after this one, whatever
/// became of it.
///
/// Errors: `BadWorkers`, of number 411, where the number of workers is not 1 to 64, else `NoMemory`, of number 900.
pub fn pull_crew<R: Threads + Sync, G: Gate + Sync>(
    rt: &R,
    gate: &G,
    workers: usize,
    alloc: Global,
    apply: &Apply<'_>,
    scratch: &mut Scratch,
    states: &mut Vec<Scratch>,
) -> Result<Changes, CrewError>
    ensures workers { IfOk result (λ _. AreWorkers workers) }
    ensures refused { result ≡ Err BadWorkers → ¬ AreWorkers workers }
    ensures memory { result ≡ Err NoMemory → AreWorkers workers }
    ensures once { IfOk result (λ c. AreApart c.vectors.items) }
    ensures changes { IfOk result (λ c. AreChangesOf apply.now c.vectors.items) }
{
    let Some(count) = WorkerCount::new(workers) else {
        return Err(CrewError::BadWorkers);
    };
    let workers = Workers { rt, gate, count };
    let mut cut = KeptCut::new();
    Ok(pull_by_workers(&workers, alloc, apply, &mut cut, scratch, states)?)
}

/// What an apply of edge functions changes, as [`pull_crew`] says, by these workers. `cut` is for the graph of the apply, and stays
/// so, whatever becomes of the apply. If it has the cut of the schedule for so many workers, no cut is made. The only error is out
/// of memory.
pub fn pull_by_workers<R: Threads + Sync, G: Gate + Sync>(
    workers: &Workers<'_, R, G>,
    alloc: Global,
    apply: &Apply<'_>,
    cut: &mut KeptCut,
    scratch: &mut Scratch,
    states: &mut Vec<Scratch>,
) -> Result<Changes, AllocError>
    requires { IsCutOf cut.old apply.now.flat.now }
    ensures once { IfOk result (λ c. AreApart c.vectors.items) }
    ensures changes { IfOk result (λ c. AreChangesOf apply.now c.vectors.items) }
    ensures cut { IsCutOf cut.new apply.now.flat.now }
{
    let (parallelization, count) = (apply.parallelization, workers.count);
    let partition = cut.take(alloc, parallelization, count, apply.flat)?;
    let work = PullWork::of_partition(alloc, apply, partition, scratch)?;
    let pieces = work.pieces();
    // A graph has fewer vertices.
    if pieces > u32::MAX as usize {
        return Err(AllocError);
    }
    let assignment = PieceAssignment::of(parallelization);
    let found = workers.run_pieces(alloc, pieces, assignment, &work, states)?;
    let changes = work.merge(alloc, &found, scratch)?;
    cut.keep(parallelization, count, work.into_partition());
    Ok(changes)
}
