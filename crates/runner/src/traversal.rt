//! Edge applies by the workers of a run: as many as an apply is worth.
ghost use Rattle.std.specs.Prelude.{◌≡◌, None, Some, IfOk};
ghost use Rattle.edge_fold.specs.Changed.{AreApart};
ghost use Rattle.edge_apply.specs.Applied.{AreChangesOf};
ghost use Rattle.pull_engine.specs.KeptCut.{IsCutOf};
ghost use Rattle.runner.specs.inside.Employment.{AreEmployed, work_of};
ghost use Rattle.runner.specs.HybridSources.{traversal_of};

use crate::direction::Traversal;
use crate::employment::{employed, work_up_to};
use crew::{Gate, WorkerCount, Workers};
use edge_apply::Apply;
use edge_fold::Scratch;
use pull_engine::{KeptCut, pull, pull_by_workers};
use push_engine::{push, push_by_workers};
use std::alloc::{AllocError, Global};
use std::thread::Threads;
use vectors::Changes;

/// What an apply changes, gone over in its direction, as [`crate::ApplyEngine`] says.
///
/// If somebody watches the gate, the apply is done in the pieces of its schedule, by all workers. Else fewer do
/// it if it has fewer edges, and one as a whole.
///
/// The only error is out of memory. `cut` is for the graph of the apply, and stays so. `scratch` is the caller's, and `states` has
/// those of workers; both serve any apply after this one, whatever became of it.
pub fn traverse<R: Threads + Sync, G: Gate + Sync>(
    workers: &Workers<'_, R, G>,
    alloc: Global,
    apply: &Apply<'_>,
    traversal: Traversal,
    cut: &mut KeptCut,
    scratch: &mut Scratch,
    states: &mut Vec<Scratch>,
) -> Result<Changes, AllocError>
    requires traversal { traversal ≡ traversal_of apply.now }
    requires cut { IsCutOf cut.old apply.now.flat.now }
    ensures once { IfOk result (λ c. AreApart c.vectors.items) }
    ensures changes { IfOk result (λ c. AreChangesOf apply.now c.vectors.items) }
    ensures cut { IsCutOf cut.new apply.now.flat.now }
{
    match employed_by(workers, apply, traversal) {
        None => traverse_alone(workers.count, alloc, apply, traversal, scratch),
        Some(count) => {
            let all = workers.count;
            let employed = Workers {
                rt: workers.rt,
                gate: workers.gate,
                count,
            };
            traverse_in_pieces(
                &employed, all, alloc, apply, traversal, cut, scratch, states,
            )
        }
    }
}

/// How many of these workers do an apply in pieces, or none if the caller does it as a whole.
fn employed_by<R, G: Gate>(
    workers: &Workers<'_, R, G>,
    apply: &Apply<'_>,
    traversal: Traversal,
) -> Option<WorkerCount>
    ensures { AreEmployed apply.now.parallelization workers.now.count (work_of traversal apply.now) result }
{
    let count = workers.count;
    // A proof reads here that they are at most 64.
    let _ = count.get();
    let edges = work_up_to(apply, traversal, count.edges());
    employed(workers.gate.watches(), count, apply.parallelization, edges)
}

/// Does an apply as a whole, which is not worth a second of so many workers.
fn traverse_alone(
    count: WorkerCount,
    alloc: Global,
    apply: &Apply<'_>,
    traversal: Traversal,
    scratch: &mut Scratch,
) -> Result<Changes, AllocError>
    requires traversal { traversal ≡ traversal_of apply.now }
    requires employed { AreEmployed apply.now.parallelization count (work_of traversal apply.now) None }
    ensures once { IfOk result (λ c. AreApart c.vectors.items) }
    ensures changes { IfOk result (λ c. AreChangesOf apply.now c.vectors.items) }
{
    match traversal {
        Traversal::Push => push(alloc, apply, scratch),
        Traversal::Pull => pull(alloc, apply, scratch),
    }
}

/// Does an apply in pieces by these workers, who are as many of all as it is worth.
fn traverse_in_pieces<R: Threads + Sync, G: Gate + Sync>(
    workers: &Workers<'_, R, G>,
    all: WorkerCount,
    alloc: Global,
    apply: &Apply<'_>,
    traversal: Traversal,
    cut: &mut KeptCut,
    scratch: &mut Scratch,
    states: &mut Vec<Scratch>,
) -> Result<Changes, AllocError>
    requires traversal { traversal ≡ traversal_of apply.now }
    requires employed { AreEmployed apply.now.parallelization all (work_of traversal apply.now) (Some workers.now.count) }
    requires cut { IsCutOf cut.old apply.now.flat.now }
    ensures once { IfOk result (λ c. AreApart c.vectors.items) }
    ensures changes { IfOk result (λ c. AreChangesOf apply.now c.vectors.items) }
    ensures cut { IsCutOf cut.new apply.now.flat.now }
{
    match traversal {
        Traversal::Push => push_by_workers(workers, alloc, apply, scratch, states),
        Traversal::Pull => pull_by_workers(workers, alloc, apply, cut, scratch, states),
    }
}
