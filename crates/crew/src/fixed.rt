//! Runs in which each worker has its pieces from the start.

ghost use Rattle.std.specs.Prelude.{◌≡◌, ◌+◌, ◌-◌, ◌^◌, ◌<◌, ◌≤◌, length, max, IfOk};
ghost use Rattle.std.specs.List.{All};
ghost use Rattle.crew.specs.inside.Finding.{AreAll, IsAnswered};
ghost use Rattle.crew.specs.inside.Workers.{AreNumbered, IsNumbered, HasEvery, HaveEvery};

use crate::gate::Gate;
use crate::piece::{NextPiece, do_piece, state_or_new};
use crate::piece_results::Found;
use crate::work::Work;
use crate::worker::{FinishedWorker, Run, StartingWorker, bring_back};
use std::alloc::{AllocError, Global};
use std::thread::{self, Threads};

/// What so many workers found, where worker (k - 1) mod workers + 1 does piece k. The caller is worker 1.
pub(crate) fn find_fixed<R: Threads + Sync, G: Gate + Sync, W: Work + Sync>(
    rt: &R,
    alloc: Global,
    run: &Run<'_, G, W>,
    workers: usize,
    states: &mut Vec<W::State>,
) -> Result<Vec<Found<W::Out>>, AllocError>
    requires pieces { (run.now.pieces ≤ W.pieces run.now.work.now) × (run.now.pieces ≤ 2 ^ 32) }
    requires workers { (0 < workers) × (workers ≤ 64) }
    requires states { All (W.keeps run.now.work.now) states.old.items }
    ensures found { IfOk result (λ found. All (IsAnswered (W.answers run.now.work.now) run.now.pieces) found.items
        × AreAll run.now.pieces found.items) }
    ensures states { All (W.keeps run.now.work.now) states.new.items }
    ensures back { IfOk result (λ _. length states.new.items ≡ max (length states.old.items) workers) }
{
    let &Run { gate, work, pieces } = run;
    let jobs = number_all(alloc, work, workers, states)?;
    let done = thread::map_vec(
        rt,
        jobs,
        &|job: StartingWorker<(), W::State>| -> Result<
            FinishedWorker<(), W::State, W::Out>,
            AllocError,
        >
            requires { (pieces ≤ W.pieces work.now) × (pieces ≤ 2 ^ 32) × (workers ≤ 64)
                × IsNumbered (W.keeps work.now) workers job }
            ensures { IfOk result (HasEvery (W.keeps work.entry.now) (W.answers work.entry.now)
                pieces workers job.worker) }
        { fixed_pieces(alloc, gate, work, pieces, workers, job) },
    )?;
    gather(alloc, work, pieces, done, states)
}

// The workers from the last to the first, which `map_vec` leaves to the caller. `work` says what their
// states keep.
fn number_all<W: Work>(
    alloc: Global,
    work: &W,
    workers: usize,
    states: &mut Vec<W::State>,
) -> Result<Vec<StartingWorker<(), W::State>>, AllocError>
    requires { All (W.keeps work.now) states.old.items }
    ensures jobs { IfOk result (λ jobs. (length jobs.items ≡ workers)
        × AreNumbered (W.keeps work.now) workers jobs.items) }
    ensures states { All (W.keeps work.now) states.new.items }
    ensures rest { IfOk result (λ _. length states.new.items ≡ length states.old.items - workers) }
{
    let mut jobs = Vec::with_capacity(alloc, workers)?;
    for others in 0..workers {
        jobs.push(StartingWorker {
            worker: workers - others,
            turn: (),
            state: states.pop(),
        })?;
    }
    Ok(jobs)
}

// Does the worker's pieces.
fn fixed_pieces<G: Gate, W: Work>(
    alloc: Global,
    gate: &G,
    work: &W,
    pieces: usize,
    workers: usize,
    job: StartingWorker<(), W::State>,
) -> Result<FinishedWorker<(), W::State, W::Out>, AllocError>
    requires pieces { (pieces ≤ W.pieces work.now) × (pieces ≤ 2 ^ 32) }
    requires workers { workers ≤ 64 }
    requires job { IsNumbered (W.keeps work.now) workers job }
    ensures { IfOk result (HasEvery (W.keeps work.now) (W.answers work.now) pieces workers job.worker) }
{
    let StartingWorker {
        worker,
        turn: _,
        state,
    } = job;
    let mut state = state_or_new(alloc, work, state)?;
    let mut found = Vec::new(alloc);
    let mut index = worker - 1;
    while index < pieces {
        let next = NextPiece {
            worker,
            index,
            pieces,
        };
        do_piece(alloc, gate, work, next, &mut state, &mut found)?;
        index += workers;
    }
    Ok(FinishedWorker {
        turn: (),
        state,
        found,
    })
}

// What the workers found, worker by worker. `work` says what it answers.
fn gather<W: Work>(
    alloc: Global,
    work: &W,
    pieces: usize,
    mut workers: Vec<Result<FinishedWorker<(), W::State, W::Out>, AllocError>>,
    states: &mut Vec<W::State>,
) -> Result<Vec<Found<W::Out>>, AllocError>
    requires workers { HaveEvery (W.keeps work.now) (W.answers work.now) pieces (length workers.items) workers.items }
    requires some { 0 < length workers.items }
    requires states { All (W.keeps work.now) states.old.items }
    ensures found { IfOk result (λ found. All (IsAnswered (W.answers work.now) pieces) found.items
        × AreAll pieces found.items) }
    ensures states { All (W.keeps work.now) states.new.items }
    ensures back { IfOk result (λ _. length states.new.items ≡ length states.old.items + length workers.items) }
{
    let mut found = Vec::new(alloc);
    while let Some(worker) = workers.pop() {
        let FinishedWorker {
            turn: _,
            state,
            found: theirs,
        } = worker?;
        bring_back(state, theirs, states, &mut found)?;
    }
    Ok(found)
}
