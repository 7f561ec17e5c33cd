//! Runs in which workers claim their pieces.

ghost use Rattle.std.specs.Prelude.{◌≡◌, ◌+◌, ◌-◌, ◌*◌, ◌^◌, ◌<◌, ◌≤◌, [], length, max, IfOk};
ghost use Rattle.std.specs.List.{All};
ghost use Rattle.crew.specs.inside.ClaimWord.{claim_view, all_rights};
ghost use Rattle.crew.specs.inside.Claims.{IsClaimAt, view_of, worker_rights};
ghost use Rattle.crew.specs.inside.Finding.{AreAll, IsAnswered};
ghost use Rattle.crew.specs.inside.Workers.{IsHired, HasClaimed};

use crate::claim_word::{Claim, ClaimWord, dismiss, draw, hire, open_word};
use crate::gate::Gate;
use crate::piece::{NextPiece, do_piece, state_or_new};
use crate::piece_results::Found;
use crate::work::Work;
use crate::worker::{FinishedWorker, Run, StartingWorker, bring_back};
use std::alloc::{AllocError, Global};
use std::thread::{self, Threads};

/// What so many workers found, who claim their pieces one by one, in any order. The caller is worker 1.
pub(crate) fn find_claimed<R: Threads + Sync, G: Gate + Sync, W: Work + Sync>(
    rt: &R,
    alloc: Global,
    run: &Run<'_, G, W>,
    workers: usize,
    states: &mut Vec<W::State>,
) -> Result<Vec<Found<W::Out>>, AllocError>
    requires pieces { (run.now.pieces ≤ W.pieces run.now.work.now) × (run.now.pieces ≤ 2 ^ 32) }
    requires workers { (0 < workers) × (workers ≤ 64) }
    requires states { All (W.keeps run.now.work.now) states.old.items }
    ensures found { IfOk result (λ found. All (IsAnswered (W.answers run.now.work.now) run.now.pieces) found.items
        × AreAll run.now.pieces found.items) }
    ensures states { All (W.keeps run.now.work.now) states.new.items }
    ensures back { IfOk result (λ _. length states.new.items ≡ max (length states.old.items) workers) }
{
    let (table, mut own) = open_word(alloc)?;
    let word = &table.shared;
    let jobs = hire_all::<W>(alloc, word, &mut own, run.work, workers, states)?;
    let done = claim_all(rt, alloc, word, run, jobs)?;
    gather(alloc, word, own, run, done, states)
}

// What these workers bring back, each of which claims pieces on a thread of its own.
fn claim_all<R: Threads + Sync, G: Gate + Sync, W: Work + Sync>(
    rt: &R,
    alloc: Global,
    word: &ClaimWord,
    run: &Run<'_, G, W>,
    jobs: Vec<StartingWorker<Claim, W::State>>,
) -> Result<Vec<Result<FinishedWorker<Claim, W::State, W::Out>, AllocError>>, AllocError>
    requires pieces { (run.now.pieces ≤ W.pieces run.now.work.now) × (run.now.pieces ≤ 2 ^ 32) }
    requires jobs { All (IsHired (W.keeps run.now.work.now) word.now.table_id) jobs.items }
    ensures { IfOk result (λ done. (length done.items ≡ length jobs.items)
        × All (λ r. IfOk r (HasClaimed (W.keeps run.now.work.now) (W.answers run.now.work.now) word.now.table_id run.now.pieces))
        done.items) }
{
    let &Run { gate, work, pieces } = run;
    thread::map_vec(
        rt,
        jobs,
        &|job: StartingWorker<Claim, W::State>| -> Result<
            FinishedWorker<Claim, W::State, W::Out>,
            AllocError,
        >
            requires { (pieces ≤ W.pieces work.now) × (pieces ≤ 2 ^ 32)
                × IsHired (W.keeps work.now) word.now.table_id job }
            ensures { IfOk result (HasClaimed (W.keeps work.entry.now) (W.answers work.entry.now)
                word.entry.now.table_id pieces) }
        { claim_pieces(alloc, word, gate, work, pieces, job) },
    )
}

// The workers from the last to the first, which `map_vec` leaves to the caller. `work` says what their
// states keep.
fn hire_all<W: Work>(
    alloc: Global,
    word: &ClaimWord,
    own: &mut Claim,
    work: &W,
    workers: usize,
    states: &mut Vec<W::State>,
) -> Result<Vec<StartingWorker<Claim, W::State>>, AllocError>
    requires workers { workers ≤ 64 }
    requires own { IsClaimAt word.now.table_id own.old × (view_of own.old ≡ claim_view all_rights [] 0) }
    requires states { All (W.keeps work.now) states.old.items }
    ensures own { IfOk result (λ _. IsClaimAt word.now.table_id own.new
        × (view_of own.new ≡ claim_view (all_rights - workers * worker_rights) [] 0)) }
    ensures jobs { IfOk result (λ jobs. (length jobs.items ≡ workers)
        × All (IsHired (W.keeps work.now) word.now.table_id) jobs.items) }
    ensures states { All (W.keeps work.now) states.new.items }
    ensures rest { IfOk result (λ _. length states.new.items ≡ length states.old.items - workers) }
{
    let mut jobs = Vec::with_capacity(alloc, workers)?;
    for others in 0..workers {
        jobs.push(StartingWorker {
            worker: workers - others,
            turn: hire(word, own),
            state: states.pop(),
        })?;
    }
    Ok(jobs)
}

// Does pieces as long as there are some to claim.
fn claim_pieces<G: Gate, W: Work>(
    alloc: Global,
    word: &ClaimWord,
    gate: &G,
    work: &W,
    pieces: usize,
    job: StartingWorker<Claim, W::State>,
) -> Result<FinishedWorker<Claim, W::State, W::Out>, AllocError>
    requires pieces { (pieces ≤ W.pieces work.now) × (pieces ≤ 2 ^ 32) }
    requires job { IsHired (W.keeps work.now) word.now.table_id job }
    ensures { IfOk result (HasClaimed (W.keeps work.now) (W.answers work.now) word.now.table_id pieces) }
{
    let StartingWorker {
        worker,
        mut turn,
        state,
    } = job;
    let mut state = state_or_new(alloc, work, state)?;
    let mut found = Vec::new(alloc);
    let mut index = draw(word, &mut turn) as usize;
    while index < pieces {
        let next = NextPiece {
            worker,
            index,
            pieces,
        };
        do_piece(alloc, gate, work, next, &mut state, &mut found)?;
        index = draw(word, &mut turn) as usize;
    }
    Ok(FinishedWorker { turn, state, found })
}

// What the workers found, worker by worker, once all of them are back. `run` says what its work answers.
fn gather<G: Gate, W: Work>(
    alloc: Global,
    word: &ClaimWord,
    mut own: Claim,
    run: &Run<'_, G, W>,
    mut workers: Vec<Result<FinishedWorker<Claim, W::State, W::Out>, AllocError>>,
    states: &mut Vec<W::State>,
) -> Result<Vec<Found<W::Out>>, AllocError>
    requires workers { (0 < length workers.items) × (length workers.items ≤ 64)
        × All (λ r. IfOk r (HasClaimed (W.keeps run.now.work.now) (W.answers run.now.work.now) word.now.table_id run.now.pieces))
        workers.items }
    requires own { IsClaimAt word.now.table_id own
        × (view_of own ≡ claim_view (all_rights - length workers.items * worker_rights) [] 0) }
    requires states { All (W.keeps run.now.work.now) states.old.items }
    ensures found { IfOk result (λ found. All (IsAnswered (W.answers run.now.work.now) run.now.pieces) found.items
        × AreAll run.now.pieces found.items) }
    ensures states { All (W.keeps run.now.work.now) states.new.items }
    ensures back { IfOk result (λ _. length states.new.items ≡ length states.old.items + length workers.items) }
{
    let mut found = Vec::new(alloc);
    while let Some(worker) = workers.pop() {
        let FinishedWorker {
            turn,
            state,
            found: theirs,
        } = worker?;
        dismiss(word, &mut own, turn);
        bring_back(state, theirs, states, &mut found)?;
    }
    // Who has all rights learns by a claim that all numbers below it were claimed.
    draw(word, &mut own);
    Ok(found)
}
