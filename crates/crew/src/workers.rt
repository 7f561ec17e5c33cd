//! Workers: how many, who starts their threads, and what is called with their pieces.

ghost use Rattle.std.specs.Prelude.{◌≡◌, ◌^◌, ◌<◌, ◌≤◌, length, max, min, IfOk};
ghost use Rattle.std.specs.List.{All};
ghost use Rattle.crew.specs.Pieces.{AreFound};

use crate::alone::run_alone;
use crate::claimed::find_claimed;
use crate::fixed::find_fixed;
use crate::gate::Gate;
use crate::in_order::in_order;
use crate::piece_assignment::PieceAssignment;
use crate::piece_results::Found;
use crate::work::Work;
use crate::worker::Run;
use crate::worker_count::WorkerCount;
use std::alloc::{AllocError, Global};
use std::thread::Threads;

/// So many workers, who starts their threads, and the gate that is called with their pieces. No thread is started yet. The
/// caller is worker 1.
pub struct Workers<'a, R, G> {
    pub rt: &'a R,
    pub gate: &'a G,
    pub count: WorkerCount,
}

impl<R, G> Drop for Workers<'_, R, G> {
    fn drop(self) {
        let Workers {
            rt: _,
            gate: _,
            count: _,
        } = self;
    }
}

impl<R: Threads + Sync, G: Gate + Sync> Workers<'_, R, G> {
    /// What the work answers for each of its pieces 1 to `pieces`, as [`crate::run_pieces`] says.
    ///
    /// The only error is out of memory, also if a piece or a new state is out of memory.
    pub fn run_pieces<W: Work + Sync>(
        &self,
        alloc: Global,
        pieces: usize,
        assignment: PieceAssignment,
        work: &W,
        states: &mut Vec<W::State>,
    ) -> Result<Vec<Found<W::Out>>, AllocError>
        requires pieces { (pieces ≤ W.pieces work.now) × (pieces ≤ 2 ^ 32) }
        requires states { All (W.keeps work.now) states.old.items }
        ensures found { IfOk result (λ found. AreFound (W.answers work.now) pieces found.items) }
        ensures states { All (W.keeps work.now) states.new.items }
        ensures back { IfOk result (λ _. length states.new.items ≡ max (length states.old.items) (min self.now.count pieces)) }
    {
        let gate = self.gate;
        let workers = self.count.get().min(pieces);
        if workers <= 1 {
            return run_alone(alloc, gate, work, pieces, states);
        }
        let run = Run { gate, work, pieces };
        run_together(self.rt, alloc, &run, workers, assignment, states)
    }
}

// A run of two workers or more.
fn run_together<R: Threads + Sync, G: Gate + Sync, W: Work + Sync>(
    rt: &R,
    alloc: Global,
    run: &Run<'_, G, W>,
    workers: usize,
    assignment: PieceAssignment,
    states: &mut Vec<W::State>,
) -> Result<Vec<Found<W::Out>>, AllocError>
    requires pieces { (run.now.pieces ≤ W.pieces run.now.work.now) × (run.now.pieces ≤ 2 ^ 32) }
    requires workers { (0 < workers) × (workers ≤ 64) }
    requires states { All (W.keeps run.now.work.now) states.old.items }
    ensures found { IfOk result (λ found. AreFound (W.answers run.now.work.now) run.now.pieces found.items) }
    ensures states { All (W.keeps run.now.work.now) states.new.items }
    ensures back { IfOk result (λ _. length states.new.items ≡ max (length states.old.items) workers) }
{
    let found = match assignment {
        PieceAssignment::Claimed => find_claimed(rt, alloc, run, workers, states)?,
        PieceAssignment::Fixed => find_fixed(rt, alloc, run, workers, states)?,
    };
    in_order(alloc, found, run.pieces)
}
