//! Runs of pieces.

ghost use Rattle.std.specs.Prelude.{◌≡◌, ◌^◌, ◌≤◌, length, max, min, IfOk};
ghost use Rattle.std.specs.List.{All};
ghost use Rattle.crew.specs.Outcome.{Finds};

use crate::error::CrewError;
use crate::gate::Gate;
use crate::piece_assignment::PieceAssignment;
use crate::piece_results::Found;
use crate::work::Work;
use crate::worker_count::WorkerCount;
use crate::workers::Workers;
use std::alloc::Global;
use std::thread::Threads;

/// What the work answers for each of its pieces 1 to `pieces`, in the order of the pieces, found by so
/// many workers, 1 to 64, of whom the caller is worker 1. The answer is the same however the pieces
/// fall to the workers. `gate` is called with each piece before it is done.
///
/// A worker takes its state from the end of `states`, or asks the work for a new one where there is
/// none left; after the run the states of all workers are in `states`, after those that were not
/// taken, so that the next run needs no new ones. After an error some are lost.
///
/// One worker, or one piece, starts no thread; else as many threads are started as there are workers
/// beside the caller, but no more than there are pieces beside one. Where a thread cannot be started,
/// others do what its worker would have done. The answer takes `O(pieces + workers)` beside the work.
///
/// Errors: `BadWorkers` where the number of workers is not 1 to 64, else `NoMemory`, also where a piece
/// or a new state is out of memory.
pub fn run_pieces<R: Threads + Sync, G: Gate + Sync, W: Work + Sync>(
    rt: &R,
    alloc: Global,
    pieces: usize,
    workers: usize,
    share: PieceAssignment,
    gate: &G,
    work: &W,
    states: &mut Vec<W::State>,
) -> Result<Vec<Found<W::Out>>, CrewError>
    requires pieces { (pieces ≤ W.pieces work.now) × (pieces ≤ 2 ^ 32) }
    requires states { All (W.keeps work.now) states.old.items }
    ensures found { Finds (W.answers work.now) pieces workers result }
    ensures states { All (W.keeps work.now) states.new.items }
    ensures back { IfOk result (λ _. length states.new.items ≡ max (length states.old.items) (min workers pieces)) }
{
    let Some(count) = WorkerCount::new(workers) else {
        return Err(CrewError::BadWorkers);
    };
    let workers = Workers { rt, gate, count };
    Ok(workers.run_pieces(alloc, pieces, share, work, states)?)
}
