//! How many workers a run may have, and how many it is worth.

ghost use Rattle.std.specs.Prelude.{◌≡◌, ◌*◌, ◌/◌, min, max, None, IfSome};
ghost use Rattle.crew.specs.Outcome.{AreWorkers, edges_of_a_worker};

use apply_options::MAX_WORKERS;
use std::marker::Model;

// The edges for which a further worker is worth its thread.
const EDGES_OF_A_WORKER: usize = 16_384;

/// A number of workers, 1 to 64. A contract sees the number.
#[derive(Clone, Copy, Debug, PartialEq, Eq)]
pub struct WorkerCount {
    count: usize,
}

impl Model for WorkerCount {
    ghost use Rattle.std.specs.Prelude.{ℕ};
    ghost use Rattle.crew.specs.Outcome.{AreWorkers};

    ghost Value = { ℕ };

    ghost view = { λ w. w.count };

    ghost invariant = { λ w. AreWorkers w.count };

    ghost inverse = { λ n. record { count = n } };
}

impl WorkerCount {
    /// So many workers, or none if they are not 1 to 64.
    pub fn new(workers: usize) -> Option<WorkerCount>
        ensures some { IfSome result (λ count. (count ≡ workers) × AreWorkers workers) }
        ensures none { result ≡ None → ¬ AreWorkers workers }
    {
        if 1 <= workers && workers <= MAX_WORKERS {
            Some(WorkerCount { count: workers })
        } else {
            None
        }
    }

    /// The number.
    pub fn get(self) -> usize
        ensures value { result ≡ self }
        ensures valid { AreWorkers result }
    {
        self.count
    }

    /// How many of these workers an apply over so many edges is worth: one for each 16,384 edges, but at
    /// least one, and no more than there are.
    ///
    /// A run of trivial pieces took 12 µs by two workers and 31 µs by four (4 processors), in which one
    /// worker does some thousand edges at 5 to 10 ns each. So below 32,768 edges one worker does all, and up
    /// to as many workers as there are processors their threads take less than a fifth of the time that they
    /// save.
    pub fn worth(self, edges: usize) -> WorkerCount
        ensures { result ≡ max 1 (min self (edges / edges_of_a_worker)) }
    {
        WorkerCount {
            count: (edges / EDGES_OF_A_WORKER).min(self.count).max(1),
        }
    }

    /// The number of edges from which an apply is worth all of these workers.
    pub fn edges(self) -> usize
        ensures { result ≡ self * edges_of_a_worker }
    {
        self.count * EDGES_OF_A_WORKER
    }
}
