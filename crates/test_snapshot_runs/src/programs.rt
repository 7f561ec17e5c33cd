//! Programs, and what each shows on the versions of a graph.

use crate::failure::{Answer, Failure, need};
use algorithm_meaning::{End, Outcome};
use crew::Gate;
use std::sync::atomic::{AtomicU64, Ordering};

/// The most turns of a run.
pub(crate) const TURNS: u64 = 9;

/// A search from vertex 0, which shows the parent of each vertex. Its edge apply is done in pieces, by several workers where a
/// gate watches.
const SEARCH: &[u8] = b"element Vertex end element Edge end \
    const edges : edgeset{Edge}(Vertex, Vertex) = load(argv[1]); const parent : vector{Vertex}(int) = -1; \
    func unseen(v : Vertex) -> output : bool output = parent[v] == -1; end \
    func visit(src : Vertex, dst : Vertex) parent[dst] max= src; end \
    func main() var frontier : vertexset{Vertex} = new vertexset{Vertex}(0); \
    frontier.addVertex(0); parent[0] = 0; \
    while frontier.getVertexSetSize() != 0 \
    #s1# frontier = edges.from(frontier).to(unseen).applyModified(visit, parent); end end \
    schedule: program->configApplyDirection(\"s1\", \"DensePush\")\
    ->configApplyParallelization(\"s1\", \"static-vertex-parallel\");";

// A program that writes the entry of vertex 3.
const FOURTH: &[u8] = b"element Vertex end element Edge end \
    const mark : vector{Vertex}(int) = 5; func main() mark[3] = 6; end";

/// What a run shows: its first vector, how it ended, and after how many turns.
#[derive(Clone, Copy)]
struct Shown {
    entries: &'static [i64],
    end: End,
    turns: u64,
}

const fn finished(entries: &'static [i64], turns: u64) -> Shown {
    Shown {
        entries,
        end: End::Finished,
        turns,
    }
}

const fn faulted(entries: &'static [i64]) -> Shown {
    Shown {
        entries,
        end: End::Fault(401, 1),
        turns: 0,
    }
}

/// A program, and the graphs that it runs on.
#[derive(Clone, Copy)]
pub(crate) enum Program {
    /// The search, where versions are the paths from vertex 0 with 0, 1, 2 and 3 edges, again and again.
    OnPaths,
    /// The search on these without a turn.
    NoTurns,
    /// A text that is no program.
    Broken,
    /// The search, where version 1 has two vertices, of which vertex 0 leads to vertex 1, version 2 three, of which vertex 2
    /// leads to vertex 0 besides, and version 3 five, of which vertex 1 leads to vertex 4 besides.
    OnGrown,
    /// The program that writes one entry, on these.
    Marked,
    /// The search on three vertices, where version 1 has an edge from vertex 0 to vertex 1.
    OnThree,
    /// The search on a fork that comes together, and has a tail; a sixth vertex has no edge.
    OnSix,
}

impl Program {
    pub(crate) fn text(self) -> &'static [u8] {
        match self {
            Program::Broken => b"func",
            Program::Marked => FOURTH,
            _ => SEARCH,
        }
    }

    pub(crate) fn turns(self) -> u64 {
        match self {
            Program::NoTurns => 0,
            _ => TURNS,
        }
    }

    // What it shows on the version of this number.
    fn shown(self, number: u64) -> Shown {
        match (self, number % 4) {
            (Program::OnPaths, 0) => finished(&[0, -1, -1, -1], 1),
            (Program::OnPaths, 1) => finished(&[0, 0, -1, -1], 2),
            (Program::OnPaths, 2) => finished(&[0, 0, 1, -1], 3),
            (Program::OnPaths, _) => finished(&[0, 0, 1, 2], 4),
            (Program::OnGrown, 1) => finished(&[0, 0], 2),
            (Program::OnGrown, 2) => finished(&[0, 0, -1], 2),
            (Program::OnGrown, _) => finished(&[0, 0, -1, -1, 1], 3),
            (Program::Marked, 1) => faulted(&[5, 5]),
            (Program::Marked, 2) => faulted(&[5, 5, 5]),
            (Program::Marked, _) => finished(&[5, 5, 5, 6, 5], 0),
            (Program::OnThree, _) => finished(&[0, 0, -1], 2),
            (Program::OnSix, _) => finished(&[0, 0, 0, 2, 3, -1], 4),
            (Program::NoTurns | Program::Broken, _) => Shown {
                entries: &[0, -1, -1, -1],
                end: End::TurnsOver,
                turns: 0,
            },
        }
    }

    /// Checks that an outcome on the version of this number is what it must be.
    pub(crate) fn check(self, number: u64, outcome: &Outcome) -> Result<(), Failure> {
        let shown = self.shown(number);
        let Some(vector) = outcome.vectors.as_slice().first() else {
            return Err(Failure::Vector);
        };
        need(outcome.end == shown.end, Failure::End)?;
        need(outcome.turns == shown.turns, Failure::Turns)?;
        need(vector.entries.as_slice() == shown.entries, Failure::Entries)
    }

    /// The number of the version, if a run on it by so many workers shows what it must, and its gate was called with each piece: a
    /// turn has one for each worker, and at most one for each vertex.
    pub(crate) fn answer(
        self,
        number: u64,
        outcome: &Outcome,
        (gate, workers): (&Counting, usize),
    ) -> Answer {
        let shown = self.shown(number);
        let pieces = shown
            .turns
            .wrapping_mul(workers.min(shown.entries.len()) as u64);
        self.check(number, outcome)?;
        need(gate.count() == pieces, Failure::Pieces)?;
        Ok(number)
    }
}

/// Counts the pieces.
#[derive(Drop)]
pub(crate) struct Counting(AtomicU64);

impl Counting {
    pub(crate) fn new() -> Counting {
        Counting(AtomicU64::new(0))
    }

    fn count(&self) -> u64 {
        self.0.load(Ordering::SeqCst)
    }
}

impl Gate for Counting {
    fn enter(&self, _worker: usize, _piece: usize, _pieces: usize) {
        self.0.fetch_add(1, Ordering::SeqCst);
    }
}
