//! Outcomes of a race: the replies to its batches, and two runs of each program.
ghost use Rattle.std.specs.Prelude.{◌≡◌};
ghost use Rattle.races.specs.Race.{race_has_faulted, runs_fault};

use algorithm_meaning::Outcome;
use replies::is_fault;

/// The number of a version, and what a run on it shows.
#[derive(Drop)]
pub struct VersionRun {
    pub version: u64,
    pub outcome: Outcome,
}

/// The runs of one program: one beside the commits, and one after them.
#[derive(Drop)]
pub struct ProgramRuns {
    pub early: VersionRun,
    pub late: VersionRun,
}

/// What a commit is answered: the version that it made, or the number by which it is refused.
#[derive(Clone, Copy, Debug, PartialEq, Eq)]
pub enum CommitReply {
    Version(u64),
    Refused(u16),
}

/// A graph of n vertices, the replies of the commits, in order, and the runs of each program, in order.
#[derive(Drop)]
pub struct Race {
    pub vertices: u32,
    pub replies: Vec<CommitReply>,
    pub runs: Vec<ProgramRuns>,
}

impl Race {
    /// Whether some run ended by a fault.
    pub fn has_faulted(&self) -> bool
        ensures { result ≡ race_has_faulted self.now }
    {
        self.runs.iter().any(|runs| runs.fault())
    }
}

impl ProgramRuns {
    // Whether one of the two ended by a fault.
    fn fault(&self) -> bool
        ensures { result ≡ runs_fault self.now }
    {
        is_fault(self.early.outcome.end) || is_fault(self.late.outcome.end)
    }
}
