//! Steps of a session, and their replies.

ghost use Rattle.std.specs.Prelude.{◌≡◌};

use runner::Stand;
use std::alloc::AllocError;
use tree_batch::Batch;
use version_list::{Reply, Which};

/// What is asked of a session: a batch to commit, a version to hold, a ticket to give back, a job to start, or one
/// instruction of a job. Programs and jobs are known by their numbers, from 1.
#[derive(Debug, Drop)]
pub enum SessionStep {
    Commit(Batch),
    Acquire(Which),
    Release(u64),
    /// Starts a job of a program on the version that a ticket holds, for at most n turns.
    Start {
        program: u64,
        ticket: u64,
        turns: u64,
    },
    /// Does one instruction of the job of this number.
    JobStep(u64),
}

impl Clone for SessionStep {
    ghost is_clone = { λ step copy. copy ≡ step };

    /// A copy of the step, with a batch of its own. The only error is out of memory.
    fn clone(&self) -> Result<SessionStep, AllocError> {
        Ok(match self {
            SessionStep::Commit(batch) => SessionStep::Commit(batch.clone()?),
            SessionStep::Acquire(which) => SessionStep::Acquire(*which),
            SessionStep::Release(ticket) => SessionStep::Release(*ticket),
            SessionStep::Start {
                program,
                ticket,
                turns,
            } => SessionStep::Start {
                program: *program,
                ticket: *ticket,
                turns: *turns,
            },
            SessionStep::JobStep(job) => SessionStep::JobStep(*job),
        })
    }
}

/// What a step is answered: the reply of the versions, or that the step is refused; the number of the job that was started;
/// or how a job is after its instruction.
#[derive(Clone, Copy, Debug, PartialEq, Eq)]
pub enum SessionReply {
    Of(Reply),
    Job(u64),
    Stands(Stand),
}
