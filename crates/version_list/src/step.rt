//! Steps of the versions, their replies, and tickets.

ghost use Rattle.std.specs.Prelude.{◌≡◌, option_to_list};
ghost use Rattle.std.specs.Option.{option_copied};
ghost use Rattle.version_list.specs.Machine.{committed_by};

use tree_batch::Batch;

/// Which version is asked for.
#[derive(Clone, Copy, Debug, PartialEq, Eq)]
pub enum Which {
    Newest,
    At(u64),
}

/// What keeps a version while it is held. Tickets are numbered from 1 in the order in which they
/// are given.
#[derive(Clone, Copy, Debug, PartialEq, Eq)]
pub struct Ticket {
    pub number: u64,
}

/// What is asked of the versions: a batch to commit, a version to hold, a ticket to give back, or to
/// drop the entries of the history.
#[derive(Debug, Drop)]
pub enum Step {
    Commit(Batch),
    Acquire(Which),
    Release(u64),
    Trim,
}

/// What a step is answered: the number of the new version, a ticket's number and its version,
/// that the ticket is closed, how many entries were dropped, or the number of a refusal.
#[derive(Clone, Copy, Debug, PartialEq, Eq)]
pub enum Reply {
    Version(u64),
    Ticket(u64, u64),
    Released,
    Trimmed(u64),
    Refused(u16),
}

/// A step that was accepted, with its reply.
#[derive(Debug, Drop)]
pub struct Done {
    pub step: Step,
    pub reply: Reply,
}

impl Done {
    /// The batch that the step commits, or `None` if it commits none.
    pub(crate) fn batch(&self) -> Option<&Batch>
        ensures { option_to_list (option_copied result) ≡ committed_by self.now.step }
    {
        match &self.step {
            Step::Commit(batch) => Some(batch),
            Step::Acquire(_) | Step::Release(_) | Step::Trim => None,
        }
    }
}
