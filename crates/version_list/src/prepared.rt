//! Commits, holds and trims that are prepared: nothing that follows needs memory.

use crate::step::{Done, Ticket, Which};
use tree_batch::Graph;

/// A commit whose memory is taken, of [`Versions::prepare`](crate::Versions::prepare): its entry
/// in the history, and the number and the graph of the version that it makes.
#[derive(Debug, Drop)]
pub struct Prepared {
    pub done: Done,
    pub number: u64,
    pub graph: Graph,
}

/// A trim that would be accepted, of [`Versions::prepare_trim`](crate::Versions::prepare_trim): how
/// many entries it drops.
#[derive(Debug, Drop)]
pub struct PreparedTrim {
    pub count: u64,
}

/// A hold whose memory is taken, of
/// [`Versions::prepare_acquire`](crate::Versions::prepare_acquire): which version was asked for, the
/// ticket, the number of the version, and its graph, once to hand out and once to keep.
#[derive(Debug, Drop)]
pub struct PreparedAcquire {
    pub which: Which,
    pub ticket: Ticket,
    pub version: u64,
    pub graph: Graph,
    pub kept: Graph,
}
