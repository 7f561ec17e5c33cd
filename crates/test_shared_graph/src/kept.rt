//! Versions that are held, and released.

use crate::batches::hub_batch;
use crate::failure::{Answer, Failure, need};
use shared_graph::{Held, Naming, Reader, SharedGraph, Unreleased};
use std::alloc::Global;
use std::sync::Wait;
use test_helpers::stand_in_chunks;
use tree_batch::Graph;
use version_list::Which;

/// A version that is held, which is let go without a release.
pub(crate) struct Kept<J: Naming> {
    held: Option<Held<J>>,
}

impl<J: Naming> Drop for Kept<J> {
    fn drop(self) {
        let Kept { held } = self;
        if let Some(held) = held {
            held.into_snapshot();
        }
    }
}

/// Holds a version beside those that are held. The answer is its number.
pub(crate) fn hold<J: Naming, R: Wait>(
    rt: &R,
    alloc: Global,
    graph: &SharedGraph<J, &R>,
    me: &mut Reader<J>,
    (kept, which): (&mut Vec<Kept<J>>, Which),
) -> Answer {
    match graph.hold(rt, alloc, me, which) {
        Ok(held) => {
            let number = held.snapshot().number;
            let is_kept = kept.push(Kept { held: Some(held) }).is_ok();
            if is_kept {
                Ok(number)
            } else {
                Err(Failure::Memory)
            }
        }
        Err(error) => Err(Failure::Refused(error.number())),
    }
}

/// Releases the version that was held last, which stays held if that is refused.
pub(crate) fn release<J: Naming, R: Wait>(
    rt: &R,
    graph: &SharedGraph<J, &R>,
    me: &mut Reader<J>,
    kept: &mut Vec<Kept<J>>,
) -> Answer {
    let Some(mut last) = kept.pop() else {
        return Err(Failure::Held);
    };
    let Some(held) = last.held.take() else {
        return Err(Failure::Held);
    };
    match graph.release(rt, me, held) {
        Ok(()) => Ok(0),
        Err(Unreleased { error, held }) => {
            let is_kept = kept.push(Kept { held: Some(held) }).is_ok();
            if is_kept {
                Err(Failure::Refused(error.number()))
            } else {
                Err(Failure::Memory)
            }
        }
    }
}

/// Checks that a graph has so many vertices, and these edges.
pub(crate) fn check_graph(
    graph: &Graph,
    vertices: u32,
    edges: &[(u32, u32, i64)],
) -> Result<(), Failure> {
    need(graph.vertices() == vertices, Failure::Vertices)?;
    need(graph.edges().eq(edges.iter().copied()), Failure::Edges)
}

/// The number of the version that was held last, if it has this ticket, so many vertices, and these edges.
pub(crate) fn held_is<J: Naming>(
    kept: &Vec<Kept<J>>,
    (ticket, vertices): (u64, u32),
    edges: &[(u32, u32, i64)],
) -> Answer {
    match kept.last() {
        Some(Kept { held: Some(held) }) => {
            let version = held.snapshot();
            need(held.ticket().number == ticket, Failure::Ticket)?;
            check_graph(&version.graph, vertices, edges)?;
            Ok(version.number)
        }
        _ => Err(Failure::Held),
    }
}

/// The number of the version that was held last, if its five hubs are sets in chunks of this size, and so are six after the next
/// batch.
pub(crate) fn held_in_chunks<J: Naming>(
    alloc: Global,
    kept: &Vec<Kept<J>>,
    chunk_size: u32,
) -> Answer {
    match kept.last() {
        Some(Kept { held: Some(held) }) => {
            let version = held.snapshot();
            let stand = stand_in_chunks(&version.graph, 5, chunk_size);
            stand.map_err(Failure::ChunkSize)?;
            check_next(alloc, &version.graph, chunk_size)?;
            Ok(version.number)
        }
        _ => Err(Failure::Held),
    }
}

// Checks that a batch of the next vertex makes sets in chunks of this size.
fn check_next(alloc: Global, graph: &Graph, chunk_size: u32) -> Result<(), Failure> {
    let batch = hub_batch(alloc, 5, (true, true)).map_err(|_| Failure::Memory)?;
    match graph.apply(alloc, &batch) {
        Ok(next) => stand_in_chunks(&next, 6, chunk_size).map_err(Failure::NextChunkSize),
        Err(error) => Err(Failure::Refused(error.number())),
    }
}
