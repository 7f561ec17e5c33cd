//! The chunk size of the neighbours of vertices.

use crate::checked::{Checked, check};
use tree_batch::{Graph, NeighbourSet};

/// Checks that the neighbours of the first so many vertices are in chunks of this size, in both directions.
pub fn stand_in_chunks(graph: &Graph, hubs: u32, chunk_size: u32) -> Checked {
    for hub in 0..hubs {
        check(
            chunk_size_of(graph.out(hub)) == Some(chunk_size),
            "the chunk size of destinations",
        )?;
        check(
            chunk_size_of(graph.in_(hub)) == Some(chunk_size),
            "the chunk size of sources",
        )?;
    }
    Ok(())
}

// The chunk size of neighbours that are a set in chunks.
fn chunk_size_of(neighbours: Option<NeighbourSet<'_>>) -> Option<u32> {
    let neighbours = neighbours?;
    let set = neighbours.chunked()?;
    Some(set.chunk_size().get())
}
