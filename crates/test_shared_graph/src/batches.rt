//! The batches that calls commit.

use crate::calls::Call;
use std::alloc::{AllocError, Global};
use tree_batch::{Batch, Entry};

// After the vertices that come to have so many neighbours.
const FIRST: u32 = 64;

// More neighbours than the 2,048 that are packed.
const NEIGHBOURS: u32 = 2_100;

/// The greatest number of a version that is made by a vertex and an edge.
pub(crate) const GROWN: u64 = 10_000;

fn add(batch: &mut Batch, entry: Entry) -> Result<(), AllocError> {
    match batch.push(entry) {
        Ok(()) => Ok(()),
        Err(_) => Err(AllocError),
    }
}

/// The batch that a call commits; an empty one, if it commits none.
pub(crate) fn batch_for(alloc: Global, call: Call) -> Result<Batch, AllocError> {
    match call {
        Call::Commit(entries) => batch_of(alloc, entries),
        Call::Hub(hub, has_destinations, has_sources) => {
            hub_batch(alloc, hub, (has_destinations, has_sources))
        }
        Call::Edges(size) => first_edges(alloc, size),
        _ => Ok(Batch::new(alloc)),
    }
}

fn batch_of(alloc: Global, entries: &[Entry]) -> Result<Batch, AllocError> {
    let mut batch = Batch::new(alloc);
    for entry in entries {
        add(&mut batch, *entry)?;
    }
    Ok(batch)
}

/// A batch that gives a vertex its neighbours, as destinations, as sources, or as both, which are so many entries that the commit
/// starts threads; and the graph a vertex more than for the vertex before.
pub(crate) fn hub_batch(
    alloc: Global,
    hub: u32,
    (has_destinations, has_sources): (bool, bool),
) -> Result<Batch, AllocError> {
    let mut batch = Batch::new(alloc);
    let end = FIRST + NEIGHBOURS;
    add(&mut batch, Entry::Grow(end.wrapping_add(hub)))?;
    for other in FIRST..end {
        if has_destinations {
            add(&mut batch, Entry::Add(hub, other, 1))?;
        }
        if has_sources {
            add(&mut batch, Entry::Add(other, hub, 1))?;
        }
    }
    Ok(batch)
}

// So many edges of 70 vertices.
fn first_edges(alloc: Global, size: u32) -> Result<Batch, AllocError> {
    let mut batch = Batch::new(alloc);
    for edge in 0..size {
        add(&mut batch, Entry::Add(edge / 70, edge % 70, 1))?;
    }
    Ok(batch)
}

/// The batch that makes the version of this number of a graph that was opened with one vertex: one vertex more than the version
/// before, and an edge from it to vertex 0, which comes first; or nothing, after the 10,000th.
pub(crate) fn grown(alloc: Global, number: u64) -> Result<Batch, AllocError> {
    if number > GROWN {
        return Ok(Batch::new(alloc));
    }
    let vertex = number as u32;
    batch_of(
        alloc,
        &[
            Entry::Add(vertex, 0, 1),
            Entry::Grow(vertex.wrapping_add(1)),
        ],
    )
}
