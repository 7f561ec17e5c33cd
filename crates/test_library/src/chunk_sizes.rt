//! Graphs and versions keep the chunk size that they were opened with, whichever call makes them. Each call gives a vertex so
//! many neighbours that they are sets in chunks, in both directions, and so tells the chunk size of the graph that it was made of.
use std::alloc::Global;
use std::thread::Threads;
use test_helpers::{Checked, stand_in_chunks};
use tree_batch::{Batch, Entry, Graph, GraphError, Quiet};
use version_list::{VersionError, Versions, Which};

const CHUNK_SIZES: [u32; 3] = [1, 16, 256];

// More than the 2,048 that are packed.
const NEIGHBOURS: u32 = 2_100;

// After the vertices that come to have so many.
const FIRST: u32 = 64;

// A batch that gives a vertex so many neighbours in both directions, and the graph a vertex more than for the vertex before.
fn hub_batch(alloc: Global, hub: u32) -> Result<Batch, GraphError> {
    let mut batch = Batch::new(alloc);
    batch.push(Entry::Grow(hub.wrapping_add(FIRST + NEIGHBOURS)))?;
    for other in FIRST..FIRST + NEIGHBOURS {
        batch.push(Entry::Add(hub, other, 1))?;
        batch.push(Entry::Add(other, hub, 1))?;
    }
    Ok(batch)
}

// The graph after the batch of a vertex, by `apply` where there are no forks.
fn applied<R: Threads + AllocGlobal + Sync>(
    rt: &R,
    graph: &Graph,
    hub: u32,
    forks: u32,
) -> Result<Graph, GraphError> {
    let batch = hub_batch(rt.alloc(), hub)?;
    if forks == 0 {
        return graph.apply(rt.alloc(), &batch);
    }
    graph.apply_forked(rt, rt.alloc(), &batch, forks, &Quiet)
}

// The graph after each call that makes one of another.
fn changed<R: Threads + AllocGlobal + Sync>(rt: &R, chunk_size: u32) -> Result<Graph, GraphError> {
    let mut graph = Graph::new(FIRST, chunk_size)?;
    for (hub, forks) in [(0, 0), (1, 0), (2, 2), (3, 2)] {
        graph = applied(rt, &graph, hub, forks)?;
        graph = graph.clone()?;
    }
    Ok(graph)
}

fn graphs_keep<R: Threads + AllocGlobal + Sync>(
    rt: &R,
    chunk_size: u32,
) -> Result<Checked, GraphError> {
    let graph = changed(rt, chunk_size)?;
    Ok(stand_in_chunks(&graph, 4, chunk_size))
}

#[test]
fn graphs_keep_their_chunk_size(rt: HostRuntime) {
    for chunk_size in CHUNK_SIZES {
        assert_eq!(rt; graphs_keep(&rt, chunk_size), Ok(Ok(())), "{chunk_size}");
    }
}

// Commits the batch of a vertex, by `commit` where there are no forks.
fn commit<R: Threads + AllocGlobal + Sync>(
    rt: &R,
    versions: &mut Versions,
    hub: u32,
    forks: u32,
) -> Result<u64, VersionError> {
    let batch = hub_batch(rt.alloc(), hub)?;
    if forks == 0 {
        return versions.commit(rt.alloc(), batch);
    }
    versions.commit_forked(rt, rt.alloc(), batch, forks)
}

// The newest version as it is held, after a version by each call and a trim.
fn hold<R: Threads + AllocGlobal + Sync>(
    rt: &R,
    versions: &mut Versions,
) -> Result<Graph, VersionError> {
    for (hub, forks) in [(0, 0), (1, 0), (2, 2), (3, 2)] {
        commit(rt, versions, hub, forks)?;
    }
    versions.trim()?;
    Ok(versions.acquire(Which::Newest)?.1)
}

// Checks that the newest version, and one that is held beside it, keep the chunk size.
fn versions_keep<R: Threads + AllocGlobal + Sync>(
    rt: &R,
    chunk_size: u32,
) -> Result<Checked, VersionError> {
    let mut versions = Versions::with_room(rt.alloc(), FIRST, chunk_size, 10)?;
    let held = hold(rt, &mut versions)?;
    commit(rt, &mut versions, 4, 0)?;
    let beside = applied(rt, &held, 4, 0)?;
    let held = stand_in_chunks(&beside, 5, chunk_size);
    Ok(held.and(stand_in_chunks(versions.newest().1, 5, chunk_size)))
}

#[test]
fn versions_keep_their_chunk_size(rt: HostRuntime) {
    for chunk_size in CHUNK_SIZES {
        assert_eq!(rt; versions_keep(&rt, chunk_size), Ok(Ok(())), "{chunk_size}");
    }
}
