//! Graphs after batches whose halves go to two threads.
use crate::forked_sets::Halves;
use std::alloc::Global;
use std::thread::Threads;
use test_helpers::Checked;
use tree_batch::{Batch, Entry, Graph, GraphError, Quiet};

// A loop in each of n blocks of 64 vertices.
fn loops_in(alloc: Global, blocks: u32) -> Result<Batch, GraphError> {
    let mut batch = Batch::new(alloc);
    for block in 0..blocks {
        let vertex = block.wrapping_mul(64);
        batch.push(Entry::Add(vertex, vertex, 1))?;
    }
    Ok(batch)
}

// Whether the halves wait for each other, in how many blocks a batch adds a loop, how many forks there are, and how often each half is
// entered at each level, the last digits for level 1: once for the edges by source, and once for those by destination. At most 6
// levels are forked.
const TIMES: [(bool, u32, u32, u64); 7] = [
    (true, 7, 1, 2),
    (false, 127, 0, 0),
    (false, 127, 1, 2),
    (false, 127, 2, 0x04_02),
    (false, 127, 3, 0x08_04_02),
    (false, 127, 6, 0x40_20_10_08_04_02),
    (false, 127, 7, 0x40_20_10_08_04_02),
];

// Checks that a batch enters each half so often at n forks.
fn check_entered<R: Threads + AllocGlobal + Sync>(
    rt: &R,
    graph: &Graph,
    batch: &Batch,
    forks: u32,
    (waits, times): (bool, u64),
) -> Result<Checked, GraphError> {
    let halves = Halves::new(waits);
    graph.apply_forked(rt, rt.alloc(), batch, forks, &halves)?;
    Ok(halves.check(times))
}

fn check_loops<R: Threads + AllocGlobal + Sync>(
    rt: &R,
    blocks: u32,
    forks: u32,
    told: (bool, u64),
) -> Result<Checked, GraphError> {
    let (graph, batch) = (Graph::new(8_128, 64)?, loops_in(rt.alloc(), blocks)?);
    check_entered(rt, &graph, &batch, forks, told)
}

#[test]
fn tells_of_each_half(rt: HostRuntime) {
    for (waits, blocks, forks, times) in TIMES {
        let told = check_loops(&rt, blocks, forks, (waits, times));
        assert_eq!(rt; told, Ok(Ok(())), "at {forks} forks, waiting: {waits}");
    }
}

// Adds edges of a vertex to some that are so far apart, from a first one on, or removes them.
fn put(
    batch: &mut Batch,
    is_there: bool,
    source: u32,
    first: u32,
    stride: u32,
    count: u32,
) -> Result<(), GraphError> {
    for index in 0..count {
        let destination = index.wrapping_mul(stride).wrapping_add(first);
        let entry = match is_there {
            true => Entry::Add(source, destination, 1),
            false => Entry::Remove(source, destination),
        };
        batch.push(entry)?;
    }
    Ok(())
}

// Two vertices whose neighbours are the 3,000 even numbers below 6,000, in chunks of 1.
const HUBS: [u32; 2] = [5, 200];

fn two_hubs(alloc: Global) -> Result<Graph, GraphError> {
    let mut batch = Batch::new(alloc);
    for hub in HUBS {
        put(&mut batch, true, hub, 0, 2, 3_000)?;
    }
    Graph::new(6_000, 1)?.apply(alloc, &batch)
}

// Adds 300 neighbours of one hub or both and removes as many, and adds three edges of a vertex between them.
fn hub_batch(alloc: Global, hubs: &[u32]) -> Result<Batch, GraphError> {
    let mut batch = Batch::new(alloc);
    for hub in hubs {
        put(&mut batch, true, *hub, 1, 20, 300)?;
        put(&mut batch, false, *hub, 10, 20, 300)?;
    }
    put(&mut batch, true, 100, 0, 1, 3)?;
    Ok(batch)
}

// Which hubs change, how many forks there are, and how often each half is entered at each level. Where one hub has most of the batch
// its neighbours go by halves from level 1 on, and where two share it from level 2 on, twice, as what is added and as what is removed.
// The edges by destination go by halves of the vertices.
const HUB_TIMES: [(&[u32], u32, u64); 6] = [
    (&[5], 1, 0x03),
    (&[5], 2, 0x06_03),
    (&[5], 3, 0x0c_06_03),
    (&HUBS, 1, 0x02),
    (&HUBS, 2, 0x06_02),
    (&HUBS, 3, 0x0c_06_02),
];

fn check_hubs<R: Threads + AllocGlobal + Sync>(
    rt: &R,
    hubs: &[u32],
    forks: u32,
    times: u64,
) -> Result<Checked, GraphError> {
    let (graph, batch) = (two_hubs(rt.alloc())?, hub_batch(rt.alloc(), hubs)?);
    check_entered(rt, &graph, &batch, forks, (false, times))
}

#[test]
fn levels_go_on_inside_a_vertex(rt: HostRuntime) {
    for (hubs, forks, times) in HUB_TIMES {
        let told = check_hubs(&rt, hubs, forks, times);
        assert_eq!(rt; told, Ok(Ok(())), "of {hubs:?} at {forks} forks");
    }
}

// Entries in each of five blocks, and most at one vertex: whether the edges are there, their source, the first destination, and how
// many there are.
const UNEVEN: [(bool, u32, u32, u32); 8] = [
    (true, 0, 10, 10),
    (true, 64, 10, 10),
    (true, 128, 10, 10),
    (true, 192, 10, 10),
    (true, 256, 10, 10),
    (true, 130, 0, 600),
    (false, 130, 100, 50),
    (true, 131, 5, 3),
];

fn uneven_batch(alloc: Global) -> Result<Batch, GraphError> {
    let mut batch = Batch::new(alloc);
    for (is_there, source, first, count) in UNEVEN {
        put(&mut batch, is_there, source, first, 1, count)?;
    }
    Ok(batch)
}

// A batch that removes most neighbours of the great vertex, and adds edges with weights.
fn lesser_batch(alloc: Global) -> Result<Batch, GraphError> {
    let mut batch = Batch::new(alloc);
    put(&mut batch, false, 130, 50, 1, 540)?;
    for entry in [
        Entry::Add(129, 0, 1),
        Entry::Remove(131, 9),
        Entry::Add(131, 9, -3),
    ] {
        batch.push(entry)?;
    }
    Ok(batch)
}

// The graph after the first batch, twice, and the second, at n forks.
fn after_batches<R: Threads + AllocGlobal + Sync>(rt: &R, forks: u32) -> Result<Graph, GraphError> {
    let mut graph = Graph::new(700, 1)?;
    for is_last in [false, false, true] {
        let batch = if is_last {
            lesser_batch(rt.alloc())?
        } else {
            uneven_batch(rt.alloc())?
        };
        graph = graph.apply_forked(rt, rt.alloc(), &batch, forks, &Quiet)?;
    }
    Ok(graph)
}

// How many edges there are after the batches, and the weight of the last one that they add.
fn applied<R: Threads + AllocGlobal + Sync>(
    rt: &R,
    forks: u32,
) -> Result<(usize, Option<i64>), GraphError> {
    let graph = after_batches(rt, forks)?;
    Ok((graph.edge_count(), graph.weight(131, 9)))
}

#[test]
fn uneven_batches_are_applied_at_any_forks(rt: HostRuntime) {
    for forks in [0, 1, 3, 6, 7] {
        assert_eq!(rt;
            applied(&rt, forks),
            Ok((115, Some(-3))),
            "at {forks} forks"
        );
    }
}
