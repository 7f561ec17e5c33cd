//! A program that uses the libraries: it compiles a text, commits, holds a version, commits again, and runs the program on
//! both versions.
//!
//! `docs/LIBRARY.md` walks through it. It promises to be safe and to end, and no more. Nothing depends on this crate.
#![tactic(auto)]

use anyhow::{Result, anyhow};
use compiler::compile;
use flat_snapshot::Flat;
use plans::Plan;
use runner::run_alone;
use std::alloc::Global;
use tree_batch::{Batch, Entry, Graph};
use version_list::{Versions, Which};

// A graph of this many vertices, in chunks of the usual size.
const VERTICES: u32 = 6;

const CHUNK_SIZE: u32 = 64;

// No path of the graph has more edges.
const TURNS: u64 = 6;

// How many edges the shortest path from vertex 0 to each vertex has, or -1 where there is none.
const DISTANCES: &[u8] = b"element Vertex end element Edge end \
    const edges : edgeset{Edge}(Vertex, Vertex) = load(argv[1]); \
    const distance : vector{Vertex}(int) = -1; \
    func unseen(v : Vertex) -> output : bool output = distance[v] == -1; end \
    func step(u : Vertex, v : Vertex) distance[v] max= distance[u] + 1; end \
    func main() distance[0] = 0; \
    var frontier : vertexset{Vertex} = new vertexset{Vertex}(0); frontier.addVertex(0); \
    while frontier.getVertexSetSize() != 0 \
    frontier = edges.from(frontier).to(unseen).applyModified(step, distance); end end";

fn main(rt: HostRuntime) -> Result<()> {
    let alloc = rt.alloc();
    let plan = compile(alloc, DISTANCES)?;
    let mut versions = Versions::new(alloc, VERTICES, CHUNK_SIZE)?;

    let path = batch(
        alloc,
        &[
            Entry::Add(0, 1, 1),
            Entry::Add(1, 2, 1),
            Entry::Add(2, 3, 1),
        ],
    )?;
    let first = versions.commit(alloc, path)?;
    let (ticket, held) = versions.acquire(Which::Newest)?;
    let shorter = batch(alloc, &[Entry::Remove(1, 2), Entry::Add(0, 3, 1)])?;
    versions.commit(alloc, shorter)?;

    let (newest, graph) = versions.newest();
    print_distances(&rt, alloc, &plan, newest, graph)?;
    print_distances(&rt, alloc, &plan, first, &held)?;
    versions.release(ticket)?;
    Ok(())
}

// Makes a batch of these entries.
fn batch(alloc: Global, entries: &[Entry]) -> Result<Batch> {
    let mut batch = Batch::new(alloc);
    for entry in entries {
        batch.push(*entry)?;
    }
    Ok(batch)
}

// Runs the plan on a version, and prints its number and the first vector.
fn print_distances(
    rt: &impl Print,
    alloc: Global,
    plan: &Plan,
    version: u64,
    graph: &Graph,
) -> Result<()> {
    let flat = Flat::of(alloc, graph)?;
    let outcome = run_alone(alloc, plan, &flat, TURNS)?;
    let Some(distance) = outcome.vectors.as_slice().first() else {
        return Err(anyhow!("the program has no vector"));
    };
    println!(rt; "version {version}: {:?}", distance.entries.as_slice())?;
    Ok(())
}
