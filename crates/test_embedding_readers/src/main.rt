//! A program that uses the libraries: a writer commits to a shared graph, and beside it a reader runs a program on the newest
//! version, again and again. What it prints does not depend on the threads.
//!
//! `docs/LIBRARY.md` walks through it. It promises to be safe, and no more. Nothing depends on this crate.
#![tactic(auto)]

ghost use Rattle.std.specs.Prelude.{◌≡◌};

use algorithm_meaning::Outcome;
use anyhow::Result;
use compiler::compile;
use crew::Open;
use plans::Plan;
use shared_graph::{Naming, Opening, Reader, SharedError, SharedGraph};
use snapshot_runs::run_latest;
use std::alloc::Global;
use std::marker::Brand;
use std::sync::Wait;
use std::thread::{Threads, join};
use tree_batch::{Batch, Entry};

// How many vertices the graph has: version K is the path from vertex 0 to vertex K.
const VERTICES: u32 = 64;

// No path has more edges.
const TURNS: u64 = 64;

// How many runs there are beside the commits.
const RUNS: u64 = 20;

// The vertices that can be reached from vertex 0, as a set.
const REACHED: &[u8] = b"element Vertex end element Edge end \
    const edges : edgeset{Edge}(Vertex, Vertex) = load(argv[1]); \
    const reached : vector{Vertex}(int) = 0; \
    func reach(u : Vertex, v : Vertex) reached[v] max= 1; end \
    func is_reached(v : Vertex) -> output : bool output = reached[v] == 1; end \
    func main() reached[0] = 1; \
    if true var frontier : vertexset{Vertex} = new vertexset{Vertex}(0); frontier.addVertex(0); \
    while frontier.getVertexSetSize() != 0 \
    frontier = edges.from(frontier).applyModified(reach, reached); end end \
    var found : vertexset{Vertex} = edges.getVertices(); found = found.filter(is_reached); end";

fn main(rt: HostRuntime) -> Result<()> {
    let plan = compile(rt.alloc(), REACHED)?;
    share::<Brand, _>(&rt, &rt, Opening::new(), &plan)
}

// Opens a graph for two readers.
fn share<J: Naming + Send + Sync, T: Threads + Wait + Sync>(
    rt: &HostRuntime,
    threads: &T,
    opening: Opening,
    plan: &Plan,
) -> Result<()>
    requires book { opening ≡ J.book }
    requires vertices { J.vertices ≡ 64 }
    requires room { J.room ≡ 16777216 }
{
    let alloc = rt.alloc();
    let (graph, mut readers) = SharedGraph::<J, &T>::open(
        threads, alloc, opening, VERTICES, 64, 2,
    )?;
    let mut writer = readers.pop().ok_or(SharedError::BadSeats)?;
    let mut reader = readers.pop().ok_or(SharedError::BadSeats)?;
    run_beside(rt, threads, &graph, plan, &mut writer, &mut reader)
}

// Has the one commit in one thread while the other runs the plan in a second, and then runs it once more.
fn run_beside<J: Naming + Send + Sync, W: Wait + Drop + Send + Sync, T: Threads + Wait + Sync>(
    rt: &HostRuntime,
    threads: &T,
    graph: &SharedGraph<J, W>,
    plan: &Plan,
    writer: &mut Reader<J>,
    reader: &mut Reader<J>,
) -> Result<()> {
    let alloc = rt.alloc();
    let (committed, right) = join(
        threads,
        || commit_all(threads, alloc, graph, writer),
        || count_right(threads, alloc, plan, reader),
    );
    println!(rt; "the newest version is {}", committed?)?;
    println!(rt;
        "{} of {RUNS} runs beside the commits were of their version",
        right?
    )?;
    reader.learn(&writer.token());
    let (version, outcome) = run_latest(threads, alloc, plan, reader, 2, TURNS, &Open)?;
    println!(rt;
        "the last run is on version {version} and reaches {} vertices",
        reached(&outcome)
    )?;
    Ok(())
}

// Makes the path longer by an edge a commit, and tells the last version.
fn commit_all<J: Naming, W: Wait + Drop, T: Threads + Wait + Sync>(
    threads: &T,
    alloc: Global,
    graph: &SharedGraph<J, W>,
    writer: &mut Reader<J>,
) -> Result<u64> {
    let mut newest = 0;
    for vertex in 1..VERTICES {
        let mut batch = Batch::new(alloc);
        let weight = i64::from(vertex);
        batch.push(Entry::Add(vertex - 1, vertex, weight))?;
        newest = graph.commit(threads, alloc, writer, batch)?;
    }
    Ok(newest)
}

// Runs the plan on the newest version, again and again, and tells how often it reached one vertex more than the version has edges.
fn count_right<J: Naming, T: Threads + Sync>(
    threads: &T,
    alloc: Global,
    plan: &Plan,
    reader: &mut Reader<J>,
) -> Result<u64> {
    let mut right = 0u64;
    for _ in 0..RUNS {
        let (version, outcome) = run_latest(threads, alloc, plan, reader, 1, TURNS, &Open)?;
        if reached(&outcome) as u64 == version.wrapping_add(1) {
            right = right.wrapping_add(1);
        }
    }
    Ok(right)
}

// How many vertices a run found.
fn reached(outcome: &Outcome) -> usize {
    match outcome.sets.as_slice().first() {
        Some(found) => found.members.as_slice().len(),
        None => 0,
    }
}
