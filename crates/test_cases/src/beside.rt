//! Programs by their plans, beside the slow run.
//!
//! Each program is run on graphs of its own, by its plan as scripts do and by `plain_run`, which goes edge by edge and knows
//! nothing of plans. Both must show the same.

use flat_snapshot::Flat;
use std::alloc::{AllocError, Global};
use std::io;
use std::io::ErrorKind;
use test_oracle::{TestedProgram, check_plan};
use tree_batch::{Batch, Entry, Graph};

/// The edges of a graph with their weights, ascending, and its number of vertices.
type Edges = (u32, &'static [(u32, u32, i64)]);

/// A vertex alone; two that are tied; a fork that comes together; circles, a self loop and a hub. Weights are small,
/// negative, the least and the greatest.
const GRAPHS: &[Edges] = &[
    (1, &[]),
    (2, &[(0, 0, 1), (0, 1, 0), (1, 0, i64::MAX)]),
    (
        6,
        &[(0, 1, 5), (0, 2, 9), (1, 3, 1), (2, 3, -7), (3, 4, 256)],
    ),
    (
        9,
        &[
            (0, 1, 1),
            (1, 0, 1),
            (1, 2, 1),
            (2, 1, 1),
            (3, 3, -1),
            (3, 4, 70_000),
            (4, 5, i64::MIN),
            (5, 3, 2),
            (8, 0, 1),
            (8, 1, 255),
            (8, 2, -256),
            (8, 3, 1),
            (8, 5, 1 << 32),
            (8, 6, 0),
        ],
    ),
];

/// The bounds on turns.
const BOUNDS: &[u64] = &[0, 1, 2, 40];

/// A line for each graph and each bound on which the program of this text shows something else by its plan than by the slow run; it
/// begins with the program's path. A text that is no program has nothing to show.
pub fn differences(alloc: Global, path: &str, text: &[u8]) -> io::Result<String> {
    let mut told = String::new(alloc);
    if let Some(program) = TestedProgram::of(alloc, text) {
        for edges in GRAPHS {
            add_on_graph(alloc, &mut told, path, &program, *edges)?;
        }
    }
    Ok(told)
}

// Adds a line for each bound.
fn add_on_graph(
    alloc: Global,
    told: &mut String,
    path: &str,
    program: &TestedProgram,
    (vertices, edges): Edges,
) -> io::Result<()> {
    let graph = graph_of(alloc, vertices, edges)?;
    for turns in BOUNDS {
        if let Err(fact) = check_plan(alloc, program, &graph, edges, *turns)? {
            let line = format!(in alloc;
                "{path}: {fact}: not what the slow run shows on {vertices} vertices with {turns} turns\n"
            )?;
            told.push_str(line.as_str())?;
        }
    }
    Ok(())
}

// A graph of n vertices with these edges.
fn graph_of(alloc: Global, vertices: u32, edges: &[(u32, u32, i64)]) -> io::Result<Flat> {
    let mut batch = Batch::new(alloc);
    for (source, destination, weight) in edges {
        if batch
            .push(Entry::Add(*source, *destination, *weight))
            .is_err()
        {
            return Err(io::Error::from(ErrorKind::OutOfMemory));
        }
    }
    let Ok(empty) = Graph::new(vertices, 64) else {
        return Err(io::Error::from(ErrorKind::InvalidData));
    };
    let Ok(graph) = empty.apply(alloc, &batch) else {
        return Err(io::Error::from(ErrorKind::InvalidData));
    };
    Ok(Flat::of(alloc, &graph)?)
}
