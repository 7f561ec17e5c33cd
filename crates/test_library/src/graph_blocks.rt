//! The forms of lists of neighbours, which no reply of a script tells, and what is printed of a graph.
use std::alloc::Global;
use test_helpers::{Checked, check};
use tree_batch::{Batch, Entry, Graph, GraphError};

// A count of neighbours that a vertex comes to have, and whether they are then a set in chunks. Upward a list leaves its page from
// 257 neighbours on, which nobody sees, and is a set from 2,049 on; downward a set is packed again below 1,536.
const SIZES: [(u32, bool); 23] = [
    (1, false),
    (255, false),
    (256, false),
    (257, false),
    (1000, false),
    (257, false),
    (256, false),
    (255, false),
    (400, false),
    (1535, false),
    (1536, false),
    (2047, false),
    (2048, false),
    (2049, true),
    (2048, true),
    (1537, true),
    (1536, true),
    (1535, false),
    (1536, false),
    (2048, false),
    (2500, true),
    (100, false),
    (0, false),
];

// The graph in which a vertex has as many neighbours as asked for, from 7 on, in place of those that it had.
fn resized(
    alloc: Global,
    graph: &Graph,
    source: u32,
    had: u32,
    count: u32,
) -> Result<Graph, GraphError> {
    let mut batch = Batch::new(alloc);
    for index in had.min(count)..had.max(count) {
        let destination = index.wrapping_add(7);
        let entry = match had < count {
            true => Entry::Add(source, destination, 1),
            false => Entry::Remove(source, destination),
        };
        batch.push(entry)?;
    }
    graph.apply(alloc, &batch)
}

// Checks that a vertex has so many neighbours, in the form that is reported.
fn check_list(graph: &Graph, source: u32, count: u32, is_chunked: bool) -> Checked {
    let Some(set) = graph.out(source) else {
        return check(count == 0, "the list is lost");
    };
    check(set.len() == count as usize, "the length of the list")?;
    check(
        set.chunked().is_some() == is_chunked,
        "the form of the list",
    )
}

// What is printed of the graph when the last neighbours are gone.
const PRINTED: &str = "Graph { vertices: 3000, edge_count: 0 }";

fn is_printed(alloc: Global, graph: &Graph) -> bool {
    match format!(in alloc; "{graph:?}") {
        Ok(text) => text.as_str() == PRINTED,
        Err(_) => false,
    }
}

// Checks that a vertex goes through the sizes in their forms, and that the graph is printed so at the end. Beside the fact that does
// not hold is the place of the size.
fn check_sizes(alloc: Global, source: u32) -> Result<(Checked, usize), GraphError> {
    let (mut graph, mut had) = (Graph::new(3000, 4)?, 0);
    for (at, (count, is_chunked)) in SIZES.iter().enumerate() {
        graph = resized(alloc, &graph, source, had, *count)?;
        let checked = check_list(&graph, source, *count, *is_chunked);
        if checked.is_err() {
            return Ok((checked, at));
        }
        had = *count;
    }
    let checked = check(is_printed(alloc, &graph), "what is printed");
    Ok((checked, SIZES.len()))
}

#[test]
fn lists_change_their_form_at_two_sizes(rt: HostRuntime) {
    for source in [0, 63, 64, 2999] {
        let checked = check_sizes(rt.alloc(), source);
        assert_eq!(rt; checked, Ok((Ok(()), SIZES.len())), "at {source}");
    }
}
