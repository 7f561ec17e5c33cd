//! Tests of marks and splices, by tables. A call of `follow` has to be proved to follow, and no call tests at run time yet that
//! functions are local.

use crate::among::set_of;
use crate::{Differences, all_differing, differing, mark_reached, splice};
use apply_options::{Direction, Parallelization, Reduction};
use edge_apply::Apply;
use flat_snapshot::Flat;
use kernels::{EdgeKernel, EndpointFilter};
use std::alloc::{AllocError, Global};
use std::test::Fail;
use tree_batch::{Batch, Entry, Graph};
use typed_tree::{Endpoint, Function, FunctionStatement, IntExpression, Sequence};
use vectors::{EntryChange, Vectors};
use vertex_marks::VertexMarks;
use vertex_sets::VertexSet;

// Some vertices.
type Vertices = &'static [u32];

// An apply that follows: its sources and those of the former one, or none if all vertices are; what differs, in the order of the
// fields of `Differences`; the budget; and the vertices that are reached, or none if the budget is spent.
type Row = (
    [Option<Vertices>; 2],
    [Vertices; 3],
    &'static [(u32, u32)],
    usize,
    Option<Vertices>,
);

const ALL: [Option<Vertices>; 2] = [None, None];

const ENTERED: [Option<Vertices>; 2] = [Some(&[0]), Some(&[])];

const LEFT: [Option<Vertices>; 2] = [Some(&[]), Some(&[0])];

const MOVED: [Option<Vertices>; 2] = [Some(&[1]), Some(&[0])];

const STAYED: [Option<Vertices>; 2] = [Some(&[0]), Some(&[0])];

// In the fork of `graph`.
const ROWS: [Row; 14] = [
    (ALL, [&[], &[], &[]], &[], 0, Some(&[])),
    (ALL, [&[5], &[], &[]], &[], 0, Some(&[5])),
    (ALL, [&[3], &[], &[]], &[], 1, Some(&[3, 4])),
    (ALL, [&[3], &[], &[]], &[], 0, None),
    (STAYED, [&[3], &[], &[]], &[], 0, Some(&[3])),
    (ENTERED, [&[], &[0], &[]], &[], 2, Some(&[1, 2])),
    (ENTERED, [&[], &[0], &[]], &[], 1, None),
    (LEFT, [&[], &[0], &[]], &[], 9, Some(&[1, 2])),
    (MOVED, [&[1], &[0], &[]], &[], 2, None),
    (MOVED, [&[1], &[0], &[]], &[], 3, Some(&[1, 2, 3])),
    (ALL, [&[], &[], &[4, 0]], &[], 0, Some(&[0, 4])),
    (ALL, [&[], &[], &[]], &[(1, 5)], 0, Some(&[5])),
    (LEFT, [&[], &[], &[]], &[(0, 5), (2, 1)], 0, Some(&[5])),
    (ALL, [&[9], &[6], &[7]], &[(0, 8)], 0, Some(&[])),
];

// What applies are lent.
#[derive(Drop)]
struct Lent {
    flat: Flat,
    vectors: Vectors,
    kernel: EdgeKernel,
}

impl Lent {
    fn new(alloc: Global) -> Result<Lent, Fail> {
        Ok(Lent {
            flat: graph(alloc)?,
            vectors: Vectors::new(alloc, Vec::new(alloc))?,
            kernel: taking_least(alloc)?,
        })
    }

    fn apply<'a>(&'a self, from: Option<EndpointFilter<'a>>) -> Apply<'a> {
        Apply {
            flat: &self.flat,
            vectors: &self.vectors,
            sizes: &[],
            from,
            to: None,
            first: &self.kernel,
            second: None,
            direction: Direction::DensePull,
            parallelization: Parallelization::Serial,
        }
    }
}

// A fork of six vertices that comes together, and a vertex that no edge reaches.
fn graph(alloc: Global) -> Result<Flat, Fail> {
    let mut batch = Batch::new(alloc);
    for (source, destination) in [(0, 1), (0, 2), (1, 3), (2, 3), (3, 4)] {
        batch.push(Entry::Add(source, destination, 1))?;
    }
    let graph = Graph::new(6, 64)?.apply(alloc, &batch)?;
    Ok(Flat::of(alloc, &graph)?)
}

// An edge function by which each destination takes the least entry of its sources.
fn taking_least(alloc: Global) -> Result<EdgeKernel, AllocError> {
    let entry = IntExpression::EntryAt(0, Endpoint::Source);
    let mut steps = Vec::new(alloc);
    steps.push(FunctionStatement::ReduceEntry(0, Reduction::Min, entry))?;
    EdgeKernel::of_function(alloc, &Function { name: 0, steps })
}

// The end of these members, if they are given.
fn end_of<'a>(given: Option<Vertices>, members: &'a VertexSet) -> Option<EndpointFilter<'a>> {
    match given {
        Some(_) => Some(EndpointFilter::Members(members)),
        None => None,
    }
}

// The vertices that are reached, or none if the budget is spent.
fn reached(alloc: Global, lent: &Lent, row: &Row) -> Result<Option<Vec<u32>>, AllocError> {
    let ([now, was], [entries, sources, destinations], edges, budget, _) = *row;
    let members = set_of(alloc, 6, now.unwrap_or(&[]))?;
    let former_members = set_of(alloc, 6, was.unwrap_or(&[]))?;
    let apply = lent.apply(end_of(now, &members));
    let former = lent.apply(end_of(was, &former_members));
    let differences = Differences {
        entries,
        sources,
        destinations,
        edges,
    };
    let mut marks = VertexMarks::new(alloc);
    marks.make_room(apply.flat.vertices() as usize)?;
    if !mark_reached(&apply, &former, &differences, budget, &mut marks) {
        return Ok(None);
    }
    Ok(Some(marks.members(alloc)?))
}

// Whether a row's vertices are reached.
fn is_reached_so(alloc: Global, lent: &Lent, row: &Row) -> Result<bool, AllocError> {
    let found = reached(alloc, lent, row)?;
    Ok(match (&found, row.4) {
        (Some(found), Some(wanted)) => found.as_slice() == wanted,
        (None, None) => true,
        _ => false,
    })
}

#[test]
fn named_vertices_edges_and_rows_are_reached(rt: HostRuntime) -> Result<(), Fail> {
    let lent = Lent::new(rt.alloc())?;
    for (index, row) in ROWS.iter().enumerate() {
        let is_right = is_reached_so(rt.alloc(), &lent, row)?;
        assert!(rt; is_right, "row {index}");
    }
    Ok(())
}

// Changes as pairs of a vertex and its entry.
type Pairs = &'static [(u32, i64)];

// Marked vertices, the changes that were found, those of the record, and both as one.
const SPLICES: [(&[u32], [Pairs; 3]); 7] = [
    (&[], [&[], &[], &[]]),
    (&[], [&[], &[(1, 5), (4, -8)], &[(1, 5), (4, -8)]]),
    (&[1, 4], [&[], &[(1, 5), (4, -8)], &[]]),
    (&[1], [&[(1, 6)], &[(1, 5), (4, -8)], &[(1, 6), (4, -8)]]),
    (
        &[0, 5],
        [&[(0, 1), (5, 2)], &[(3, 4)], &[(0, 1), (3, 4), (5, 2)]],
    ),
    (
        &[2],
        [&[(2, 3)], &[(0, 1), (4, 1)], &[(0, 1), (2, 3), (4, 1)]],
    ),
    (&[7, 8], [&[(7, 1), (8, 2)], &[], &[(7, 1), (8, 2)]]),
];

fn changes_of(alloc: Global, pairs: &[(u32, i64)]) -> Result<Vec<EntryChange>, AllocError> {
    let mut changes = Vec::new(alloc);
    for (vertex, number) in pairs {
        changes.push(EntryChange::new(*vertex, *number))?;
    }
    Ok(changes)
}

fn pairs_of(alloc: Global, changes: &[EntryChange]) -> Result<Vec<(u32, i64)>, AllocError> {
    let mut pairs = Vec::new(alloc);
    for change in changes {
        pairs.push((change.vertex(), change.number()))?;
    }
    Ok(pairs)
}

fn marks_of(alloc: Global, vertices: &[u32]) -> Result<VertexMarks, AllocError> {
    let mut marks = VertexMarks::new(alloc);
    marks.make_room(64)?;
    for vertex in vertices {
        if (*vertex as usize) < marks.room() {
            marks.insert(*vertex);
        }
    }
    Ok(marks)
}

fn is_spliced_so(
    alloc: Global,
    marked: &[u32],
    [found, recorded, all]: [Pairs; 3],
) -> Result<bool, AllocError> {
    let marks = marks_of(alloc, marked)?;
    let found = changes_of(alloc, found)?;
    let recorded = changes_of(alloc, recorded)?;
    let spliced = splice(alloc, &marks, &found, &recorded)?;
    Ok(pairs_of(alloc, &spliced)?.as_slice() == all)
}

#[test]
fn found_and_recorded_changes_are_spliced(rt: HostRuntime) -> Result<(), Fail> {
    for (index, (marked, changes)) in SPLICES.iter().enumerate() {
        let is_right = is_spliced_so(rt.alloc(), marked, *changes)?;
        assert!(rt; is_right, "row {index}");
    }
    Ok(())
}

// The entries of two vectors now, and as they were.
const NOW: [&[i64]; 2] = [&[1, 2, 3, 4], &[0, 0, 0, 0]];

const WAS: [&[i64]; 2] = [&[1, 5, 3, 6], &[0, 0, 7, 0]];

// How many vectors are compared, some vertices, and those of them at which the vectors differ.
const LISTS: [(usize, Vertices, Vertices); 6] = [
    (0, &[0, 1, 2, 3], &[]),
    (1, &[0, 1, 2, 3], &[1, 3]),
    (2, &[0, 1, 2, 3], &[1, 2, 3]),
    (2, &[3, 2, 9, 0, 3], &[3, 2, 3]),
    (2, &[], &[]),
    (7, &[2, 1], &[2, 1]),
];

// How many vectors and vertices are compared, and the vertices at which the vectors differ.
const RANGES: [(usize, u32, Vertices); 4] = [
    (2, 4, &[1, 2, 3]),
    (1, 4, &[1, 3]),
    (2, 2, &[1]),
    (2, 0, &[]),
];

fn vectors_of(alloc: Global, rows: [&[i64]; 2]) -> Result<Vectors, AllocError> {
    let mut arrays = Vec::new(alloc);
    for row in &rows {
        let mut entries = Vec::new(alloc);
        entries.extend_from_slice(row)?;
        arrays.push(Sequence::new(entries))?;
    }
    Vectors::new(alloc, arrays)
}

#[test]
fn vertices_at_which_vectors_differ_are_found(rt: HostRuntime) -> Result<(), Fail> {
    let alloc = rt.alloc();
    let now = vectors_of(alloc, NOW)?;
    let was = vectors_of(alloc, WAS)?;
    for (index, (count, vertices, wanted)) in LISTS.iter().enumerate() {
        let found = differing(alloc, &now, &was, *count, vertices)?;
        assert!(rt; found.as_slice() == *wanted, "list {index}");
    }
    for (index, (count, vertices, wanted)) in RANGES.iter().enumerate() {
        let found = all_differing(alloc, &now, &was, *count, *vertices)?;
        assert!(rt; found.as_slice() == *wanted, "range {index}");
    }
    Ok(())
}
