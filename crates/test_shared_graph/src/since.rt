//! Tables of the edges since a version: few commits, growth, trims and holds between, and more edges than are kept.

use crate::calls::{Call, Table, check_table};
use crate::failure::Failure::Refused;
use std::test::Fail;
use tree_batch::Entry;
use version_list::{MAX_HISTORY, Which};

// A reader that learns nothing is given the edges that batches name, ascending, each once, also those of removed edges and of changed
// weights, and beside holds, a release and a trim. Growth begins anew.
const EDGES: Table = Table {
    vertices: 5,
    chunk_size: 64,
    readers: 2,
    room: MAX_HISTORY,
    rows: &[
        (1, Call::Since(0, Some(&[])), Ok(0)),
        (1, Call::Since(1, None), Ok(0)),
        (1, Call::Since(u64::MAX, None), Ok(0)),
        (
            0,
            Call::Commit(&[Entry::Add(3, 1, 1), Entry::Add(0, 2, 1)]),
            Ok(1),
        ),
        (1, Call::Since(0, Some(&[(0, 2), (3, 1)])), Ok(1)),
        (1, Call::Since(1, Some(&[])), Ok(1)),
        (1, Call::Since(2, None), Ok(1)),
        (0, Call::Commit(&[Entry::Remove(0, 2)]), Ok(2)),
        (0, Call::Commit(&[]), Ok(3)),
        (0, Call::Commit(&[Entry::Add(3, 1, 7)]), Ok(4)),
        (1, Call::Since(0, Some(&[(0, 2), (3, 1)])), Ok(4)),
        (1, Call::Since(1, Some(&[(0, 2), (3, 1)])), Ok(4)),
        (1, Call::Since(2, Some(&[(3, 1)])), Ok(4)),
        (1, Call::Since(3, Some(&[(3, 1)])), Ok(4)),
        (1, Call::Since(4, Some(&[])), Ok(4)),
        (0, Call::Hold(Which::Newest), Ok(4)),
        (1, Call::Since(2, Some(&[(3, 1)])), Ok(4)),
        (0, Call::Release, Ok(0)),
        (0, Call::Trim, Ok(6)),
        (1, Call::Since(1, Some(&[(0, 2), (3, 1)])), Ok(4)),
        (0, Call::Commit(&[Entry::Add(5, 0, 1)]), Err(Refused(111))),
        (1, Call::Since(2, Some(&[(3, 1)])), Ok(4)),
        (
            0,
            Call::Commit(&[Entry::Grow(6), Entry::Add(5, 0, 1)]),
            Ok(5),
        ),
        (1, Call::Since(4, None), Ok(5)),
        (1, Call::Since(5, Some(&[])), Ok(5)),
        (0, Call::Commit(&[Entry::Add(4, 0, 1)]), Ok(6)),
        (1, Call::Since(4, None), Ok(6)),
        (1, Call::Since(5, Some(&[(4, 0)])), Ok(6)),
        (1, Call::Since(6, Some(&[])), Ok(6)),
        (0, Call::Since(5, Some(&[(4, 0)])), Ok(6)),
    ],
    closed: &[
        (0, Call::Since(6, None), Err(Refused(125))),
        (1, Call::Since(0, None), Err(Refused(125))),
    ],
};

#[test]
fn edges_since_a_version(rt: HostRuntime) -> Result<(), Fail> {
    assert_eq!(rt; check_table(&rt, &EDGES), Ok(()));
    Ok(())
}

// 1,024 edges are kept. With one more, those of the oldest version go, and a batch of more than 1,024 begins anew.
const MANY_EDGES: Table = Table {
    vertices: 70,
    chunk_size: 64,
    readers: 2,
    room: MAX_HISTORY,
    rows: &[
        (0, Call::Edges(1_000), Ok(1)),
        (1, Call::CountsSince(0, Some(1_000)), Ok(1)),
        (0, Call::Edges(24), Ok(2)),
        (1, Call::CountsSince(0, Some(1_000)), Ok(2)),
        (1, Call::CountsSince(1, Some(24)), Ok(2)),
        (0, Call::Commit(&[Entry::Add(69, 69, 1)]), Ok(3)),
        (1, Call::CountsSince(0, None), Ok(3)),
        (1, Call::CountsSince(1, Some(25)), Ok(3)),
        (1, Call::Since(2, Some(&[(69, 69)])), Ok(3)),
        (0, Call::Edges(998), Ok(4)),
        (1, Call::CountsSince(0, None), Ok(4)),
        (1, Call::CountsSince(1, Some(999)), Ok(4)),
        (0, Call::Edges(1_024), Ok(5)),
        (1, Call::CountsSince(3, None), Ok(5)),
        (1, Call::CountsSince(4, Some(1_024)), Ok(5)),
        (0, Call::Edges(1_025), Ok(6)),
        (1, Call::CountsSince(5, None), Ok(6)),
        (1, Call::Since(6, Some(&[])), Ok(6)),
        (0, Call::Commit(&[Entry::Remove(69, 69)]), Ok(7)),
        (1, Call::Since(6, Some(&[(69, 69)])), Ok(7)),
    ],
    closed: &[],
};

#[test]
fn more_edges_than_are_kept(rt: HostRuntime) -> Result<(), Fail> {
    assert_eq!(rt; check_table(&rt, &MANY_EDGES), Ok(()));
    Ok(())
}
