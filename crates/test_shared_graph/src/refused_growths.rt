//! Calls of a shared graph that memory may run out for: the graph, its readers and what is held are then as they were, and the
//! same call is answered afterwards as if it had not been made before.
//!
//! With ample memory a test sees the answer alone. `bench/refused-growths` runs each again and again, and refuses one after
//! another of the requests for memory that are made between the lines "asked" and "900" or "whole".

use crate::calls::{Call, Table, check_table};
use crate::failure::Failure::Refused;
use std::test::Fail;
use tree_batch::Entry;
use version_list::{MAX_HISTORY, Which};

const COMMIT: Table = Table {
    vertices: 3,
    chunk_size: 64,
    readers: 2,
    room: MAX_HISTORY,
    rows: &[
        (
            0,
            Call::Asked(&Call::Commit(&[
                Entry::Add(0, 1, 7),
                Entry::Grow(4),
                Entry::Add(3, 0, -2),
            ])),
            Ok(1),
        ),
        (0, Call::Is(4, &[(0, 1, 7), (3, 0, -2)]), Ok(1)),
        (1, Call::Is(4, &[(0, 1, 7), (3, 0, -2)]), Ok(1)),
        (1, Call::Trim, Ok(1)),
    ],
    closed: &[],
};

#[test]
fn a_commit(rt: HostRuntime) -> Result<(), Fail> {
    assert_eq!(rt; check_table(&rt, &COMMIT), Ok(()));
    Ok(())
}

const SECOND_COMMIT: Table = Table {
    vertices: 3,
    chunk_size: 64,
    readers: 2,
    room: MAX_HISTORY,
    rows: &[
        (
            1,
            Call::Commit(&[Entry::Add(0, 1, 7), Entry::Grow(4), Entry::Add(3, 0, -2)]),
            Ok(1),
        ),
        (
            0,
            Call::Asked(&Call::Commit(&[
                Entry::Remove(0, 1),
                Entry::Add(0, 2, 9),
                Entry::Add(3, 0, 5),
                Entry::Grow(70),
                Entry::Add(69, 3, 1),
            ])),
            Ok(2),
        ),
        (0, Call::Is(70, &[(0, 2, 9), (3, 0, 5), (69, 3, 1)]), Ok(2)),
        (1, Call::Is(70, &[(0, 2, 9), (3, 0, 5), (69, 3, 1)]), Ok(2)),
        (1, Call::Trim, Ok(2)),
    ],
    closed: &[],
};

#[test]
fn a_second_commit(rt: HostRuntime) -> Result<(), Fail> {
    assert_eq!(rt; check_table(&rt, &SECOND_COMMIT), Ok(()));
    Ok(())
}

const HOLD: Table = Table {
    vertices: 3,
    chunk_size: 64,
    readers: 2,
    room: MAX_HISTORY,
    rows: &[
        (
            1,
            Call::Commit(&[Entry::Add(0, 1, 7), Entry::Grow(4), Entry::Add(3, 0, -2)]),
            Ok(1),
        ),
        (0, Call::Asked(&Call::Hold(Which::Newest)), Ok(1)),
        (0, Call::Is(4, &[(0, 1, 7), (3, 0, -2)]), Ok(1)),
        (1, Call::Is(4, &[(0, 1, 7), (3, 0, -2)]), Ok(1)),
        (0, Call::Held(1, 4, &[(0, 1, 7), (3, 0, -2)]), Ok(1)),
        (0, Call::Release, Ok(0)),
        (1, Call::Is(4, &[(0, 1, 7), (3, 0, -2)]), Ok(1)),
        (1, Call::Trim, Ok(3)),
    ],
    closed: &[],
};

#[test]
fn a_hold(rt: HostRuntime) -> Result<(), Fail> {
    assert_eq!(rt; check_table(&rt, &HOLD), Ok(()));
    Ok(())
}

const RELEASE: Table = Table {
    vertices: 3,
    chunk_size: 64,
    readers: 2,
    room: MAX_HISTORY,
    rows: &[
        (
            1,
            Call::Commit(&[Entry::Add(0, 1, 7), Entry::Grow(4), Entry::Add(3, 0, -2)]),
            Ok(1),
        ),
        (0, Call::Hold(Which::Newest), Ok(1)),
        (
            1,
            Call::Commit(&[
                Entry::Remove(0, 1),
                Entry::Add(0, 2, 9),
                Entry::Add(3, 0, 5),
                Entry::Grow(70),
                Entry::Add(69, 3, 1),
            ]),
            Ok(2),
        ),
        (0, Call::Held(1, 4, &[(0, 1, 7), (3, 0, -2)]), Ok(1)),
        (0, Call::Asked(&Call::Release), Ok(0)),
        (0, Call::Is(70, &[(0, 2, 9), (3, 0, 5), (69, 3, 1)]), Ok(2)),
        (1, Call::Is(70, &[(0, 2, 9), (3, 0, 5), (69, 3, 1)]), Ok(2)),
        (0, Call::Hold(Which::At(1)), Err(Refused(121))),
        (1, Call::Trim, Ok(4)),
    ],
    closed: &[],
};

#[test]
fn a_release(rt: HostRuntime) -> Result<(), Fail> {
    assert_eq!(rt; check_table(&rt, &RELEASE), Ok(()));
    Ok(())
}

const TRIM: Table = Table {
    vertices: 3,
    chunk_size: 64,
    readers: 2,
    room: MAX_HISTORY,
    rows: &[
        (
            1,
            Call::Commit(&[Entry::Add(0, 1, 7), Entry::Grow(4), Entry::Add(3, 0, -2)]),
            Ok(1),
        ),
        (
            0,
            Call::Commit(&[
                Entry::Remove(0, 1),
                Entry::Add(0, 2, 9),
                Entry::Add(3, 0, 5),
                Entry::Grow(70),
                Entry::Add(69, 3, 1),
            ]),
            Ok(2),
        ),
        (0, Call::Asked(&Call::Trim), Ok(2)),
        (0, Call::Is(70, &[(0, 2, 9), (3, 0, 5), (69, 3, 1)]), Ok(2)),
        (1, Call::Is(70, &[(0, 2, 9), (3, 0, 5), (69, 3, 1)]), Ok(2)),
        (1, Call::Trim, Ok(0)),
    ],
    closed: &[],
};

#[test]
fn a_trim(rt: HostRuntime) -> Result<(), Fail> {
    assert_eq!(rt; check_table(&rt, &TRIM), Ok(()));
    Ok(())
}
