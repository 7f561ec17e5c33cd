//! Tables of calls one after another: what a token tells, little room, trims, held versions beside growth, a graph that is gone,
//! refusals, long histories, large commits, and chunk sizes.

use crate::calls::{Call, Row, Table, Wrong, check_table};
use crate::failure::Failure::Refused;
use crate::seats::Role;
use std::test::Fail;
use tree_batch::Entry;
use version_list::{MAX_HISTORY, Which};

// A second reader, which learns from the first, and a third, which learns nothing, are given what the first commits, and the third
// each of ten more commits.
const TOLD: Table = Table {
    vertices: 3,
    chunk_size: 64,
    readers: 3,
    room: MAX_HISTORY,
    rows: &[
        (0, Call::Commit(&[Entry::Add(0, 1, 1)]), Ok(1)),
        (1, Call::Learn, Ok(0)),
        (1, Call::Is(3, &[(0, 1, 1)]), Ok(1)),
        (1, Call::Hold(Which::At(0)), Err(Refused(121))),
        (1, Call::Hold(Which::Newest), Ok(1)),
        (1, Call::Release, Ok(0)),
        (2, Call::Is(3, &[(0, 1, 1)]), Ok(1)),
        (0, Call::Commit(&[]), Ok(2)),
        (2, Call::Counts(3, 1), Ok(2)),
        (0, Call::Commit(&[]), Ok(3)),
        (2, Call::Counts(3, 1), Ok(3)),
        (0, Call::Commit(&[]), Ok(4)),
        (2, Call::Counts(3, 1), Ok(4)),
        (0, Call::Commit(&[]), Ok(5)),
        (2, Call::Counts(3, 1), Ok(5)),
        (0, Call::Commit(&[]), Ok(6)),
        (2, Call::Counts(3, 1), Ok(6)),
        (0, Call::Commit(&[]), Ok(7)),
        (2, Call::Counts(3, 1), Ok(7)),
        (0, Call::Commit(&[]), Ok(8)),
        (2, Call::Counts(3, 1), Ok(8)),
        (0, Call::Commit(&[]), Ok(9)),
        (2, Call::Counts(3, 1), Ok(9)),
        (0, Call::Commit(&[]), Ok(10)),
        (2, Call::Counts(3, 1), Ok(10)),
        (0, Call::Commit(&[]), Ok(11)),
        (2, Call::Counts(3, 1), Ok(11)),
    ],
    closed: &[],
};

#[test]
fn what_a_token_tells_and_what_none_told(rt: HostRuntime) -> Result<(), Fail> {
    assert_eq!(rt; check_table(&rt, &TOLD), Ok(()));
    Ok(())
}

// Three holds and a commit are all that a room of seven takes beside the releases.
const ROOM_OF_SEVEN: Table = Table {
    vertices: 2,
    chunk_size: 64,
    readers: 1,
    room: 7,
    rows: &[
        (0, Call::Hold(Which::Newest), Ok(0)),
        (0, Call::Hold(Which::Newest), Ok(0)),
        (0, Call::Hold(Which::Newest), Ok(0)),
        (0, Call::Hold(Which::Newest), Err(Refused(123))),
        (0, Call::Commit(&[]), Ok(1)),
        (0, Call::Commit(&[]), Err(Refused(123))),
        (0, Call::Release, Ok(0)),
        (0, Call::Release, Ok(0)),
        (0, Call::Release, Ok(0)),
        (0, Call::Commit(&[]), Err(Refused(123))),
    ],
    closed: &[],
};

#[test]
fn a_room_of_seven(rt: HostRuntime) -> Result<(), Fail> {
    assert_eq!(rt; check_table(&rt, &ROOM_OF_SEVEN), Ok(()));
    Ok(())
}

// A version that is held stays small beside growth and a trim, and refused growth changes nothing. Who learns a token of the small
// version is given a larger one, and after its release the small one is gone. A trim drops what was made since the last.
const HELD: Table = Table {
    vertices: 1,
    chunk_size: 64,
    readers: 3,
    room: MAX_HISTORY,
    rows: &[
        (
            0,
            Call::Commit(&[Entry::Add(1, 0, 1), Entry::Grow(2)]),
            Ok(1),
        ),
        (2, Call::Hold(Which::Newest), Ok(1)),
        (2, Call::Held(1, 2, &[(1, 0, 1)]), Ok(1)),
        (
            2,
            Call::Commit(&[Entry::Add(2, 0, 1), Entry::Grow(3)]),
            Ok(2),
        ),
        (2, Call::Trim, Ok(3)),
        (
            2,
            Call::Commit(&[Entry::Add(3, 0, 1), Entry::Grow(4)]),
            Ok(3),
        ),
        (2, Call::Is(4, &[(1, 0, 1), (2, 0, 1), (3, 0, 1)]), Ok(3)),
        (2, Call::Held(1, 2, &[(1, 0, 1)]), Ok(1)),
        (2, Call::Hold(Which::At(1)), Ok(1)),
        (2, Call::Release, Ok(0)),
        (2, Call::Release, Ok(0)),
        (
            2,
            Call::Commit(&[Entry::Grow(9), Entry::Grow(3)]),
            Err(Refused(111)),
        ),
        (
            2,
            Call::Commit(&[Entry::Grow(16_777_217)]),
            Err(Refused(111)),
        ),
        (
            2,
            Call::Commit(&[Entry::Add(4, 0, 1), Entry::Grow(4)]),
            Err(Refused(111)),
        ),
        (2, Call::Is(4, &[(1, 0, 1), (2, 0, 1), (3, 0, 1)]), Ok(3)),
        (1, Call::Learn, Ok(0)),
        (1, Call::Is(4, &[(1, 0, 1), (2, 0, 1), (3, 0, 1)]), Ok(3)),
        (2, Call::Hold(Which::At(1)), Err(Refused(121))),
        (2, Call::Trim, Ok(4)),
        (0, Call::Trim, Ok(0)),
        (0, Call::Commit(&[]), Ok(4)),
    ],
    closed: &[],
};

#[test]
fn a_held_version_stays_small(rt: HostRuntime) -> Result<(), Fail> {
    assert_eq!(rt; check_table(&rt, &HELD), Ok(()));
    Ok(())
}

// Two readers, of whom one has looked before, are refused each time after the graph is gone. What the one holds stays, and the other
// still learns from it.
const GONE: Table = Table {
    vertices: 3,
    chunk_size: 64,
    readers: 2,
    room: MAX_HISTORY,
    rows: &[
        (0, Call::Commit(&[Entry::Add(0, 1, 1)]), Ok(1)),
        (0, Call::Hold(Which::Newest), Ok(1)),
        (0, Call::Counts(3, 1), Ok(1)),
    ],
    closed: &[
        (0, Call::Counts(3, 1), Err(Refused(125))),
        (1, Call::Counts(3, 1), Err(Refused(125))),
        (0, Call::Held(1, 3, &[(0, 1, 1)]), Ok(1)),
        (1, Call::Learn, Ok(0)),
        (1, Call::Counts(3, 1), Err(Refused(125))),
    ],
};

#[test]
fn readers_of_a_graph_that_is_gone_are_refused(rt: HostRuntime) -> Result<(), Fail> {
    assert_eq!(rt; check_table(&rt, &GONE), Ok(()));
    Ok(())
}

// Each kind of call is answered after each kind of refusal, by the same reader, and then by both on two threads, so no refusal leaves
// the lock taken. 122 has no row: the ticket of what is held is open until a release spends what is held.
const REFUSED: Table = Table {
    vertices: 3,
    chunk_size: 64,
    readers: 2,
    room: 12,
    rows: &[
        (0, Call::Commit(&[Entry::Add(0, 3, 1)]), Err(Refused(111))),
        (0, Call::Commit(&[]), Ok(1)),
        (1, Call::Commit(&[Entry::Add(0, 3, 1)]), Err(Refused(111))),
        (0, Call::All(&[Role::GoOn]), Ok(0)),
        (0, Call::Commit(&[Entry::Add(0, 3, 1)]), Err(Refused(111))),
        (0, Call::Hold(Which::Newest), Ok(3)),
        (0, Call::Release, Ok(0)),
        (1, Call::Commit(&[Entry::Add(0, 3, 1)]), Err(Refused(111))),
        (0, Call::All(&[Role::GoOn]), Ok(0)),
        (0, Call::Commit(&[Entry::Add(0, 3, 1)]), Err(Refused(111))),
        (0, Call::Trim, Ok(0)),
        (1, Call::Commit(&[Entry::Add(0, 3, 1)]), Err(Refused(111))),
        (0, Call::All(&[Role::GoOn]), Ok(0)),
        (0, Call::Commit(&[Entry::Add(0, 3, 1)]), Err(Refused(111))),
        (0, Call::Counts(3, 0), Ok(7)),
        (1, Call::Commit(&[Entry::Add(0, 3, 1)]), Err(Refused(111))),
        (0, Call::All(&[Role::GoOn]), Ok(0)),
        (0, Call::Hold(Which::At(1_000_000)), Err(Refused(121))),
        (0, Call::Commit(&[]), Ok(10)),
        (1, Call::Hold(Which::At(1_000_000)), Err(Refused(121))),
        (0, Call::All(&[Role::GoOn]), Ok(0)),
        (0, Call::Hold(Which::At(1_000_000)), Err(Refused(121))),
        (0, Call::Hold(Which::Newest), Ok(12)),
        (0, Call::Release, Ok(0)),
        (1, Call::Hold(Which::At(1_000_000)), Err(Refused(121))),
        (0, Call::All(&[Role::GoOn]), Ok(0)),
        (0, Call::Hold(Which::At(1_000_000)), Err(Refused(121))),
        (0, Call::Trim, Ok(0)),
        (1, Call::Hold(Which::At(1_000_000)), Err(Refused(121))),
        (0, Call::All(&[Role::GoOn]), Ok(0)),
        (0, Call::Hold(Which::At(1_000_000)), Err(Refused(121))),
        (0, Call::Counts(3, 0), Ok(16)),
        (1, Call::Hold(Which::At(1_000_000)), Err(Refused(121))),
        (0, Call::All(&[Role::GoOn]), Ok(0)),
        (0, Call::Hold(Which::Newest), Ok(18)),
        (0, Call::Commit(&[]), Ok(19)),
        (0, Call::Commit(&[]), Ok(20)),
        (0, Call::Commit(&[]), Ok(21)),
        (0, Call::Commit(&[]), Ok(22)),
        (0, Call::Commit(&[]), Ok(23)),
        (0, Call::Commit(&[]), Ok(24)),
        (0, Call::Commit(&[]), Ok(25)),
        (0, Call::Commit(&[]), Ok(26)),
        (0, Call::Commit(&[]), Ok(27)),
        (0, Call::Commit(&[]), Ok(28)),
        (0, Call::Commit(&[]), Err(Refused(123))),
        (0, Call::Counts(3, 0), Ok(28)),
        (1, Call::Hold(Which::Newest), Err(Refused(123))),
        (0, Call::Release, Ok(0)),
        (1, Call::Commit(&[]), Err(Refused(123))),
        (0, Call::All(&[Role::GoOn]), Ok(0)),
    ],
    closed: &[],
};

#[test]
fn calls_are_answered_after_a_refusal(rt: HostRuntime) -> Result<(), Fail> {
    assert_eq!(rt; check_table(&rt, &REFUSED), Ok(()));
    Ok(())
}

// One reader makes more than 2 to the power of 20 commits. The sum of the cubes of the first n numbers is the square of their sum,
// n(n + 1)/2, here modulo 2 to the power of 64.
const MANY: Table = Table {
    vertices: 2,
    chunk_size: 64,
    readers: 1,
    room: MAX_HISTORY,
    rows: &[
        (0, Call::Many(1_050_000), Ok(3_926_186_558_181_229_632)),
        (0, Call::Commit(&[Entry::Add(0, 1, 1)]), Ok(1_050_001)),
        (0, Call::Hold(Which::Newest), Ok(1_050_001)),
        (0, Call::Release, Ok(0)),
        (0, Call::Trim, Ok(1_050_003)),
        (0, Call::Commit(&[Entry::Add(1, 0, 1)]), Ok(1_050_002)),
        (0, Call::Is(2, &[(0, 1, 1), (1, 0, 1)]), Ok(1_050_002)),
    ],
    closed: &[],
};

#[test]
fn one_reader_commits_more_than_a_million_times(rt: HostRuntime) -> Result<(), Fail> {
    assert_eq!(rt; check_table(&rt, &MANY), Ok(()));
    Ok(())
}

// Commits of 4,095, 4,096 and 4,097 entries: from 4,096 on they start threads, which `tests/checks/costs` counts.
const LARGE: Table = Table {
    vertices: 70,
    chunk_size: 64,
    readers: 1,
    room: MAX_HISTORY,
    rows: &[
        (0, Call::Edges(4_095), Ok(1)),
        (0, Call::Counts(70, 4_095), Ok(1)),
        (0, Call::Edges(4_096), Ok(2)),
        (0, Call::Counts(70, 4_096), Ok(2)),
        (0, Call::Edges(4_097), Ok(3)),
        (0, Call::Counts(70, 4_097), Ok(3)),
    ],
    closed: &[],
};

#[test]
fn commits_of_about_4096_entries_are_whole(rt: HostRuntime) -> Result<(), Fail> {
    assert_eq!(rt; check_table(&rt, &LARGE), Ok(()));
    Ok(())
}

// No reader, and more than 64, are refused.
#[test]
fn no_reader_and_sixty_five_are_refused(rt: HostRuntime) -> Result<(), Fail> {
    for readers in [0, 65] {
        let table = Table { readers, ..LARGE };
        let refused = Err(Wrong::NotOpened(124));
        assert_eq!(rt; check_table(&rt, &table), refused, "{readers} readers");
    }
    Ok(())
}

// Each vertex comes to have so many neighbours that they are sets in chunks, in both directions.
const HUBS: &[Row] = &[
    (0, Call::Hub(0, true, false), Ok(1)),
    (0, Call::Trim, Ok(1)),
    (0, Call::Hub(0, false, true), Ok(2)),
    (0, Call::Trim, Ok(1)),
    (0, Call::Hub(1, true, true), Ok(3)),
    (0, Call::Trim, Ok(1)),
    (0, Call::Hub(2, true, true), Ok(4)),
    (0, Call::Trim, Ok(1)),
    (0, Call::Hub(3, true, false), Ok(5)),
    (0, Call::Trim, Ok(1)),
    (0, Call::Hub(3, false, true), Ok(6)),
    (0, Call::Trim, Ok(1)),
    (0, Call::Hub(4, true, true), Ok(7)),
    (0, Call::Trim, Ok(1)),
    (0, Call::Hold(Which::Newest), Ok(7)),
];

const IN_1: Table = Table {
    vertices: 64,
    chunk_size: 1,
    readers: 1,
    room: MAX_HISTORY,
    rows: HUBS,
    closed: &[(0, Call::InChunks(1), Ok(7))],
};

const IN_16: Table = Table {
    vertices: 64,
    chunk_size: 16,
    readers: 1,
    room: MAX_HISTORY,
    rows: HUBS,
    closed: &[(0, Call::InChunks(16), Ok(7))],
};

const IN_16_AND_LITTLE_ROOM: Table = Table {
    vertices: 64,
    chunk_size: 16,
    readers: 1,
    room: 10,
    rows: HUBS,
    closed: &[(0, Call::InChunks(16), Ok(7))],
};

const IN_256: Table = Table {
    vertices: 64,
    chunk_size: 256,
    readers: 1,
    room: MAX_HISTORY,
    rows: HUBS,
    closed: &[(0, Call::InChunks(256), Ok(7))],
};

// The chunk size with which a shared graph is opened: every version has it, whichever commit made it, and every version that is held.
#[test]
fn chunks_of_each_size(rt: HostRuntime) -> Result<(), Fail> {
    for table in [&IN_1, &IN_16, &IN_16_AND_LITTLE_ROOM, &IN_256] {
        let (size, room) = (table.chunk_size, table.room);
        assert_eq!(rt;
            check_table(&rt, table),
            Ok(()),
            "in chunks of {size}, with room for {room}"
        );
    }
    Ok(())
}
