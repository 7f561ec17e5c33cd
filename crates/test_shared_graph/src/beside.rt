//! Readers beside a writer, each on a thread of its own.

use crate::calls::{Call, Table, check_table};
use crate::seats::Role;
use std::test::Fail;
use version_list::MAX_HISTORY;

// Two readers commit 100 empty batches each. The sum of the cubes of the numbers from 1 to 200 is the square of their sum.
const TWO: Table = Table {
    vertices: 1,
    chunk_size: 64,
    readers: 2,
    room: MAX_HISTORY,
    rows: &[
        (0, Call::All(&[Role::Commit(100)]), Ok(404_010_000)),
        (0, Call::Counts(1, 0), Ok(200)),
        (1, Call::Counts(1, 0), Ok(200)),
    ],
    closed: &[],
};

#[test]
fn two_threads_get_each_number_once(rt: HostRuntime) -> Result<(), Fail> {
    assert_eq!(rt; check_table(&rt, &TWO), Ok(()));
    Ok(())
}

// One of 64 readers makes 10,000 versions, beside the looks of the others.
const SIXTY_FOUR: Table = Table {
    vertices: 1,
    chunk_size: 64,
    readers: 64,
    room: MAX_HISTORY,
    rows: &[
        (
            0,
            Call::All(&[Role::Write(10_000, 0), Role::Watch(10_000)]),
            Ok(0),
        ),
        (0, Call::Counts(10_001, 10_000), Ok(10_000)),
    ],
    closed: &[],
};

#[test]
fn sixty_four_readers_beside_a_writer(rt: HostRuntime) -> Result<(), Fail> {
    assert_eq!(rt; check_table(&rt, &SIXTY_FOUR), Ok(()));
    Ok(())
}

// The newest version, as readers are given it after 1, 2, 3, 63, 64, 65, 1,000 and 100,000 commits in a row: by one that looks all
// the while, by one that looks after each row, and by one that looks at the end.
const ROWS_OF_COMMITS: Table = Table {
    vertices: 1,
    chunk_size: 64,
    readers: 4,
    room: MAX_HISTORY,
    rows: &[
        (
            0,
            Call::All(&[Role::Write(1, 0), Role::Watch(1), Role::Idle]),
            Ok(0),
        ),
        (1, Call::Counts(2, 1), Ok(1)),
        (2, Call::Counts(2, 1), Ok(1)),
        (
            0,
            Call::All(&[Role::Write(3, 0), Role::Watch(3), Role::Idle]),
            Ok(0),
        ),
        (1, Call::Counts(4, 3), Ok(3)),
        (2, Call::Counts(4, 3), Ok(3)),
        (
            0,
            Call::All(&[Role::Write(6, 0), Role::Watch(6), Role::Idle]),
            Ok(0),
        ),
        (1, Call::Counts(7, 6), Ok(6)),
        (2, Call::Counts(7, 6), Ok(6)),
        (
            0,
            Call::All(&[Role::Write(69, 0), Role::Watch(69), Role::Idle]),
            Ok(0),
        ),
        (1, Call::Counts(70, 69), Ok(69)),
        (2, Call::Counts(70, 69), Ok(69)),
        (
            0,
            Call::All(&[Role::Write(133, 0), Role::Watch(133), Role::Idle]),
            Ok(0),
        ),
        (1, Call::Counts(134, 133), Ok(133)),
        (2, Call::Counts(134, 133), Ok(133)),
        (
            0,
            Call::All(&[Role::Write(198, 0), Role::Watch(198), Role::Idle]),
            Ok(0),
        ),
        (1, Call::Counts(199, 198), Ok(198)),
        (2, Call::Counts(199, 198), Ok(198)),
        (
            0,
            Call::All(&[Role::Write(1_198, 0), Role::Watch(1_198), Role::Idle]),
            Ok(0),
        ),
        (1, Call::Counts(1_199, 1_198), Ok(1198)),
        (2, Call::Counts(1_199, 1_198), Ok(1198)),
        (
            0,
            Call::All(&[Role::Write(101_198, 0), Role::Watch(101_198), Role::Idle]),
            Ok(0),
        ),
        (1, Call::Counts(10_001, 10_000), Ok(101_198)),
        (2, Call::Counts(10_001, 10_000), Ok(101_198)),
        (3, Call::Counts(10_001, 10_000), Ok(101_198)),
    ],
    closed: &[],
};

#[test]
fn readers_are_given_the_newest_after_up_to_100000_commits(rt: HostRuntime) -> Result<(), Fail> {
    assert_eq!(rt; check_table(&rt, &ROWS_OF_COMMITS), Ok(()));
    Ok(())
}

// The trims of two readers drop as many entries as they commit, hold and release, while the numbers rise for a third. No more than
// ten are kept: eight of the one that commits, and two of the other. Then each of both continues alone.
const ROOM_OF_TEN: Table = Table {
    vertices: 1,
    chunk_size: 64,
    readers: 3,
    room: 10,
    rows: &[
        (
            0,
            Call::All(&[Role::Write(2_000, 8), Role::Hold(200), Role::Watch(2_000)]),
            Ok(2_400),
        ),
        (1, Call::Trim, Ok(0)),
        (1, Call::Counts(2_001, 2_000), Ok(2_000)),
        (
            0,
            Call::All(&[Role::Write(8_000, 8), Role::Idle]),
            Ok(6_000),
        ),
        (
            0,
            Call::All(&[Role::Idle, Role::Hold(500), Role::Idle]),
            Ok(1_000),
        ),
        (1, Call::Trim, Ok(0)),
        (2, Call::Counts(8_001, 8_000), Ok(8_000)),
    ],
    closed: &[],
};

#[test]
fn growth_and_trims_beside_readers(rt: HostRuntime) -> Result<(), Fail> {
    assert_eq!(rt; check_table(&rt, &ROOM_OF_TEN), Ok(()));
    Ok(())
}
