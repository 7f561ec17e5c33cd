//! Tables of calls: bounds of runs, versions that are held, versions of several sizes, and runs beside a writer.

use crate::calls::{Call, Table, check_table};
use crate::failure::Failure::Refused;
use crate::programs::Program;
use std::test::Fail;
use tree_batch::Entry;
use version_list::Which;

// Runs by no worker and by too many are refused, also of a text. Runs of no turns, and runs by so many workers, are what they
// must be each way. A text that is no program is refused. After the graph is gone a run is refused for its workers first.
const BOUNDS: Table = Table {
    vertices: 4,
    readers: 1,
    rows: &[
        (0, Call::Newest(Program::OnPaths, 0), Err(Refused(411))),
        (0, Call::Newest(Program::OnPaths, 65), Err(Refused(411))),
        (0, Call::Text(Program::OnPaths, 0), Err(Refused(411))),
        (0, Call::Text(Program::OnPaths, 65), Err(Refused(411))),
        (0, Call::Newest(Program::OnPaths, 1), Ok(0)),
        (0, Call::Newest(Program::OnPaths, 64), Ok(0)),
        (0, Call::Step(1), Ok(1)),
        (0, Call::Text(Program::OnPaths, 2), Ok(1)),
        (0, Call::Text(Program::Broken, 1), Err(Refused(211))),
        (0, Call::Step(2), Ok(2)),
        (0, Call::Hold(Which::Newest), Ok(2)),
        (0, Call::Held(0, Program::OnPaths, 0), Err(Refused(411))),
        (0, Call::Held(0, Program::OnPaths, 65), Err(Refused(411))),
        (0, Call::Newest(Program::NoTurns, 2), Ok(2)),
        (0, Call::Held(0, Program::NoTurns, 2), Ok(2)),
        (0, Call::Text(Program::NoTurns, 2), Ok(2)),
        (0, Call::Newest(Program::OnPaths, 1), Ok(2)),
        (0, Call::Held(0, Program::OnPaths, 1), Ok(2)),
        (0, Call::Text(Program::OnPaths, 1), Ok(2)),
        (0, Call::Newest(Program::OnPaths, 2), Ok(2)),
        (0, Call::Held(0, Program::OnPaths, 2), Ok(2)),
        (0, Call::Text(Program::OnPaths, 2), Ok(2)),
        (0, Call::Newest(Program::OnPaths, 3), Ok(2)),
        (0, Call::Held(0, Program::OnPaths, 3), Ok(2)),
        (0, Call::Text(Program::OnPaths, 3), Ok(2)),
        (0, Call::Newest(Program::OnPaths, 64), Ok(2)),
        (0, Call::Held(0, Program::OnPaths, 64), Ok(2)),
        (0, Call::Text(Program::OnPaths, 64), Ok(2)),
        (0, Call::Release, Ok(0)),
    ],
    closed: &[
        (0, Call::Newest(Program::OnPaths, 0), Err(Refused(411))),
        (0, Call::Newest(Program::OnPaths, 1), Err(Refused(125))),
        (0, Call::Text(Program::OnPaths, 0), Err(Refused(411))),
        (0, Call::Text(Program::OnPaths, 1), Err(Refused(125))),
    ],
};

#[test]
fn runs_keep_their_bounds(rt: HostRuntime) -> Result<(), Fail> {
    assert_eq!(rt; check_table(&rt, &BOUNDS), Ok(()));
    Ok(())
}

// A reader that learns what another committed runs on that version. A run on a held version shows that version, though two more
// were committed since. A third reader, which learned nothing, runs on the newest. A version that is not kept is not held.
const HELD: Table = Table {
    vertices: 4,
    readers: 3,
    rows: &[
        (0, Call::Step(1), Ok(1)),
        (1, Call::Learn, Ok(0)),
        (1, Call::Newest(Program::OnPaths, 2), Ok(1)),
        (1, Call::Hold(Which::Newest), Ok(1)),
        (1, Call::Held(0, Program::OnPaths, 1), Ok(1)),
        (0, Call::Step(2), Ok(2)),
        (0, Call::Step(3), Ok(3)),
        (1, Call::Held(0, Program::OnPaths, 1), Ok(1)),
        (1, Call::Release, Ok(0)),
        (2, Call::Newest(Program::OnPaths, 1), Ok(3)),
        (1, Call::Hold(Which::At(0)), Err(Refused(121))),
    ],
    closed: &[],
};

// Three readers of three vertices: a reader that learns a commit holds its version and runs on it, and the third, which learned
// nothing, runs on it as well.
const THREE: Table = Table {
    vertices: 3,
    readers: 3,
    rows: &[
        (0, Call::Commit(&[Entry::Add(0, 1, 1)]), Ok(1)),
        (1, Call::Learn, Ok(0)),
        (1, Call::Newest(Program::OnThree, 1), Ok(1)),
        (1, Call::Hold(Which::At(0)), Err(Refused(121))),
        (1, Call::Hold(Which::Newest), Ok(1)),
        (1, Call::Held(0, Program::OnThree, 1), Ok(1)),
        (1, Call::Release, Ok(0)),
        (2, Call::Newest(Program::OnThree, 1), Ok(1)),
    ],
    closed: &[],
};

#[test]
fn three_readers_see_one_commit(rt: HostRuntime) -> Result<(), Fail> {
    assert_eq!(rt; check_table(&rt, &THREE), Ok(()));
    Ok(())
}

#[test]
fn a_held_version_stays_what_it_was(rt: HostRuntime) -> Result<(), Fail> {
    assert_eq!(rt; check_table(&rt, &HELD), Ok(()));
    Ok(())
}

// Each version has vectors of its own length, in which an index is looked up, by each number of workers, when it is held and after
// the graph has grown on. Growth that is refused changes nothing, and a trim drops no version that is held.
const GROWN: Table = Table {
    vertices: 2,
    readers: 2,
    rows: &[
        (0, Call::Commit(&[Entry::Add(0, 1, 1)]), Ok(1)),
        (0, Call::Hold(Which::Newest), Ok(1)),
        (0, Call::Held(0, Program::OnGrown, 1), Ok(1)),
        (0, Call::Held(0, Program::Marked, 1), Ok(1)),
        (0, Call::Held(0, Program::OnGrown, 2), Ok(1)),
        (0, Call::Held(0, Program::Marked, 2), Ok(1)),
        (0, Call::Held(0, Program::OnGrown, 7), Ok(1)),
        (0, Call::Held(0, Program::Marked, 7), Ok(1)),
        (
            0,
            Call::Commit(&[Entry::Add(2, 0, 1), Entry::Grow(3)]),
            Ok(2),
        ),
        (0, Call::Hold(Which::Newest), Ok(2)),
        (0, Call::Held(1, Program::OnGrown, 1), Ok(2)),
        (0, Call::Held(1, Program::Marked, 1), Ok(2)),
        (0, Call::Held(1, Program::OnGrown, 2), Ok(2)),
        (0, Call::Held(1, Program::Marked, 2), Ok(2)),
        (0, Call::Held(1, Program::OnGrown, 7), Ok(2)),
        (0, Call::Held(1, Program::Marked, 7), Ok(2)),
        (
            0,
            Call::Commit(&[Entry::Grow(5), Entry::Grow(4), Entry::Add(1, 4, 1)]),
            Ok(3),
        ),
        (0, Call::Commit(&[Entry::Grow(4)]), Err(Refused(111))),
        (0, Call::Hold(Which::Newest), Ok(3)),
        (0, Call::Held(2, Program::OnGrown, 1), Ok(3)),
        (0, Call::Held(2, Program::Marked, 1), Ok(3)),
        (0, Call::Held(2, Program::OnGrown, 2), Ok(3)),
        (0, Call::Held(2, Program::Marked, 2), Ok(3)),
        (0, Call::Held(2, Program::OnGrown, 7), Ok(3)),
        (0, Call::Held(2, Program::Marked, 7), Ok(3)),
        (0, Call::Trim, Ok(6)),
        (0, Call::Held(2, Program::OnGrown, 1), Ok(3)),
        (0, Call::Held(2, Program::Marked, 1), Ok(3)),
        (0, Call::Held(2, Program::OnGrown, 2), Ok(3)),
        (0, Call::Held(2, Program::Marked, 2), Ok(3)),
        (0, Call::Held(2, Program::OnGrown, 7), Ok(3)),
        (0, Call::Held(2, Program::Marked, 7), Ok(3)),
        (0, Call::Release, Ok(0)),
        (0, Call::Held(1, Program::OnGrown, 1), Ok(2)),
        (0, Call::Held(1, Program::Marked, 1), Ok(2)),
        (0, Call::Held(1, Program::OnGrown, 2), Ok(2)),
        (0, Call::Held(1, Program::Marked, 2), Ok(2)),
        (0, Call::Held(1, Program::OnGrown, 7), Ok(2)),
        (0, Call::Held(1, Program::Marked, 7), Ok(2)),
        (0, Call::Release, Ok(0)),
        (0, Call::Held(0, Program::OnGrown, 1), Ok(1)),
        (0, Call::Held(0, Program::Marked, 1), Ok(1)),
        (0, Call::Held(0, Program::OnGrown, 2), Ok(1)),
        (0, Call::Held(0, Program::Marked, 2), Ok(1)),
        (0, Call::Held(0, Program::OnGrown, 7), Ok(1)),
        (0, Call::Held(0, Program::Marked, 7), Ok(1)),
        (0, Call::Release, Ok(0)),
        (0, Call::Newest(Program::OnGrown, 2), Ok(3)),
        (1, Call::Newest(Program::OnGrown, 2), Ok(3)),
    ],
    closed: &[],
};

#[test]
fn each_held_version_has_its_own_vertices(rt: HostRuntime) -> Result<(), Fail> {
    assert_eq!(rt; check_table(&rt, &GROWN), Ok(()));
    Ok(())
}

// All commits are made, each run beside them is of its version, and so is one of the last version after the writer is joined, though
// nothing was reported to the reader.
const BESIDE: Table = Table {
    vertices: 4,
    readers: 2,
    rows: &[
        (0, Call::Beside, Ok(200)),
        (1, Call::Newest(Program::OnPaths, 2), Ok(200)),
    ],
    closed: &[],
};

#[test]
fn each_run_beside_a_writer_is_of_its_version(rt: HostRuntime) -> Result<(), Fail> {
    assert_eq!(rt; check_table(&rt, &BESIDE), Ok(()));
    Ok(())
}
