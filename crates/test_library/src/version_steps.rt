//! Steps of versions whose history has little room, which no script has.
use Asked::{Acquire, Commit, Release, Trim};
use Reply::{Refused, Released, Ticket, Trimmed, Version};
use std::alloc::Global;
use std::thread::Threads;
use test_helpers::{Checked, check};
use tree_batch::Batch;
use version_list::{Reply, Step, VersionError, Versions, Which};

// A step, the commits with an empty batch.
#[derive(Clone, Copy)]
enum Asked {
    Commit,
    Acquire(Which),
    Release(u64),
    Trim,
}

impl Asked {
    fn step(self, alloc: Global) -> Step {
        match self {
            Commit => Step::Commit(Batch::new(alloc)),
            Acquire(which) => Step::Acquire(which),
            Release(number) => Step::Release(number),
            Trim => Step::Trim,
        }
    }
}

const HOLD: Asked = Acquire(Which::Newest);

const FULL: Reply = Refused(123);

// How many entries a history has room for, and steps with their replies.
const HISTORIES: [(u64, &[(Asked, Reply)]); 3] = [
    (
        3,
        &[
            (HOLD, Ticket(1, 0)),
            (Commit, Version(1)),
            (Commit, FULL),
            (HOLD, FULL),
            (Release(1), Released),
            (Commit, FULL),
        ],
    ),
    // A full history releases all tickets.
    (
        7,
        &[
            (HOLD, Ticket(1, 0)),
            (HOLD, Ticket(2, 0)),
            (HOLD, Ticket(3, 0)),
            (HOLD, FULL),
            (Acquire(Which::At(1)), Refused(121)),
            (Commit, Version(1)),
            (Commit, FULL),
            (Release(1), Released),
            (Release(2), Released),
            (Release(3), Released),
            (Release(1), Refused(122)),
            (Commit, FULL),
        ],
    ),
    // A trim makes room but for releases.
    (
        3,
        &[
            (HOLD, Ticket(1, 0)),
            (Commit, Version(1)),
            (Commit, FULL),
            (Trim, Trimmed(2)),
            (Commit, Version(2)),
            (Commit, Version(3)),
            (Commit, FULL),
            (Release(1), Released),
            (Release(1), Refused(122)),
        ],
    ),
];

// The place of the first step that a history with so much room answers otherwise, if there is one; also if there is another number of
// replies.
fn first_wrong(
    alloc: Global,
    room: u64,
    asked: &[(Asked, Reply)],
) -> Result<Option<usize>, VersionError> {
    let mut steps = Vec::new(alloc);
    for (step, _) in asked {
        steps.push(step.step(alloc))?;
    }
    let mut versions = Versions::with_room(alloc, 3, 64, room)?;
    let replies = versions.run(alloc, &steps)?;
    for (at, (_, reply)) in asked.iter().enumerate() {
        if replies.get(at) != Some(reply) {
            return Ok(Some(at));
        }
    }
    Ok((replies.len() != asked.len()).then_some(asked.len()))
}

#[test]
fn a_history_has_room_for_its_tickets(rt: HostRuntime) {
    for (room, asked) in HISTORIES {
        let wrong = first_wrong(rt.alloc(), room, asked);
        assert_eq!(rt; wrong, Ok(None), "a room of {room}");
    }
}

// Checks that the steps of the first history are answered so by a call each: a commit by its two halves where it has room.
fn check_calls<R: Threads + AllocGlobal + Sync>(rt: &R) -> Result<Checked, VersionError> {
    let mut versions = Versions::with_room(rt.alloc(), 3, 64, 3)?;
    let (ticket, graph) = versions.acquire(Which::Newest)?;
    let held = (
        graph.vertices(),
        graph.edge_count(),
        versions.version(ticket),
    );
    let prepared = versions.prepare(rt, rt.alloc(), Batch::new(rt.alloc()), 1)?;
    let before = (versions.newest().0, versions.history().len());
    let number = versions.finish(prepared);
    let after = (versions.newest().0, versions.history().len());
    let empty = Batch::new(rt.alloc());
    let second = versions.prepare(rt, rt.alloc(), empty, 1).err();
    let hold = versions.acquire(Which::Newest).err();
    let released = versions.release(ticket);
    let last = versions.commit(rt.alloc(), Batch::new(rt.alloc())).err();
    let full = Some(VersionError::HistoryFull);
    Ok(
        check(ticket.number == 1, "the ticket")
            .and(check(held == (3, 0, Some(0)), "what is held"))
            .and(check(before == (0, 1), "the newest version before the commit"))
            .and(check(number == 1, "the number of the commit"))
            .and(check(after == (1, 2), "the newest version after the commit"))
            .and(check(second == full, "a second commit"))
            .and(check(hold == full, "a second hold"))
            .and(check(released.is_ok(), "the release"))
            .and(check(last == full, "a commit after the release")),
    )
}

#[test]
fn each_call_answers_as_its_step(rt: HostRuntime) {
    assert_eq!(rt; check_calls(&rt), Ok(Ok(())));
}

// Checks that a trim by its two halves drops two entries, and that the version that a ticket holds stays.
fn check_trim(alloc: Global) -> Result<Checked, VersionError> {
    let mut versions = Versions::with_room(alloc, 3, 64, 3)?;
    versions.commit(alloc, Batch::new(alloc))?;
    let ticket = versions.acquire(Which::Newest)?.0;
    let prepared = versions.prepare_trim()?;
    let dropped = versions.finish_trim(prepared);
    versions.commit(alloc, Batch::new(alloc))?;
    let length = versions.history().len();
    Ok(
        check(dropped == 2, "how many entries are dropped")
            .and(check(
                versions.version(ticket) == Some(1),
                "the version that is held",
            ))
            .and(check(versions.graph(ticket).is_some(), "the graph that is held"))
            .and(check(versions.newest().0 == 2, "the newest version"))
            .and(check(length == 1, "the length of the history")),
    )
}

#[test]
fn a_trim_keeps_what_is_held(rt: HostRuntime) {
    assert_eq!(rt; check_trim(rt.alloc()), Ok(Ok(())));
}
