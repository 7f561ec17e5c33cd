//! Tables of steps: a search beside commits, releases and growth, jobs that stay where they ended, and steps that are refused.

use crate::programs::{FORK, plans, session};
use crate::rows::Deed::{Acquire, Commit, Release, Start, Steps};
use crate::rows::Row::{HasNo, Shows, Takes};
use crate::rows::{Row, Shown, check_job, check_row, count_of, steps_of_rows};
use algorithm_meaning::End;
use runner::Stand::{Ended, Going};
use session::SessionReply::{Job, Of, Stands};
use session::{Session, SessionError, SessionReply};
use std::alloc::Global;
use std::test::Fail;
use test_helpers::{Checked, check};
use tree_batch::Entry;
use version_list::Reply::{Refused, Released, Ticket, Version};
use version_list::Which::{At, Newest};

// Where a search of the fork is after seven steps.
const HALFWAY: Shown<'static> = Shown {
    entries: &[0, 0, 0, -1, -1, -1],
    members: &[1, 2],
    text: b"",
    end: End::TurnsOver,
    turns: 1,
};

// What a search shows on the fork at its end.
const ON_SIX: Shown<'static> = Shown {
    entries: &[0, 0, 0, 2, 3, -1],
    members: &[],
    text: b"",
    end: End::Finished,
    turns: 4,
};

// What it shows where the fork's tail is one edge longer, and there are eight vertices.
const ON_EIGHT: Shown<'static> = Shown {
    entries: &[0, 0, 0, 2, 3, -1, -1, 4],
    members: &[],
    text: b"",
    end: End::Finished,
    turns: 5,
};

// What it shows where vertex 7 leads on to vertex 9, of ten.
const ON_TEN: Shown<'static> = Shown {
    entries: &[0, 0, 0, 2, 3, -1, -1, 4, -1, 7],
    members: &[],
    text: b"",
    end: End::Finished,
    turns: 6,
};

// What the faulty program shows before its first step, at its fault, and where there are ten vertices.
const AT_FIRST: Shown<'static> = Shown {
    entries: &[-1, -1, -1, -1, -1, -1],
    members: &[],
    text: b"",
    end: End::TurnsOver,
    turns: 0,
};

const AT_ITS_FAULT: Shown<'static> = Shown {
    entries: &[-1, -1, -1, -1, -1, -1],
    members: &[],
    text: b"1\n",
    end: End::Fault(401, 2),
    turns: 0,
};

const WITHOUT_FAULT: Shown<'static> = Shown {
    entries: &[-1, -1, -1, -1, -1, -1, -1, -1, -1, 0],
    members: &[],
    text: b"1\n2\n",
    end: End::Finished,
    turns: 0,
};

// A job keeps its version beside a commit and a release, and stays at its end.
const BESIDE_A_COMMIT: &[Row] = &[
    Takes(Commit(FORK), Of(Version(1))),
    Takes(Acquire(Newest), Of(Ticket(1, 1))),
    Takes(Start(1, 1, 10), Job(1)),
    Takes(Steps(&[1], 7), Stands(Going)),
    Takes(Commit(&[Entry::Remove(3, 4)]), Of(Version(2))),
    Takes(Release(1), Of(Released)),
    Shows(1, HALFWAY),
    Takes(Steps(&[1], 13), Stands(Going)),
    Takes(Steps(&[1], 1), Stands(Ended(End::Finished))),
    Shows(1, ON_SIX),
    Takes(Steps(&[1], 3), Stands(Ended(End::Finished))),
    Shows(1, ON_SIX),
];

// A job stays where its turns are over.
const TURNS_OVER: &[Row] = &[
    Takes(Commit(FORK), Of(Version(1))),
    Takes(Acquire(At(1)), Of(Ticket(1, 1))),
    Takes(Start(1, 1, 1), Job(1)),
    Takes(Start(2, 1, 1), Job(2)),
    Takes(Steps(&[1], 8), Stands(Going)),
    Takes(Steps(&[1], 1), Stands(Ended(End::TurnsOver))),
    Shows(1, HALFWAY),
    Takes(Steps(&[1], 2), Stands(Ended(End::TurnsOver))),
    Shows(1, HALFWAY),
];

// A job stays at its fault, and others continue.
const FAULT: &[Row] = &[
    Takes(Commit(FORK), Of(Version(1))),
    Takes(Acquire(At(1)), Of(Ticket(1, 1))),
    Takes(Start(1, 1, 5), Job(1)),
    Takes(Start(2, 1, 5), Job(2)),
    Takes(Steps(&[2], 1), Stands(Going)),
    Takes(Steps(&[2], 1), Stands(Ended(End::Fault(401, 2)))),
    Shows(2, AT_ITS_FAULT),
    Takes(Steps(&[2], 2), Stands(Ended(End::Fault(401, 2)))),
    Shows(2, AT_ITS_FAULT),
    Takes(Steps(&[1], 7), Stands(Going)),
    Shows(1, HALFWAY),
];

// A job on a smaller version continues after growth, as one that is started on it later.
const GROWTH: &[Row] = &[
    Takes(Commit(FORK), Of(Version(1))),
    Takes(Acquire(Newest), Of(Ticket(1, 1))),
    Takes(Start(1, 1, 10), Job(1)),
    Takes(Steps(&[1], 7), Stands(Going)),
    Takes(
        Commit(&[Entry::Add(4, 7, 1), Entry::Grow(8), Entry::Grow(6)]),
        Of(Version(2)),
    ),
    Takes(Acquire(Newest), Of(Ticket(2, 2))),
    Takes(Start(1, 2, 10), Job(2)),
    Takes(Start(1, 1, 10), Job(3)),
    Takes(Steps(&[1], 13), Stands(Going)),
    Takes(Steps(&[1], 1), Stands(Ended(End::Finished))),
    Takes(Steps(&[2], 60), Stands(Ended(End::Finished))),
    Takes(Steps(&[3], 60), Stands(Ended(End::Finished))),
    Shows(1, ON_SIX),
    Shows(2, ON_EIGHT),
    Shows(3, ON_SIX),
];

// Versions of three sizes run side by side.
const THREE_SIZES: &[Row] = &[
    Takes(Commit(FORK), Of(Version(1))),
    Takes(Acquire(Newest), Of(Ticket(1, 1))),
    Takes(
        Commit(&[Entry::Grow(8), Entry::Add(4, 7, 1)]),
        Of(Version(2)),
    ),
    Takes(Acquire(Newest), Of(Ticket(2, 2))),
    Takes(
        Commit(&[Entry::Add(7, 9, 1), Entry::Grow(10)]),
        Of(Version(3)),
    ),
    Takes(Acquire(Newest), Of(Ticket(3, 3))),
    Takes(Start(1, 1, 10), Job(1)),
    Takes(Start(1, 2, 10), Job(2)),
    Takes(Start(1, 3, 10), Job(3)),
    Takes(Steps(&[3, 1, 2], 60), Stands(Ended(End::Finished))),
    Shows(1, ON_SIX),
    Shows(2, ON_EIGHT),
    Shows(3, ON_TEN),
];

// An index is looked up in the version of its job.
const INDICES: &[Row] = &[
    Takes(Commit(&[]), Of(Version(1))),
    Takes(Acquire(Newest), Of(Ticket(1, 1))),
    Takes(Start(2, 1, 10), Job(1)),
    Takes(Steps(&[1], 1), Stands(Going)),
    Takes(Commit(&[Entry::Grow(10)]), Of(Version(2))),
    Takes(Acquire(Newest), Of(Ticket(2, 2))),
    Takes(Start(2, 2, 10), Job(2)),
    Takes(Steps(&[1], 1), Stands(Ended(End::Fault(401, 2)))),
    Takes(Steps(&[2], 60), Stands(Ended(End::Finished))),
    Shows(1, AT_ITS_FAULT),
    Shows(2, WITHOUT_FAULT),
];

// Growth is refused against the newest version.
const REFUSED_GROWTH: &[Row] = &[
    Takes(Commit(&[Entry::Grow(8)]), Of(Version(1))),
    Takes(Commit(&[Entry::Grow(7)]), Of(Refused(111))),
    Takes(Commit(&[Entry::Grow(9), Entry::Grow(7)]), Of(Refused(111))),
    Takes(Commit(&[Entry::Add(8, 0, 1)]), Of(Refused(111))),
    Takes(Commit(&[Entry::Grow(16_777_217)]), Of(Refused(111))),
    Takes(
        Commit(&[Entry::Grow(8), Entry::Remove(7, 7)]),
        Of(Version(2)),
    ),
    Takes(
        Commit(&[Entry::Add(9, 0, 1), Entry::Grow(10)]),
        Of(Version(3)),
    ),
];

// Starts and steps are refused by number: a program that there is not comes before a ticket that is not open.
const REFUSED_STARTS: &[Row] = &[
    Takes(Start(0, 1, 9), Of(Refused(412))),
    Takes(Start(4, 1, 9), Of(Refused(412))),
    Takes(Start(1, 1, 9), Of(Refused(122))),
    Takes(Steps(&[1], 1), Of(Refused(413))),
    Takes(Acquire(At(0)), Of(Ticket(1, 0))),
    Takes(Start(4, 1, 9), Of(Refused(412))),
    Takes(Start(2, 1, 9), Job(1)),
    Takes(Release(1), Of(Released)),
    Takes(Start(1, 1, 9), Of(Refused(122))),
    Takes(Steps(&[0], 1), Of(Refused(413))),
    Takes(Steps(&[2], 1), Of(Refused(413))),
    HasNo(0),
    Shows(1, AT_FIRST),
    HasNo(2),
];

// Refusals of the versions are replies.
const REFUSED_VERSIONS: &[Row] = &[
    Takes(Commit(&[Entry::Add(6, 0, 1)]), Of(Refused(111))),
    Takes(Commit(FORK), Of(Version(1))),
    Takes(Acquire(At(0)), Of(Refused(121))),
    Takes(Release(1), Of(Refused(122))),
];

const TABLES: [&[Row]; 9] = [
    BESIDE_A_COMMIT,
    TURNS_OVER,
    FAULT,
    GROWTH,
    THREE_SIZES,
    INDICES,
    REFUSED_GROWTH,
    REFUSED_STARTS,
    REFUSED_VERSIONS,
];

// The place of the first row that a session does not follow, and the name of what is wrong.
fn first_wrong(alloc: Global, rows: &[Row]) -> Result<Option<(usize, &'static str)>, Fail> {
    let mut session = session(alloc)?;
    for (at, row) in rows.iter().enumerate() {
        if let Err(wrong) = check_row(alloc, &mut session, row)? {
            return Ok(Some((at, wrong)));
        }
    }
    Ok(None)
}

// Checks that these replies to all steps of a table are those of its rows.
fn check_replies(rows: &[Row], replies: &[SessionReply]) -> Checked {
    let mut taken = 0usize;
    for row in rows {
        if let Takes(deed, wanted) = row {
            taken = taken.wrapping_add(count_of(*deed));
            let reply = replies.get(taken.wrapping_sub(1)).copied();
            check(reply == Some(*wanted), "a reply")?;
        }
    }
    check(taken == replies.len(), "how many replies there are")
}

// Checks that a session that takes all steps of a table at once gives the replies of its rows, and that its job shows at the end what
// the last row says.
fn check_at_once(alloc: Global, rows: &[Row]) -> Result<Checked, Fail> {
    let mut session = session(alloc)?;
    let steps = steps_of_rows(alloc, rows)?;
    let replies = session.run(alloc, &steps)?;
    let shown = match rows.last() {
        Some(Shows(number, wanted)) => check_job(alloc, &session, *number, wanted)?,
        _ => Ok(()),
    };
    Ok(shown.and(check_replies(rows, &replies)))
}

#[test]
fn sessions_follow_their_tables(rt: HostRuntime) -> Result<(), Fail> {
    for (index, rows) in TABLES.iter().enumerate() {
        assert_eq!(rt; first_wrong(rt.alloc(), rows)?, None, "table {index}");
        assert_eq!(rt;
            check_at_once(rt.alloc(), rows)?,
            Ok(()),
            "table {index}, at once"
        );
    }
    Ok(())
}

// Why a session is not opened.
fn why_not(alloc: Global, vertices: u32, chunk_size: u32) -> Result<Option<SessionError>, Fail> {
    Ok(Session::new(alloc, vertices, chunk_size, plans(alloc)?).err())
}

#[test]
fn sessions_are_not_opened_on_no_graph(rt: HostRuntime) -> Result<(), Fail> {
    for (vertices, chunk_size, wanted) in [
        (0, 3, SessionError::VertexRange),
        (16_777_217, 64, SessionError::VertexRange),
        (6, 3, SessionError::BadChunkSize),
    ] {
        let error = why_not(rt.alloc(), vertices, chunk_size)?;
        assert_eq!(rt; error, Some(wanted), "{vertices} {chunk_size}");
    }
    Ok(())
}

#[test]
fn refusals_have_their_numbers(rt: HostRuntime) {
    for (error, number) in [
        (SessionError::VertexRange, 111),
        (SessionError::BadChunkSize, 103),
        (SessionError::NotKept, 121),
        (SessionError::NotHeld, 122),
        (SessionError::HistoryFull, 123),
        (SessionError::NoProgram, 412),
        (SessionError::NoJob, 413),
        (SessionError::NoMemory, 900),
    ] {
        assert_eq!(rt; error.number(), number, "{error:?}");
    }
}
