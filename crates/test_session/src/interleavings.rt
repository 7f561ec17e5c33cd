//! Two searches side by side on two versions, in every order of their first six steps.

use crate::programs::{FORK, session};
use crate::rows::{Deed, Row, Shown, check_job, steps_of};
use algorithm_meaning::End;
use session::{Session, SessionError, SessionReply, SessionStep};
use std::alloc::Global;
use std::test::Fail;
use test_helpers::Checked;
use tree_batch::Entry;
use version_list::{Reply, Which};

// Where a search of the fork is after six steps.
const ON_THE_FORK: Shown<'static> = Shown {
    entries: &[0, 0, 0, -1, -1, -1],
    members: &[1, 2],
    text: b"",
    end: End::TurnsOver,
    turns: 1,
};

// Where it is where the fork has one branch.
const ON_ONE_BRANCH: Shown<'static> = Shown {
    entries: &[0, 0, -1, -1, -1, -1],
    members: &[1],
    text: b"",
    end: End::TurnsOver,
    turns: 1,
};

// The fork is held by ticket 1, and the fork without one of its branches by ticket 2; the newest version has no edge.
const TWO_VERSIONS: [Deed; 5] = [
    Deed::Commit(FORK),
    Deed::Acquire(Which::Newest),
    Deed::Commit(&[Entry::Remove(0, 2)]),
    Deed::Acquire(Which::Newest),
    Deed::Commit(&[
        Entry::Remove(0, 1),
        Entry::Remove(1, 3),
        Entry::Remove(2, 3),
        Entry::Remove(3, 4),
    ]),
];

// Starts a search on each of the two versions, and takes twelve steps, of which those that the bits name are the second's.
fn take_in_order(
    alloc: Global,
    session: &mut Session,
    jobs: [u64; 2],
    order: u32,
) -> Result<(), SessionError> {
    for ticket in [1, 2] {
        session.step(
            alloc,
            SessionStep::Start {
                program: 1,
                ticket,
                turns: 10,
            },
        )?;
    }
    for index in 0..12u32 {
        let job = jobs[(order >> index & 1) as usize];
        session.step(alloc, SessionStep::JobStep(job))?;
    }
    Ok(())
}

// Checks what each of two new searches shows after their steps in an order.
fn check_jobs(
    alloc: Global,
    session: &mut Session,
    jobs: [u64; 2],
    order: u32,
) -> Result<(Checked, Checked), SessionError> {
    take_in_order(alloc, session, jobs, order)?;
    let first = check_job(alloc, session, jobs[0], &ON_THE_FORK)?;
    let second = check_job(alloc, session, jobs[1], &ON_ONE_BRANCH)?;
    Ok((first, second))
}

// A session with the two versions.
fn two_versions(alloc: Global) -> Result<Session, Fail> {
    let mut session = session(alloc)?;
    drop(session.run(alloc, &steps_of(alloc, &TWO_VERSIONS)?)?);
    Ok(session)
}

// An order after which a job does not show what it should, and the check of each job.
type WrongOrder = (u32, Checked, Checked);

// How many orders are tried, and the first that is wrong.
fn try_orders(alloc: Global) -> Result<(u32, Option<WrongOrder>), Fail> {
    let mut session = two_versions(alloc)?;
    let (mut tried, mut next) = (0u32, 1u64);
    for order in 0..4096u32 {
        if order.count_ones() == 6 {
            let jobs = [next, next.wrapping_add(1)];
            let (first, second) = check_jobs(alloc, &mut session, jobs, order)?;
            tried = tried.wrapping_add(1);
            next = next.wrapping_add(2);
            if first.is_err() || second.is_err() {
                return Ok((tried, Some((order, first, second))));
            }
        }
    }
    Ok((tried, None))
}

#[test]
fn two_jobs_stand_alike_in_every_order(rt: HostRuntime) -> Result<(), Fail> {
    assert_eq!(rt; try_orders(rt.alloc())?, (924, None));
    Ok(())
}
