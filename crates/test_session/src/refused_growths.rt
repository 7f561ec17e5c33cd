//! Steps of a session that memory may run out for: nothing is then changed, and the same step is answered afterwards as if it
//! had not been taken before.
//!
//! With ample memory the test sees the answers alone. `bench/refused-growths` runs it again and again, and refuses one after
//! another of the requests for memory that are made between the lines "asked" and "900" or "whole".

use crate::programs::session;
use crate::rows::{Deed, Shown, check_job, steps_of};
use algorithm_meaning::End;
use runner::Stand;
use session::{Session, SessionError, SessionReply, SessionStep};
use std::alloc::Global;
use std::test::Fail;
use test_helpers::{ask, tell};
use tree_batch::Entry;
use version_list::{Reply, Which};

// A fork with weights, and a seventh vertex.
const GROWN_FORK: &[Entry] = &[
    Entry::Add(0, 1, 4),
    Entry::Add(0, 2, 1),
    Entry::Add(1, 3, -6),
    Entry::Add(2, 3, 1),
    Entry::Grow(7),
    Entry::Add(3, 6, 2),
];

// A commit, a hold, a search of what is held, and seven steps of it.
const TEN_STEPS: [Deed; 4] = [
    Deed::Commit(GROWN_FORK),
    Deed::Acquire(Which::Newest),
    Deed::Start(1, 1, 10),
    Deed::Steps(&[1], 7),
];

const GOING: SessionReply = SessionReply::Stands(Stand::Going);

const REPLIES: [SessionReply; 10] = [
    SessionReply::Of(Reply::Version(1)),
    SessionReply::Of(Reply::Ticket(1, 1)),
    SessionReply::Job(1),
    GOING,
    GOING,
    GOING,
    GOING,
    GOING,
    GOING,
    GOING,
];

const HALFWAY: Shown<'static> = Shown {
    entries: &[0, 0, 0, -1, -1, -1, -1],
    members: &[1, 2],
    text: b"",
    end: End::TurnsOver,
    turns: 1,
};

// The search when it has ended.
const ENDED: Shown<'static> = Shown {
    entries: &[0, 0, 0, 2, -1, -1, 3],
    members: &[],
    text: b"",
    end: End::Finished,
    turns: 4,
};

// A commit, a hold, and two searches of what is held.
const TWO_SEARCHES: [Deed; 4] = [
    Deed::Commit(GROWN_FORK),
    Deed::Acquire(Which::Newest),
    Deed::Start(1, 1, 10),
    Deed::Start(1, 1, 10),
];

// Takes a step, and again where it was answered 900. Returns the reply, and whether it was answered so.
fn take_twice(
    alloc: Global,
    session: &mut Session,
    step: SessionStep,
    again: SessionStep,
) -> Result<(SessionReply, bool), SessionError> {
    match session.step(alloc, step) {
        Err(SessionError::NoMemory) => Ok((session.step(alloc, again)?, true)),
        first => Ok((first?, false)),
    }
}

// How often steps were answered 900, and the index and the reply of the first step with another reply than it must have.
type Taken = (u32, Option<(usize, SessionReply)>);

// Takes steps, and a step that was answered 900 again. It asks for no memory of its own.
fn take(
    alloc: Global,
    session: &mut Session,
    steps: Vec<SessionStep>,
    again: Vec<SessionStep>,
) -> Result<Taken, SessionError> {
    let (mut refused, mut wrong) = (0u32, None);
    for (index, (step, again)) in steps.into_iter().zip(again).enumerate() {
        let (reply, was_refused) = take_twice(alloc, session, step, again)?;
        refused = refused.wrapping_add(u32::from(was_refused));
        if wrong.is_none() && REPLIES.get(index) != Some(&reply) {
            wrong = Some((index, reply));
        }
    }
    Ok((refused, wrong))
}

#[test]
fn ten_steps_of_a_session(rt: HostRuntime) -> Result<(), Fail> {
    let alloc = rt.alloc();
    let mut session = session(alloc)?;
    let (steps, again) = (steps_of(alloc, &TEN_STEPS)?, steps_of(alloc, &TEN_STEPS)?);
    assert_eq!(rt; steps.len(), REPLIES.len(), "how many steps there are");
    let asked = ask(&rt);
    let taken = take(alloc, &mut session, steps, again);
    let told = tell(&rt, matches!(taken, Ok((1, _))));
    let shown = check_job(alloc, &session, 1, &HALFWAY)?;
    drop(session);
    let (refused, wrong) = taken?;
    assert_eq!(rt; asked.and(told).and(shown), Ok(()));
    assert_eq!(rt; wrong, None, "a step with another reply");
    assert!(rt; refused <= 1, "{refused} steps were answered 900");
    Ok(())
}

// Finishes a job, and again where that was answered 900. Returns the reply, and whether it was answered so.
fn finish_twice(
    alloc: Global,
    session: &mut Session,
    job: u64,
) -> Result<(SessionReply, bool), SessionError> {
    match session.finish(alloc, job) {
        Err(SessionError::NoMemory) => Ok((session.finish(alloc, job)?, true)),
        first => Ok((first?, false)),
    }
}

#[test]
fn a_finished_search_of_a_session(rt: HostRuntime) -> Result<(), Fail> {
    let alloc = rt.alloc();
    let mut session = session(alloc)?;
    drop(session.run(alloc, &steps_of(alloc, &TWO_SEARCHES)?)?);
    let first = session.finish(alloc, 1)?;
    let asked = ask(&rt);
    let finished = finish_twice(alloc, &mut session, 2);
    let told = tell(&rt, matches!(finished, Ok((_, true))));
    let shown = check_job(alloc, &session, 2, &ENDED)?;
    drop(session);
    let (second, _) = finished?;
    assert_eq!(rt; asked.and(told).and(shown), Ok(()));
    assert_eq!(rt; first, SessionReply::Stands(Stand::Ended(End::Finished)));
    assert_eq!(rt; second, first);
    Ok(())
}
