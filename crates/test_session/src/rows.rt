//! Rows: steps of a session with their replies, and what its jobs show.

use crate::programs::commit;
use algorithm_meaning::{End, Outcome};
use session::{Session, SessionError, SessionReply, SessionStep};
use std::alloc::{AllocError, Global};
use test_helpers::{Checked, check};
use tree_batch::Entry;
use version_list::Which;

/// A step of a session. A start names a program, a ticket and how many turns the job may take. Jobs take a step each, in this
/// order, so many times.
#[derive(Clone, Copy)]
pub(crate) enum Deed {
    Commit(&'static [Entry]),
    Acquire(Which),
    Release(u64),
    Start(u64, u64, u64),
    Steps(&'static [u64], u32),
}

/// What a job shows: the entries of its vector, the members of its set, its text, its end and its turns.
#[derive(Clone, Copy)]
pub(crate) struct Shown<'a> {
    pub(crate) entries: &'a [i64],
    pub(crate) members: &'a [u32],
    pub(crate) text: &'a [u8],
    pub(crate) end: End,
    pub(crate) turns: u64,
}

/// A step and the last reply to it; a job and what it shows; or the number of a job that there is not.
#[derive(Clone, Copy)]
pub(crate) enum Row {
    Takes(Deed, SessionReply),
    Shows(u64, Shown<'static>),
    HasNo(u64),
}

/// What an outcome shows of the first vector and the first set. Each program has one vector, and no more than one set.
pub(crate) fn shown_by(outcome: &Outcome) -> Shown<'_> {
    Shown {
        entries: match outcome.vectors.as_slice().first() {
            Some(vector) => vector.entries.as_slice(),
            None => &[],
        },
        members: match outcome.sets.as_slice().first() {
            Some(set) => set.members.as_slice(),
            None => &[],
        },
        text: outcome.text.as_slice(),
        end: outcome.end,
        turns: outcome.turns,
    }
}

// Checks that both show the same entries, members, text, end and turns.
fn check_same(one: &Shown<'_>, other: &Shown<'_>) -> Checked {
    check(one.entries == other.entries, "the entries")?;
    check(one.members == other.members, "the members")?;
    check(one.text == other.text, "the text")?;
    check(one.end == other.end, "the end")?;
    check(one.turns == other.turns, "the turns")
}

/// Checks that the job of this number shows that.
pub(crate) fn check_job(
    alloc: Global,
    session: &Session,
    number: u64,
    wanted: &Shown<'_>,
) -> Result<Checked, AllocError> {
    match session.job(number) {
        None => Ok(Err("the job")),
        Some(job) => Ok(check_same(&shown_by(&job.outcome(alloc)?), wanted)),
    }
}

/// How many steps a deed is.
pub(crate) fn count_of(deed: Deed) -> usize {
    match deed {
        Deed::Steps(jobs, times) => jobs.len().wrapping_mul(times as usize),
        _ => 1,
    }
}

// The step of a deed at an index.
fn step_at(alloc: Global, deed: Deed, index: usize) -> Result<SessionStep, AllocError> {
    match deed {
        Deed::Commit(entries) => commit(alloc, entries),
        Deed::Acquire(which) => Ok(SessionStep::Acquire(which)),
        Deed::Release(ticket) => Ok(SessionStep::Release(ticket)),
        Deed::Start(program, ticket, turns) => Ok(SessionStep::Start {
            program,
            ticket,
            turns,
        }),
        Deed::Steps(jobs, _) => {
            let job = jobs.get(index % jobs.len().max(1)).copied();
            Ok(SessionStep::JobStep(job.unwrap_or(0)))
        }
    }
}

// Adds the steps of a deed.
fn add_steps(alloc: Global, steps: &mut Vec<SessionStep>, deed: Deed) -> Result<(), AllocError> {
    for index in 0..count_of(deed) {
        steps.push(step_at(alloc, deed, index)?)?;
    }
    Ok(())
}

/// The steps of deeds.
pub(crate) fn steps_of(alloc: Global, deeds: &[Deed]) -> Result<Vec<SessionStep>, AllocError> {
    let mut steps = Vec::new(alloc);
    for deed in deeds {
        add_steps(alloc, &mut steps, *deed)?;
    }
    Ok(steps)
}

/// The steps of a table.
pub(crate) fn steps_of_rows(alloc: Global, rows: &[Row]) -> Result<Vec<SessionStep>, AllocError> {
    let mut steps = Vec::new(alloc);
    for row in rows {
        if let Row::Takes(deed, _) = row {
            add_steps(alloc, &mut steps, *deed)?;
        }
    }
    Ok(steps)
}

// Takes the steps of a deed one by one, and gives the last reply.
fn last_reply(
    alloc: Global,
    session: &mut Session,
    deed: Deed,
) -> Result<Option<SessionReply>, SessionError> {
    let mut last = None;
    for index in 0..count_of(deed) {
        last = Some(session.step(alloc, step_at(alloc, deed, index)?)?);
    }
    Ok(last)
}

/// Checks that a session does what a row says.
pub(crate) fn check_row(
    alloc: Global,
    session: &mut Session,
    row: &Row,
) -> Result<Checked, SessionError> {
    match row {
        Row::Takes(deed, wanted) => {
            let reply = last_reply(alloc, session, *deed)?;
            Ok(check(reply == Some(*wanted), "the reply"))
        }
        Row::Shows(number, wanted) => Ok(check_job(alloc, session, *number, wanted)?),
        Row::HasNo(number) => Ok(check(session.job(*number).is_none(), "a job of this number")),
    }
}
