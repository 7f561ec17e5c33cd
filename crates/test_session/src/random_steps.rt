//! Random steps, beside a plain world.

use crate::plain_world::{MOST_VERTICES, PlainWorld};
use crate::programs::{commit, plans, session};
use crate::rows::{check_job, shown_by};
use bench_support::{Random, random_weight};
use plans::Plan;
use session::{Session, SessionError, SessionReply, SessionStep};
use std::alloc::{AllocError, Global};
use std::sync::Arc;
use std::test::Fail;
use test_helpers::{Checked, check};
use tree_batch::Entry;
use version_list::Which;

// How many lists of steps there are, and how long each is.
const LISTS: u64 = 40;

const STEPS: u32 = 80;

// A vertex; now and then it is one that there is only after growth.
fn random_vertex(random: &mut Random) -> u32 {
    match random.below(16) {
        0 => random.below(u64::from(MOST_VERTICES)) as u32,
        _ => (random.below(43) / 7) as u32,
    }
}

fn random_entry(random: &mut Random) -> Entry {
    let (source, destination) = (random_vertex(random), random_vertex(random));
    match random.below(12) {
        0 => Entry::Grow(random.below(u64::from(MOST_VERTICES) + 1) as u32),
        1 | 2 | 3 => Entry::Remove(source, destination),
        _ => Entry::Add(source, destination, random_weight(random)),
    }
}

fn random_step(alloc: Global, random: &mut Random) -> Result<SessionStep, AllocError> {
    Ok(match random.below(16) {
        0 | 1 => {
            let entries = [
                random_entry(random),
                random_entry(random),
                random_entry(random),
            ];
            return commit(alloc, &entries);
        }
        2 => SessionStep::Acquire(Which::Newest),
        3 => SessionStep::Acquire(Which::At(random.below(8))),
        4 => SessionStep::Release(random.below(6)),
        5 | 6 => SessionStep::Start {
            program: random.below(5),
            ticket: random.below(6),
            turns: random.below(5),
        },
        _ => SessionStep::JobStep(random.below(6)),
    })
}

// A random list of steps.
fn random_steps(alloc: Global, seed: u64) -> Result<Vec<SessionStep>, AllocError> {
    let mut random = Random::new(seed);
    let mut steps = Vec::new(alloc);
    for _step in 0..STEPS {
        steps.push(random_step(alloc, &mut random)?)?;
    }
    Ok(steps)
}

// A plan, to be shared.
fn share(alloc: Global, plan: Plan) -> Result<Arc<Plan>, SessionError> {
    Ok(Arc::new(alloc, plan)?)
}

// The plans of the programs, each to be shared.
fn shared(alloc: Global) -> Result<Vec<Arc<Plan>>, Fail> {
    let mut shared = Vec::new(alloc);
    for plan in plans(alloc)? {
        shared.push(share(alloc, plan)?)?;
    }
    Ok(shared)
}

// Checks that the job of this number shows what it shows when it is run afresh, or is there in neither.
fn check_afresh(
    alloc: Global,
    session: &Session,
    world: &PlainWorld,
    plans: &[Arc<Plan>],
    number: u64,
) -> Result<Checked, Fail> {
    match world.afresh(alloc, plans, number)? {
        Some((_stand, wanted)) => Ok(check_job(alloc, session, number, &shown_by(&wanted))?),
        None => Ok(check(
            session.job(number).is_none(),
            "a job that the plain world has not",
        )),
    }
}

// Checks that a session answers a step as the plain world does, and as it was answered among all at once.
fn check_step(
    alloc: Global,
    session: &mut Session,
    world: &mut PlainWorld,
    plans: &[Arc<Plan>],
    (step, at_once): (&SessionStep, &SessionReply),
) -> Result<Checked, Fail> {
    let reply = session.step(alloc, step.clone()?)?;
    let wanted = world.answer(alloc, plans, step)?;
    Ok(check(reply == wanted, "a reply to one step").and(check(
        *at_once == wanted,
        "a reply to all steps at once",
    )))
}

// What a session answers to steps at once.
fn replies_at_once(alloc: Global, steps: &[SessionStep]) -> Result<Vec<SessionReply>, Fail> {
    let mut session = session(alloc)?;
    Ok(session.run(alloc, steps)?)
}

// Checks that a session answers a random list of steps as the plain world does, one by one and all at once, and that after
// them each job with a number below 8 shows the same entries, members, text, end and turns in both, or is in neither.
fn check_list(alloc: Global, plans: &[Arc<Plan>], seed: u64) -> Result<Checked, Fail> {
    let steps = random_steps(alloc, seed)?;
    let replies = replies_at_once(alloc, &steps)?;
    let mut checked = check(steps.len() == replies.len(), "how many replies there are");
    let mut session = session(alloc)?;
    let mut world = PlainWorld::new(alloc)?;
    for taken in steps.iter().zip(&replies) {
        checked = checked.and(check_step(alloc, &mut session, &mut world, plans, taken)?);
    }
    for number in 0..8u64 {
        checked = checked.and(check_afresh(alloc, &session, &world, plans, number)?);
    }
    Ok(checked)
}

// The seed of the first list after which something is otherwise than in the plain world, and the name of that.
fn first_wrong(alloc: Global) -> Result<Option<(u64, &'static str)>, Fail> {
    let plans = shared(alloc)?;
    for seed in 0..LISTS {
        if let Err(wrong) = check_list(alloc, &plans, seed)? {
            return Ok(Some((seed, wrong)));
        }
    }
    Ok(None)
}

#[test]
fn sessions_stand_where_a_plain_world_stands(rt: HostRuntime) -> Result<(), Fail> {
    assert_eq!(rt; first_wrong(rt.alloc())?, None);
    Ok(())
}
