//! What readers do beside others, each on a thread of its own.

use crate::batches::{GROWN, grown};
use crate::failure::{Answer, Failure, answer, latest, need};
use crate::kept::{hold, release};
use crate::seats::Role;
use shared_graph::{Naming, Reader, SharedGraph, Snapshot, Unreleased};
use std::alloc::Global;
use std::rt::Clock;
use std::sync::Wait;
use std::thread::{self, Threads};
use std::time::Duration;
use tree_batch::Batch;
use version_list::Which;

/// How a role is answered.
pub(crate) fn act<J: Naming, R: Threads + Wait + Clock + Sync>(
    rt: &R,
    alloc: Global,
    graph: &SharedGraph<J, &R>,
    me: &mut Reader<J>,
    role: Role,
) -> Answer {
    match role {
        Role::Idle => Ok(0),
        Role::Commit(count) => commit_many(rt, alloc, graph, me, count),
        Role::Write(end, each) => write(rt, alloc, graph, me, (end, each)),
        Role::Hold(times) => hold_and_trim(rt, alloc, graph, me, times),
        Role::Watch(end) => watch(rt, me, end),
        Role::GoOn => go_on(rt, alloc, graph, me),
    }
}

/// Commits so many empty batches. The answer is the sum of the cubes of their numbers.
pub(crate) fn commit_many<J: Naming, R: Threads + Wait + Sync>(
    rt: &R,
    alloc: Global,
    graph: &SharedGraph<J, &R>,
    me: &mut Reader<J>,
    count: u64,
) -> Answer {
    let mut cubes = 0u64;
    for _ in 0..count {
        let number = answer(graph.commit(rt, alloc, me, Batch::new(alloc)))?;
        cubes = cubes.wrapping_add(number.wrapping_mul(number).wrapping_mul(number));
    }
    Ok(cubes)
}

// Makes the versions up to this one, each of which must have the next number, and trims after each of which the other divides the
// number. The answer is how many entries its trims dropped.
fn write<J: Naming, R: Threads + Wait + Sync>(
    rt: &R,
    alloc: Global,
    graph: &SharedGraph<J, &R>,
    me: &mut Reader<J>,
    (end, each): (u64, u64),
) -> Answer {
    let mut dropped = 0u64;
    for number in newest(me)?..end {
        let next = number.wrapping_add(1);
        need(make(rt, alloc, graph, me, next)? == next, Failure::Number)?;
        if next.checked_rem(each) == Some(0) {
            dropped = dropped.wrapping_add(answer(graph.trim(rt, me))?);
        }
    }
    Ok(dropped)
}

// Makes the version of this number.
fn make<J: Naming, R: Threads + Wait + Sync>(
    rt: &R,
    alloc: Global,
    graph: &SharedGraph<J, &R>,
    me: &mut Reader<J>,
    number: u64,
) -> Answer {
    match grown(alloc, number) {
        Ok(batch) => answer(graph.commit(rt, alloc, me, batch)),
        Err(_) => Err(Failure::Memory),
    }
}

// The number of the newest version.
fn newest<J: Naming>(me: &mut Reader<J>) -> Answer {
    let version = latest(me)?;
    Ok(version.number)
}

// Checks that a version has the vertices and edges of its number.
fn check_grown(version: &Snapshot) -> Result<(), Failure> {
    let edges = version.number.min(GROWN);
    let vertices = u64::from(version.graph.vertices());
    need(vertices == edges.wrapping_add(1), Failure::Vertices)?;
    need(version.graph.edge_count() as u64 == edges, Failure::Edges)
}

// Holds, trims, releases and trims so many times. The answer is how many entries its trims dropped, if each version is what it
// should be as long as it is held.
fn hold_and_trim<J: Naming, R: Wait>(
    rt: &R,
    alloc: Global,
    graph: &SharedGraph<J, &R>,
    me: &mut Reader<J>,
    times: u64,
) -> Answer {
    let mut dropped = 0u64;
    for _ in 0..times {
        dropped = dropped.wrapping_add(hold_once(rt, alloc, graph, me)?);
        dropped = dropped.wrapping_add(answer(graph.trim(rt, me))?);
    }
    Ok(dropped)
}

// Holds the newest version, trims, and releases. The answer is how many entries the trim dropped.
fn hold_once<J: Naming, R: Wait>(
    rt: &R,
    alloc: Global,
    graph: &SharedGraph<J, &R>,
    me: &mut Reader<J>,
) -> Answer {
    match graph.hold(rt, alloc, me, Which::Newest) {
        Ok(held) => {
            let trimmed = answer(graph.trim(rt, me));
            let stays = check_grown(held.snapshot());
            match graph.release(rt, me, held) {
                Ok(()) => stays.and(trimmed),
                Err(Unreleased { error, held }) => {
                    held.into_snapshot();
                    Err(Failure::Refused(error.number()))
                }
            }
        }
        Err(error) => Err(Failure::Refused(error.number())),
    }
}

// How often a reader looks whether the last version has come.
const MOST_READS: u32 = 1_000_000;

// Looks at each version that comes, up to this one: the numbers must never fall, and each version be what it should.
fn watch<J: Naming, C: Clock>(clock: &C, me: &mut Reader<J>, end: u64) -> Answer {
    let mut seen = 0;
    for _ in 0..MOST_READS {
        let number = look(me)?;
        need(number >= seen, Failure::Number)?;
        if number == end {
            return Ok(0);
        }
        seen = number;
        thread::sleep(clock, Duration::from_micros(200));
    }
    Err(Failure::Late)
}

// The number of the newest version, if that is what it should be.
fn look<J: Naming>(me: &mut Reader<J>) -> Answer {
    let version = latest(me)?;
    check_grown(&version)?;
    Ok(version.number)
}

// A trim, and then a commit, a hold with its release, a trim and a look.
fn go_on<J: Naming, R: Threads + Wait + Sync>(
    rt: &R,
    alloc: Global,
    graph: &SharedGraph<J, &R>,
    me: &mut Reader<J>,
) -> Answer {
    answer(graph.trim(rt, me))?;
    commit_many(rt, alloc, graph, me, 1)?;
    let mut kept = Vec::new(alloc);
    let held = hold(rt, alloc, graph, me, (&mut kept, Which::Newest));
    let released = release(rt, graph, me, &mut kept);
    drop(kept);
    answer(graph.trim(rt, me))?;
    newest(me)?;
    held?;
    released
}
