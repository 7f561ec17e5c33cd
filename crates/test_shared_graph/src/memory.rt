//! Resident memory after many steps on a shared graph.

use crate::calls::{Call, Table, check_table};
use crate::failure::{Answer, Failure, answer, latest};
use shared_graph::{Naming, Reader, SharedGraph, Unreleased};
use std::alloc::{AllocError, Global};
use std::fs;
use std::rt::Files;
use std::sync::Wait;
use std::test::Fail;
use std::thread::Threads;
use tree_batch::{Batch, Entry};
use version_list::{MAX_HISTORY, Which};

const VERTICES: u32 = 64;

// How many edges a vertex has.
const NEIGHBOURS: u32 = 16;

// How many rounds come first, and after how many the memory is looked at again.
const FIRST: u32 = 100;

const LAST: u32 = 1100;

// Checks of memory keep up to 256 blocks of this size after they are freed.
const BLOCK: usize = 1 << 20;

const BLOCKS: u32 = 320;

// By how many pages of 4,096 bytes the memory may grow all the same. A version takes more than one.
const SLACK: u64 = 256;

// All edges of the graph, in the first round; and in each one edge, with the weight of the round.
fn edges(alloc: Global, round: u32) -> Result<Batch, AllocError> {
    let mut batch = Batch::new(alloc);
    let (weight, last) = (
        i64::from(round),
        if round == 0 { VERTICES * NEIGHBOURS } else { 1 },
    );
    for edge in 0..last {
        let pushed = batch.push(Entry::Add(edge / NEIGHBOURS, edge % NEIGHBOURS, weight));
        if pushed.is_err() {
            return Err(AllocError);
        }
    }
    Ok(batch)
}

fn commit<J: Naming, R: Threads + Wait + Sync>(
    rt: &R,
    alloc: Global,
    graph: &SharedGraph<J, &R>,
    me: &mut Reader<J>,
    round: u32,
) -> Answer {
    match edges(alloc, round) {
        Ok(batch) => answer(graph.commit(rt, alloc, me, batch)),
        Err(_) => Err(Failure::Memory),
    }
}

// Commits, holds, commits, looks, releases and trims.
fn make_round<J: Naming, R: Threads + Wait + Sync>(
    rt: &R,
    alloc: Global,
    graph: &SharedGraph<J, &R>,
    me: &mut Reader<J>,
    round: u32,
) -> Answer {
    commit(rt, alloc, graph, me, round)?;
    let held = match graph.hold(rt, alloc, me, Which::Newest) {
        Ok(held) => held,
        Err(error) => return Err(Failure::Refused(error.number())),
    };
    let committed = commit(rt, alloc, graph, me, round.wrapping_mul(3));
    let looked = latest(me).map(|_| ());
    let released = match graph.release(rt, me, held) {
        Ok(()) => Ok(0),
        Err(Unreleased { error, held }) => {
            held.into_snapshot();
            Err(Failure::Refused(error.number()))
        }
    };
    let trimmed = answer(graph.trim(rt, me))?;
    committed?;
    released?;
    looked?;
    Ok(trimmed)
}

// Asks for blocks and frees them, so that what is kept of freed memory is of one size from now on.
fn free_blocks(alloc: Global) {
    for _ in 0..BLOCKS {
        let block = Vec::from_elem(alloc, 0u8, BLOCK);
        drop(block);
    }
}

// How many pages of memory the process has.
fn pages<R: Files + AllocGlobal>(rt: &R) -> Option<u64> {
    let text = fs::read_to_string(rt, "/proc/self/statm").ok()?;
    text.split(' ').nth(1)?.parse().ok()
}

/// By how many pages more than it may the memory grows after the first rounds.
pub(crate) fn growth<J: Naming, R: Threads + Wait + Files + AllocGlobal + Sync>(
    rt: &R,
    alloc: Global,
    graph: &SharedGraph<J, &R>,
    me: &mut Reader<J>,
) -> Answer {
    let mut before = None;
    for round in 0..LAST {
        if round == FIRST {
            free_blocks(alloc);
            before = pages(rt);
        }
        make_round(rt, alloc, graph, me, round)?;
    }
    match (before, pages(rt)) {
        (Some(before), Some(after)) => { Ok(after.saturating_sub(before).saturating_sub(SLACK)) }
        _ => Err(Failure::Pages),
    }
}

// After the first commits, holds, looks, releases and trims, many more take no memory that stays.
const ROUNDS: Table = Table {
    vertices: VERTICES,
    chunk_size: 64,
    readers: 1,
    room: MAX_HISTORY,
    rows: &[(0, Call::Rounds, Ok(0))],
    closed: &[],
};

#[test]
fn steps_leave_no_memory_behind(rt: HostRuntime) -> Result<(), Fail> {
    assert_eq!(rt; check_table(&rt, &ROUNDS), Ok(()));
    Ok(())
}
