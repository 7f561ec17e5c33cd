//! Runs beside a writer, on another thread.

use crate::calls::{commit, trim};
use crate::failure::{Answer, Failure, need};
use crate::programs::Program;
use crate::running::{planned, run_newest};
use plans::Plan;
use shared_graph::{Naming, Reader, SharedGraph};
use std::alloc::Global;
use std::sync::Wait;
use std::thread::{Threads, join};
use tree_batch::Entry;

/// The entries that make the path of the version of this number: it is one edge longer, and the fourth has none again.
pub(crate) fn step_to(number: u64) -> &'static [Entry] {
    match number % 4 {
        1 => &[Entry::Add(0, 1, 1)],
        2 => &[Entry::Add(1, 2, 1)],
        3 => &[Entry::Add(2, 3, 1)],
        _ => &[
            Entry::Remove(0, 1),
            Entry::Remove(1, 2),
            Entry::Remove(2, 3),
        ],
    }
}

// How many versions a writer makes beside the runs of a reader.
const COMMITS: u64 = 200;

// How many runs a reader makes beside a writer.
const RUNS: u32 = 40;

/// The number of the last version, if each commit and each trim of the first reader is answered as it must be, and each run of the
/// second beside them is of its version.
pub(crate) fn run_beside<J: Naming + Send + Sync, R: Threads + Wait + Sync>(
    rt: &R,
    alloc: Global,
    graph: &SharedGraph<J, &R>,
    readers: &mut Vec<Reader<J>>,
) -> Answer {
    let [writer, reader, ..] = readers.as_mut_slice() else {
        return Err(Failure::Call);
    };
    let plan = planned(alloc, Program::OnPaths.text())?;
    let (made, ran) = join(
        rt,
        || commit_all(rt, alloc, graph, writer),
        || run_all(rt, alloc, &plan, reader),
    );
    let newest = made?;
    ran?;
    Ok(newest)
}

// Makes all commits, and trims after each eighth. The answer is the number of the last version, if each commit has the next number,
// and each trim drops the eight commits before it.
fn commit_all<J: Naming, R: Threads + Wait + Sync>(
    rt: &R,
    alloc: Global,
    graph: &SharedGraph<J, &R>,
    me: &mut Reader<J>,
) -> Answer {
    for number in 1..=COMMITS {
        let made = commit(rt, alloc, graph, me, step_to(number))?;
        need(made == number, Failure::Commit(made))?;
        if number % 8 == 0 {
            let dropped = trim(rt, graph, me)?;
            need(dropped == 8, Failure::Trim(dropped))?;
        }
    }
    Ok(COMMITS)
}

// Makes all runs. The answer is the number of the last version, if each run shows what its version must, and no version is older than
// the one before.
fn run_all<J: Naming, R: Threads + Sync>(
    rt: &R,
    alloc: Global,
    plan: &Plan,
    me: &mut Reader<J>,
) -> Answer {
    let mut seen = 0;
    for _ in 0..RUNS {
        let number = run_newest(rt, alloc, plan, me, (Program::OnPaths, 2))?;
        need(number >= seen, Failure::Older(number))?;
        seen = number;
    }
    Ok(seen)
}
