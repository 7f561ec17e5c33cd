//! Calls that memory may run out for: what they are given is then as it was, and the same call is answered afterwards as if
//! it had not been made before.
//!
//! With ample memory a test sees the answer alone. `bench/refused-growths` runs each again and again, and refuses one after
//! another of the requests for memory that are made between the lines "asked" and "900" or "whole".
use crate::script_devices::StarvedProgram;
use c_tree::{CTree, CTreeError};
use devices::Device;
use scripts::{ScriptError, script};
use set_ops::{Quiet, SetError, union_forked};
use std::alloc::{AllocError, Global};
use std::thread::Threads;
use test_helpers::{Checked, ask, check, tell};
use tree_batch::{Batch, Entry};
use version_list::{Reply, VersionError, Versions, Which};

// Every third number below so many, from the first on, each with a weight.
fn every_third(alloc: Global, first: u32, below: u32) -> Result<Vec<(u32, i64)>, AllocError> {
    let mut entries = Vec::new(alloc);
    for key in first..below {
        if key % 3 == first % 3 {
            entries.push((key, i64::from(key) - 50))?;
        }
    }
    Ok(entries)
}

// Whether a set has these entries.
fn has(set: &CTree, entries: &[(u32, i64)]) -> bool {
    set.iter().eq(entries.iter().copied())
}

// Makes a set of a list, again if memory is refused. Checks that it is that of the list.
fn makes_a_set<R: Print + AllocGlobal>(rt: &R) -> Result<Checked, CTreeError> {
    let entries = every_third(rt.alloc(), 0, 200)?;
    let asked = ask(rt);
    let first = CTree::from_sorted(rt.alloc(), 4, &entries);
    let is_refused = matches!(&first, Err(CTreeError::NoMemory));
    let told = tell(rt, is_refused);
    let set = if is_refused {
        CTree::from_sorted(rt.alloc(), 4, &entries)?
    } else {
        first?
    };
    Ok(
        asked
            .and(told)
            .and(check(set.len() == 67, "how many members there are"))
            .and(check(has(&set, &entries), "the members")),
    )
}

#[test]
fn a_set_of_a_list(rt: HostRuntime) {
    assert_eq!(rt; makes_a_set(&rt), Ok(Ok(())));
}

// The set of every third number below 200, from the first on.
fn set_of(alloc: Global, entries: &[(u32, i64)]) -> Result<CTree, SetError> {
    CTree::from_sorted(alloc, 4, entries).map_err(|_| SetError::NoMemory)
}

// Whether a set has every third number from two first ones on.
fn is_union(set: &CTree) -> bool {
    let keys = (0..200u32).filter(|key| *key % 3 != 2);
    set.iter().eq(keys.map(|key| (key, i64::from(key) - 50)))
}

// Unites two sets, again if memory is refused. Checks that they stay as they are, and that the union is theirs.
fn unites<R: Print + AllocGlobal + Threads + Sync>(rt: &R) -> Result<Checked, SetError> {
    let alloc = rt.alloc();
    let (low, high) = (every_third(alloc, 0, 200)?, every_third(alloc, 1, 200)?);
    let (one, other) = (set_of(alloc, &low)?, set_of(alloc, &high)?);
    let asked = ask(rt);
    let first = union_forked(rt, alloc, &one, &other, 2, &Quiet);
    let is_refused = matches!(&first, Err(SetError::NoMemory));
    let told = tell(rt, is_refused);
    let (is_low, is_high) = (has(&one, &low), has(&other, &high));
    let both = if is_refused {
        union_forked(rt, alloc, &one, &other, 2, &Quiet)?
    } else {
        first?
    };
    Ok(
        asked
            .and(told)
            .and(check(is_low, "the first set"))
            .and(check(is_high, "the second set"))
            .and(check(is_union(&both), "the union")),
    )
}

#[test]
fn a_union(rt: HostRuntime) {
    assert_eq!(rt; unites(&rt), Ok(Ok(())));
}

// A version: its number, its vertices and its edges.
type Version = (u64, u32, &'static [(u32, u32, i64)]);

const BEFORE: Version = (1, 4, &[(0, 1, 7), (3, 0, -2)]);

const AFTER: Version = (2, 70, &[(0, 2, 9), (3, 0, 5), (69, 3, 1)]);

// What makes the version before, and what makes the one after of it.
const ENTRIES: [&[Entry]; 2] = [
    &[Entry::Add(0, 1, 7), Entry::Grow(4), Entry::Add(3, 0, -2)],
    &[
        Entry::Remove(0, 1),
        Entry::Add(0, 2, 9),
        Entry::Add(3, 0, 5),
        Entry::Grow(70),
        Entry::Add(69, 3, 1),
    ],
];

const REPLIES: [Reply; 3] = [Reply::Version(1), Reply::Ticket(1, 1), Reply::Version(2)];

// Checks that this is the newest version, and that the history has the first so many replies.
fn check_newest(versions: &Versions, (number, vertices, edges): Version, count: usize) -> Checked {
    let (newest, graph) = versions.newest();
    check(
        versions.history().len() == count,
        "the length of the history",
    )?;
    for (done, reply) in versions.history().iter().zip(&REPLIES) {
        check(done.reply == *reply, "a reply of the history")?;
    }
    check(newest == number, "the number of the newest version")?;
    check(graph.vertices() == vertices, "the vertices")?;
    check(graph.edges().eq(edges.iter().copied()), "the edges")
}

// The entries four times in a row, so that the second batch is long enough to be packed in the history.
fn batch_of(alloc: Global, entries: &[Entry]) -> Result<Batch, AllocError> {
    let mut batch = Batch::new(alloc);
    for _ in 0..4u32 {
        for entry in entries {
            if batch.push(*entry).is_err() {
                return Err(AllocError);
            }
        }
    }
    Ok(batch)
}

// Three vertices, the version before, and that it is held.
fn held_versions(alloc: Global) -> Result<Versions, VersionError> {
    let mut versions = Versions::new(alloc, 3, 64)?;
    versions.commit(alloc, batch_of(alloc, ENTRIES[0])?)?;
    versions.acquire(Which::Newest)?;
    Ok(versions)
}

// Commits the second batch, again if memory is refused. Checks that a refusal changes nothing, and that the commit makes the version
// after.
fn commits<R: Print + AllocGlobal>(rt: &R) -> Result<Checked, VersionError> {
    let alloc = rt.alloc();
    let mut versions = held_versions(alloc)?;
    let batch = batch_of(alloc, ENTRIES[1])?;
    let asked = ask(rt);
    let first = versions.commit(alloc, batch);
    let is_refused = first == Err(VersionError::NoMemory);
    let told = tell(rt, is_refused);
    let mut before = Ok(());
    let number = if is_refused {
        before = check_newest(&versions, BEFORE, 2);
        versions.commit(alloc, batch_of(alloc, ENTRIES[1])?)?
    } else {
        first?
    };
    Ok(
        asked
            .and(told)
            .and(before)
            .and(check(number == 2, "the number of the commit"))
            .and(check_newest(&versions, AFTER, 3)),
    )
}

#[test]
fn a_commit(rt: HostRuntime) {
    assert_eq!(rt; commits(&rt), Ok(Ok(())));
}

const SCRIPT: &[u8] =
    b"vertices 3\nadd 0 1\ncommit\nhold\nadd 1 2\ncommit\ndel 0 1\ncommit\nedges 1\nhold at 2\nrelease 1\n\
    hold at 1\nrelease 1\nedges\ngrow 5\nadd 4 0 -3\ncommit\nedges\n";

const WRITTEN: &[u8] =
    b"open 3\nversion 1\nticket 1 version 1\nversion 2\nversion 3\nedges 1\n0 1\nrefused 121\nreleased 1\n\
    refused 121\nrefused 122\nedges 1\n1 2\nversion 4\nedges 2\n1 2\n4 0 -3\n";

// Runs the script into a writer that has room for all replies.
fn run(alloc: Global, written: &mut Vec<u8>) -> Result<bool, ScriptError> {
    let mut reader = Device::new(SCRIPT);
    let mut writer = Device::new(written);
    let (result, _state) = script(alloc, &StarvedProgram::new(), &mut reader, &mut writer);
    result
}

// Runs the script, again if memory is refused. Checks that it has written a beginning of its replies before that, and that it writes
// them all.
fn replies<R: Print + AllocGlobal>(rt: &R) -> Result<Checked, AllocError> {
    let mut written = Vec::with_capacity(rt.alloc(), WRITTEN.len())?;
    let asked = ask(rt);
    let mut ended = run(rt.alloc(), &mut written);
    let is_refused = ended == Err(ScriptError::NoMemory);
    let told = tell(rt, is_refused);
    let mut is_begun = true;
    if is_refused {
        is_begun = WRITTEN.starts_with(written.as_slice());
        written.clear();
        ended = run(rt.alloc(), &mut written);
    }
    Ok(
        asked
            .and(told)
            .and(check(is_begun, "the beginning of the replies"))
            .and(check(ended == Ok(false), "the end of the script"))
            .and(check(written.as_slice() == WRITTEN, "the replies")),
    )
}

#[test]
fn a_script(rt: HostRuntime) {
    assert_eq!(rt; replies(&rt), Ok(Ok(())));
}
