//! Batches: that they have their entries in order, with weights of each width, and so do histories.
use std::alloc::Global;
use test_helpers::{Checked, check};
use tree_batch::{Batch, Entry, GraphError};
use version_list::{Step, VersionError, Versions};

// Entries, and how many times in a row a batch has them.
type Row = (&'static [Entry], usize);

const ROWS: [Row; 8] = [
    (&[], 1),
    (&[Entry::Add(1, 2, 1), Entry::Add(2, 1, 1)], 8),
    (
        &[Entry::Add(1, 2, 1), Entry::Remove(2, 1), Entry::Grow(9)],
        6,
    ),
    (
        &[
            Entry::Add(3, 0, i64::MIN),
            Entry::Remove(0, 3),
            Entry::Add(0, 3, 0),
            Entry::Grow(4),
            Entry::Add(0, 0, i64::MAX),
        ],
        5,
    ),
    (
        &[
            Entry::Add(0, 1, 1),
            Entry::Add(0, 1, 127),
            Entry::Add(1, 0, -128),
        ],
        3,
    ),
    (
        &[
            Entry::Add(0, 1, -128),
            Entry::Add(2, 1, 128),
            Entry::Add(1, 0, 1),
        ],
        3,
    ),
    (&[Entry::Add(0, 1, 5), Entry::Add(2, 1, -129)], 1),
    (&[Entry::Remove(4_294_967_295, 4_294_967_295)], 16),
];

// A batch that has these entries so many times in a row.
fn batch_of(alloc: Global, (entries, rounds): Row) -> Result<Batch, GraphError> {
    let mut batch = Batch::new(alloc);
    for _ in 0..rounds {
        for entry in entries {
            batch.push(*entry)?;
        }
    }
    Ok(batch)
}

// Whether a batch has these entries so many times in a row.
fn has_entries(batch: &Batch, (entries, rounds): Row) -> bool {
    let mut index = 0usize;
    for entry in batch.iter() {
        let Some(place) = index.checked_rem(entries.len()) else {
            return false;
        };
        if entries.get(place) != Some(&entry) {
            return false;
        }
        index = index.saturating_add(1);
    }
    index == batch.len() && index == entries.len().saturating_mul(rounds)
}

// Checks that a batch and its copy have the entries.
fn check_row(alloc: Global, row: Row) -> Result<Checked, GraphError> {
    let batch = batch_of(alloc, row)?;
    let copy = batch.clone()?;
    Ok(
        check(has_entries(&batch, row), "the entries")
            .and(check(has_entries(&copy, row), "the entries of the copy"))
            .and(check(batch.is_empty() == (batch.len() == 0), "the length")),
    )
}

#[test]
fn a_batch_has_its_entries(rt: HostRuntime) {
    for (at, row) in ROWS.iter().enumerate() {
        assert_eq!(rt; check_row(rt.alloc(), *row), Ok(Ok(())), "row {at}");
    }
}

// Checks that the history of a commit has the entries of its batch.
fn check_history(alloc: Global, row: Row) -> Result<Checked, VersionError> {
    let mut versions = Versions::new(alloc, 4, 64)?;
    versions.commit(alloc, batch_of(alloc, row)?)?;
    let Some(done) = versions.history().first() else {
        return Ok(check(false, "the entry of the history"));
    };
    let Step::Commit(batch) = &done.step else {
        return Ok(check(false, "the step of the history"));
    };
    Ok(check(has_entries(batch, row), "the entries of the history"))
}

#[test]
fn a_history_has_the_entries_of_a_batch(rt: HostRuntime) {
    assert_eq!(rt;
        check_history(rt.alloc(), ROWS[1]),
        Ok(Ok(())),
        "without weights"
    );
    assert_eq!(rt;
        check_history(rt.alloc(), ROWS[3]),
        Ok(Ok(())),
        "with weights"
    );
}
