//! Unions and differences of sets of several shapes, against maps worked out entry by entry.
use ascending_lists::ascends;
use c_tree::CTree;
use set_ops::{Quiet, difference, difference_forked, insert_all, remove_all, union, union_forked};
use std::alloc::Global;
use std::test::Fail;
use tail_codec::{Entries, EntryList, MapOperation, merge_entries};
use test_helpers::{Checked, check};

// Keys and weights of a set: from, step, count, and the weight of the first key, which grows by 1 at each
// key.
type Shape = (u32, u32, u32, i64);

// A chunk size and two sets.
const PAIRS: [(u32, Shape, Shape); 10] = [
    (4, (1, 2, 2, 5), (0, 1, 41, 2)),
    (4, (0, 1, 41, 2), (1, 2, 2, 5)),
    (1, (0, 3, 50, -4), (0, 2, 50, 100)),
    (256, (0, 3, 50, -4), (0, 2, 50, 100)),
    (4, (0, 3, 3000, 1), (0, 5, 3000, -1)),
    (4, (0, 1, 2000, 1), (5000, 1, 2000, 1)),
    (16, (7, 7, 900, 8), (500, 1, 20, 3)),
    (64, (0, 1, 0, 0), (9, 9, 99, 9)),
    (64, (9, 9, 99, 9), (0, 1, 0, 0)),
    (8, (0, 2, 700, 1), (1, 2, 700, 1)),
];

#[test]
fn unites_and_subtracts(rt: HostRuntime) -> Result<(), Fail> {
    for (chunk_size, first, second) in PAIRS {
        let pair = Pair::new(rt.alloc(), chunk_size, first, second)?;
        let (union, rest) = (
            union(rt.alloc(), &pair.first, &pair.second)?,
            difference(rt.alloc(), &pair.first, &pair.second)?,
        );
        let checked = pair.check(rt.alloc(), MapOperation::Union, &union)?;
        assert_eq!(rt; checked, Ok(()), "union {first:?}");
        let checked = pair.check(rt.alloc(), MapOperation::Difference, &rest)?;
        assert_eq!(rt; checked, Ok(()), "difference {first:?}");
    }
    Ok(())
}

#[test]
fn unites_and_subtracts_on_two_threads(rt: HostRuntime) -> Result<(), Fail> {
    for (chunk_size, first, second) in PAIRS {
        let pair = Pair::new(rt.alloc(), chunk_size, first, second)?;
        let (union, rest) = (
            union_forked(&rt, rt.alloc(), &pair.first, &pair.second, 2, &Quiet)?,
            difference_forked(&rt, rt.alloc(), &pair.first, &pair.second, 2, &Quiet)?,
        );
        let checked = pair.check(rt.alloc(), MapOperation::Union, &union)?;
        assert_eq!(rt; checked, Ok(()), "union {first:?}");
        let checked = pair.check(rt.alloc(), MapOperation::Difference, &rest)?;
        assert_eq!(rt; checked, Ok(()), "difference {first:?}");
    }
    Ok(())
}

#[test]
fn inserts_and_removes(rt: HostRuntime) -> Result<(), Fail> {
    for (chunk_size, first, second) in PAIRS {
        let pair = Pair::new(rt.alloc(), chunk_size, first, second)?;
        let list = EntryList::from_pairs(rt.alloc(), &pair.second_entries)?;
        let (more, rest) = (
            insert_all(rt.alloc(), &pair.first, &list.lent())?,
            remove_all(rt.alloc(), &pair.first, list.lent().keys())?,
        );
        let checked = pair.check(rt.alloc(), MapOperation::Union, &more)?;
        assert_eq!(rt; checked, Ok(()), "inserted {first:?}");
        let checked = pair.check(rt.alloc(), MapOperation::Difference, &rest)?;
        assert_eq!(rt; checked, Ok(()), "removed {first:?}");
    }
    Ok(())
}

// Two sets, and the entries that they are made of.
#[derive(Drop)]
struct Pair {
    first: CTree,
    second: CTree,
    first_entries: Vec<(u32, i64)>,
    second_entries: Vec<(u32, i64)>,
}

impl Pair {
    fn new(alloc: Global, chunk_size: u32, first: Shape, second: Shape) -> Result<Pair, Fail> {
        let first_entries = entries_of(alloc, first)?;
        let second_entries = entries_of(alloc, second)?;
        Ok(Pair {
            first: CTree::from_sorted(alloc, chunk_size, &first_entries)?,
            second: CTree::from_sorted(alloc, chunk_size, &second_entries)?,
            first_entries,
            second_entries,
        })
    }

    // Checks that a set is what the operation makes of the two.
    fn check(&self, alloc: Global, operation: MapOperation, set: &CTree) -> Result<Checked, Fail> {
        let first = EntryList::from_pairs(alloc, &self.first_entries)?;
        let second = EntryList::from_pairs(alloc, &self.second_entries)?;
        let (first, second) = (first.lent(), second.lent());
        if !ascends(None, first.keys()) || !ascends(None, second.keys()) {
            return Ok(Err("the order of the keys"));
        }
        let list = merge_entries(alloc, operation, &first, &second)?;
        let entries = set.view().entries(alloc)?;
        let entries = entries.lent();
        Ok(check_same(&entries, &list.lent()).and(check(
            set.len() == entries.len(),
            "how many entries the set counts",
        )))
    }
}

// Checks that entries in columns have the keys and the weights of others.
fn check_same(found: &Entries<'_>, wanted: &Entries<'_>) -> Checked {
    check(found.keys() == wanted.keys(), "the keys")?;
    for index in 0..found.len().min(wanted.len()) {
        check(found.weight(index) == wanted.weight(index), "a weight")?;
    }
    Ok(())
}

fn entries_of(alloc: Global, (from, step, count, weight): Shape) -> Result<Vec<(u32, i64)>, Fail> {
    let mut entries = Vec::new(alloc);
    for index in 0..count {
        let key = from.wrapping_add(step.wrapping_mul(index));
        entries.push((key, weight.wrapping_add(i64::from(index))))?;
    }
    Ok(entries)
}
