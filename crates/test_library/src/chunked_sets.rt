//! How sets are cut into chunks, those that were made of a list and those that were united and subtracted.
use c_tree::{CTree, CTreeError};
use set_ops::{SetError, difference, union};
use std::alloc::Global;
use test_helpers::{Checked, check};

// A head with its weight and its tail's bytes.
type Chunk = (u32, i64, &'static [u8]);

// A prefix's bytes, and the chunks after it.
type Cut = (&'static [u8], &'static [Chunk]);

// Chunk sizes, lists, and their cuts.
const CUTS: [(u32, &[(u32, i64)], Cut); 6] = [
    (
        4,
        &[(1, 1), (2, 1), (3, 1), (4, 1), (5, 1), (6, 1)],
        (b"\x02", &[(2, 1, b"\x00"), (4, 1, b"\x00\x00")]),
    ),
    (
        1,
        &[(0, 4), (1, -1), (2, 0)],
        (b"", &[(0, 4, b""), (1, -1, b""), (2, 0, b"")]),
    ),
    (
        64,
        &[(0, 1), (1, 1), (2, 1), (3, 1), (4, 1), (5, 1)],
        (b"", &[(0, 1, b"\x00\x00\x00\x00\x00")]),
    ),
    (64, &[], (b"", &[])),
    (
        256,
        &[(300, 1), (301, 1), (429, 1)],
        (b"\xd8\x04\x00\xfe\x01", &[]),
    ),
    (4, &[(2, 9), (3, 1)], (b"", &[(2, 9, b"\x00")])),
];

fn check_list(
    alloc: Global,
    chunk_size: u32,
    list: &[(u32, i64)],
    cut: Cut,
) -> Result<Checked, CTreeError> {
    let set = CTree::from_sorted(alloc, chunk_size, list)?;
    Ok(check_cut(&set, list.len(), cut))
}

#[test]
fn cuts_lists(rt: HostRuntime) {
    for (chunk_size, list, cut) in CUTS {
        let checked = check_list(rt.alloc(), chunk_size, list, cut);
        assert_eq!(rt; checked, Ok(Ok(())), "{list:?}");
    }
}

const ODD: &[(u32, i64)] = &[(1, 1), (3, 1)];

const TWO: &[(u32, i64)] = &[(2, -7)];

const UNION: Cut = (b"\x02", &[(2, -7, b"\x00")]);

// Two sets in chunks of 4, and the cut of the union without the second.
const PAIRS: [(&[(u32, i64)], &[(u32, i64)], Cut); 2] = [
    (ODD, TWO, (b"\x02\x02", &[])),
    (TWO, ODD, (b"", &[(2, -7, b"")])),
];

fn set_of(alloc: Global, list: &[(u32, i64)]) -> Result<CTree, SetError> {
    CTree::from_sorted(alloc, 4, list).map_err(|_| SetError::NoMemory)
}

// Checks how the union of two sets is cut, and its difference with the second.
fn check_cuts(
    alloc: Global,
    first: &[(u32, i64)],
    second: &[(u32, i64)],
    cut: Cut,
) -> Result<Checked, SetError> {
    let (one, other) = (set_of(alloc, first)?, set_of(alloc, second)?);
    let all = union(alloc, &one, &other)?;
    let rest = difference(alloc, &all, &other)?;
    Ok(check_cut(&all, 3, UNION).and(check_cut(&rest, first.len(), cut)))
}

#[test]
fn cuts_unions_and_differences(rt: HostRuntime) {
    for (first, second, cut) in PAIRS {
        let checked = check_cuts(rt.alloc(), first, second, cut);
        assert_eq!(rt; checked, Ok(Ok(())), "{first:?}");
    }
}

// Why the union and the difference of a set in chunks of 4 with one in chunks of 64 are refused.
fn refusals_of_sizes(alloc: Global) -> Result<[Option<u16>; 2], CTreeError> {
    let (one, other) = (CTree::new(4)?, CTree::new(64)?);
    let all = union(alloc, &one, &other).err();
    let rest = difference(alloc, &one, &other).err();
    Ok([all, rest].map(|error| error.map(|it| it.number())))
}

// Lists that do not ascend, chunk sizes that are no power of two from 1 to 256, and sets in chunks of two sizes.
#[test]
fn lists_and_sizes_that_do_not_fit_are_refused(rt: HostRuntime) {
    let number_of = |error: CTreeError| error.number();
    for list in [&[(2, 1), (2, 1)], &[(2, 1), (1, 1)]] {
        let refused = CTree::from_sorted(rt.alloc(), 4, list).err();
        assert_eq!(rt; refused.map(number_of), Some(101), "{list:?}");
    }
    for size in [0, 3, 512] {
        let refused = CTree::new(size).err();
        assert_eq!(rt; refused.map(number_of), Some(103), "{size}");
    }
    let refused = refusals_of_sizes(rt.alloc());
    assert_eq!(rt; refused, Ok([Some(104); 2]), "chunks of 4 and of 64");
}

// Checks that the set has so many members and this cut.
fn check_cut(set: &CTree, count: usize, (prefix, chunks): Cut) -> Checked {
    check(set.len() == count, "how many members there are")?;
    check(set.prefix().bytes() == prefix, "the bytes of the prefix")?;
    let mut heads = set.heads();
    for (head, weight, bytes) in chunks {
        let Some((key, own, tail)) = heads.next() else {
            return Err("how many heads there are");
        };
        check(key == *head, "a head")?;
        check(own == *weight, "the weight of a head")?;
        check(tail.bytes() == *bytes, "the bytes of a tail")?;
    }
    check(heads.next().is_none(), "the end of the heads")
}
