//! Bytes of tails, lists that are put together in them, blocks of keys, and entries that are cut and merged.
use ascending_lists::ascends;
use std::alloc::Global;
use std::test::Fail;
use tail_codec::{
    Entries, EntryList, MapOperation, Tail, TailError, append_entry, cut_entries, merge_entries,
};
use test_helpers::{Checked, check};

// A base, entries above it, and the bytes that spell them.
type Spelling = (Option<u32>, &'static [(u32, i64)], &'static [u8]);

const SPELLINGS: [Spelling; 18] = [
    (
        None,
        &[(300, 1), (301, 1), (429, 1)],
        b"\xd8\x04\x00\xfe\x01",
    ),
    (None, &[(301, 1), (430, 1)], b"\xda\x04\x80\x02"),
    (None, &[(5, -3)], b"\x0b\x05"),
    (None, &[(0, 0)], b"\x01\x00"),
    (None, &[(1, 1), (3, 1)], b"\x02\x02"),
    (None, &[(4_294_967_295, 1)], b"\xfe\xff\xff\xff\x1f"),
    (Some(4_294_967_294), &[(4_294_967_295, 0)], b"\x01\x00"),
    (Some(4_294_967_294), &[(4_294_967_295, 1)], b"\x00"),
    (None, &[(0, 2), (1, 1), (2, -1)], b"\x01\x04\x00\x01\x01"),
    (
        None,
        &[(0, 9_223_372_036_854_775_807)],
        b"\x01\xfe\xff\xff\xff\xff\xff\xff\xff\xff\x01",
    ),
    (
        None,
        &[(0, -9_223_372_036_854_775_808)],
        b"\x01\xff\xff\xff\xff\xff\xff\xff\xff\xff\x01",
    ),
    (
        None,
        &[(4_294_967_295, -9_223_372_036_854_775_808)],
        b"\xff\xff\xff\xff\x1f\xff\xff\xff\xff\xff\xff\xff\xff\xff\x01",
    ),
    (Some(10), &[(11, 7)], b"\x01\x0e"),
    (None, &[(63, 1)], b"\x7e"),
    (None, &[(64, 1)], b"\x80\x01"),
    (None, &[(0, 63), (1, -64)], b"\x01\x7e\x01\x7f"),
    (None, &[(0, 64), (1, -65)], b"\x01\x80\x01\x01\x81\x01"),
    (None, &[], b""),
];

#[test]
fn spells_lists(rt: HostRuntime) -> Result<(), Fail> {
    for spelling in &SPELLINGS {
        assert_eq!(rt;
            check_spelling(rt.alloc(), *spelling)?,
            Ok(()),
            "{spelling:?}"
        );
    }
    Ok(())
}

// Checks that the entries have these bytes, and the bytes these entries.
fn check_spelling(alloc: Global, (base, list, bytes): Spelling) -> Result<Checked, Fail> {
    let made = Tail::encode(alloc, base, list)?;
    let read = Tail::from_bytes(alloc, base, bytes)?.share()?;
    let are_read = read.iter().eq(list.iter().copied());
    Ok(check(made.bytes() == bytes, "the bytes of the entries").and(check(
        are_read,
        "the entries of the bytes",
    )))
}

// A base, and bytes that spell no list over it.
const REFUSED: [(Option<u32>, &[u8]); 9] = [
    (None, b"\x01\x02"),
    (None, b"\x80\x80\x80\x80\x20"),
    (None, b"\x01"),
    (None, b"\x01\x80"),
    (None, b"\x81\x00"),
    (None, b"\x01\x80\x00"),
    (None, b"\xff\xff\xff\xff\x3f\x00"),
    (None, b"\x01\xff\xff\xff\xff\xff\xff\xff\xff\xff\x02"),
    (Some(4_294_967_295), b"\x00"),
];

#[test]
fn refuses_other_bytes(rt: HostRuntime) -> Result<(), Fail> {
    for (base, bytes) in &REFUSED {
        assert!(rt;
            Tail::from_bytes(rt.alloc(), *base, bytes).is_err(),
            "{bytes:?}"
        );
    }
    Ok(())
}

// A base, and entries whose keys do not ascend from it.
const OUT_OF_ORDER: [(Option<u32>, &[(u32, i64)]); 4] = [
    (None, &[(3, 1), (3, 2)]),
    (None, &[(4, 1), (3, 1)]),
    (Some(5), &[(5, 1)]),
    (Some(5), &[(4, 2), (6, 1)]),
];

#[test]
fn refuses_keys_out_of_order(rt: HostRuntime) -> Result<(), Fail> {
    for (base, list) in &OUT_OF_ORDER {
        assert_eq!(rt;
            Tail::encode(rt.alloc(), *base, list).err(),
            Some(TailError::NotAscending),
            "{list:?}"
        );
    }
    Ok(())
}

// How many strings of n bytes spell a list over no base.
const COUNTS: [(usize, u32); 3] = [(0, 1), (1, 64), (2, 20_352)];

#[test]
fn reads_so_many_strings(rt: HostRuntime) -> Result<(), Fail> {
    for (len, count) in COUNTS {
        assert_eq!(rt;
            spelling_count(rt.alloc(), len),
            count,
            "strings of {len} bytes"
        );
    }
    Ok(())
}

// How many strings of at most three bytes, so many of them, spell a list.
fn spelling_count(alloc: Global, len: usize) -> u32 {
    let mut count = 0u32;
    for number in 0..1u32 << (8 * len.min(3)) {
        let bytes = number.to_le_bytes();
        if Tail::from_bytes(alloc, None, &bytes[..len.min(3)]).is_ok() {
            count = count.wrapping_add(1);
        }
    }
    count
}

#[test]
fn puts_a_list_together_in_its_bytes(rt: HostRuntime) -> Result<(), Fail> {
    let whole = Tail::encode(rt.alloc(), None, &[(1, 1), (3, -2), (7, 5)])?;
    let rest = Tail::encode(rt.alloc(), Some(3), &[(7, 5)])?;
    let cut = whole.cut(rt.alloc(), 3)?;
    let distance = 3u64.saturating_sub(cut.below.least_after());
    let mut bytes = Vec::new(rt.alloc());
    bytes.extend_from_slice(cut.below.bytes())?;
    append_entry(&mut bytes, distance, cut.found.unwrap_or(1))?;
    bytes.extend_from_slice(rest.bytes())?;
    assert_eq!(rt;
        bytes.as_slice(),
        whole.bytes(),
        "the bytes of a list cut at 3"
    );
    assert!(rt; cut.above.iter().eq(rest.iter()), "what is above 3");
    Ok(())
}

// Entries, a key, what is below the key, the weight of the key, and what is above it.
type Cut = (
    &'static [(u32, i64)],
    u32,
    &'static [(u32, i64)],
    Option<i64>,
    &'static [(u32, i64)],
);

const LIST: &[(u32, i64)] = &[(1, 1), (3, -2), (7, 5)];

const CUTS: [Cut; 8] = [
    (LIST, 3, &[(1, 1)], Some(-2), &[(7, 5)]),
    (LIST, 1, &[], Some(1), &[(3, -2), (7, 5)]),
    (LIST, 7, &[(1, 1), (3, -2)], Some(5), &[]),
    (LIST, 0, &[], None, LIST),
    (LIST, 4, &[(1, 1), (3, -2)], None, &[(7, 5)]),
    (LIST, 4_294_967_295, LIST, None, &[]),
    (&[(1, 1), (3, 1)], 3, &[(1, 1)], Some(1), &[]),
    (&[], 3, &[], None, &[]),
];

#[test]
fn cuts_and_joins(rt: HostRuntime) -> Result<(), Fail> {
    for cut in &CUTS {
        assert_eq!(rt;
            check_cut_entries(rt.alloc(), *cut)?,
            Ok(()),
            "entries: {cut:?}"
        );
        assert_eq!(rt;
            check_cut_tail(rt.alloc(), *cut)?,
            Ok(()),
            "a tail: {cut:?}"
        );
    }
    Ok(())
}

// Checks that entries in columns are cut so.
fn check_cut_entries(
    alloc: Global,
    (list, key, below, weight, above): Cut,
) -> Result<Checked, Fail> {
    let entries = EntryList::from_pairs(alloc, list)?;
    let entries = entries.lent();
    if !ascends(None, entries.keys()) {
        return Ok(Err("the order of the keys"));
    }
    let (front, found, back) = cut_entries(&entries, key);
    Ok(
        check(are_entries(&front, below), "the entries below the key")
            .and(check(found == weight, "the weight of the key"))
            .and(check(are_entries(&back, above), "the entries above the key")),
    )
}

// Checks that a tail is cut so.
fn check_cut_tail(alloc: Global, (list, key, below, weight, above): Cut) -> Result<Checked, Fail> {
    let cut = Tail::encode(alloc, None, list)?.cut(alloc, key)?;
    let is_front = cut.below.iter().eq(below.iter().copied());
    let is_back = cut.above.iter().eq(above.iter().copied());
    Ok(
        check(is_front, "the entries below the key")
            .and(check(cut.found == weight, "the weight of the key"))
            .and(check(is_back, "the entries above the key")),
    )
}

// Whether entries in columns are these.
fn are_entries(entries: &Entries<'_>, list: &[(u32, i64)]) -> bool {
    let keys = entries.keys();
    if keys.len() != list.len() || entries.len() != list.len() {
        return false;
    }
    for position in 0..list.len() {
        if list[position] != (keys[position], entries.weight(position)) {
            return false;
        }
    }
    true
}

// A base, another base below the same entries, and the bytes over the other.
type Move = (
    Option<u32>,
    Option<u32>,
    &'static [(u32, i64)],
    &'static [u8],
);

const MOVES: [Move; 4] = [
    (None, Some(10), &[(11, 7)], b"\x01\x0e"),
    (Some(10), None, &[(11, 7)], b"\x17\x0e"),
    (Some(2), Some(2), &[(3, 1), (5, 1)], b"\x00\x02"),
    (Some(2), Some(7), &[], b""),
];

#[test]
fn stands_over_another_base(rt: HostRuntime) -> Result<(), Fail> {
    for row in &MOVES {
        assert_eq!(rt; check_moved(rt.alloc(), *row)?, Ok(()), "{row:?}");
    }
    Ok(())
}

// Checks that a tail of these entries has these bytes over the other base.
fn check_moved(alloc: Global, (base, other, list, bytes): Move) -> Result<Checked, Fail> {
    let tail = Tail::encode(alloc, base, list)?;
    let entries = tail.entries(alloc)?;
    if !ascends(other, entries.lent().keys()) {
        return Ok(Err("the order of the keys"));
    }
    let moved = tail.over(alloc, other)?;
    Ok(check(moved.base() == other, "the base").and(check(moved.bytes() == bytes, "the bytes")))
}

#[test]
fn fills_blocks_with_keys(rt: HostRuntime) -> Result<(), Fail> {
    let tail = Tail::encode(rt.alloc(), Some(4), &[(5, 2), (6, 1), (9, -1)])?;
    let mut entries = tail.iter();
    let mut block = [0; 2];
    let filled = entries.fill(&mut block);
    assert_eq!(rt; (filled, block), (2, [5, 6]), "a whole block");
    let filled = entries.fill(&mut block);
    assert_eq!(rt; (filled, block), (1, [9, 6]), "the last key");
    Ok(())
}

#[test]
fn fills_blocks_with_entries(rt: HostRuntime) -> Result<(), Fail> {
    let tail = Tail::encode(rt.alloc(), Some(4), &[(5, 2), (6, 1), (9, -1)])?;
    let mut entries = tail.iter();
    let (mut keys, mut weights) = ([0; 2], [0; 2]);
    let filled = entries.fill_weighted(&mut keys, &mut weights);
    assert_eq!(rt;
        (filled, keys, weights),
        (2, [5, 6], [2, 1]),
        "two whole blocks"
    );
    let filled = entries.fill_weighted(&mut keys, &mut weights);
    assert_eq!(rt;
        (filled, keys, weights),
        (1, [9, 6], [-1, 1]),
        "the last entry"
    );
    Ok(())
}

// An operation, two maps, and what it makes of them.
type Merge = (
    MapOperation,
    &'static [(u32, i64)],
    &'static [(u32, i64)],
    &'static [(u32, i64)],
);

const MERGES: [Merge; 8] = [
    (
        MapOperation::Union,
        &[(1, 5), (3, 7)],
        &[(0, 2), (1, 2), (4, 2)],
        &[(0, 2), (1, 2), (3, 7), (4, 2)],
    ),
    (
        MapOperation::UnionKeepingFirst,
        &[(1, 5), (3, 7)],
        &[(0, 2), (1, 2), (4, 2)],
        &[(0, 2), (1, 5), (3, 7), (4, 2)],
    ),
    (
        MapOperation::Difference,
        &[(1, 5), (3, 7), (9, 1)],
        &[(0, 2), (1, 2), (4, 2)],
        &[(3, 7), (9, 1)],
    ),
    (
        MapOperation::Union,
        &[(1, 1), (3, 1)],
        &[(1, 2)],
        &[(1, 2), (3, 1)],
    ),
    (
        MapOperation::UnionKeepingFirst,
        &[(1, 1), (3, 1)],
        &[(1, 2), (5, -2)],
        &[(1, 1), (3, 1), (5, -2)],
    ),
    (
        MapOperation::Union,
        &[(1, 1), (3, 1)],
        &[(2, 1), (3, 1)],
        &[(1, 1), (2, 1), (3, 1)],
    ),
    (
        MapOperation::Difference,
        &[(1, 1), (3, 1)],
        &[(3, 8)],
        &[(1, 1)],
    ),
    (MapOperation::Difference, &[], &[(3, 8)], &[]),
];

#[test]
fn merges_entries(rt: HostRuntime) -> Result<(), Fail> {
    for (position, merge) in MERGES.iter().enumerate() {
        assert_eq!(rt;
            check_merged(rt.alloc(), *merge)?,
            Ok(()),
            "merge {position}"
        );
    }
    Ok(())
}

// Checks that the operation makes these entries of the two maps.
fn check_merged(alloc: Global, (operation, first, second, both): Merge) -> Result<Checked, Fail> {
    let first = EntryList::from_pairs(alloc, first)?;
    let second = EntryList::from_pairs(alloc, second)?;
    let (first, second) = (first.lent(), second.lent());
    if !ascends(None, first.keys()) || !ascends(None, second.keys()) {
        return Ok(Err("the order of the keys"));
    }
    let merged = merge_entries(alloc, operation, &first, &second)?;
    Ok(check(are_entries(&merged.lent(), both), "the entries"))
}
