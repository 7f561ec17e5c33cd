//! How sets are cut into chunks, looked up, cut and put together, and blocks of keys and weights.
use c_tree::CTree;
use std::alloc::Global;
use std::test::Fail;
use tail_codec::Tail;
use test_helpers::{Checked, check};

// A prefix's bytes, and heads with their weights and their tails' bytes.
type Cut = (&'static [u8], &'static [(u32, i64, &'static [u8])]);

// Chunk sizes, entries, and their cuts.
const CUTS: [(u32, &[(u32, i64)], Cut); 6] = [
    (4, &[(2, 9), (3, 1)], (b"", &[(2, 9, b"\x00")])),
    (
        4,
        &[(1, 1), (2, 1), (3, 1), (4, 1), (5, 1), (6, 1)],
        (b"\x02", &[(2, 1, b"\x00"), (4, 1, b"\x00\x00")]),
    ),
    (
        4,
        &[(1, -1), (2, 7), (3, 5)],
        (b"\x03\x01", &[(2, 7, b"\x01\x0a")]),
    ),
    (
        1,
        &[(0, -3), (1, 1), (2, 0)],
        (b"", &[(0, -3, b""), (1, 1, b""), (2, 0, b"")]),
    ),
    (64, &[], (b"", &[])),
    (
        256,
        &[(300, 1), (301, 1), (429, 1)],
        (b"\xd8\x04\x00\xfe\x01", &[]),
    ),
];

#[test]
fn cuts_entries(rt: HostRuntime) -> Result<(), Fail> {
    for (chunk_size, pairs, cut) in &CUTS {
        let set = CTree::from_sorted(rt.alloc(), *chunk_size, pairs)?;
        assert_eq!(rt;
            check_cut(&set, pairs, *cut),
            Ok(()),
            "{pairs:?} by {chunk_size}"
        );
    }
    Ok(())
}

// Checks that the set has these entries and this cut.
fn check_cut(set: &CTree, pairs: &[(u32, i64)], (prefix, chunks): Cut) -> Checked {
    check(set.prefix().bytes() == prefix, "the bytes of the prefix")?;
    check(set.iter().eq(pairs.iter().copied()), "the entries")?;
    check_heads(set, chunks)
}

// Checks that these are the heads of the set, with their weights and their tails' bytes.
fn check_heads(set: &CTree, chunks: &[(u32, i64, &[u8])]) -> Checked {
    let mut heads = set.heads();
    for chunk in chunks {
        check_chunk(heads.next(), *chunk)?;
    }
    check(heads.next().is_none(), "the end of the heads")
}

fn check_chunk(
    found: Option<(u32, i64, &Tail)>,
    (head, weight, bytes): (u32, i64, &[u8]),
) -> Checked {
    let Some((key, own, tail)) = found else {
        return Err("how many heads there are");
    };
    check(key == head, "a head")?;
    check(own == weight, "the weight of a head")?;
    check(tail.bytes() == bytes, "the bytes of a tail")
}

// Keys, and their weights in the set of 2 with 9 and 3 with 1.
const LOOK_UPS: [(u32, Option<i64>); 5] = [
    (2, Some(9)),
    (3, Some(1)),
    (5, None),
    (0, None),
    (4, None),
];

#[test]
fn looks_keys_up(rt: HostRuntime) -> Result<(), Fail> {
    let set = CTree::from_sorted(rt.alloc(), 4, &[(2, 9), (3, 1)])?;
    for (key, weight) in LOOK_UPS {
        assert_eq!(rt; set.get(key), weight, "the weight of {key}");
        assert_eq!(rt;
            set.contains(key),
            weight.is_some(),
            "whether {key} is there"
        );
        let cut = set.view().cut(rt.alloc(), key)?;
        assert_eq!(rt; cut.found, weight, "a cut at {key}");
    }
    Ok(())
}

const PAIRS: [(u32, i64); 6] = [(1, -1), (2, 7), (3, 5), (4, 1), (5, 300), (6, 1)];

#[test]
fn puts_cut_sets_together(rt: HostRuntime) -> Result<(), Fail> {
    for key in 0..8 {
        assert_eq!(rt;
            check_put_together(rt.alloc(), key)?,
            Ok(()),
            "cut at {key}"
        );
    }
    Ok(())
}

// Checks that a set that is cut at a key and joined, with the key where it is a head and without it else,
// has the entries that it should.
fn check_put_together(alloc: Global, key: u32) -> Result<Checked, Fail> {
    let set = CTree::from_sorted(alloc, 4, &PAIRS)?;
    let cut = set.view().cut(alloc, key)?;
    let weight = cut.found.unwrap_or(1);
    if set.chunk_size().is_head(key) && cut.found.is_some() {
        let part = cut.below.join(alloc, key, weight, cut.above)?;
        let is_whole = part.view().iter().eq(set.iter());
        return Ok(check(is_whole, "the entries of a join with the key"));
    }
    let part = cut.below.join2(alloc, cut.above)?;
    let others = set.iter().filter(|entry| entry.0 != key);
    let is_rest = part.view().iter().eq(others);
    Ok(check(is_rest, "the entries of a join without the key"))
}

#[test]
fn fills_blocks(rt: HostRuntime) -> Result<(), Fail> {
    let set = CTree::from_sorted(rt.alloc(), 4, &PAIRS)?;
    let mut entries = set.iter();
    let (mut keys, mut weights) = ([0; 4], [0; 4]);
    let first = entries.fill_weighted(&mut keys, &mut weights);
    assert_eq!(rt;
        (first, keys, weights),
        (4, [1, 2, 3, 4], [-1, 7, 5, 1]),
        "whole blocks"
    );
    let last = entries.fill_weighted(&mut keys, &mut weights);
    assert_eq!(rt;
        (last, keys, weights),
        (2, [5, 6, 3, 4], [300, 1, 5, 1]),
        "the last entries"
    );
    let alone = set.iter().fill(&mut keys);
    assert_eq!(rt; (alone, keys), (4, [1, 2, 3, 4]), "keys alone");
    Ok(())
}

#[test]
fn spells_a_set_as_one_list(rt: HostRuntime) -> Result<(), Fail> {
    let set = CTree::from_sorted(rt.alloc(), 4, &PAIRS)?;
    let mut bytes = Vec::new(rt.alloc());
    set.append_spelling(&mut bytes)?;
    let tail = Tail::encode(rt.alloc(), None, &PAIRS)?;
    assert_eq!(rt; bytes.as_slice(), tail.bytes(), "the bytes of the set");
    Ok(())
}
