//! Bytes of tails.
use std::alloc::Global;
use tail_codec::{Tail, TailError};
use test_helpers::{Checked, check};

// A base, a list of keys with weights above it, and the bytes that spell it.
type Spelling = (Option<u32>, &'static [(u32, i64)], &'static [u8]);

const SPELLINGS: [Spelling; 7] = [
    (
        None,
        &[(300, 1), (301, 1), (429, 1)],
        b"\xd8\x04\x00\xfe\x01",
    ),
    (None, &[(301, 1), (430, 1)], b"\xda\x04\x80\x02"),
    (None, &[(4_294_967_295, 1)], b"\xfe\xff\xff\xff\x1f"),
    (Some(4_294_967_294), &[(4_294_967_295, 1)], b"\x00"),
    (None, &[(0, 2), (1, 1), (2, -1)], b"\x01\x04\x00\x01\x01"),
    (
        None,
        &[(0, i64::MIN)],
        b"\x01\xff\xff\xff\xff\xff\xff\xff\xff\xff\x01",
    ),
    (Some(10), &[(11, 7)], b"\x01\x0e"),
];

// Checks that the list has these bytes, and the bytes this list.
fn check_spelling(
    alloc: Global,
    base: Option<u32>,
    list: &[(u32, i64)],
    bytes: &[u8],
) -> Result<Checked, TailError> {
    let made = Tail::encode(alloc, base, list)?;
    let read = Tail::from_bytes(alloc, base, bytes)?.share()?;
    let is_read = read.iter().eq(list.iter().copied());
    Ok(check(made.bytes() == bytes, "the bytes of the list").and(check(
        is_read,
        "the list of the bytes",
    )))
}

#[test]
fn spells_lists(rt: HostRuntime) {
    for (base, list, bytes) in SPELLINGS {
        let spelled = check_spelling(rt.alloc(), base, list, bytes);
        assert_eq!(rt; spelled, Ok(Ok(())), "{list:?}");
    }
}

// Weights, and the bytes of an entry with this weight that is one above the key before.
const ENTRIES: [(i64, &[u8]); 3] = [
    (1, b"\x00"),
    (-1, b"\x01\x01"),
    (i64::MAX, b"\x01\xfe\xff\xff\xff\xff\xff\xff\xff\xff\x01"),
];

// Checks that the first numbers, so many, each with a weight, are spelled by as many turns of these bytes.
fn check_numbers(
    alloc: Global,
    count: u32,
    weight: i64,
    entry: &[u8],
) -> Result<Checked, TailError> {
    let (mut list, mut bytes) = (Vec::new(alloc), Vec::new(alloc));
    for key in 0..count {
        list.push((key, weight))?;
        bytes.extend_from_slice(entry)?;
    }
    check_spelling(alloc, None, &list, &bytes)
}

// Up to 127 bytes a tail is one allocation.
#[test]
fn long_tails_are_spelled(rt: HostRuntime) {
    for count in [63, 64, 126, 127, 128, 129, 1_000] {
        for (weight, entry) in ENTRIES {
            let spelled = check_numbers(rt.alloc(), count, weight, entry);
            assert_eq!(rt; spelled, Ok(Ok(())), "{count} entries of {weight}");
        }
    }
}

// How many of the strings of n bytes, at most 3, spell a list without a base. That each is what its list is spelled by is proved.
fn spellings_of(alloc: Global, length: usize, strings: u32) -> u32 {
    let mut count = 0u32;
    for number in 0..strings {
        let bytes = number.to_le_bytes();
        if Tail::from_bytes(alloc, None, &bytes[..length.min(3)]).is_ok() {
            count = count.wrapping_add(1);
        }
    }
    count
}

// A length, how many strings have it, and how many of these spell a list.
const SHORT_STRINGS: [(usize, u32, u32); 4] = [
    (0, 1, 1),
    (1, 1 << 8, 64),
    (2, 1 << 16, 20_352),
    (3, 1 << 24, 5_455_936),
];

#[test]
fn so_many_short_strings_spell_a_list(rt: HostRuntime) {
    for (length, strings, count) in SHORT_STRINGS {
        let found = spellings_of(rt.alloc(), length, strings);
        assert_eq!(rt; found, count, "of {length} bytes");
    }
}
