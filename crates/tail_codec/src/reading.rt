//! Bytes that nobody has looked at yet.

ghost use Rattle.std.specs.Prelude.{◌≡◌, ◌^◌, ◌≤◌, ℕ, ℤ, List, length, MatchOption};
ghost use Rattle.tail_codec.specs.Spelling.{SpellsFrom};
ghost use Rattle.tail_codec.specs.inside.Decoding.{decoded};
ghost use Rattle.tail_codec.specs.inside.Reading.{BeginsWith, BeginsWithEntry};

use crate::weight::{ONE, weight_of_number};

/// One above the greatest key.
const LIMIT: u64 = 0x1_0000_0000;

/// A number below 2^64 with which the bytes begin, and the bytes after it, or `None` where they begin
/// with none in its shortest form.
#[inline]
fn read_number(bytes: &[u8]) -> Option<(u64, &[u8])>
    ensures { MatchOption result
        ((k : ℕ) (rest : List ℕ) → ¬ BeginsWith k rest bytes.now)
        (λ r. BeginsWith r.0 r.1.now bytes.now) }
{
    let (mut number, mut place, mut rest) = (0u64, 1u64, bytes);
    while let Some((byte, more)) = rest.split_first() {
        let byte = u64::from(*byte);
        if byte < 128 {
            if place > 1 && byte == 0 {
                return None;
            }
            let Some(last) = place.checked_mul(byte) else {
                return None;
            };
            let Some(number) = number.checked_add(last) else {
                return None;
            };
            return Some((number, more));
        }
        let Some(next) = place.checked_mul(128) else {
            return None;
        };
        number += place * (byte - 128);
        place = next;
        rest = more;
    }
    None
}

/// An entry with which the bytes begin, whose key is `low` or more, and the bytes after it, or `None`
/// where they begin with none.
#[inline]
pub(crate) fn read_entry(low: u64, bytes: &[u8]) -> Option<(u32, i64, &[u8])>
    requires { low ≤ 2 ^ 32 }
    ensures { MatchOption result
        ((e : ℕ × ℤ) (rest : List ℕ) → ¬ BeginsWithEntry low e rest bytes.now)
        (λ r. BeginsWithEntry low (r.0, r.1) r.2.now bytes.now) }
{
    let Some((number, rest)) = read_number(bytes) else {
        return None;
    };
    let key = low + number / 2;
    if key >= LIMIT {
        return None;
    }
    if number % 2 == 0 {
        return Some((key as u32, 1, rest));
    }
    let Some((number, rest)) = read_number(rest) else {
        return None;
    };
    if number == ONE {
        return None;
    }
    Some((key as u32, weight_of_number(number), rest))
}

/// How many entries the bytes spell from `low` on, or `None` where they spell no list.
pub(crate) fn entry_count(low: u64, bytes: &[u8]) -> Option<usize>
    requires { low ≤ 2 ^ 32 }
    ensures { MatchOption result
        (¬ SpellsFrom low (decoded low bytes.now) bytes.now)
        (λ n. SpellsFrom low (decoded low bytes.now) bytes.now
        × (n ≡ length (decoded low bytes.now))) }
{
    let (mut from, mut rest, mut count) = (low, bytes, 0usize);
    while !rest.is_empty() {
        let Some((key, _, more)) = read_entry(from, rest) else {
            return None;
        };
        from = u64::from(key) + 1;
        rest = more;
        count += 1;
    }
    Some(count)
}
