//! Numbers in decimal digits.
ghost use Rattle.std.specs.Fmt.{signed_decimal};
ghost use Rattle.std.specs.Int.{w64};
ghost use Rattle.std.specs.Prelude.{◌≡◌, ℕ, ℤ, Some, FitsSigned, ◌<◌, ◌^◌, ◌++◌, OnOk, OnErr, decimal};
ghost use Rattle.decimal.specs.Digits.{AreLeadingDigits};
ghost use Rattle.decimal.specs.Numbers.{IsReadBack, integer_of, number_of};

use itoa::Buffer;
use std::alloc::AllocError;

/// Appends the decimal digits of a number, with no leading zero. The one error is that memory is
/// lacking, and then the bytes stay as they are.
pub fn push_number(out: &mut Vec<u8>, n: u64) -> Result<(), AllocError>
    ensures ok { OnOk result (out.new.items ≡ out.old.items ++ decimal n) }
    ensures err { OnErr result (out.new.items ≡ out.old.items) }
{
    let mut buffer = Buffer::new();
    out.extend_from_slice(buffer.format(n).as_bytes())
}

/// Appends the decimal digits of an integer, with no leading zero, after `-` where it is negative. The one
/// error is that memory is lacking, and then the bytes stay as they are.
pub fn push_integer(out: &mut Vec<u8>, n: i64) -> Result<(), AllocError>
    ensures ok { OnOk result (out.new.items ≡ out.old.items ++ signed_decimal n) }
    ensures err { OnErr result (out.new.items ≡ out.old.items) }
{
    let mut digits = Buffer::new();
    out.extend_from_slice(digits.format(n).as_bytes())
}

/// The number that the digits at the front mean, 0 for none, and how many they are; or `None`
/// where they mean 2^64 or more.
#[inline]
#[tactic(auto, using(crate::proofs::NumberLaws::digits_more, crate::proofs::NumberLaws::value_more))]
pub fn leading_digits(bytes: &[u8]) -> Option<(u64, usize)>
    ensures { AreLeadingDigits bytes.now result }
{
    let mut number = 0u64;
    for (i, byte) in bytes.iter().enumerate() {
        if !byte.is_ascii_digit() {
            return Some((number, i));
        }
        number = number
            .checked_mul(10)?
            .checked_add(u64::from(*byte - b'0'))?;
    }
    Some((number, bytes.len()))
}

/// The law that what `push_number` writes is read as the number that it wrote, below each limit that
/// the number is below. The call does nothing.
pub fn read_back()
    ensures { (limit n : ℕ) → n < limit → n < 2 ^ 64 → IsReadBack limit n }
{}

/// The integer that a word is: one or more digits, after `-` where it is negative, from -2^63 to 2^63 - 1;
/// or `None` where the word is another. A `+`, a second sign or a sign alone makes it none.
pub fn integer(word: &[u8]) -> Option<i64>
    ensures { result ≡ integer_of word.now }
{
    match word.split_first() {
        Some((b'-', digits)) => 0i64.checked_sub_unsigned(number(digits)?),
        _ => i64::try_from(number(word)?).ok(),
    }
}

/// The number below 2^64 that a word of one or more digits is.
#[inline]
fn number(word: &[u8]) -> Option<u64>
    ensures { result ≡ number_of (2 ^ 64) word.now }
{
    let (number, len) = leading_digits(word)?;
    if len == 0 || len < word.len() {
        return None;
    }
    Some(number)
}

/// The law that what `push_integer` writes is read as the same integer. The call does nothing.
pub fn integer_read_back()
    ensures { (n : ℤ) → FitsSigned w64 n → integer_of (signed_decimal n) ≡ Some n }
{}
