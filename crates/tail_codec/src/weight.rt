//! Weights as numbers.

ghost use Rattle.std.specs.Prelude.{◌≡◌};
ghost use Rattle.tail_codec.specs.Spelling.{weight_number};
ghost use Rattle.tail_codec.specs.inside.Decoding.{number_weight};

/// The number of weight 1, which is not spelled.
pub(crate) const ONE: u64 = 2;

/// The number of a weight: twice a weight from 0 on, and for a weight below 0 twice its size less 1.
#[inline]
pub(crate) fn number_of_weight(weight: i64) -> u64
    ensures { result ≡ weight_number weight }
{
    if weight >= 0 {
        2 * (weight as u64)
    } else {
        2 * ((-(weight + 1)) as u64) + 1
    }
}

/// The weight that has a number.
#[inline]
pub(crate) fn weight_of_number(number: u64) -> i64
    ensures { result ≡ number_weight number }
{
    let half = (number / 2) as i64;
    if number % 2 == 0 { half } else { -half - 1 }
}
