//! Weights in bytes: how many bytes each takes, and reading one where it lies.

ghost use Rattle.std.specs.Prelude.{◌≡◌, ◌↔◌, ℕ, ℤ, pos, ◌≤ℤ◌, ◌+◌, ◌≤◌, length, get_or, drop, IsTrue};
ghost use Rattle.pages.specs.inside.Numbers.{number_at};
ghost use Rattle.pages.specs.declared.weights.WeightWidth.{WeightWidth};
ghost use Rattle.pages.specs.inside.Weights.{weight_size, weight_in, Allows};

use crate::offsets::number;

/// How many bytes each weight of a list takes. Weights of one and of two bytes are from 0 on, those of
/// four and of eight have a sign.
#[derive(Clone, Copy)]
pub(crate) enum WeightWidth {
    /// No byte: all weights are 1.
    Ones,
    OneByte,
    TwoBytes,
    FourBytes,
    EightBytes,
}

impl WeightWidth {
    /// How many bytes each weight takes.
    #[inline]
    pub(crate) fn size(self) -> usize
        ensures size { result ≡ weight_size self }
        ensures few { result ≤ 8 }
    {
        match self {
            WeightWidth::Ones => 0,
            WeightWidth::OneByte => 1,
            WeightWidth::TwoBytes => 2,
            WeightWidth::FourBytes => 4,
            WeightWidth::EightBytes => 8,
        }
    }

    /// Whether all weights are 1.
    #[inline]
    pub(crate) fn is_ones(self) -> bool
        ensures { IsTrue result ↔ (self ≡ WeightWidth.Ones) }
    {
        matches!(self, WeightWidth::Ones)
    }

    /// The least width for these weights. It takes time in proportion to them.
    pub(crate) fn of(weights: &[i64]) -> WeightWidth
        ensures allows { (i : ℕ) → Allows result (get_or weights.now i (pos 1)) }
        ensures ones { (result ≡ WeightWidth.Ones)
            ↔ ((i : ℕ) → get_or weights.now i (pos 1) ≡ pos 1) }
        ensures least { (w : WeightWidth) → ((i : ℕ) → Allows w (get_or weights.now i (pos 1))) → weight_size result ≤ weight_size w }
    {
        let (mut least, mut greatest) = (1, 1);
        for weight in weights {
            least = least.min(*weight);
            greatest = greatest.max(*weight);
        }
        WeightWidth::between(least, greatest)
    }

    /// The least width for weights from one number up to another.
    fn between(least: i64, greatest: i64) -> WeightWidth
        requires least { least ≤ℤ pos 1 }
        requires greatest { pos 1 ≤ℤ greatest }
        ensures allows { (v : ℤ) → least ≤ℤ v → v ≤ℤ greatest → Allows result v }
        ensures ones { (result ≡ WeightWidth.Ones) ↔ ((least ≡ pos 1) × (greatest ≡ pos 1)) }
        ensures least { (w : WeightWidth) → Allows w (pos 1) → Allows w least → Allows w greatest → weight_size result ≤ weight_size w }
    {
        if least == 1 && greatest == 1 {
            return WeightWidth::Ones;
        }
        if least >= 0 && greatest <= 0xff {
            return WeightWidth::OneByte;
        }
        if least >= 0 && greatest <= 0xffff {
            return WeightWidth::TwoBytes;
        }
        if least >= -0x8000_0000 && greatest <= 0x7fff_ffff {
            return WeightWidth::FourBytes;
        }
        WeightWidth::EightBytes
    }
}

/// How many bytes each weight of a list takes where these are its weights: none where all are 1. It takes
/// time in proportion to them.
pub fn weight_width_of(weights: &[i64]) -> usize
    ensures few { result ≤ 8 }
    ensures ones { (result ≡ 0) ↔ ((i : ℕ) → get_or weights.now i (pos 1) ≡ pos 1) }
{
    WeightWidth::of(weights).size()
}

/// The weight in the bytes from a position on.
#[inline(always)]
pub(crate) fn weight_at(bytes: &[u8], width: WeightWidth, position: usize) -> i64
    requires { position + weight_size width ≤ length bytes.now }
    ensures { result ≡ weight_in width (drop position bytes.now) }
{
    match width {
        WeightWidth::Ones => 1,
        WeightWidth::OneByte => i64::from(bytes[position]),
        WeightWidth::TwoBytes => i64::from(two_bytes(bytes, position)),
        WeightWidth::FourBytes => i64::from(number(bytes, position).cast_signed()),
        WeightWidth::EightBytes => eight_bytes(bytes, position).cast_signed(),
    }
}

/// The number in the two bytes from a position on.
#[inline(always)]
fn two_bytes(bytes: &[u8], position: usize) -> u16
    requires { position + 2 ≤ length bytes.now }
    ensures { result ≡ number_at 2 position bytes.now }
{
    u16::from_le_bytes([bytes[position], bytes[position + 1]])
}

/// The number in the eight bytes from a position on.
#[inline(always)]
fn eight_bytes(bytes: &[u8], position: usize) -> u64
    requires { position + 8 ≤ length bytes.now }
    ensures { result ≡ number_at 8 position bytes.now }
{
    u64::from_le_bytes([
        bytes[position],
        bytes[position + 1],
        bytes[position + 2],
        bytes[position + 3],
        bytes[position + 4],
        bytes[position + 5],
        bytes[position + 6],
        bytes[position + 7],
    ])
}
