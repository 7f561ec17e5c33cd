//! Lists that are packed into bytes.

ghost use Rattle.std.specs.Prelude.{◌≡◌, ℕ, ℤ, pos, ◌+◌, ◌-◌, ◌*◌, ◌^◌, ◌<◌, ◌≤◌, length, get_or, take, drop};
ghost use Rattle.std.specs.Int.{w16, w32, w64, to_le_bytes};
ghost use Rattle.ascending_lists.specs.Ascending.{AscendsFrom};
ghost use Rattle.pages.specs.declared.weights.WeightWidth.{WeightWidth};
ghost use Rattle.pages.specs.inside.Weights.{weight_size, weight_in, weights_from, Allows, column_of};
ghost use Rattle.pages.specs.inside.Packed.{elements_in, span_of};

use crate::weights::WeightWidth;

/// The least number of bytes for each offset of a list if the greatest is `span`: 1 to 4.
#[inline]
pub fn width_of(span: u32) -> usize
    ensures width { (0 < result) × (result ≤ 4) }
    ensures wide { span < 2 ^ (8 * result) }
    ensures least { 1 < result → 2 ^ (8 * (result - 1)) ≤ span }
{
    match span {
        0..=0xff => 1,
        0x100..=0xffff => 2,
        0x1_0000..=0xff_ffff => 3,
        _ => 4,
    }
}

/// Writes a number into the four bytes from a position on, the low byte first.
#[inline(always)]
fn put(bytes: &mut [u8], position: usize, number: u32)
    requires { position + 4 ≤ length bytes.old }
    ensures front { take position bytes.new ≡ take position bytes.old }
    ensures part { take 4 (drop position bytes.new) ≡ to_le_bytes w32 number }
{
    bytes[position..position + 4].copy_from_slice(&number.to_le_bytes());
}

/// Writes a list from a position on: its first neighbour and the offsets of the others. Bytes after it
/// may change.
pub(crate) fn write(bytes: &mut [u8], position: usize, width: usize, list: &[u32])
    requires some { 0 < length list.now }
    requires ascending { AscendsFrom 0 list.now }
    requires width { (0 < width) × (width ≤ 4) }
    requires wide { span_of list.now < 2 ^ (8 * width) }
    requires room { position + (4 + width * (length list.now - 1)) + 3 ≤ length bytes.old }
    ensures front { take position bytes.new ≡ take position bytes.old }
    ensures list { elements_in width (length list.now) (drop position bytes.new) ≡ list.now }
{
    let first = list[0];
    put(bytes, position, first);
    let mut at = position + 4;
    for index in 1..list.len() {
        put(bytes, at, list[index] - first);
        at += width;
    }
}

/// Writes one weight from a position on.
#[inline(always)]
fn put_weight(bytes: &mut [u8], position: usize, width: WeightWidth, weight: i64)
    requires allows { Allows width weight }
    requires room { position + weight_size width ≤ length bytes.old }
    ensures front { take position bytes.new ≡ take position bytes.old }
    ensures weight { weight_in width (drop position bytes.new) ≡ weight }
{
    match width {
        WeightWidth::Ones => {}
        WeightWidth::OneByte => bytes[position] = weight as u8,
        WeightWidth::TwoBytes => put_two(bytes, position, weight as u16),
        WeightWidth::FourBytes => put(bytes, position, (weight as i32).cast_unsigned()),
        WeightWidth::EightBytes => put_eight(bytes, position, weight.cast_unsigned()),
    }
}

/// Writes a number into the two bytes from a position on, the low byte first.
#[inline(always)]
fn put_two(bytes: &mut [u8], position: usize, number: u16)
    requires { position + 2 ≤ length bytes.old }
    ensures front { take position bytes.new ≡ take position bytes.old }
    ensures part { take 2 (drop position bytes.new) ≡ to_le_bytes w16 number }
{
    bytes[position..position + 2].copy_from_slice(&number.to_le_bytes());
}

/// Writes a number into the eight bytes from a position on, the low byte first.
#[inline(always)]
fn put_eight(bytes: &mut [u8], position: usize, number: u64)
    requires { position + 8 ≤ length bytes.old }
    ensures front { take position bytes.new ≡ take position bytes.old }
    ensures part { take 8 (drop position bytes.new) ≡ to_le_bytes w64 number }
{
    bytes[position..position + 8].copy_from_slice(&number.to_le_bytes());
}

/// Writes the weights of n neighbours from a position on: those of a column, and 1 where it is over.
pub(crate) fn write_weights(
    bytes: &mut [u8],
    position: usize,
    width: WeightWidth,
    count: usize,
    weights: &[i64],
)
    requires allows { (i : ℕ) → Allows width (get_or weights.now i (pos 1)) }
    requires room { position + weight_size width * count ≤ length bytes.old }
    ensures front { take position bytes.new ≡ take position bytes.old }
    ensures weights { weights_from width count (drop position bytes.new) ≡ column_of count weights.now }
{
    if width.is_ones() {
        return;
    }
    let mut at = position;
    for index in 0..count {
        put_weight(bytes, at, width, weight_of(weights, index));
        at += width.size();
    }
}

/// The weight at an index of a column, 1 where the column is over.
#[inline(always)]
fn weight_of(weights: &[i64], index: usize) -> i64
    ensures { result ≡ get_or weights.now index (pos 1) }
{
    if index < weights.len() {
        weights[index]
    } else {
        1
    }
}
