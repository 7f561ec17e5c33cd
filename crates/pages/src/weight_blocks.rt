//! Weights read into blocks, by a loop for each width.

ghost use Rattle.std.specs.Prelude.{◌≡◌, pos, ◌+◌, ◌*◌, ◌≤◌, replicate, length, drop};
ghost use Rattle.pages.specs.declared.weights.WeightWidth.{WeightWidth};
ghost use Rattle.pages.specs.inside.Weights.{weight_size, weights_from};

use crate::weights::{WeightWidth, weight_at};

/// Fills a block with the weights from a position on.
#[inline(always)]
fn fill_by(bytes: &[u8], width: WeightWidth, start: usize, block: &mut [i64])
    requires { start + weight_size width * length block.old ≤ length bytes.now }
    ensures { block.new ≡ weights_from width (length block.old) (drop start bytes.now) }
{
    let mut position = start;
    for weight in block.iter_mut() {
        *weight = weight_at(bytes, width, position);
        position += width.size();
    }
}

/// Fills a block with 1.
#[inline(always)]
fn fill_ones(block: &mut [i64])
    ensures { block.new ≡ replicate (length block.old) (pos 1) }
{
    block.fill(1);
}

/// Fills a block with the weights from a position on, by the loop for their width.
#[inline]
pub(crate) fn fill_weights(bytes: &[u8], width: WeightWidth, start: usize, block: &mut [i64])
    requires { start + weight_size width * length block.old ≤ length bytes.now }
    ensures { block.new ≡ weights_from width (length block.old) (drop start bytes.now) }
{
    match width {
        WeightWidth::Ones => fill_ones(block),
        WeightWidth::OneByte => fill_by(bytes, WeightWidth::OneByte, start, block),
        WeightWidth::TwoBytes => fill_by(bytes, WeightWidth::TwoBytes, start, block),
        WeightWidth::FourBytes => fill_by(bytes, WeightWidth::FourBytes, start, block),
        WeightWidth::EightBytes => fill_by(bytes, WeightWidth::EightBytes, start, block),
    }
}
