//! Weights in a column, as wide as they need.

ghost use Rattle.std.specs.Prelude.{◌≡◌, ◌++◌, ◌<◌, [], ℕ, ℤ, IfOk, OnOk, get_or, length, pos};
ghost use Rattle.tree_batch.specs.inside.Weights.{weights_in};

use std::alloc::{AllocError, Global};
use weighted_edges::UNIT_WEIGHT;

/// Weights of 1 byte each, or of 8 bytes each from the first on that needs more.
#[derive(Debug, Drop)]
pub(crate) enum Weights {
    Bytes(Vec<i8>),
    Longs(Vec<i64>),
}

impl Weights {
    /// No weights. They take no memory.
    pub(crate) fn new(alloc: Global) -> Weights
        ensures { weights_in result ≡ [] }
    {
        Weights::Bytes(Vec::new(alloc))
    }

    /// The weight at an index, or 1 if the weights are over before it.
    #[inline]
    pub(crate) fn at(&self, index: usize) -> i64
        ensures { result ≡ get_or (weights_in self.now) index (pos 1) }
    {
        match self {
            Weights::Bytes(weights) => match weights.get(index) {
                Some(weight) => i64::from(*weight),
                None => UNIT_WEIGHT,
            },
            Weights::Longs(weights) => match weights.get(index) {
                Some(weight) => *weight,
                None => UNIT_WEIGHT,
            },
        }
    }

    /// Puts a weight at an index, after which the weights are over. The weights before it are the same. The only error is out of
    /// memory.
    pub(crate) fn put(&mut self, index: usize, weight: i64) -> Result<(), AllocError>
        ensures before { (i : ℕ) → i < index
            → get_or (weights_in self.new) i (pos 1) ≡ get_or (weights_in self.old) i (pos 1) }
        ensures put { OnOk result (get_or (weights_in self.new) index (pos 1) ≡ weight) }
    {
        match self {
            Weights::Longs(weights) => put_long(weights, index, weight),
            Weights::Bytes(weights) => match i8::try_from(weight) {
                Ok(byte) => put_byte(weights, index, byte),
                Err(_) => {
                    let mut longs = longs_of(weights)?;
                    put_long(&mut longs, index, weight)?;
                    *self = Weights::Longs(longs);
                    Ok(())
                }
            },
        }
    }
}

impl Clone for Weights {
    ghost is_clone = { λ weights copy. weights_in copy ≡ weights_in weights };

    /// A copy, which has its own memory.
    fn clone(&self) -> Result<Weights, AllocError> {
        match self {
            Weights::Bytes(weights) => {
                let weights = Vec::from_slice(*weights.allocator(), weights)?;
                Ok(Weights::Bytes(weights))
            }
            Weights::Longs(weights) => {
                let weights = Vec::from_slice(*weights.allocator(), weights)?;
                Ok(Weights::Longs(weights))
            }
        }
    }
}

/// Puts a weight at an index of a column of bytes, as [`Weights::put`] says.
fn put_byte(weights: &mut Vec<i8>, index: usize, weight: i8) -> Result<(), AllocError>
    ensures before { (i : ℕ) → i < index → get_or weights.new.items i (pos 1) ≡ get_or weights.old.items i (pos 1) }
    ensures put { OnOk result (get_or weights.new.items index (pos 1) ≡ weight) }
{
    if weight == 1 && weights.len() <= index {
        return Ok(());
    }
    weights.resize(index, 1)?;
    weights.push(weight)?;
    Ok(())
}

/// Puts a weight at an index of a column of 8 bytes each, as [`Weights::put`] says.
fn put_long(weights: &mut Vec<i64>, index: usize, weight: i64) -> Result<(), AllocError>
    ensures before { (i : ℕ) → i < index → get_or weights.new.items i (pos 1) ≡ get_or weights.old.items i (pos 1) }
    ensures put { OnOk result (get_or weights.new.items index (pos 1) ≡ weight) }
{
    if weight == UNIT_WEIGHT && weights.len() <= index {
        return Ok(());
    }
    weights.resize(index, UNIT_WEIGHT)?;
    weights.push(weight)?;
    Ok(())
}

/// The weights in 8 bytes each. The only error is out of memory.
fn longs_of(weights: &Vec<i8>) -> Result<Vec<i64>, AllocError>
    ensures { IfOk result (λ longs. longs.items ≡ weights.now.items) }
{
    let mut longs = Vec::with_capacity(*weights.allocator(), weights.len())?;
    for weight in weights {
        longs.push_reserved(i64::from(*weight));
    }
    Ok(longs)
}
