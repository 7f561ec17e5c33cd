//! Chunk sizes: powers of two from 1 to 256.

ghost use Rattle.std.specs.Prelude.{◌≡◌, ◌≤◌};
ghost use Rattle.c_tree.specs.Heads.{IsChunkSize, is_head};
ghost use Rattle.c_tree.specs.Outcome.{Accepts};

use crate::error::CTreeError;
use std::marker::Model;

/// A power of two from 1 to 256: about how many entries a chunk has. A contract sees the number.
#[derive(Clone, Copy, Debug, PartialEq, Eq)]
pub struct ChunkSize {
    /// One less than the number: the bits of a hash that are 0 in a head's.
    mask: u8,
}

impl Model for ChunkSize {
    ghost use Rattle.std.specs.Prelude.{ℕ, ◌+◌, ◌-◌};
    ghost use Rattle.c_tree.specs.Heads.{IsChunkSize};

    ghost Value = { ℕ };

    ghost view = { λ s. s.mask + 1 };

    ghost invariant = { λ s. IsChunkSize (s.mask + 1) };

    ghost inverse = { λ b. record { mask = b - 1 } };
}

impl ChunkSize {
    /// The chunk size of this number. It takes no memory.
    ///
    /// Error: `BadChunkSize` where the number is no power of two from 1 to 256.
    pub fn new(size: u32) -> Result<ChunkSize, CTreeError>
        ensures { Accepts size result }
    {
        for power in 0..9u32 {
            if size == 1 << power {
                return Ok(ChunkSize {
                    mask: (size - 1) as u8,
                });
            }
        }
        Err(CTreeError::BadChunkSize)
    }

    /// The number.
    pub fn get(self) -> u32
        ensures value { result ≡ self }
        ensures valid { IsChunkSize result }
    {
        u32::from(self.mask) + 1
    }

    /// Whether a key is a head at this chunk size: the top byte of the low 32 bits of its
    /// product with 2654435769 is a multiple of the size.
    #[inline(always)]
    pub fn is_head(self, key: u32) -> bool
        ensures { result ≡ is_head self key }
    {
        let hash = (key.wrapping_mul(2_654_435_769) >> 24) as u8;
        hash & self.mask == 0
    }
}
