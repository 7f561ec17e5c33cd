//! The value of a tree of chunks: the weight of a head, with its tail.

ghost use Rattle.std.specs.Prelude.{◌≡◌};
ghost use Rattle.c_tree.specs.Chunks.{head_value};

use shared_tree::Share;
use std::alloc::AllocError;
use std::marker::Model;
use tail_codec::Tail;

/// What a tree of chunks has at a head: the weight of the head, and the tail of the chunk.
#[derive(Drop)]
pub(crate) struct ChunkTail {
    weight: i64,
    tail: Tail,
}

impl Model for ChunkTail {
    ghost use Rattle.c_tree.specs.Chunks.{HeadValue, head_value};

    ghost Value = { HeadValue };

    ghost view = { λ t. head_value t.weight t.tail };
}

impl ChunkTail {
    /// This weight and this tail as the value at a head.
    pub(crate) fn new(weight: i64, tail: Tail) -> ChunkTail
        ensures { result ≡ head_value weight tail }
    {
        ChunkTail { weight, tail }
    }

    /// The weight of the head.
    #[inline]
    pub(crate) fn weight(&self) -> i64
        ensures { result ≡ self.now.weight }
    {
        self.weight
    }

    /// The tail.
    #[inline]
    pub(crate) fn tail(&self) -> &Tail
        ensures { result.now ≡ self.now.tail }
    {
        &self.tail
    }
}

impl Share for ChunkTail {
    /// One more owner of the tail's bytes.
    fn share(&self) -> Result<ChunkTail, AllocError> {
        let tail = self.tail.share()?;
        Ok(ChunkTail {
            weight: self.weight,
            tail,
        })
    }
}
