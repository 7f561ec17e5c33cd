//! The iterator over the heads of a set.

ghost use Rattle.std.specs.Prelude.{◌≡◌, ◌^◌, ◌≤◌, length};
ghost use Rattle.std.specs.Iterator.{YieldsFirstBy, item_count};
ghost use Rattle.c_tree.specs.Chunks.{head_value};

use crate::tail::ChunkTail;
use shared_tree::Tree;
use std::marker::Model;
use tail_codec::Tail;

/// The heads that are still to come, each with its weight and its tail, in ascending order.
#[derive(Drop)]
pub struct Heads<'a> {
    chunks: shared_tree::Iter<'a, ChunkTail>,
}

impl<'a> Model for Heads<'a> {
    ghost use Rattle.std.specs.Prelude.{ℕ, List};
    ghost use Rattle.c_tree.specs.Chunks.{HeadValue};

    ghost Value = { List (ℕ × HeadValue) };

    ghost view = { λ h. h.chunks };
}

impl<'a> Heads<'a> {
    /// The keys of a tree with their weights and tails.
    #[inline]
    pub(crate) fn new(chunks: &'a Tree<ChunkTail>) -> Heads<'a>
        ensures heads { result ≡ chunks.now.entries }
        ensures bounded { length chunks.now.entries ≤ 2 ^ 32 }
    {
        Heads {
            chunks: chunks.iter(),
        }
    }
}

impl<'a> Iterator for Heads<'a> {
    type Item = (u32, i64, &'a Tail);

    ghost next_gives = { YieldsFirstBy (λ x. (x.0, head_value x.1 x.2.now)) (λ i. i) };

    ghost remaining = { item_count (λ i. i) };

    #[inline]
    fn next(&mut self) -> Option<(u32, i64, &'a Tail)> {
        let (head, at_head) = self.chunks.next()?;
        Some((head, at_head.weight(), at_head.tail()))
    }
}
