//! The bytes that spell all entries of a set.

ghost use Rattle.std.specs.Prelude.{◌≡◌, None, Some};
ghost use Rattle.std.specs.List.{All};
ghost use Rattle.std.specs.Map.{keys_of};
ghost use Rattle.tail_codec.specs.Appending.{IsAppended};
ghost use Rattle.ascending_lists.specs.Ascending.{Ascends};
ghost use Rattle.tail_codec.specs.Spelling.{Spells};
ghost use Rattle.c_tree.specs.inside.Chunks.{together};
ghost use Rattle.c_tree.specs.inside.Spelled.{StandsOverItsHead, SpellsUpTo};

use crate::ctree::CTree;
use crate::tail::ChunkTail;
use shared_tree::Tree;
use std::alloc::AllocError;
use tail_codec::{Tail, append_entry};

impl CTree {
    /// Writes the bytes that spell all entries as one list, over no base, after other bytes. It
    /// takes time in proportion to the bytes.
    ///
    /// The only error is out of memory, and then a part of these bytes may be after the others.
    #[inline]
    pub fn append_spelling(&self, bytes: &mut Vec<u8>) -> Result<(), AllocError>
        ensures { IsAppended bytes.old.items result (λ _. Spells None self.now.entries)
            bytes.new.items }
    {
        let (prefix, chunks) = self.parts();
        append_together(bytes, prefix, chunks)?;
        Ok(())
    }
}

/// Writes the bytes that spell the entries of a prefix and of chunks, over the base of the prefix,
/// after other bytes, and gives the tail that the last of them are in.
fn append_together<'a>(
    bytes: &mut Vec<u8>,
    prefix: &'a Tail,
    chunks: &'a Tree<ChunkTail>,
) -> Result<&'a Tail, AllocError>
    requires ascending { Ascends prefix.now.base (keys_of (together prefix.now chunks.now.entries)) }
    requires over { All StandsOverItsHead chunks.now.entries }
    ensures { IsAppended bytes.old.items result
        (λ last more. SpellsUpTo prefix.entry.now.base
        (together prefix.entry.now chunks.entry.now.entries) last.now more)
        bytes.new.items }
{
    let Some((below, head, at_head, above)) = chunks.parts() else {
        bytes.extend_from_slice(prefix.bytes())?;
        return Ok(prefix);
    };
    let last = append_together(bytes, prefix, below)?;
    let distance = u64::from(head) - last.least_after();
    append_entry(bytes, distance, at_head.weight())?;
    append_together(bytes, at_head.tail(), above)
}
