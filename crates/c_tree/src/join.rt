//! Parts that are put together.

ghost use Rattle.std.specs.Prelude.{◌≡◌, ◌++◌, ◌∷◌, true, None, IfOk};
ghost use Rattle.std.specs.Map.{keys_of};
ghost use Rattle.ascending_lists.specs.Maps.{IsMap};
ghost use Rattle.ascending_lists.specs.Ascending.{Ascends};
ghost use Rattle.c_tree.specs.Heads.{is_head};
ghost use Rattle.c_tree.specs.Chunks.{HasNoHead, IsSetOf};

use crate::part::Part;
use crate::tail::ChunkTail;
use crate::view::View;
use shared_tree::Tree;
use std::alloc::{AllocError, Global};
use tail_codec::Tail;

impl Part {
    /// The entries of this part, then a head with its weight, then those of another part. What stands
    /// before the heads of the other part becomes the tail of the head.
    ///
    /// The only error is out of memory.
    pub fn join(self, alloc: Global, key: u32, weight: i64, other: Part) -> Result<Part, AllocError>
        requires sizes { other.chunk_size ≡ self.chunk_size }
        requires head { is_head self.chunk_size key ≡ true }
        requires ascending { Ascends None (keys_of (self.entries ++ (key, weight) ∷ other.entries)) }
        ensures { IfOk result
            (IsSetOf (self.entries ++ (key, weight) ∷ other.entries) self.chunk_size) }
    {
        let (prefix, front, chunk_size) = self.into_parts();
        let (between, back, _) = other.into_parts();
        let at_head = ChunkTail::new(weight, between.over(alloc, Some(key))?);
        let chunks = joined(alloc, front, key, at_head, back)?;
        Ok(Part::new(prefix, chunks, chunk_size))
    }

    /// The entries of this part and then those of another part. What is before the heads of the
    /// other part goes to the tail of the last head, or to what is before all heads.
    ///
    /// The only error is out of memory.
    pub fn join2(self, alloc: Global, other: Part) -> Result<Part, AllocError>
        requires sizes { other.chunk_size ≡ self.chunk_size }
        requires ascending { Ascends None (keys_of (self.entries ++ other.entries)) }
        ensures { IfOk result (IsSetOf (self.entries ++ other.entries) self.chunk_size) }
    {
        let (between, back, _) = other.into_parts();
        let front = extended(alloc, self, &between)?;
        let (prefix, front, chunk_size) = front.into_parts();
        let chunks = concatenated(alloc, front, back)?;
        Ok(Part::new(prefix, chunks, chunk_size))
    }
}

/// The chunks of one tree, then a chunk, then those of another tree.
fn joined(
    alloc: Global,
    left: Tree<ChunkTail>,
    key: u32,
    at_head: ChunkTail,
    right: Tree<ChunkTail>,
) -> Result<Tree<ChunkTail>, AllocError>
    requires { IsMap (left.entries ++ (key, at_head) ∷ right.entries) }
    ensures { IfOk result (λ t. t.entries ≡ left.entries ++ (key, at_head) ∷ right.entries) }
{
    shared_tree::join(alloc, left, key, at_head, right).map_err(|_| AllocError)
}

/// The chunks of one tree and then those of another.
fn concatenated(
    alloc: Global,
    left: Tree<ChunkTail>,
    right: Tree<ChunkTail>,
) -> Result<Tree<ChunkTail>, AllocError>
    requires { IsMap (left.entries ++ right.entries) }
    ensures { IfOk result (λ t. t.entries ≡ left.entries ++ right.entries) }
{
    shared_tree::join2(alloc, left, right).map_err(|_| AllocError)
}

/// A part with more entries after it, of which no key is a head.
fn extended(alloc: Global, front: Part, more: &Tail) -> Result<Part, AllocError>
    requires ascending { Ascends None (keys_of (front.entries ++ more.now.entries)) }
    requires no_head { HasNoHead front.chunk_size more.now.entries }
    ensures { IfOk result (IsSetOf (front.entries ++ more.now.entries) front.chunk_size) }
{
    if more.is_empty() {
        return Ok(front);
    }
    with_more(alloc, None, &front.view(), more)
}

/// A view with more entries after it, of which no key is a head, all above a base.
fn with_more(
    alloc: Global,
    base: Option<u32>,
    view: &View<'_>,
    more: &Tail,
) -> Result<Part, AllocError>
    requires over { Ascends base (keys_of (view.now.entries ++ more.now.entries)) }
    requires no_head { HasNoHead view.now.chunk_size more.now.entries }
    ensures { IfOk result
        (IsSetOf (view.now.entries ++ more.now.entries) view.now.chunk_size) }
{
    let Some((left, key, weight, right)) = view.root() else {
        return view.prefix_with_more(alloc, base, more);
    };
    let right = with_more(alloc, Some(key), &right, more)?;
    left.share()?.join(alloc, key, weight, right)
}

impl<'a> View<'a> {
    /// As `with_more`, of a view that has no head.
    fn prefix_with_more(
        &self,
        alloc: Global,
        base: Option<u32>,
        more: &Tail,
    ) -> Result<Part, AllocError>
        requires over { Ascends base (keys_of (self.now.entries ++ more.now.entries)) }
        requires plain { HasNoHead self.now.chunk_size self.now.entries }
        requires no_head { HasNoHead self.now.chunk_size more.now.entries }
        ensures { IfOk result
            (IsSetOf (self.now.entries ++ more.now.entries) self.now.chunk_size) }
    {
        let prefix = self.prefix().followed_by(alloc, base, more)?;
        Ok(Part::of_prefix(prefix, self.chunk_size()))
    }
}
