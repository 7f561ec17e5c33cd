//! Balanced trees whose nodes are shared: their model, their look-ups and their depth.

ghost use Rattle.std.specs.Prelude.{◌≡◌, ◌+◌, ◌*◌, ◌^◌, ◌<◌, ◌≤◌, ◌↔◌, [], length, IsTrue, MatchOption};
ghost use Rattle.std.specs.Option.{option_copied};
ghost use Rattle.ascending_lists.specs.Maps.{lookup};
ghost use Rattle.shared_tree.specs.Balanced.{empty, IsFork};
ghost use Rattle.shared_tree.specs.inside.Shape.{IsBelow, IsBalanced, seen};

use crate::share::Share;
use std::alloc::AllocError;
use std::marker::Model;
use std::sync::Arc;

/// A map from `u32` to values, over nodes that owners and threads share. It goes to another thread,
/// and is shared with one, where its values may.
#[cycle(tree)]
pub struct Tree<V> {
    link: Link<V>,
}

// By hand: a derived drop would be written out, and proved again, in each function that lets a tree go.
impl<V: Drop> Drop for Tree<V> {
    #[cycle(drops)]
    fn drop(self) {
        let Tree { link: _ } = self;
    }
}

/// The way to a node, with the depth below it and its key, so that a search and a change read only
/// the nodes on their way.
#[cycle(tree)]
#[derive(Drop)]
pub(crate) enum Link<V> {
    Empty,
    Fork {
        depth: u8,
        key: u32,
        node: Arc<Node<V>>,
    },
}

/// A value, the smaller keys on the left side, and the greater keys on the right side.
#[cycle(tree)]
#[derive(Drop)]
pub(crate) struct Node<V> {
    pub(crate) value: V,
    pub(crate) left: Tree<V>,
    pub(crate) right: Tree<V>,
}

impl<V> Model for Tree<V> {
    ghost use Rattle.std.specs.Prelude.{length};
    ghost use Rattle.shared_tree.specs.Balanced.{Balanced};

    ghost Value = { Balanced V };

    ghost use Rattle.shared_tree.specs.inside.Shape.{seen, IsBalanced};

    ghost view = { λ a. seen a.link };

    ghost invariant = { λ a. IsBalanced a.link };

    ghost size = { λ d. length d.entries };

    ghost use Rattle.std.proofs.Common.{arith, length-append};

    ghost size_decreases = { λ a h. Prim.grind (arith, length-append) };
}

impl<V> Tree<V> {
    /// The tree with no entry. It takes no memory.
    #[inline]
    pub fn new() -> Tree<V>
        ensures { result ≡ empty }
    {
        Tree { link: Link::Empty }
    }

    /// The tree below a link.
    #[inline]
    pub(crate) fn of(link: Link<V>) -> Tree<V>
        requires { IsBalanced link }
        ensures { result ≡ seen link }
    {
        Tree { link }
    }

    /// The link to the root.
    #[inline]
    pub(crate) fn link(&self) -> &Link<V>
        ensures { IsBelow result.now self.now }
    {
        &self.link
    }

    /// The link to the root.
    #[inline]
    pub(crate) fn into_link(self) -> Link<V>
        ensures { IsBelow result self }
    {
        let Tree { link } = self;
        link
    }

    /// The root: its left side, with the entries below its key, the key, the value, and its right
    /// side, with the entries above. `None` where there is no entry. It takes no memory.
    #[inline]
    pub fn parts(&self) -> Option<(&Tree<V>, u32, &V, &Tree<V>)>
        ensures { MatchOption result (self.now ≡ empty)
            (λ p. IsFork self.now p.0.now p.1 p.2.now p.3.now) }
    {
        match &self.link {
            Link::Empty => None,
            Link::Fork { key, node, .. } => Some((&node.left, *key, &node.value, &node.right)),
        }
    }

    /// How many nodes the longest way down from the root has, at most 64: at least so many that
    /// there is room for the entries. It is 0 where there is no entry, and else one more than that of
    /// the deeper side. It takes no memory.
    #[inline]
    pub fn depth(&self) -> u32
        ensures depth { result ≡ self.now.depth }
        ensures shallow { 2 ^ result
            ≤ (length self.now.entries + 1) * (length self.now.entries + 1) }
        ensures room { length self.now.entries < 2 ^ result }
        ensures bounded { result ≤ 64 }
    {
        match &self.link {
            Link::Empty => 0,
            Link::Fork { depth, .. } => u32::from(*depth),
        }
    }

    /// Whether there is no entry. It takes no memory.
    #[inline]
    pub fn is_empty(&self) -> bool
        ensures { IsTrue result ↔ (self.now.entries ≡ []) }
    {
        self.parts().is_none()
    }

    /// How many entries there are, at most 2^32. It takes time in proportion to them, since a
    /// tree does not keep the number, and no memory.
    pub fn len(&self) -> usize
        ensures len { result ≡ length self.now.entries }
        ensures bounded { result ≤ 2 ^ 32 }
    {
        match self.parts() {
            None => 0,
            Some((left, _, _, right)) => left.len() + 1 + right.len(),
        }
    }

    /// The value at a key, if there is one. It takes time in proportion to the depth, and no
    /// memory.
    pub fn find(&self, key: u32) -> Option<&V>
        ensures { option_copied result ≡ lookup key self.now.entries }
    {
        let mut tree = self;
        while let Some((left, root_key, value, right)) = tree.parts() {
            if key == root_key {
                return Some(value);
            }
            tree = if key < root_key { left } else { right };
        }
        None
    }
}

impl<V: Drop> Share for Tree<V> {
    /// This tree with one more owner of its root. It takes no memory; the error comes where
    /// the root's count of owners is full.
    fn share(&self) -> Result<Tree<V>, AllocError> {
        match self.link() {
            Link::Empty => Ok(Tree::new()),
            Link::Fork { depth, key, node } => Ok(Tree::of(Link::Fork {
                depth: *depth,
                key: *key,
                node: Arc::try_clone(node)?,
            })),
        }
    }
}
