//! Nodes taken apart and put together, in their own blocks where they have one owner.

ghost use Rattle.std.specs.Prelude.{◌≡◌, ◌<◌, ◌∷◌, ◌++◌, IfOk};
ghost use Rattle.ascending_lists.specs.Maps.{IsMap};
ghost use Rattle.shared_tree.specs.Balanced.{IsFork, DifferByAtMostOne};
ghost use Rattle.shared_tree.specs.inside.Opened.{IsOpened};

use crate::share::Share;
use crate::tree::{Link, Node, Tree};
use std::alloc::{AllocError, Global};
use std::mem;
use std::sync::Arc;

/// A value in the block of a node that has no sides yet.
#[derive(Drop)]
pub(crate) struct Slot<V> {
    pub(crate) node: Arc<Node<V>>,
}

/// A root apart from its sides.
#[derive(Drop)]
pub(crate) struct Opened<V> {
    pub(crate) left: Tree<V>,
    pub(crate) key: u32,
    pub(crate) slot: Slot<V>,
    pub(crate) right: Tree<V>,
}

impl<V: Share> Slot<V> {
    /// The value in a new block.
    pub(crate) fn new(alloc: Global, value: V) -> Result<Slot<V>, AllocError>
        ensures { IfOk result (λ slot. slot.node.value.value ≡ value) }
    {
        let node = Node {
            value,
            left: Tree::new(),
            right: Tree::new(),
        };
        Ok(Slot {
            node: Arc::new(alloc, node)?,
        })
    }
}

/// The root apart from its sides, or `None` where the tree is empty.
#[inline]
pub(crate) fn open<V: Share>(alloc: Global, tree: Tree<V>) -> Result<Option<Opened<V>>, AllocError>
    ensures { IfOk result (IsOpened tree) }
{
    match tree.into_link() {
        Link::Empty => Ok(None),
        Link::Fork { key, node, .. } => Ok(Some(take_apart(alloc, key, node)?)),
    }
}

/// The root of a tree that is not empty, apart from its sides.
#[inline]
pub(crate) fn open_root<V: Share>(alloc: Global, tree: Tree<V>) -> Result<Opened<V>, AllocError>
    requires { 0 < tree.depth }
    ensures { IfOk result (λ o. IsFork tree o.left o.key o.slot.node.value.value o.right) }
{
    match open(alloc, tree)? {
        Some(root) => Ok(root),
        None => unreachable!(),
    }
}

/// The root at this node apart from its sides.
#[inline]
fn take_apart<V: Share>(
    alloc: Global,
    key: u32,
    node: Arc<Node<V>>,
) -> Result<Opened<V>, AllocError>
    ensures { IfOk result (λ o. (o.left ≡ node.value.left) × (o.key ≡ key)
        × (o.slot.node.value.value ≡ node.value.value) × (o.right ≡ node.value.right)) }
{
    let mut node = node;
    match Arc::get_mut(&mut node) {
        Some(inside) => {
            let left = mem::replace(&mut inside.left, Tree::new());
            let right = mem::replace(&mut inside.right, Tree::new());
            Ok(Opened {
                left,
                key,
                slot: Slot { node },
                right,
            })
        }
        None => Ok(Opened {
            left: node.left.share()?,
            key,
            slot: Slot::new(alloc, node.value.share()?)?,
            right: node.right.share()?,
        }),
    }
}

/// The tree with this entry at the root, between the sides.
#[inline]
pub(crate) fn fork<V: Share>(
    alloc: Global,
    left: Tree<V>,
    key: u32,
    slot: Slot<V>,
    right: Tree<V>,
) -> Result<Tree<V>, AllocError>
    requires map { IsMap (left.entries ++ (key, slot.node.value.value) ∷ right.entries) }
    requires balanced { DifferByAtMostOne left.depth right.depth }
    ensures { IfOk result (λ t. IsFork t left key slot.node.value.value right) }
{
    let node = with_sides(alloc, slot, left, right)?;
    Ok(rooted(key, node))
}

/// As `fork`, in a new block.
#[inline]
pub(crate) fn fork_new<V: Drop>(
    alloc: Global,
    left: Tree<V>,
    key: u32,
    value: V,
    right: Tree<V>,
) -> Result<Tree<V>, AllocError>
    requires map { IsMap (left.entries ++ (key, value) ∷ right.entries) }
    requires balanced { DifferByAtMostOne left.depth right.depth }
    ensures { IfOk result (λ t. IsFork t left key value right) }
{
    let node = Arc::new(alloc, Node { value, left, right })?;
    Ok(rooted(key, node))
}

/// The tree whose root is this node.
#[inline]
fn rooted<V>(key: u32, node: Arc<Node<V>>) -> Tree<V>
    requires map { IsMap (node.value.left.entries
        ++ (key, node.value.value) ∷ node.value.right.entries) }
    requires balanced { DifferByAtMostOne node.value.left.depth node.value.right.depth }
    ensures { IsFork result node.value.left key node.value.value node.value.right }
{
    let depth = node.left.depth().max(node.right.depth()) + 1;
    Tree::of(Link::Fork {
        depth: depth as u8,
        key,
        node,
    })
}

/// The node of a value and its sides.
#[inline]
fn with_sides<V: Share>(
    alloc: Global,
    slot: Slot<V>,
    left: Tree<V>,
    right: Tree<V>,
) -> Result<Arc<Node<V>>, AllocError>
    ensures { IfOk result (λ node. node.value
        ≡ record { value = slot.node.value.value; left = left; right = right }) }
{
    let mut node = slot.node;
    match Arc::get_mut(&mut node) {
        Some(inside) => {
            inside.left = left;
            inside.right = right;
            Ok(node)
        }
        None => {
            let value = node.value.share()?;
            Ok(Arc::new(alloc, Node { value, left, right })?)
        }
    }
}
