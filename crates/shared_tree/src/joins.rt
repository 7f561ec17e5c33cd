//! Joining trees, with rotations where the sides differ in depth.

ghost use Rattle.std.specs.Prelude.{◌≡◌, ◌+◌, ◌≤◌, ◌∷◌, ◌++◌, IfOk, IfErr};
ghost use Rattle.ascending_lists.specs.Maps.{IsMap};
ghost use Rattle.shared_tree.specs.Joins.{IsJoin, IsConcatenation};
ghost use Rattle.shared_tree.specs.inside.Opened.{IsPopped};
ghost use Rattle.shared_tree.specs.declared.error.TreeError.TheVariants.{NoMemory};

use crate::error::TreeError;
use crate::nodes::{Opened, Slot, fork, open, open_root};
use crate::share::Share;
use crate::tree::Tree;
use std::alloc::{AllocError, Global};

/// The tree of the entries of `left`, then `key` with `value`, then the entries of `right`. The
/// caller sees to it that `key` is above all keys of `left` and below all of `right`. It takes time
/// in proportion to the difference of their depths.
///
/// The only error is out of memory.
pub fn join<V: Share>(
    alloc: Global,
    left: Tree<V>,
    key: u32,
    value: V,
    right: Tree<V>,
) -> Result<Tree<V>, TreeError>
    requires { IsMap (left.entries ++ (key, value) ∷ right.entries) }
    ensures join { IfOk result (λ t. IsJoin left key value right t) }
    ensures memory { IfErr result (λ e. e ≡ NoMemory) }
{
    let slot = Slot::new(alloc, value)?;
    Ok(joined(alloc, left, key, slot, right)?)
}

/// The tree of the entries of `left` and then those of `right`. The caller sees to it that all keys
/// of `left` are below all of `right`. It takes time in proportion to their depths.
///
/// The only error is out of memory.
pub fn join2<V: Share>(alloc: Global, left: Tree<V>, right: Tree<V>) -> Result<Tree<V>, TreeError>
    requires { IsMap (left.entries ++ right.entries) }
    ensures join { IfOk result (λ t. IsConcatenation left right t) }
    ensures memory { IfErr result (λ e. e ≡ NoMemory) }
{
    Ok(concatenated(alloc, left, right)?)
}

/// As `join2`.
pub(crate) fn concatenated<V: Share>(
    alloc: Global,
    left: Tree<V>,
    right: Tree<V>,
) -> Result<Tree<V>, AllocError>
    requires { IsMap (left.entries ++ right.entries) }
    ensures { IfOk result (λ t. IsConcatenation left right t) }
{
    match pop_last(alloc, left)? {
        None => Ok(right),
        Some(Last { front, key, slot }) => joined(alloc, front, key, slot, right),
    }
}

/// The last entry of a tree apart from the others.
#[derive(Drop)]
struct Last<V> {
    front: Tree<V>,
    key: u32,
    slot: Slot<V>,
}

/// The last entry apart from the others, or `None` where there is none.
fn pop_last<V: Share>(alloc: Global, tree: Tree<V>) -> Result<Option<Last<V>>, AllocError>
    ensures { IfOk result (IsPopped tree) }
{
    let Some(root) = open(alloc, tree)? else {
        return Ok(None);
    };
    let Opened {
        left,
        key,
        slot,
        right,
    } = root;
    match pop_last(alloc, right)? {
        None => Ok(Some(Last {
            front: left,
            key,
            slot,
        })),
        Some(last) => {
            let front = balance(alloc, left, key, slot, last.front)?;
            Ok(Some(Last {
                front,
                key: last.key,
                slot: last.slot,
            }))
        }
    }
}

/// As `join`, with the value in its slot.
pub(crate) fn joined<V: Share>(
    alloc: Global,
    left: Tree<V>,
    key: u32,
    slot: Slot<V>,
    right: Tree<V>,
) -> Result<Tree<V>, AllocError>
    requires { IsMap (left.entries ++ (key, slot.node.value.value) ∷ right.entries) }
    ensures { IfOk result (λ t. IsJoin left key slot.node.value.value right t) }
{
    if left.depth() > right.depth() + 1 {
        let top = open_root(alloc, left)?;
        let inner = joined(alloc, top.right, key, slot, right)?;
        balance(alloc, top.left, top.key, top.slot, inner)
    } else if right.depth() > left.depth() + 1 {
        let top = open_root(alloc, right)?;
        let inner = joined(alloc, left, key, slot, top.left)?;
        balance(alloc, inner, top.key, top.slot, top.right)
    } else {
        fork(alloc, left, key, slot, right)
    }
}

/// As `fork`, for sides that differ by at most two in depth.
fn balance<V: Share>(
    alloc: Global,
    left: Tree<V>,
    key: u32,
    slot: Slot<V>,
    right: Tree<V>,
) -> Result<Tree<V>, AllocError>
    requires map { IsMap (left.entries ++ (key, slot.node.value.value) ∷ right.entries) }
    requires left_near { left.depth ≤ right.depth + 2 }
    requires right_near { right.depth ≤ left.depth + 2 }
    ensures { IfOk result (λ t. IsJoin left key slot.node.value.value right t) }
{
    if left.depth() == right.depth() + 2 {
        rotate_right(alloc, left, key, slot, right)
    } else if right.depth() == left.depth() + 2 {
        rotate_left(alloc, left, key, slot, right)
    } else {
        fork(alloc, left, key, slot, right)
    }
}

/// As `fork`, for a left side that is two deeper.
fn rotate_right<V: Share>(
    alloc: Global,
    left: Tree<V>,
    key: u32,
    slot: Slot<V>,
    right: Tree<V>,
) -> Result<Tree<V>, AllocError>
    requires map { IsMap (left.entries ++ (key, slot.node.value.value) ∷ right.entries) }
    requires deeper { left.depth ≡ right.depth + 2 }
    ensures { IfOk result (λ t. IsJoin left key slot.node.value.value right t) }
{
    let top = open_root(alloc, left)?;
    if top.left.depth() >= top.right.depth() {
        let lower = fork(alloc, top.right, key, slot, right)?;
        return fork(alloc, top.left, top.key, top.slot, lower);
    }
    let middle = open_root(alloc, top.right)?;
    let before = fork(alloc, top.left, top.key, top.slot, middle.left)?;
    let after = fork(alloc, middle.right, key, slot, right)?;
    fork(alloc, before, middle.key, middle.slot, after)
}

/// As `fork`, for a right side that is two deeper.
fn rotate_left<V: Share>(
    alloc: Global,
    left: Tree<V>,
    key: u32,
    slot: Slot<V>,
    right: Tree<V>,
) -> Result<Tree<V>, AllocError>
    requires map { IsMap (left.entries ++ (key, slot.node.value.value) ∷ right.entries) }
    requires deeper { right.depth ≡ left.depth + 2 }
    ensures { IfOk result (λ t. IsJoin left key slot.node.value.value right t) }
{
    let top = open_root(alloc, right)?;
    if top.right.depth() >= top.left.depth() {
        let lower = fork(alloc, left, key, slot, top.left)?;
        return fork(alloc, lower, top.key, top.slot, top.right);
    }
    let middle = open_root(alloc, top.left)?;
    let before = fork(alloc, left, key, slot, middle.left)?;
    let after = fork(alloc, middle.right, top.key, top.slot, top.right)?;
    fork(alloc, before, middle.key, middle.slot, after)
}
