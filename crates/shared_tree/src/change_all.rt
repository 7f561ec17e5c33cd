//! Trees changed at many keys in one pass.

ghost use Rattle.std.specs.Prelude.{◌≡◌, ◌+◌, ◌^◌, ◌≤◌, ◌++◌, [], length, take, drop, IfOk, MatchOption};
ghost use Rattle.std.specs.Option.{option_copied};
ghost use Rattle.ascending_lists.specs.Maps.{IsMap, Rises};
ghost use Rattle.shared_tree.specs.Changes.{entry_at_key, IsSplit};
ghost use Rattle.shared_tree.specs.ChangedMaps.{IsChangedMap, total_weight, GrewBy};
ghost use Rattle.shared_tree.specs.inside.Halves.{AreHalves};

use crate::joins::{concatenated, joined};
use crate::nodes::{Slot, fork_new};
use crate::share::Share;
use crate::tree::Tree;
use crate::value_change::{ValueChange, changed};
use std::alloc::{AllocError, Global};

/// A tree after a pass of changes.
#[derive(Drop)]
pub struct Changed<V> {
    pub tree: Tree<V>,
    /// How much more the values weigh together than before, modulo 2^64.
    pub growth: usize,
}

impl<V: Share> Tree<V> {
    /// The tree with each of these changes made at its key, and all other keys as they are. The
    /// caller sees to it that the keys of the changes ascend. The tree itself stays as it is. The
    /// answer shares with it each side of a node that no change reaches, and a node whose sides
    /// keep about their depths is copied and not joined again. For k changes and n entries it
    /// takes time in proportion to `k log(n / k + 1)`, beside that of the changes.
    ///
    /// The only error is out of memory.
    pub fn change_all<C: ValueChange<V>>(
        &self,
        alloc: Global,
        changes: &[(u32, C)],
    ) -> Result<Changed<V>, AllocError>
        requires { IsMap changes.now }
        ensures values { IfOk result (λ c.
            IsChangedMap C.makes changes.now self.now.entries c.tree.entries) }
        ensures growth { IfOk result (λ c. GrewBy (total_weight C.weight self.now.entries)
            c.growth (total_weight C.weight c.tree.entries)) }
    {
        let Some(halves) = cut_both(self, changes) else {
            let tree = self.share()?;
            return Ok(Changed { tree, growth: 0 });
        };
        let below = halves.left.change_all(alloc, halves.below)?;
        let above = halves.right.change_all(alloc, halves.above)?;
        let (value, growth) = changed(alloc, halves.value, halves.change)?;
        let tree = join_around(alloc, below.tree, halves.key, value, above.tree)?;
        let growth = growth.wrapping_add(below.growth.wrapping_add(above.growth));
        Ok(Changed { tree, growth })
    }
}

/// The tree of the entries of `left`, then `key` with `value` if there is one, then the entries of
/// `right`. The caller sees to it that `key` is above all keys of `left` and below all of `right`.
/// Where the sides differ by at most one in depth and there is a value, it takes constant time, and
/// else that of [`join`] or [`join2`].
///
/// The only error is out of memory.
pub fn join_around<V: Share>(
    alloc: Global,
    left: Tree<V>,
    key: u32,
    value: Option<V>,
    right: Tree<V>,
) -> Result<Tree<V>, AllocError>
    requires { IsMap (left.entries ++ (entry_at_key key value ++ right.entries)) }
    ensures { IfOk result (λ t. t.entries
        ≡ left.entries ++ (entry_at_key key value ++ right.entries)) }
{
    let Some(value) = value else {
        return concatenated(alloc, left, right);
    };
    let (left_depth, right_depth) = (left.depth(), right.depth());
    if left_depth > right_depth + 1 || right_depth > left_depth + 1 {
        let slot = Slot::new(alloc, value)?;
        return joined(alloc, left, key, slot, right);
    }
    fork_new(alloc, left, key, value, right)
}

/// A tree and changes cut at one key: the root's, or where there is no root the middle change's.
struct Halves<'a, V, C> {
    left: &'a Tree<V>,
    key: u32,
    value: Option<&'a V>,
    right: &'a Tree<V>,
    below: &'a [(u32, C)],
    change: Option<&'a C>,
    above: &'a [(u32, C)],
}

impl<V, C> Drop for Halves<'_, V, C> {
    fn drop(self) {
        let Halves {
            left: _,
            key: _,
            value: _,
            right: _,
            below: _,
            change: _,
            above: _,
        } = self;
    }
}

/// Both cut at one key, or `None` where there is no change.
fn cut_both<'a, V, C>(tree: &'a Tree<V>, changes: &'a [(u32, C)]) -> Option<Halves<'a, V, C>>
    requires { IsMap changes.now }
    ensures { MatchOption result (changes.now ≡ []) (AreHalves tree.now.entries changes.now) }
{
    if changes.is_empty() {
        return None;
    }
    let Some((left, key, value, right)) = tree.parts() else {
        let (below, rest) = changes.split_at(changes.len() / 2);
        let (first, above) = rest.split_first()?;
        return Some(Halves {
            left: tree,
            key: first.0,
            value: None,
            right: tree,
            below,
            change: Some(&first.1),
            above,
        });
    };
    let (below, change, above) = cut(changes, key);
    Some(Halves {
        left,
        key,
        value: Some(value),
        right,
        below,
        change,
        above,
    })
}

/// The changes at keys below this one, the change at it if there is one, and those above.
fn cut<C>(changes: &[(u32, C)], key: u32) -> (&[(u32, C)], Option<&C>, &[(u32, C)])
    requires { IsMap changes.now }
    ensures { IsSplit key changes.now result.0.now (option_copied result.1) result.2.now }
{
    let (below, rest) = changes.split_at(count_below(changes, key));
    let Some((first, above)) = rest.split_first() else {
        return (below, None, rest);
    };
    if first.0 == key {
        (below, Some(&first.1), above)
    } else {
        (below, None, rest)
    }
}

/// How many of the changes are at keys below this one.
fn count_below<C>(changes: &[(u32, C)], key: u32) -> usize
    requires { IsMap changes.now }
    ensures bounded { result ≤ length changes.now }
    ensures below { Rises 0 key (take result changes.now) }
    ensures above { Rises key (2 ^ 32) (drop result changes.now) }
{
    let (mut low, mut high) = (0, changes.len());
    while low < high {
        let middle = low + (high - low) / 2;
        if changes[middle].0 < key {
            low = middle + 1;
        } else {
            high = middle;
        }
    }
    low
}
