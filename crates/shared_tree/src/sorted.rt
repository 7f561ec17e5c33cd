//! Trees built from entries in order.

ghost use Rattle.std.specs.Prelude.{◌≡◌, ◌+◌, ◌<◌, ◌≤◌, ◌↔◌, ◌∷◌, [], ◌++◌, vec_len, IsTrue, IfOk, OnOk};
ghost use Rattle.ascending_lists.specs.Maps.{IsMap};
ghost use Rattle.shared_tree.specs.Outcome.{Builds};
ghost use Rattle.shared_tree.specs.inside.Outcome.{IsLeastDepth};

use crate::error::TreeError;
use crate::nodes::fork_new;
use crate::tree::Tree;
use std::alloc::{AllocError, Global};

impl<V: Drop> Tree<V> {
    /// The tree of these entries, as flat as can be. It takes time in proportion to their number.
    ///
    /// Errors: `NotAscending` where a key is not above the one before it, else `NoMemory`.
    pub fn from_sorted(alloc: Global, entries: Vec<(u32, V)>) -> Result<Tree<V>, TreeError>
        ensures { Builds entries.items result }
    {
        if !ascends(&entries) {
            return Err(TreeError::NotAscending);
        }
        Ok(Tree::from_ascending(alloc, entries)?)
    }

    /// The tree of these entries, as flat as can be. The caller sees to it that each key is above
    /// the one before it. It takes time in proportion to their number.
    ///
    /// The only error is out of memory.
    pub fn from_ascending(alloc: Global, entries: Vec<(u32, V)>) -> Result<Tree<V>, AllocError>
        requires { IsMap entries.items }
        ensures { IfOk result (λ t. t.entries ≡ entries.items) }
    {
        let mut entries = entries;
        let count = entries.len();
        build(alloc, &mut entries, count)
    }
}

/// Whether each key is below the next.
fn ascends<V>(entries: &[(u32, V)]) -> bool
    ensures { IsTrue result ↔ IsMap entries.now }
{
    let mut low = 0u64;
    for (key, _) in entries {
        let position = u64::from(*key);
        if position < low {
            return false;
        }
        low = position + 1;
    }
    true
}

/// The tree of the last entries, so many of them, which are taken out. Its nodes are made in the
/// opposite order of that in which an iterator comes to them.
fn build<V: Drop>(
    alloc: Global,
    entries: &mut Vec<(u32, V)>,
    count: usize,
) -> Result<Tree<V>, AllocError>
    requires enough { count ≤ vec_len entries.old }
    requires map { IsMap entries.old.items }
    ensures taken { IfOk result (λ t. entries.old.items ≡ entries.new.items ++ t.entries) }
    ensures left { OnOk result (vec_len entries.new + count ≡ vec_len entries.old) }
    ensures deep { IfOk result (λ t. IsLeastDepth count t.depth) }
{
    if count == 0 {
        return Ok(Tree::new());
    }
    let half = count / 2;
    let right = build(alloc, entries, half)?;
    let (key, value) = take_last(entries);
    let left = build(alloc, entries, count - half - 1)?;
    Ok(fork_new(alloc, left, key, value, right)?)
}

/// The last element of a list that has one, which is taken out.
#[inline]
fn take_last<T>(list: &mut Vec<T>) -> T
    requires { 0 < vec_len list.old }
    ensures items { list.old.items ≡ list.new.items ++ result ∷ [] }
    ensures len { vec_len list.new + 1 ≡ vec_len list.old }
{
    let last = list.len() - 1;
    list.swap_remove(last)
}
