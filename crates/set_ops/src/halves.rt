//! The step before the halves.

ghost use Rattle.std.specs.Prelude.{◌≡◌, IfOk};
ghost use Rattle.std.specs.Map.{keys_of};
ghost use Rattle.ascending_lists.specs.Ascending.{Ascends};
ghost use Rattle.ascending_lists.specs.MapOperations.{without_keys};
ghost use Rattle.set_ops.specs.inside.Answers.{IsCombined};
ghost use Rattle.set_ops.specs.inside.Halving.{IsBegun};

use crate::combined::{Combined, Task};
use crate::with_list::combine_with_list;
use c_tree::{Cut, Part, View};
use std::alloc::{AllocError, Global};
use tail_codec::{Entries, EntryList, MapOperation};

/// Two views cut at the head at the first's root.
pub(crate) struct Halves<'a> {
    pub(crate) left: View<'a>,
    pub(crate) key: u32,
    pub(crate) weight: i64,
    pub(crate) right: View<'a>,
    pub(crate) second: Cut,
}

// By hand: a derived drop would be written out, and proved again, in each function that lets halves go.
impl<'a> Drop for Halves<'a> {
    fn drop(self) {
        let Halves {
            left: _,
            key: _,
            weight: _,
            right: _,
            second: _,
        } = self;
    }
}

impl<'a> Halves<'a> {
    /// These halves with owners of their own. The error comes where a count of owners is full.
    pub(crate) fn into_owned(self) -> Result<OwnedHalves, AllocError>
        ensures { IfOk result (λ h. (h.left ≡ self.entry.left) × (h.key ≡ self.entry.key)
            × (h.weight ≡ self.entry.weight) × (h.right ≡ self.entry.right)
            × (h.second ≡ self.entry.second)) }
    {
        let Halves {
            left,
            key,
            weight,
            right,
            second,
        } = self;
        let (left, right) = (left.share()?, right.share()?);
        Ok(OwnedHalves {
            left,
            right,
            second,
            key,
            weight,
        })
    }
}

/// As [`Halves`], to be lent to other threads.
pub(crate) struct OwnedHalves {
    pub(crate) left: Part,
    pub(crate) right: Part,
    pub(crate) second: Cut,
    pub(crate) key: u32,
    pub(crate) weight: i64,
}

impl OwnedHalves {
    /// What both have below the head.
    pub(crate) fn below(&self) -> (View<'_>, View<'_>)
        ensures { (result.0 ≡ self.now.left) × (result.1 ≡ self.now.second.below) }
    {
        (self.left.view(), self.second.below.view())
    }

    /// What both have above the head.
    pub(crate) fn above(&self) -> (View<'_>, View<'_>)
        ensures { (result.0 ≡ self.now.right) × (result.1 ≡ self.now.second.above) }
    {
        (self.right.view(), self.second.above.view())
    }
}

// By hand, as that of halves.
impl Drop for OwnedHalves {
    fn drop(self) {
        let OwnedHalves {
            left: _,
            right: _,
            second: _,
            key: _,
            weight: _,
        } = self;
    }
}

/// The answer for two views, or both cut at a head.
#[derive(Drop)]
pub(crate) enum Begun<'a> {
    /// The answer, where one of them has no head.
    Whole(Combined),
    /// Both cut at the head at the first's root.
    Halved(Halves<'a>),
}

/// The answer for two views that ascend from a base, where one of them has no head, and else both cut
/// at one head.
pub(crate) fn begin<'a>(
    alloc: Global,
    task: Task,
    first: &View<'a>,
    second: &View<'_>,
) -> Result<Begun<'a>, AllocError>
    requires sizes { first.now.chunk_size ≡ second.now.chunk_size }
    requires first_over { Ascends task.base (keys_of first.now.entries) }
    requires second_over { Ascends task.base (keys_of second.now.entries) }
    ensures { IfOk result (IsBegun task.operation first.now second.now) }
{
    let Some((left, key, weight, right)) = first.root() else {
        let combined = combine_plain(alloc, task, first, second)?;
        return Ok(Begun::Whole(combined));
    };
    if second.depth() == 0 {
        let list = second.entries(alloc)?;
        let combined = combine_with_list(alloc, task, first, &list.lent())?;
        return Ok(Begun::Whole(combined));
    }
    let second = second.cut(alloc, key)?;
    Ok(Begun::Halved(Halves {
        left,
        key,
        weight,
        right,
        second,
    }))
}

/// The answer for two views of which the first has no head.
fn combine_plain(
    alloc: Global,
    task: Task,
    first: &View<'_>,
    second: &View<'_>,
) -> Result<Combined, AllocError>
    requires sizes { first.now.chunk_size ≡ second.now.chunk_size }
    requires first_over { Ascends task.base (keys_of first.now.entries) }
    requires second_over { Ascends task.base (keys_of second.now.entries) }
    ensures { IfOk result (λ c. IsCombined task.operation first.now.chunk_size first.now.entries
        second.now.entries c.part c.common) }
{
    let list = first.entries(alloc)?;
    let list = list.lent();
    match task.operation {
        MapOperation::Union => {
            let task = task.doing(MapOperation::UnionKeepingFirst);
            combine_with_list(alloc, task, second, &list)
        }
        MapOperation::UnionKeepingFirst => {
            let task = task.doing(MapOperation::Union);
            combine_with_list(alloc, task, second, &list)
        }
        MapOperation::Difference => subtract(alloc, task.base, &list, second),
    }
}

/// The entries of a list whose keys a view lacks, in chunks of the view's size.
fn subtract(
    alloc: Global,
    base: Option<u32>,
    first: &Entries<'_>,
    second: &View<'_>,
) -> Result<Combined, AllocError>
    requires { Ascends base (keys_of first.now) }
    ensures { IfOk result (λ c. IsCombined MapOperation.Difference second.now.chunk_size first.now
        second.now.entries c.part c.common) }
{
    let list = without_common(alloc, first, second)?;
    let list = list.lent();
    let common = first.len() - list.len();
    let part = Part::from_ascending(alloc, base, second.chunk_size(), &list)?;
    Ok(Combined { part, common })
}

/// The entries of a list whose keys a view lacks.
fn without_common(
    alloc: Global,
    first: &Entries<'_>,
    second: &View<'_>,
) -> Result<EntryList, AllocError>
    ensures { IfOk result (λ l. l ≡ without_keys first.now (keys_of second.now.entries)) }
{
    let first_keys = first.keys();
    let (mut keys, mut weights) = (Vec::new(alloc), Vec::new(alloc));
    for position in 0..first_keys.len() {
        let key = first_keys[position];
        if !second.contains(key) {
            keys.push(key)?;
            weights.push(first.weight(position))?;
        }
    }
    Ok(EntryList::new(keys, weights))
}
