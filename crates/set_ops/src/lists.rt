//! The operations on a set and a list.

ghost use Rattle.std.specs.Prelude.{IfOk, None};
ghost use Rattle.std.specs.Map.{keys_of};
ghost use Rattle.ascending_lists.specs.Ascending.{Ascends};
ghost use Rattle.ascending_lists.specs.MapOperations.{union_keeping_second, without_keys};
ghost use Rattle.c_tree.specs.Chunks.{IsSetOf};
ghost use Rattle.tail_codec.specs.Operations.{combined_maps};
ghost use Rattle.set_ops.specs.Outcome.{Changes, Inserts, Removes};

use crate::combined::Task;
use crate::error::SetError;
use crate::with_list::combine_with_list;
use ascending_lists::ascends;
use c_tree::CTree;
use std::alloc::{AllocError, Global};
use tail_codec::{Entries, MapOperation};

/// The set with entries added, in chunks of the set's size. A key that the set has gets the new weight.
/// The set stays as it was, and the answer shares its chunks as that of [`union`] does. A list of k
/// entries and a set of n take time in proportion to `k log(n / k + 1)`, beside the chunks that the
/// list reaches into.
///
/// Errors: `NotAscending` where a key of the list is not above the one before it, else `NoMemory`.
pub fn insert_all(alloc: Global, set: &CTree, entries: &Entries<'_>) -> Result<CTree, SetError>
    ensures { Inserts set.now entries.now result }
{
    with_list(alloc, MapOperation::Union, set, entries)
}

/// The set without the keys of an ascending list, in chunks of the set's size. The set stays as it was,
/// and the answer shares its chunks as that of [`difference`] does. It takes the time of
/// [`insert_all`].
///
/// Errors: `NotAscending` where a key of the list is not above the one before it, else `NoMemory`.
pub fn remove_all(alloc: Global, set: &CTree, keys: &[u32]) -> Result<CTree, SetError>
    ensures { Removes set.now keys.now result }
{
    with_list(
        alloc,
        MapOperation::Difference,
        set,
        &Entries::of_keys(keys),
    )
}

/// As [`insert_all`], of entries whose keys ascend. The only error is out of memory.
pub fn insert_ascending(
    alloc: Global,
    set: &CTree,
    entries: &Entries<'_>,
) -> Result<CTree, AllocError>
    requires { Ascends None (keys_of entries.now) }
    ensures { IfOk result (IsSetOf (union_keeping_second set.now.entries entries.now)
        set.now.chunk_size) }
{
    with_ascending(alloc, MapOperation::Union, set, entries)
}

/// As [`remove_all`], of keys that ascend. The only error is out of memory.
pub fn remove_ascending(alloc: Global, set: &CTree, keys: &[u32]) -> Result<CTree, AllocError>
    requires { Ascends None keys.now }
    ensures { IfOk result (IsSetOf (without_keys set.now.entries keys.now) set.now.chunk_size) }
{
    with_ascending(
        alloc,
        MapOperation::Difference,
        set,
        &Entries::of_keys(keys),
    )
}

/// What an operation gives for a set and a list, which is refused where its keys do not ascend.
fn with_list(
    alloc: Global,
    operation: MapOperation,
    set: &CTree,
    entries: &Entries<'_>,
) -> Result<CTree, SetError>
    ensures { Changes (keys_of entries.now) (combined_maps operation set.now.entries entries.now)
        set.now.chunk_size result }
{
    if !ascends(None, entries.keys()) {
        return Err(SetError::NotAscending);
    }
    Ok(with_ascending(alloc, operation, set, entries)?)
}

/// What an operation gives for a set and a list whose keys ascend.
fn with_ascending(
    alloc: Global,
    operation: MapOperation,
    set: &CTree,
    entries: &Entries<'_>,
) -> Result<CTree, AllocError>
    requires { Ascends None (keys_of entries.now) }
    ensures { IfOk result (IsSetOf (combined_maps operation set.now.entries entries.now)
        set.now.chunk_size) }
{
    let answer = combine_with_list(alloc, Task::new(operation), &set.view(), entries)?;
    answer.into_set(alloc, operation, set.len(), entries.len())
}
