//! The operations on two sets.

ghost use Rattle.std.specs.Prelude.{◌≡◌, ◌≢◌, IfOk, IfErr, OnOk};
ghost use Rattle.std.specs.Map.{keys_of};
ghost use Rattle.ascending_lists.specs.MapOperations.{union_keeping_second, without_keys};
ghost use Rattle.c_tree.specs.Chunks.{IsSetOf};
ghost use Rattle.tail_codec.specs.Operations.{combined_maps};
ghost use Rattle.set_ops.specs.declared.error.SetError.TheVariants.{ChunkSizesDiffer};
ghost use Rattle.set_ops.specs.Outcome.{Unites, Subtracts};

use crate::combine::combine;
use crate::combined::Task;
use crate::error::SetError;
use crate::fork::{Fork, Forking};
use crate::forked::combine_forked;
use c_tree::CTree;
use std::alloc::{AllocError, Global};
use std::thread::Threads;
use tail_codec::MapOperation;

/// The most levels at which halves go to two threads.
pub const MAX_FORKS: u32 = 6;

/// The set of the entries of both sets, in chunks of the size that both have. Where both have a key, the
/// weight is the second's. The two sets stay as they were, and the answer shares with them the chunks in
/// whose range the other has nothing.
///
/// Errors: `ChunkSizesDiffer` where the sets have different chunk sizes, else `NoMemory`.
pub fn union(alloc: Global, first: &CTree, second: &CTree) -> Result<CTree, SetError>
    ensures { Unites first.now second.now result }
{
    check_sizes(first, second)?;
    let task = Task::new(MapOperation::Union);
    let united = combine(alloc, task, &first.view(), &second.view())?;
    Ok(united.into_set(alloc, MapOperation::Union, first.len(), second.len())?)
}

/// The set of the entries of the first set whose keys the second lacks, in chunks of the size that both
/// have. The two sets stay as they were, and the answer shares with the first the chunks in whose
/// range the second has nothing.
///
/// Errors: `ChunkSizesDiffer` where the sets have different chunk sizes, else `NoMemory`.
pub fn difference(alloc: Global, first: &CTree, second: &CTree) -> Result<CTree, SetError>
    ensures { Subtracts first.now second.now result }
{
    check_sizes(first, second)?;
    let task = Task::new(MapOperation::Difference);
    let rest = combine(alloc, task, &first.view(), &second.view())?;
    Ok(rest.into_set(alloc, MapOperation::Difference, first.len(), second.len())?)
}

/// As [`union`], with the two halves on two threads at n levels, at most 6. Where no thread can
/// be started, the caller does both halves. The answer is that of `union` whatever `forks` is.
/// `fork` is called with each half that begins.
///
/// Errors: `ChunkSizesDiffer` where the sets have different chunk sizes, else `NoMemory`.
pub fn union_forked<R: Threads + Sync, F: Fork + Sync>(
    rt: &R,
    alloc: Global,
    first: &CTree,
    second: &CTree,
    forks: u32,
    fork: &F,
) -> Result<CTree, SetError>
    ensures { Unites first.now second.now result }
{
    check_sizes(first, second)?;
    Ok(same_size_union_forked(rt, alloc, first, second, forks, fork)?)
}

/// As [`difference`], with the two halves on two threads at n levels, at most 6. Where no thread
/// can be started, the caller does both halves. The answer is that of `difference` whatever `forks`
/// is. `fork` is called with each half that begins.
///
/// Errors: `ChunkSizesDiffer` where the sets have different chunk sizes, else `NoMemory`.
pub fn difference_forked<R: Threads + Sync, F: Fork + Sync>(
    rt: &R,
    alloc: Global,
    first: &CTree,
    second: &CTree,
    forks: u32,
    fork: &F,
) -> Result<CTree, SetError>
    ensures { Subtracts first.now second.now result }
{
    check_sizes(first, second)?;
    Ok(same_size_difference_forked(rt, alloc, first, second, forks, fork)?)
}

/// As [`union_forked`], of two sets of one chunk size. The only error is out of memory.
pub fn same_size_union_forked<R: Threads + Sync, F: Fork + Sync>(
    rt: &R,
    alloc: Global,
    first: &CTree,
    second: &CTree,
    forks: u32,
    fork: &F,
) -> Result<CTree, AllocError>
    requires { first.now.chunk_size ≡ second.now.chunk_size }
    ensures { IfOk result (IsSetOf (union_keeping_second first.now.entries second.now.entries)
        first.now.chunk_size) }
{
    combined_forked(rt, alloc, MapOperation::Union, first, second, forks, fork)
}

/// As [`difference_forked`], of two sets of one chunk size. The only error is out of memory.
pub fn same_size_difference_forked<R: Threads + Sync, F: Fork + Sync>(
    rt: &R,
    alloc: Global,
    first: &CTree,
    second: &CTree,
    forks: u32,
    fork: &F,
) -> Result<CTree, AllocError>
    requires { first.now.chunk_size ≡ second.now.chunk_size }
    ensures { IfOk result (IsSetOf (without_keys first.now.entries (keys_of second.now.entries))
        first.now.chunk_size) }
{
    combined_forked(
        rt,
        alloc,
        MapOperation::Difference,
        first,
        second,
        forks,
        fork,
    )
}

/// What an operation gives for two sets of one chunk size, with halves on two threads.
fn combined_forked<R: Threads + Sync, F: Fork + Sync>(
    rt: &R,
    alloc: Global,
    operation: MapOperation,
    first: &CTree,
    second: &CTree,
    forks: u32,
    fork: &F,
) -> Result<CTree, AllocError>
    requires { first.now.chunk_size ≡ second.now.chunk_size }
    ensures { IfOk result (IsSetOf (combined_maps operation first.now.entries second.now.entries)
        first.now.chunk_size) }
{
    let forking = Forking {
        forks: forks.min(MAX_FORKS),
        level: 1,
        fork,
    };
    let (task, a, b) = (Task::new(operation), first.view(), second.view());
    let answer = combine_forked(rt, alloc, task, &a, &b, &forking)?;
    answer.into_set(alloc, operation, first.len(), second.len())
}

/// Refuses sets of different chunk sizes.
fn check_sizes(first: &CTree, second: &CTree) -> Result<(), SetError>
    ensures same { OnOk result (first.now.chunk_size ≡ second.now.chunk_size) }
    ensures refused { IfErr result (λ e. (e ≡ ChunkSizesDiffer)
        × (first.now.chunk_size ≢ second.now.chunk_size)) }
{
    if first.chunk_size().get() != second.chunk_size().get() {
        return Err(SetError::ChunkSizesDiffer);
    }
    Ok(())
}
