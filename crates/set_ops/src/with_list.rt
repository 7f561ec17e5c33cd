//! The recursion over one set and a list of entries.

ghost use Rattle.std.specs.Prelude.{IfOk};
ghost use Rattle.std.specs.Map.{keys_of};
ghost use Rattle.ascending_lists.specs.Ascending.{Ascends};
ghost use Rattle.set_ops.specs.inside.Answers.{IsCombined};

use crate::combined::{Combined, Head, Task, combine_lists, rejoin};
use c_tree::View;
use std::alloc::{AllocError, Global};
use tail_codec::{Entries, cut_entries};

/// The deepest trees of heads whose entries are read as one list.
const DEEPEST: u32 = 7;

/// The answer for a view and a list of entries whose keys ascend from a base. What stands beside the
/// list's keys is shared.
pub(crate) fn combine_with_list(
    alloc: Global,
    task: Task,
    first: &View<'_>,
    second: &Entries<'_>,
) -> Result<Combined, AllocError>
    requires first_over { Ascends task.base (keys_of first.now.entries) }
    requires second_over { Ascends task.base (keys_of second.now) }
    ensures { IfOk result (λ c. IsCombined task.operation first.now.chunk_size first.now.entries
        second.now c.part c.common) }
{
    if second.is_empty() {
        let part = first.share()?;
        return Ok(Combined { part, common: 0 });
    }
    let Some((left, key, weight, right)) = first.root() else {
        return combine_read(alloc, task, first, second);
    };
    let (below, found, above) = cut_entries(second, key);
    if is_dense(first.depth(), below.len().min(above.len())) {
        return combine_read(alloc, task, first, second);
    }
    let below = combine_with_list(alloc, task, &left, &below)?;
    let above = combine_with_list(alloc, task.above(key), &right, &above)?;
    let head = Head { key, weight, found };
    rejoin(alloc, task.operation, head, below, above)
}

/// As `combine_with_list`, with all entries of the view read.
fn combine_read(
    alloc: Global,
    task: Task,
    first: &View<'_>,
    second: &Entries<'_>,
) -> Result<Combined, AllocError>
    requires first_over { Ascends task.base (keys_of first.now.entries) }
    requires second_over { Ascends task.base (keys_of second.now) }
    ensures { IfOk result (λ c. IsCombined task.operation first.now.chunk_size first.now.entries
        second.now c.part c.common) }
{
    let entries = first.entries(alloc)?;
    combine_lists(alloc, task, first.chunk_size(), &entries.lent(), second)
}

/// Whether a list has so many entries on each side of the root of a tree of this depth that hardly a
/// chunk may be shared.
fn is_dense(depth: u32, least: usize) -> bool {
    depth <= DEEPEST && least >> depth >= 2
}
