//! The recursion by halves.

ghost use Rattle.std.specs.Prelude.{◌≡◌, IfOk};
ghost use Rattle.std.specs.Map.{keys_of};
ghost use Rattle.ascending_lists.specs.Ascending.{Ascends};
ghost use Rattle.set_ops.specs.inside.Answers.{IsCombined};

use crate::combined::{Combined, Head, Task, combine_lists, rejoin};
use crate::halves::{Begun, begin};
use crate::interleaving::are_mixed;
use c_tree::View;
use std::alloc::{AllocError, Global};

/// The answer for two views that ascend from a base.
pub(crate) fn combine(
    alloc: Global,
    task: Task,
    first: &View<'_>,
    second: &View<'_>,
) -> Result<Combined, AllocError>
    requires sizes { first.now.chunk_size ≡ second.now.chunk_size }
    requires first_over { Ascends task.base (keys_of first.now.entries) }
    requires second_over { Ascends task.base (keys_of second.now.entries) }
    ensures { IfOk result (λ c. IsCombined task.operation first.now.chunk_size first.now.entries
        second.now.entries c.part c.common) }
{
    if are_mixed(first, second) {
        return combine_entries(alloc, task, first, second);
    }
    let halves = match begin(alloc, task, first, second)? {
        Begun::Whole(combined) => return Ok(combined),
        Begun::Halved(halves) => halves,
    };
    let (below, above) = (halves.second.below.view(), halves.second.above.view());
    let below = combine(alloc, task, &halves.left, &below)?;
    let above = combine(alloc, task.above(halves.key), &halves.right, &above)?;
    let head = Head {
        key: halves.key,
        weight: halves.weight,
        found: halves.second.found,
    };
    rejoin(alloc, task.operation, head, below, above)
}

/// As [`combine`], with both views read into columns and each chunk made anew.
fn combine_entries(
    alloc: Global,
    task: Task,
    first: &View<'_>,
    second: &View<'_>,
) -> Result<Combined, AllocError>
    requires first_over { Ascends task.base (keys_of first.now.entries) }
    requires second_over { Ascends task.base (keys_of second.now.entries) }
    ensures { IfOk result (λ c. IsCombined task.operation first.now.chunk_size first.now.entries
        second.now.entries c.part c.common) }
{
    let first_list = first.entries(alloc)?;
    let second_list = second.entries(alloc)?;
    combine_lists(
        alloc,
        task,
        first.chunk_size(),
        &first_list.lent(),
        &second_list.lent(),
    )
}
