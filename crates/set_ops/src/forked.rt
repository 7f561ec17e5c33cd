//! The recursion by halves that go to two threads.

ghost use Rattle.std.specs.Prelude.{◌≡◌, ◌+◌, ◌<◌, ◌≤◌, IfOk, Ok};
ghost use denote.Param.Send.{IsSync};
ghost use Rattle.std.specs.Map.{keys_of};
ghost use Rattle.ascending_lists.specs.Ascending.{Ascends};
ghost use Rattle.set_ops.specs.inside.Answers.{IsCombined};
ghost use Rattle.set_ops.specs.inside.Halving.{HasForks, AreLent, AreLentAnswers, IsLentBelow, IsLentAbove};

use crate::combine::combine;
use crate::combined::{Combined, Head, Task, rejoin};
use crate::fork::{Fork, Forking};
use crate::halves::{Begun, OwnedHalves, begin};
use c_tree::View;
use std::alloc::{AllocError, Global};
use std::thread::{self, Threads};

/// The answer for two views that ascend from a base, as `combine` gives it, with halves on two threads
/// as `forking` says.
#[cycle(forked)]
pub(crate) fn combine_forked<R: Threads + Sync, F: Fork + Sync>(
    rt: &R,
    alloc: Global,
    task: Task,
    first: &View<'_>,
    second: &View<'_>,
    forking: &Forking<'_, F>,
) -> Result<Combined, AllocError>
    requires sizes { first.now.chunk_size ≡ second.now.chunk_size }
    requires first_over { Ascends task.base (keys_of first.now.entries) }
    requires second_over { Ascends task.base (keys_of second.now.entries) }
    requires few { forking.now.forks + forking.now.level ≤ 7 }
    ensures { IfOk result (λ c. IsCombined task.operation first.now.chunk_size first.now.entries
        second.now.entries c.part c.common) }
{
    if forking.forks == 0 {
        return combine(alloc, task, first, second);
    }
    let halves = match begin(alloc, task, first, second)? {
        Begun::Whole(combined) => return Ok(combined),
        Begun::Halved(halves) => halves.into_owned()?,
    };
    let (below, above) = in_two(rt, alloc, task, &halves, forking)?;
    let head = Head {
        key: halves.key,
        weight: halves.weight,
        found: halves.second.found,
    };
    rejoin(alloc, task.operation, head, below, above)
}

/// The answers for the halves below and above a head, each on a thread of its own.
#[cycle(forked)]
fn in_two<R: Threads + Sync, F: Fork + Sync>(
    rt: &R,
    alloc: Global,
    task: Task,
    halves: &OwnedHalves,
    forking: &Forking<'_, F>,
) -> Result<(Combined, Combined), AllocError>
    requires { HasForks forking.now.forks forking.now.level × AreLent task.base halves.now }
    ensures { IfOk result (λ p. AreLentAnswers task.operation halves.now p.0 p.1) }
{
    let (forks, level, fork) = (forking.forks, forking.level, forking.fork);
    let (below, above) = thread::join(
        rt,
        || -> Result<Combined, AllocError>
            requires { IsSync R.row × IsSync F.row × HasForks forks level × AreLent task.base halves.now }
            ensures { IfOk result (IsLentBelow task.operation halves.entry.now) }
        {
            fork.enter(level, false);
            let (first, second) = halves.below();
            let deeper = Forking {
                forks: forks - 1,
                level: level + 1,
                fork,
            };
            combine_forked(rt, alloc, task, &first, &second, &deeper)
        },
        || -> Result<Combined, AllocError>
            requires { IsSync R.row × IsSync F.row × HasForks forks level × AreLent task.base halves.now }
            ensures { IfOk result (IsLentAbove task.operation halves.entry.now) }
        {
            fork.enter(level, true);
            let task = task.above(halves.key);
            let (first, second) = halves.above();
            let deeper = Forking {
                forks: forks - 1,
                level: level + 1,
                fork,
            };
            combine_forked(rt, alloc, task, &first, &second, &deeper)
        },
    );
    both(below, above)
}

/// Both answers, or the error of the first that has one.
fn both(
    below: Result<Combined, AllocError>,
    above: Result<Combined, AllocError>,
) -> Result<(Combined, Combined), AllocError>
    ensures { IfOk result (λ p. (below ≡ Ok p.0) × (above ≡ Ok p.1)) }
{
    Ok((below?, above?))
}
