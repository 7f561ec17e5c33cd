//! The edges that the last batches of a history name.
ghost use Rattle.std.specs.Prelude.{◌≡◌, ◌<◌, ◌≤◌, IfOk, IfSome, MatchOption, drop, is_some, length};
ghost use Rattle.edge_differences.specs.Named.{named_in_all};
ghost use Rattle.version_list.specs.Machine.{commits_of};
ghost use Rattle.version_list.specs.Since.{are_listable};

use crate::step::Done;
use edge_differences::push_named;
use std::alloc::{AllocError, Global};

/// Where the last so many batches of a history begin, or `None` if it has fewer. It takes the time of a walk over the
/// entries from there on.
pub(crate) fn start_of_last(history: &[Done], batches: u64) -> Option<usize>
    ensures { MatchOption result (length (commits_of history.now) < batches)
        (λ start. (start ≤ length history.now) × (length (commits_of (drop start history.now)) ≡ batches)) }
{
    let mut left = batches;
    let mut start = history.len();
    'entries: while left > 0 {
        start = start.checked_sub(1)?;
        if history[start].batch().is_some() {
            left -= 1;
        }
    }
    Some(start)
}

/// The ends of the edges that the batches of steps name, in order, or `None` if a batch asks for a number of vertices or
/// if the batches have more than `most` entries. The only error is out of memory.
pub(crate) fn named_by_steps(
    alloc: Global,
    steps: &[Done],
    most: usize,
) -> Result<Option<Vec<(u32, u32)>>, AllocError>
    ensures named { IfOk result (λ found. IfSome found (λ named. named.items ≡ named_in_all (commits_of steps.now))) }
    ensures listed { IfOk result (λ found. is_some found ≡ are_listable most (commits_of steps.now)) }
{
    let mut named = Vec::new(alloc);
    let mut left = most;
    'steps: for done in steps {
        if let Some(batch) = done.batch() {
            if batch.vertices_after(0) > 0 || batch.len() > left {
                return Ok(None);
            }
            left -= batch.len();
            push_named(batch, &mut named)?;
        }
    }
    Ok(Some(named))
}
