//! Room in advance for the lists of a page.

ghost use Rattle.std.specs.Prelude.{◌≡◌, ◌-◌, ◌<◌, ◌≤◌, [], length, IfOk};

use crate::block::VertexBlock;
use crate::long_lists::LongLists;
use edge_updates::Updates;
use pages::{BLOCK_SIZE, MAX_PACKED, Page, weight_width_of, width_of};
use std::alloc::{AllocError, Global};

/// A page of no vertex, with room for those lists of a block after updates that go into it. No contract
/// rests on the room. The only error is out of memory.
pub(crate) fn new_page(
    alloc: Global,
    old: Option<&VertexBlock>,
    updates: &Updates<'_>,
) -> Result<Page, AllocError>
    ensures { IfOk result (λ p. p ≡ []) }
{
    let Some(block) = old else {
        let (vertices, size) = room_for(updates);
        return Page::with_capacity(alloc, vertices, size);
    };
    let (page, long) = block.parts();
    page.with_room(alloc, page_updates(long, updates))
}

/// How many updates are of vertices that have no list of their own, and that get none: more than 256
/// updates of one vertex are as good as always more than 256 neighbours of it.
fn page_updates(long: &LongLists, updates: &Updates<'_>) -> usize {
    let (mut total, mut start) = (0usize, 0);
    while start < updates.len() {
        let vertex = updates.update(start).vertex();
        let next = run_end(updates, start);
        if next - start <= MAX_PACKED && long.get(vertex % BLOCK_SIZE).is_none() {
            total = total.saturating_add(next - start);
        }
        start = next;
    }
    total
}

/// How many vertices updates are of, and how many bytes the lists take that they add to a page.
fn room_for(updates: &Updates<'_>) -> (usize, usize) {
    let (mut vertices, mut size, mut start) = (0usize, 0usize, 0);
    while start < updates.len() {
        let next = run_end(updates, start);
        vertices = vertices.saturating_add(1);
        if next - start <= MAX_PACKED {
            size = size.saturating_add(list_size(updates, start, next));
        }
        start = next;
    }
    (vertices, size)
}

/// How many bytes a packed list takes of the neighbours and the weights of updates of one vertex, those
/// from an index up to another.
fn list_size(updates: &Updates<'_>, start: usize, end: usize) -> usize
    requires order { start < end }
    requires within { end ≤ length updates.now }
    requires few { end - start ≤ MAX_PACKED }
{
    let (first, last) = (updates.update(start), updates.update(end - 1));
    let span = last.neighbour().saturating_sub(first.neighbour());
    let count = end - start;
    let size = 4 + width_of(span) * (count - 1);
    size.saturating_add(weight_size(updates, start, end).saturating_mul(count))
}

/// How many bytes each weight of updates takes in a packed list, those from an index up to another.
fn weight_size(updates: &Updates<'_>, start: usize, end: usize) -> usize
    requires { end ≤ length updates.now }
{
    let mut size = 0;
    for index in start..end {
        size = weight_width_of(&[updates.weight(index)]).max(size);
    }
    size
}

/// The index after the updates from one on that are of the same vertex.
fn run_end(updates: &Updates<'_>, start: usize) -> usize
    requires { start < length updates.now }
    ensures order { start < result }
    ensures within { result ≤ length updates.now }
{
    let count = updates.len();
    let vertex = updates.update(start).vertex();
    let mut end = start + 1;
    while end < count && updates.update(end).vertex() == vertex {
        end += 1;
    }
    end
}
