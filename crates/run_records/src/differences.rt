//! In what an apply may differ from a recorded one.
ghost use Rattle.std.specs.Prelude.{◌≡◌, ◌+◌, ◌<◌, ◌≤◌, ◌^◌, ℕ, true, false, Some, IfOk, IfSome, OnOk};
ghost use Rattle.kernels.specs.declared.endpoint_filter.EndpointFilter.TheVariants as end;
ghost use Rattle.kernels.specs.EdgeApply.{is_member};
ghost use Rattle.kernels.specs.Local.{is_local_code};
ghost use Rattle.follow_engine.specs.Following.{AreEndsBut};
ghost use Rattle.run_records.specs.inside.Ends.{AreOfOneKind, IsApart};

use kernels::{EndpointFilter, FilterKernel};
use std::alloc::{AllocError, Global};
use vertex_sets::VertexSet;

/// The vertices that one of two ends lets through alone, if both are sets, and none if both let all through or are one filter.
/// If the ends are of two kinds, or if the filter reads other vertices, no list can name the difference, and it answers `None`.
/// The only error is out of memory.
pub(crate) fn end_differences(
    alloc: Global,
    now: Option<EndpointFilter<'_>>,
    was: Option<EndpointFilter<'_>>,
) -> Result<Option<Vec<u32>>, AllocError>
    requires { AreOfOneKind now was }
    ensures { IfOk result (λ found. IfSome found (λ listed. AreEndsBut listed.items now.entry was.entry)) }
{
    match now {
        None => Ok(Some(Vec::new(alloc))),
        Some(EndpointFilter::Members(set)) => set_differences(alloc, set, was),
        Some(EndpointFilter::Filter(filter)) => Ok(no_difference(alloc, filter)),
    }
}

/// No vertex, or `None` if a filter reads others than the one that it tests.
fn no_difference(alloc: Global, filter: &FilterKernel) -> Option<Vec<u32>>
    ensures { IfSome result (λ _. is_local_code filter.now.code.items ≡ true) }
{
    if !filter.stays_local() {
        return None;
    }
    Some(Vec::new(alloc))
}

/// The vertices that are members of a set or of the set at an end, and not of both; `None` if the end is no set.
fn set_differences(
    alloc: Global,
    set: &VertexSet,
    was: Option<EndpointFilter<'_>>,
) -> Result<Option<Vec<u32>>, AllocError>
    ensures { IfOk result (λ found. IfSome found (λ listed. AreEndsBut listed.items (Some (end.Members set.entry)) was.entry)) }
{
    match was {
        None => Ok(None),
        Some(EndpointFilter::Members(other)) => Ok(Some(members_of_one(alloc, set, other)?)),
        Some(EndpointFilter::Filter(_)) => Ok(None),
    }
}

/// The vertices that are members of one of two sets, and not of both. It takes the time of going over both. If both have the same
/// members in one form, these are compared as slices. The only error is out of memory.
pub(crate) fn members_of_one(
    alloc: Global,
    set: &VertexSet,
    other: &VertexSet,
) -> Result<Vec<u32>, AllocError>
    ensures { IfOk result (λ found. (v : ℕ) → is_member v found.items ≡ false → is_member v set.now.members ≡ is_member v other.now.members) }
{
    if have_same_members(set, other) {
        return Ok(Vec::new(alloc));
    }
    let first = listed(alloc, set)?;
    let second = listed(alloc, other)?;
    numbers_of_one(alloc, &first, &second)
}

/// Whether two sets of one form have the same members.
fn have_same_members(set: &VertexSet, other: &VertexSet) -> bool
    ensures { result ≡ true → (v : ℕ) → is_member v set.now.members ≡ is_member v other.now.members }
{
    if let (Some(words), Some(others)) = (set.words(), other.words()) {
        return words == others;
    }
    if let (Some(list), Some(others)) = (set.list(), other.list()) {
        return list == others;
    }
    match (set.flags(), other.flags()) {
        (Some(flags), Some(others)) => flags == others,
        _ => false,
    }
}

/// The members of a set, in a list. The only error is out of memory.
fn listed(alloc: Global, set: &VertexSet) -> Result<Vec<u32>, AllocError>
    ensures { IfOk result (λ list. list.items ≡ set.now.members) }
{
    let mut list = Vec::with_capacity(alloc, set.len())?;
    'members: for member in set.iter() {
        list.push(member)?;
    }
    Ok(list)
}

/// The numbers of one of two ascending lists that are not in the other. If the lists do not ascend, there may be more. The only error
/// is out of memory.
fn numbers_of_one(alloc: Global, first: &[u32], second: &[u32]) -> Result<Vec<u32>, AllocError>
    ensures { IfOk result (λ found. (v : ℕ) → is_member v found.items ≡ false → is_member v first.now ≡ is_member v second.now) }
{
    let mut found = Vec::new(alloc);
    let (mut left, mut right) = (0usize, 0usize);
    'numbers: while left < first.len() && right < second.len() {
        let (one, other) = (first[left], second[right]);
        push_lesser(one, other, &mut found)?;
        left = advanced(left, one, other);
        right = advanced(right, other, one);
    }
    found.extend_from_slice(&first[left..])?;
    found.extend_from_slice(&second[right..])?;
    Ok(found)
}

/// The index after this one if the number there is not greater than another, and else this index.
fn advanced(index: usize, number: u32, other: u32) -> usize
    requires { index + 1 < 2 ^ 64 }
    ensures next { number ≤ other → result ≡ index + 1 }
    ensures same { other < number → result ≡ index }
{
    if number <= other { index + 1 } else { index }
}

/// Appends the lesser of two numbers, and none if they are the same. The only error is out of memory.
fn push_lesser(one: u32, other: u32, found: &mut Vec<u32>) -> Result<(), AllocError>
    ensures { OnOk result ((v : ℕ) → is_member v found.new.items ≡ false → IsApart one other v × (is_member v found.old.items ≡ false)) }
{
    if one < other {
        found.push(one)?;
        return Ok(());
    }
    if other < one {
        found.push(other)?;
    }
    Ok(())
}
