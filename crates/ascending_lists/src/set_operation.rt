//! Set operations on two ascending lists.

ghost use Rattle.std.specs.Prelude.{◌≡◌, ◌+◌, ◌^◌, ◌<◌, ◌≤◌, length, None, IfOk};
ghost use Rattle.ascending_lists.specs.inside.Merging.{IsMerged};
ghost use Rattle.ascending_lists.specs.Operations.{combined, most};
ghost use Rattle.ascending_lists.specs.inside.Operations.{takes_second};
ghost use Rattle.ascending_lists.specs.Ascending.{Ascends};

use std::alloc::{AllocError, Global};

/// What is done with two sets of numbers.
#[derive(Clone, Copy)]
pub enum Operation {
    /// The numbers that one of them has, or both.
    Union,
    /// The numbers that the first has and the second lacks.
    Difference,
}

impl Operation {
    /// How many elements the answer for lists of n elements has if they have none in common.
    pub fn most(self, first: usize, second: usize) -> usize
        requires { first + second < 2 ^ 64 }
        ensures { result ≡ most self first second }
    {
        match self {
            Operation::Union => first + second,
            Operation::Difference => first,
        }
    }

    /// Whether the answer has what the second has alone.
    fn takes_second(self) -> bool
        ensures { result ≡ takes_second self }
    {
        match self {
            Operation::Union => true,
            Operation::Difference => false,
        }
    }
}

/// The numbers that an operation makes of two ascending lists, ascending. Takes time in proportion to
/// both lists.
///
/// The only error is out of memory.
pub fn merge(
    alloc: Global,
    operation: Operation,
    first: &[u32],
    second: &[u32],
) -> Result<Vec<u32>, AllocError>
    requires first { Ascends None first.now }
    requires second { Ascends None second.now }
    ensures { IfOk result (λ v. v.items ≡ combined operation first.now second.now) }
{
    let mut list = Vec::new(alloc);
    list.resize(operation.most(first.len(), second.len()), 0)?;
    let merged = merge_front(operation, first, second, &mut list);
    list.truncate(merged.len);
    list.extend_from_slice(&first[merged.first..])?;
    if operation.takes_second() {
        list.extend_from_slice(&second[merged.second..])?;
    }
    Ok(list)
}

/// How far two lists are merged: how many elements of each are read, and how many of the answer are
/// written.
#[derive(Clone, Copy)]
struct Merged {
    first: usize,
    second: usize,
    len: usize,
}

/// Merges two lists into the front of a third until one of them is over. No branch depends on which
/// element is the lesser.
fn merge_front(operation: Operation, first: &[u32], second: &[u32], list: &mut [u32]) -> Merged
    requires first { Ascends None first.now }
    requires second { Ascends None second.now }
    requires room { most operation (length first.now) (length second.now) ≤ length list.old }
    ensures { IsMerged operation first.now second.now list.new result }
{
    let takes_second = operation.takes_second();
    let (mut from_first, mut from_second, mut len) = (0usize, 0usize, 0usize);
    while from_first < first.len() && from_second < second.len() {
        let (x, y) = (first[from_first], second[from_second]);
        list[len] = x.min(y);
        from_first += usize::from(x <= y);
        from_second += usize::from(y <= x);
        len += usize::from(takes_second | (x < y));
    }
    Merged {
        first: from_first,
        second: from_second,
        len,
    }
}
