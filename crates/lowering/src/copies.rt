//! Copies of what a plan keeps of its program.
ghost use Rattle.std.specs.Prelude.{◌≡◌, IfOk};

use std::alloc::{AllocError, Global};
use typed_tree::Sequence;

/// A copy of a list of lists.
pub(crate) fn copied<T: Copy>(
    alloc: Global,
    lists: &[Sequence<T>],
) -> Result<Vec<Sequence<T>>, AllocError>
    ensures { IfOk result (λ copies. copies.items ≡ lists.now) }
{
    let mut copies = Vec::new(alloc);
    'lists: for list in lists {
        let copy = Vec::from_slice(alloc, list.as_slice())?;
        copies.push(Sequence::new(copy))?;
    }
    Ok(copies)
}
