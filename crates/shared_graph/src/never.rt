//! The call that does not return.

use std::sync::Wait;

/// Does not return.
pub(crate) fn never<T: Wait>(rt: &T)
    ensures { ⊥ }
{
    for _ in rt.forever() {}
    unreachable!()
}
