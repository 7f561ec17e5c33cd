//! Texts and labels of a source without the bytes at their ends.
ghost use Rattle.std.specs.Prelude.{◌≡◌, IfOk};
ghost use Rattle.initializer_types.specs.Checker.{without_ends};

use std::alloc::{AllocError, Global};
use typed_tree::{Name, Sequence};

/// All bytes but the first and the last.
///
/// The error means that memory ran out.
pub fn between_ends(alloc: Global, bytes: &[u8]) -> Result<Name, AllocError>
    ensures { IfOk result (λ name. name ≡ without_ends bytes.now) }
{
    let tail = bytes.get(1..).unwrap_or(&[]);
    let len = bytes.len().saturating_sub(2);
    let inside = tail.get(..len).unwrap_or(tail);
    Ok(Sequence::new(Vec::from_slice(alloc, inside)?))
}
