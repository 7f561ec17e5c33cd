//! Kernels that read entries of the two ends of an edge alone.
ghost use Rattle.std.specs.Prelude.{◌≡◌};
ghost use Rattle.kernels.specs.Local.{is_local_code};

use crate::kernel::{EdgeKernel, FilterKernel};
use register_code::RegisterInstruction;

impl EdgeKernel {
    /// Whether the function reads no entry but those of the two ends of an edge, and no size of a set. An entry at an index that
    /// it computes may be that of another vertex.
    pub fn stays_local(&self) -> bool
        ensures { result ≡ is_local_code self.now.code.items }
    {
        is_local(&self.code)
    }
}

impl FilterKernel {
    /// Whether the filter reads no entry but those of its vertex, and no size of a set. An entry at an index that it computes
    /// may be that of another vertex.
    pub fn stays_local(&self) -> bool
        ensures { result ≡ is_local_code self.now.code.items }
    {
        is_local(&self.code)
    }
}

/// Whether code reads neither entries at indices nor sizes of sets.
fn is_local(code: &[RegisterInstruction]) -> bool
    ensures { result ≡ is_local_code code.now }
{
    'instructions: for instruction in code {
        if matches!(
            instruction,
            RegisterInstruction::EntryAt(_, _) | RegisterInstruction::Size(_, _)
        ) {
            return false;
        }
    }
    true
}
