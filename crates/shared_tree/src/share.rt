//! Values that can have several owners.

ghost use Rattle.std.specs.Prelude.{◌≡◌, IfOk};

use std::alloc::AllocError;

/// A value that can have a second owner at little cost, as a number, a tree, or a struct over an
/// `Arc` whose model is what the `Arc` holds. A tree shares a value where it copies a node.
pub trait Share: Sized + Drop {
    /// This value for one more owner. The error is out of memory, which includes a count of
    /// owners that is full.
    fn share(&self) -> Result<Self, AllocError>
        ensures { IfOk result (λ other. other ≡ self.now) };
}

impl Share for u32 {
    fn share(&self) -> Result<u32, AllocError> {
        Ok(*self)
    }
}

impl Share for u64 {
    fn share(&self) -> Result<u64, AllocError> {
        Ok(*self)
    }
}

impl Share for i64 {
    fn share(&self) -> Result<i64, AllocError> {
        Ok(*self)
    }
}

impl Share for () {
    fn share(&self) -> Result<(), AllocError> {
        Ok(())
    }
}
