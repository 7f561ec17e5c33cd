//! An entry of a vector, as a statement that writes it names it.

use syntax::{Expression, Name};

/// An entry that a statement writes.
#[derive(Clone, Copy)]
pub struct WrittenEntry<'a> {
    /// The name of the vector.
    pub vector: &'a Name,
    /// The index in it.
    pub index: &'a Expression,
}
