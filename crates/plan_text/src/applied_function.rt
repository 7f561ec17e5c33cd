//! What an edge apply has for each of its functions.

/// An edge function by its index, and the set that gets the vertices at which it changes a vector, where one does.
#[derive(Clone, Copy, Debug, PartialEq, Eq)]
pub struct AppliedFunction {
    pub function: usize,
    pub changed: Option<ChangedSet>,
}

/// A set by the index of its name, and the vector of which it gets the vertices that changed.
#[derive(Clone, Copy, Debug, PartialEq, Eq)]
pub struct ChangedSet {
    pub name: usize,
    pub vector: usize,
}
