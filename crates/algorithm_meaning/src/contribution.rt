//! Contributions: what functions of users write and give, as data that the definitions speak of.
use apply_options::Reduction;

/// When what a function writes is seen.
#[derive(Clone, Copy, Debug)]
pub enum Writing {
    /// At once, at the function's own vertex.
    AtOnce,
    /// Not by the function: it is collected.
    Collected,
}

/// What an edge function gives the entry of a vector at the destination.
#[derive(Clone, Copy, Debug)]
pub struct Contribution {
    /// The index of the vector.
    pub vector: usize,
    pub reduction: Reduction,
    pub number: i64,
}
