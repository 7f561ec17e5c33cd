//! Reductions: how an apply joins numbers to entries.

/// How a value is joined to an old one.
#[derive(Clone, Copy, Debug, PartialEq, Eq)]
pub enum Reduction {
    /// `min=`
    Min,
    /// `max=`
    Max,
    /// `+=`
    Plus,
}
