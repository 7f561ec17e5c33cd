//! The operators, by the level of the grammar at which they stand.

/// Between the terms of a sum.
#[derive(Clone, Copy, Debug, PartialEq, Eq)]
pub enum Addition {
    /// `+`
    Plus,
    /// `-`
    Minus,
}

/// Between the operands of a term.
#[derive(Clone, Copy, Debug, PartialEq, Eq)]
pub enum Multiplication {
    /// `*`
    Times,
    /// `/`
    Divide,
    /// `%`
    Remainder,
}

/// Between two sums.
#[derive(Clone, Copy, Debug, PartialEq, Eq)]
pub enum Relation {
    /// `==`
    Equal,
    /// `!=`
    NotEqual,
    /// `<`
    Less,
    /// `<=`
    LessOrEqual,
    /// `>`
    Greater,
    /// `>=`
    GreaterOrEqual,
}

/// Before a primary.
#[derive(Clone, Copy, Debug, PartialEq, Eq)]
pub enum Prefix {
    /// `-`
    Minus,
    /// `not`
    Not,
}
