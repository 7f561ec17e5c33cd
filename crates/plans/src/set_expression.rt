//! Set expressions: the members that a vertex set gets.
use typed_tree::VarRef;

/// What a set gets that gets no vertices of an edge apply.
#[derive(Clone, Copy, Debug, PartialEq, Eq)]
pub enum SetExpression {
    /// No vertex.
    Nothing,
    /// All vertices.
    All,
    /// The members of a set.
    Copy(VarRef),
    /// The members of a set that pass the filter at this index.
    Filter(VarRef, usize),
}
