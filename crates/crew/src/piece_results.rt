//! Piece results: what was found of a piece.

/// What was found of a piece.
#[derive(Drop)]
pub struct Found<T> {
    /// The number of the piece, from 1.
    pub piece: usize,
    /// What the work answers for it.
    pub out: T,
}
