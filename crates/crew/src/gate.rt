//! Gate: what is called before each piece.

/// Called with each piece before it is done.
pub trait Gate {
    /// Called by a worker before it does a piece. Workers and pieces are numbered from 1; `pieces` is
    /// the number of all.
    fn enter(&self, worker: usize, piece: usize, pieces: usize);

    /// Whether somebody looks at who does a piece, and when. Where nobody does, the pieces may be others, done by fewer
    /// workers, or the work may be done as a whole: no answer depends on it.
    fn watches(&self) -> bool {
        true
    }
}

/// A [`Gate`] that does nothing, and at which nobody looks.
#[derive(Clone, Copy, Debug)]
pub struct Open;

impl Gate for Open {
    fn enter(&self, _worker: usize, _piece: usize, _pieces: usize) {}

    fn watches(&self) -> bool {
        false
    }
}
