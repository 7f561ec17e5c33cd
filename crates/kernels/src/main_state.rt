//! State of `main`: what its expressions read.
use vectors::Vectors;

/// What an expression of `main` reads: the vectors, the sizes of the vertex sets by their indices, how many vertices
/// there are, and the visible variables by their indices.
#[derive(Clone, Copy)]
pub struct MainState<'a> {
    pub vectors: &'a Vectors,
    pub sizes: &'a [i64],
    pub vertices: u32,
    pub integers: &'a [i64],
    pub conditions: &'a [bool],
}
