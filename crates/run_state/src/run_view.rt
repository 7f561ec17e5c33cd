//! Run view: what a run lends to an edge apply.
use flat_snapshot::Flat;
use plans::FunctionKernels;
use vectors::Vectors;
use vertex_sets::VertexSet;

/// What a run has for an edge apply: the kernels of its program, its vertex sets by their indices, the sizes of these sets,
/// its vectors, and the graph.
#[derive(Clone, Copy)]
pub struct RunView<'a> {
    pub functions: &'a FunctionKernels,
    pub sets: &'a [VertexSet],
    pub sizes: &'a [i64],
    pub vectors: &'a Vectors,
    pub graph: &'a Flat,
}
