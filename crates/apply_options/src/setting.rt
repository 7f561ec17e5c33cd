//! The calls of a schedule, by name.

/// The name of a schedule call.
#[derive(Clone, Copy, Debug, PartialEq, Eq)]
pub enum Setting {
    /// `configApplyDirection`
    Direction,
    /// `configApplyParallelization`
    Parallelization,
    /// `configApplyDenseVertexSet`
    DenseVertexSet,
    /// `fuseApplyFunctions`
    FuseFunctions,
    /// `fuseFields`
    FuseFields,
}
