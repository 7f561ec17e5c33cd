//! Endpoint filters: which vertices an end of an edge apply lets through.
use crate::kernel::FilterKernel;
use vertex_sets::VertexSet;

/// Which vertices an end of an edge may be.
#[derive(Clone, Copy)]
pub enum EndpointFilter<'a> {
    /// The members of a set.
    Members(&'a VertexSet),
    /// Those that a filter lets through.
    Filter(&'a FilterKernel),
}
