//! The record of an edge apply.
use runner::EdgeMap;
use vectors::Changes;
use vertex_sets::VertexSet;

/// An edge apply of a run, and what it changed.
pub struct ApplyRecord {
    pub asked: EdgeMap,
    /// The sizes of the run's vertex sets, by their indices.
    pub sizes: Vec<i64>,
    /// The set at the first end, if that is a set, and so at the second end.
    pub sources: Option<VertexSet>,
    pub destinations: Option<VertexSet>,
    pub changes: Changes,
}

impl Drop for ApplyRecord {
    fn drop(self) {
        let ApplyRecord {
            asked: _,
            sizes: _,
            sources: _,
            destinations: _,
            changes: _,
        } = self;
    }
}
