//! Updates of the sets of a state.
use vertex_sets::VertexSet;

/// An update of the sets of a state: none, a new variable of this name, or a new value of the variable at this index, where
/// there is one.
#[derive(Drop)]
pub enum SetUpdate {
    Nothing,
    New { name: usize, set: VertexSet },
    Other { index: usize, set: VertexSet },
}
