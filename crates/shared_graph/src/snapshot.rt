//! Snapshots: versions that readers keep.

ghost use Rattle.std.specs.Prelude.{◌≡◌, IfOk};
ghost use Rattle.std.specs.Arc.{arc_value};

use std::alloc::AllocError;
use std::sync::Arc;
use tree_batch::Graph;

/// A version of the graph that no later step changes.
#[derive(Drop)]
pub struct Snapshot {
    /// How many batches were committed before it.
    pub number: u64,
    /// The graph after these batches, which other snapshots may share.
    pub graph: Arc<Graph>,
}

impl Snapshot {
    /// This version once more, with the graph shared.
    ///
    /// Errors: `AllocError` where the graph cannot be shared once more.
    pub(crate) fn again(&self) -> Result<Snapshot, AllocError>
        ensures number { IfOk result (λ s. s.number ≡ self.now.number) }
        ensures graph { IfOk result (λ s. arc_value s.graph ≡ arc_value self.now.graph) }
    {
        let graph = Arc::try_clone(&self.graph)?;
        Ok(Snapshot {
            number: self.number,
            graph,
        })
    }
}
