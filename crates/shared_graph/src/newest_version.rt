//! The newest version, as it is published.

ghost use Rattle.std.specs.Prelude.{◌≡◌, IfOk};
ghost use Rattle.std.specs.Arc.{arc_value};

use crate::recent_edges::RecentEdges;
use crate::snapshot::Snapshot;
use std::alloc::AllocError;
use std::sync::Arc;

/// The newest version, and the edges that the last commits named.
#[derive(Drop)]
pub(crate) struct NewestVersion {
    pub(crate) snapshot: Snapshot,
    pub(crate) recent: Arc<RecentEdges>,
}

impl NewestVersion {
    /// This version once more, shared.
    ///
    /// Errors: `AllocError` where it cannot be shared once more.
    pub(crate) fn again(&self) -> Result<NewestVersion, AllocError>
        ensures number { IfOk result (λ v. v.snapshot.number ≡ self.now.snapshot.number) }
        ensures graph { IfOk result (λ v. arc_value v.snapshot.graph ≡ arc_value self.now.snapshot.graph) }
        ensures recent { IfOk result (λ v. arc_value v.recent ≡ arc_value self.now.recent) }
    {
        let snapshot = self.snapshot.again()?;
        let recent = Arc::try_clone(&self.recent)?;
        Ok(NewestVersion { snapshot, recent })
    }
}
