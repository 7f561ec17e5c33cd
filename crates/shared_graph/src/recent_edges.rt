//! The edges that the last commits named, by which a reader knows in which edges two versions may differ.

ghost use Rattle.std.specs.Prelude.{◌≡◌, ◌+◌, ◌≤◌, ◌++◌, ◌∷◌, [], ℕ, List, drop, length, IfOk, IfSome, OnOk};
ghost use Rattle.tree_batch.specs.declared.batch.Entry.{Entry as Change};
ghost use Rattle.edge_differences.specs.Listed.{AreAscending, is_listed};
ghost use Rattle.edge_differences.specs.Named.{named_in};
ghost use Rattle.version_list.specs.Machine.{committed_by};
ghost use Rattle.shared_graph.specs.inside.Recent.{AreRecent, edges_of_version, named_after};

use edge_differences::sorted_ends;
use std::alloc::{AllocError, Global};
use tree_batch::Batch;
use version_list::Step;

/// How many edges are kept at most. A commit copies them.
const MOST_EDGES: usize = 1_024;

/// An edge that a batch named, and the number of the version that the batch made.
#[derive(Clone, Copy)]
pub(crate) struct NamedEdge {
    version: u64,
    source: u32,
    destination: u32,
}

/// The edges that each commit after some version named, in the order of the commits.
#[derive(Drop)]
pub(crate) struct RecentEdges {
    since: u64,
    named: Vec<NamedEdge>,
}

impl RecentEdges {
    /// No edges, since a version that nothing followed.
    pub(crate) fn none_since(alloc: Global, version: u64) -> RecentEdges
        ensures { (batches : List (List Change)) → length batches ≤ version → AreRecent batches result }
    {
        RecentEdges {
            since: version,
            named: Vec::new(alloc),
        }
    }

    /// The edges that the last commits name after one more step, which makes the version of this number if it commits. The
    /// oldest of them go if they would be more than [`MOST_EDGES`]. There are none if the step asks for a number of vertices.
    ///
    /// The only error is out of memory.
    pub(crate) fn after(
        &self,
        alloc: Global,
        version: u64,
        step: &Step,
    ) -> Result<RecentEdges, AllocError>
        ensures { IfOk result (λ r. (batches : List (List Change)) → length batches + 1 ≡ version → AreRecent batches self.now
            → AreRecent (batches ++ committed_by step.now) r) }
    {
        match step {
            Step::Commit(batch) => self.after_batch(alloc, version, batch),
            Step::Acquire(_) | Step::Release(_) | Step::Trim => {
                Ok(RecentEdges::none_since(alloc, version))
            }
        }
    }

    // The edges that the last commits name after that of a batch.
    fn after_batch(
        &self,
        alloc: Global,
        version: u64,
        batch: &Batch,
    ) -> Result<RecentEdges, AllocError>
        ensures { IfOk result (λ r. (batches : List (List Change)) → length batches + 1 ≡ version → AreRecent batches self.now
            → AreRecent (batches ++ batch.now ∷ []) r) }
    {
        if batch.vertices_after(0) > 0 || batch.len() > MOST_EDGES {
            return Ok(RecentEdges::none_since(alloc, version));
        }
        let room = MOST_EDGES - batch.len();
        let dropped = self.named.len().saturating_sub(room);
        let since = self.since_without(dropped);
        let mut named = Vec::with_capacity(alloc, MOST_EDGES)?;
        named.extend_from_slice(&self.named[dropped..])?;
        push_edges(version, batch, &mut named)?;
        Ok(RecentEdges { since, named })
    }

    // Since which version the edges are known without the first ones.
    fn since_without(&self, dropped: usize) -> u64
        requires { dropped ≤ length self.now.named.items }
        ensures later { self.now.since ≤ result }
        ensures same { (k : ℕ) → result ≤ k → named_after k (drop dropped self.now.named.items) ≡ named_after k self.now.named.items }
    {
        let mut since = self.since;
        'edges: for index in 0..dropped {
            since = since.max(self.named[index].version);
        }
        since
    }

    /// The ends of the edges that the batches after a version named, ascending by source and then by destination, each once, or
    /// `None` if these are not known, if the version is later than the newest one, or if memory is refused.
    pub(crate) fn since(&self, alloc: Global, version: u64, newest: u64) -> Option<Vec<(u32, u32)>>
        ensures known { IfSome result (λ ends. (self.now.since ≤ version) × (version ≤ newest)) }
        ensures ascending { IfSome result (λ ends. AreAscending ends.items) }
        ensures listed { IfSome result (λ ends. (u v : ℕ) → is_listed ends.items u v ≡ is_listed (named_after version self.now.named.items) u v) }
    {
        if version < self.since || version > newest {
            return None;
        }
        self.ends_after(alloc, version).ok()
    }

    // The ends of the edges that versions after this one name. The only error is out of memory.
    fn ends_after(&self, alloc: Global, version: u64) -> Result<Vec<(u32, u32)>, AllocError>
        ensures ascending { IfOk result (λ ends. AreAscending ends.items) }
        ensures listed { IfOk result (λ ends. (u v : ℕ) → is_listed ends.items u v ≡ is_listed (named_after version self.now.named.items) u v) }
    {
        let mut ends = Vec::new(alloc);
        'edges: for index in 0..self.named.len() {
            let edge = self.named[index];
            if edge.version > version {
                ends.push((edge.source, edge.destination))?;
            }
        }
        sorted_ends(alloc, &ends)
    }
}

// Appends the edges that a batch names. The only error is out of memory.
fn push_edges(version: u64, batch: &Batch, named: &mut Vec<NamedEdge>) -> Result<(), AllocError>
    ensures { OnOk result (named.new.items ≡ named.old.items ++ edges_of_version version (named_in batch.now)) }
{
    'entries: for index in 0..batch.len() {
        if let Some((source, destination)) = batch.entry(index).ends() {
            named.push(NamedEdge {
                version,
                source,
                destination,
            })?;
        }
    }
    Ok(())
}
