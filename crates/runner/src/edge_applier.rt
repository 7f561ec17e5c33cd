//! The edge applier, who does the edge applies of a run, and the engines that do one from nothing.
ghost use Rattle.std.specs.Prelude.{◌≡◌, ℤ, List, None, IfOk};
ghost use Rattle.edge_fold.specs.Changed.{AreApart};
ghost use Rattle.edge_apply.specs.Applied.{AreChangesOf};
ghost use Rattle.flat_snapshot.specs.Digraph.{Digraph};
ghost use Rattle.plans.specs.declared.functions.FunctionKernels.{FunctionKernels};
ghost use Rattle.pull_engine.specs.KeptCut.{IsCutOf};
ghost use Rattle.runner.specs.EdgeMap.{AreChangesOfApply};
ghost use Rattle.runner.specs.HybridSources.{AreSourcesOf, traversal_of};
ghost use Rattle.runner.specs.declared.direction.Traversal.TheVariants as way;
ghost use Rattle.vectors.specs.Changes.{with_all_changes};

use crate::direction::{Traversal, hybrid_sources};
use crate::edge_maps::EdgeMap;
use edge_apply::Apply;
use edge_fold::Scratch;
use pull_engine::{KeptCut, pull};
use push_engine::push;
use run_state::RunView;
use std::alloc::{AllocError, Global};
use vectors::Changes;
use vertex_sets::VertexSet;

/// Who does the edge applies of a run. An applier may keep what it did, and what it knows of the run's vectors since: so it is
/// for the functions of one plan and for one graph, and the run says when it writes to its vectors by anything but an edge
/// apply. Each [`ApplyEngine`] is one that keeps nothing.
pub trait EdgeApplier {
    /// It does applies of these functions on this graph.
    ghost is_ready: { Self → FunctionKernels → Digraph → Type 0 };

    /// What it knows of the vectors of the run is true of these.
    ghost knows: { Self → List (List ℤ) → Type 0 };

    /// Knows nothing of the vectors any more: from now on they may be any.
    fn forget_vectors(&mut self)
        ensures ready { (functions : FunctionKernels) (graph : Digraph) → is_ready self.old functions graph → is_ready self.new functions graph }
        ensures knows { (vectors : List (List ℤ)) → knows self.new vectors };

    /// What an edge apply of a plan changes: written to the vectors of the run, the changes make those after the apply. An index
    /// without a set has no members; an index without a function has one that does nothing. It promises so if in every state
    /// the functions give each vector numbers by one reduction, and if each vector has an entry for each vertex.
    ///
    /// If the schedule says nothing, a sparse push is done, in one piece. The changes do not depend on it. The vectors, the sets
    /// and the graph stay as they are.
    ///
    /// The only error is out of memory. It serves any apply after this one, whatever became of it.
    fn apply_edges(
        &mut self,
        alloc: Global,
        run: RunView<'_>,
        asked: EdgeMap,
    ) -> Result<Changes, AllocError>
        requires ready { is_ready self.old run.functions.now run.graph.now }
        requires knows { knows self.old run.vectors.now.vectors }
        ensures changes { IfOk result (λ c. AreChangesOfApply run.entry asked c.vectors.items) }
        ensures ready { is_ready self.new run.entry.functions.now run.entry.graph.now }
        ensures knows { IfOk result (λ c. knows self.new (with_all_changes c.vectors.items run.entry.vectors.now.vectors)) };
}

/// The engines: what an apply changes, by push or by pull, by one worker or many. They keep nothing of a run but what they know of
/// its graph, and serve any apply on this graph after one that they have done, whatever became of that.
pub trait ApplyEngine {
    /// They do applies on this graph as they promise.
    ghost is_ready: { Self → Digraph → Type 0 };

    /// The sources of a hybrid that a filter lets through, in a set, and none for other applies. Each vertex is tested once.
    /// The only error is out of memory.
    fn sources(&mut self, alloc: Global, apply: &Apply<'_>) -> Result<Option<VertexSet>, AllocError>
        requires { is_ready self.old apply.now.flat.now }
        ensures sources { IfOk result (AreSourcesOf apply.now) }
        ensures ready { is_ready self.new apply.now.flat.now };

    /// What an apply changes, by a push from its sources: for each vector that a function has given something one list of
    /// changes, by ascending vertices, and a vector without one does not change. It promises so for each vector that has an
    /// entry for each vertex and to which the functions give by one reduction. The vectors stay as they are, and so does the
    /// graph. The sources of a hybrid are all vertices or members of a set. The only error is out of memory.
    fn push(&mut self, alloc: Global, apply: Apply<'_>) -> Result<Changes, AllocError>
        requires ready { is_ready self.old apply.flat.now }
        requires sources { AreSourcesOf apply None }
        requires traversal { traversal_of apply ≡ way.Push }
        ensures once { IfOk result (λ c. AreApart c.vectors.items) }
        ensures changes { IfOk result (λ c. AreChangesOf apply.entry c.vectors.items) }
        ensures ready { is_ready self.new apply.entry.flat.now };

    /// What an apply changes, by a pull into its destinations, as [`ApplyEngine::push`] says.
    fn pull(&mut self, alloc: Global, apply: Apply<'_>) -> Result<Changes, AllocError>
        requires ready { is_ready self.old apply.flat.now }
        requires sources { AreSourcesOf apply None }
        requires traversal { traversal_of apply ≡ way.Pull }
        ensures once { IfOk result (λ c. AreApart c.vectors.items) }
        ensures changes { IfOk result (λ c. AreChangesOf apply.entry c.vectors.items) }
        ensures ready { is_ready self.new apply.entry.flat.now };
}

/// One worker, with the memory that its applies use again and again, on any graph.
pub struct SerialApplier {
    scratch: Scratch,
}

impl Drop for SerialApplier {
    fn drop(self) {
        let SerialApplier { scratch: _ } = self;
    }
}

impl SerialApplier {
    /// It has taken no memory yet.
    pub fn new(alloc: Global) -> SerialApplier {
        SerialApplier {
            scratch: Scratch::new(alloc),
        }
    }
}

impl ApplyEngine for SerialApplier {
    ghost is_ready = { λ _ _. Unit {0} };

    fn sources(
        &mut self,
        alloc: Global,
        apply: &Apply<'_>,
    ) -> Result<Option<VertexSet>, AllocError> {
        hybrid_sources(alloc, apply, &mut self.scratch)
    }

    fn push(&mut self, alloc: Global, apply: Apply<'_>) -> Result<Changes, AllocError> {
        push(alloc, &apply, &mut self.scratch)
    }

    fn pull(&mut self, alloc: Global, apply: Apply<'_>) -> Result<Changes, AllocError> {
        pull(alloc, &apply, &mut self.scratch)
    }
}

/// Workers that do applies by a closure, and the memory that these use again and again: the cut of the graph's vertices, a scratch
/// for the caller, and one for each worker of an apply in pieces.
pub struct ParallelApplier<F> {
    by: F,
    cut: KeptCut,
    scratch: Scratch,
    states: Vec<Scratch>,
}

impl<F: Drop> Drop for ParallelApplier<F> {
    fn drop(self) {
        let ParallelApplier {
            by: _,
            cut: _,
            scratch: _,
            states: _,
        } = self;
    }
}

impl<F> ParallelApplier<F> {
    /// It has taken no memory yet, and may be for any graph.
    pub fn new(alloc: Global, by: F) -> ParallelApplier<F>
        ensures by { result.by ≡ by }
        ensures cut { (g : Digraph) → IsCutOf result.cut g }
    {
        ParallelApplier {
            by,
            cut: KeptCut::new(),
            scratch: Scratch::new(alloc),
            states: Vec::new(alloc),
        }
    }
}

impl<
    F: Fn(
        Global,
        Apply<'_>,
        Traversal,
        &mut KeptCut,
        &mut Scratch,
        &mut Vec<Scratch>,
    ) -> Result<Changes, AllocError>,
> ApplyEngine for ParallelApplier<F> {
    // What is kept is the cut of this graph. The closure may be called with the direction of an apply and a cut of its graph, gives
    // what the apply changes, and leaves a cut of its graph.
    ghost is_ready = { λ s g. IsCutOf s.cut g
        × ((alloc : _) (apply : _) (traversal : _) (cut : _) (scratch : _) (states : _) → traversal ≡ traversal_of apply
        → IsCutOf cut.now apply.flat.now → F.pre s.by alloc apply traversal cut scratch states)
        × ((alloc : _) (apply : _) (traversal : _) (cut : _) (scratch : _) (states : _) (r : _) (cut_after : _) (scratch_after : _)
        (states_after : _) → F.post s.by alloc apply traversal cut scratch states r cut_after scratch_after states_after
        → IfOk r (λ c. AreApart c.vectors.items) × IfOk r (λ c. AreChangesOf apply c.vectors.items) × IsCutOf cut_after.now apply.flat.now) };

    fn sources(
        &mut self,
        alloc: Global,
        apply: &Apply<'_>,
    ) -> Result<Option<VertexSet>, AllocError> {
        hybrid_sources(alloc, apply, &mut self.scratch)
    }

    fn push(&mut self, alloc: Global, apply: Apply<'_>) -> Result<Changes, AllocError> {
        let (cut, scratch, states) = (&mut self.cut, &mut self.scratch, &mut self.states);
        (self.by)(alloc, apply, Traversal::Push, cut, scratch, states)
    }

    fn pull(&mut self, alloc: Global, apply: Apply<'_>) -> Result<Changes, AllocError> {
        let (cut, scratch, states) = (&mut self.cut, &mut self.scratch, &mut self.states);
        (self.by)(alloc, apply, Traversal::Pull, cut, scratch, states)
    }
}
