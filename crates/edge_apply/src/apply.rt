//! Edge applies: what an apply of edge functions is given.
ghost use Rattle.std.specs.Prelude.{◌≡◌, List};
ghost use Rattle.flat_snapshot.specs.Digraph.{IsDigraph};
ghost use Rattle.kernels.specs.FunctionStatementTree.{FunctionStatementsTree};
ghost use Rattle.kernels.specs.State.{StateValue};
ghost use Rattle.edge_fold.specs.Folded.{IsContextOf};
ghost use Rattle.edge_apply.specs.Contexts.{context_of, IsApplyOf};

use apply_options::{Direction, Parallelization};
use edge_fold::{ApplyContext, FoldStart, reads_weights};
use flat_snapshot::Flat;
use kernels::{EdgeKernel, EndpointFilter};
use vectors::Vectors;

/// An apply of one or two edge functions to the edges of a graph between two ends, and the values that its schedule has for
/// it. The functions read the vectors and the sizes of the vertex sets, by their indices. An end that is not given lets all
/// vertices through.
#[derive(Clone, Copy)]
pub struct Apply<'a> {
    pub flat: &'a Flat,
    pub vectors: &'a Vectors,
    pub sizes: &'a [i64],
    pub from: Option<EndpointFilter<'a>>,
    pub to: Option<EndpointFilter<'a>>,
    pub first: &'a EdgeKernel,
    pub second: Option<&'a EdgeKernel>,
    pub direction: Direction,
    pub parallelization: Parallelization,
}

impl<'a> Apply<'a> {
    /// The functions and what they read, whether weights are among it, and what new entries begin with.
    pub fn context(&self, start: FoldStart) -> ApplyContext<'a>
        ensures context { result ≡ context_of self.now start }
        ensures reads { (m : StateValue) (steps : List FunctionStatementsTree) → IsApplyOf self.now m steps → IsContextOf result m steps }
        ensures graph { IsDigraph self.now.flat.now }
    {
        ApplyContext {
            first: self.first,
            second: self.second,
            weighted: reads_weights(self.first, self.second),
            vectors: self.vectors,
            sizes: self.sizes,
            vertices: self.flat.vertices(),
            start,
        }
    }
}
