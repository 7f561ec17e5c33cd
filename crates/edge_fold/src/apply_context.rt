//! Apply context: the functions of an edge apply, and what they read.
ghost use Rattle.std.specs.Prelude.{◌≡◌, ℕ, ℤ, List, false};
ghost use Rattle.typed_tree.specs.FunctionStatementTree.{FunctionStatementsTree};
ghost use Rattle.algorithm_meaning.specs.State.{StateValue};
ghost use Rattle.kernels.specs.Registers.{HasSizes};
ghost use Rattle.edge_fold.specs.Folded.{AreKernels, AreWeightless, are_weighted};
ghost use Rattle.edge_fold.specs.FoldStarts.{first_entry};
ghost use Rattle.edge_fold.specs.inside.FoldStarts.{initial_seed, start_of};

use crate::initial_entries::InitialEntries;
use apply_options::Reduction;
use kernels::EdgeKernel;
use typed_tree::Operator;
use vectors::Vectors;

/// What the new entry of a vertex begins with, when the vertex is first given something.
#[derive(Clone, Copy)]
pub enum FoldStart {
    /// The old entry: the new ones are those after an apply.
    OldEntry,
    /// The unit of the reduction: the new ones are what a piece of an apply gives, for an old entry to be reduced with.
    Unit,
}

/// One edge function, or two that are applied together, and what they read: the vectors, the sizes of the vertex sets
/// by their indices, and how many vertices there are. `start` says what new entries begin with, and `weighted` whether
/// the weights of edges count, as [`reads_weights`] gives it.
#[derive(Clone, Copy)]
pub struct ApplyContext<'a> {
    pub first: &'a EdgeKernel,
    pub second: Option<&'a EdgeKernel>,
    pub weighted: bool,
    pub vectors: &'a Vectors,
    pub sizes: &'a [i64],
    pub vertices: u32,
    pub start: FoldStart,
}

impl<'a> ApplyContext<'a> {
    /// What the new entries of a vector begin with.
    #[inline]
    pub(crate) fn seeds(self, vector: usize) -> InitialEntries<'a>
        ensures start { start_of result ≡ self.entry.start }
        ensures seed { (v : ℕ) (h : ℤ) → initial_seed result v h ≡ first_entry self.entry vector v h }
    {
        match self.start {
            FoldStart::OldEntry => InitialEntries::Entries(self.vectors.lane(vector)),
            FoldStart::Unit => InitialEntries::Unit,
        }
    }
}

/// Whether one of the functions of an apply reads the weights of edges. If none does, what they give on an edge does not depend
/// on its weight.
pub fn reads_weights(first: &EdgeKernel, second: Option<&EdgeKernel>) -> bool
    ensures weighted { result ≡ are_weighted first.now second.entry }
    ensures weightless { result ≡ false → (m : StateValue) (sizes : List ℤ) (steps : List FunctionStatementsTree) → HasSizes sizes m
        → AreKernels first.now second.entry steps → AreWeightless m steps }
{
    match second {
        None => first.reads_weight(),
        Some(second) => first.reads_weight() || second.reads_weight(),
    }
}

/// What is given on every edge from a source: the index of a vector, the reduction and the number.
#[derive(Clone, Copy)]
pub(crate) struct SourceContribution {
    pub(crate) vector: usize,
    pub(crate) reduction: Reduction,
    pub(crate) number: i64,
}

/// What is given on every edge, where it is the source's entry of a vector and the weight with an operator between them: the
/// index of the vector that is given something, the reduction, the index of the vector that is read, and the operator.
#[derive(Clone, Copy)]
pub(crate) struct EntryContribution {
    pub(crate) vector: usize,
    pub(crate) reduction: Reduction,
    pub(crate) from: usize,
    pub(crate) operator: Operator,
}
