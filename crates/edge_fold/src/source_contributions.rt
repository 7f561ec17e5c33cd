//! Contributions of an edge function that depends on the source alone.
ghost use Rattle.std.specs.Prelude.{◌≡◌, ℕ, ℤ, ◌∷◌, [], List, None, IfSome};
ghost use Rattle.typed_tree.specs.FunctionStatementTree.{FunctionStatementsTree};
ghost use Rattle.algorithm_meaning.specs.State.{StateValue};
ghost use Rattle.kernels.specs.ShapePairs.{shape_given};
ghost use Rattle.edge_fold.specs.Folded.{IsContextOf};
ghost use Rattle.edge_fold.specs.Contributions.{all_given};

use crate::apply_context::{ApplyContext, SourceContribution};
use algorithm_meaning::arithmetic_of;
use kernels::Shape;
use typed_tree::Operator;

impl ApplyContext<'_> {
    /// What is given on every edge from a source, if it is the same on all.
    #[inline]
    pub(crate) fn source_contribution(self, source: u32) -> Option<SourceContribution>
        ensures { IfSome result (λ s. (m : StateValue) (steps : List FunctionStatementsTree) → IsContextOf self.entry m steps
            → (d : ℕ) (w : ℤ) → all_given m steps (source, d, w) ≡ (s.vector, s.reduction, s.number) ∷ []) }
    {
        if self.second.is_some() {
            return None;
        }
        self.source_contribution_by(self.first.shape(), source)
    }

    /// What a statement of a shape gives on every edge from a source, if it is the same on all.
    #[inline(always)]
    pub(crate) fn source_contribution_by(
        self,
        shape: Shape,
        source: u32,
    ) -> Option<SourceContribution>
        ensures { IfSome result (λ s. (m : StateValue) → self.entry.vectors.now.vectors ≡ m.vectors
            → (d : ℕ) (w : ℤ) → shape_given shape m (source, d, w) ≡ (s.vector, s.reduction, s.number) ∷ []) }
    {
        match shape {
            Shape::Other | Shape::EntryWith(_, _, _, _) => None,
            Shape::Source(vector, reduction) => Some(SourceContribution {
                vector,
                reduction,
                number: i64::from(source),
            }),
            Shape::Entry(vector, reduction, from) => Some(SourceContribution {
                vector,
                reduction,
                number: self.vectors.lane(from).get(source as usize),
            }),
            Shape::EntryPlus(vector, reduction, from, number) => Some(SourceContribution {
                vector,
                reduction,
                number: arithmetic_of(
                    Operator::Add,
                    self.vectors.lane(from).get(source as usize),
                    number,
                ),
            }),
            Shape::Constant(vector, reduction, number) => Some(SourceContribution {
                vector,
                reduction,
                number,
            }),
        }
    }
}
