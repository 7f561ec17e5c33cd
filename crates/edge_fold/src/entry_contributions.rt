//! Contributions of an edge function that depends on an entry of the source and on the weight.
ghost use Rattle.std.specs.Prelude.{◌≡◌, ℕ, ℤ, List, None, IfSome, length};
ghost use Rattle.apply_options.specs.declared.reduction.Reduction.{Reduction};
ghost use Rattle.weighted_edges.specs.Edge.{Edge};
ghost use Rattle.typed_tree.specs.FunctionStatementTree.{FunctionStatementsTree};
ghost use Rattle.algorithm_meaning.specs.State.{StateValue};
ghost use Rattle.kernels.specs.ShapePairs.{shape_given};
ghost use Rattle.edge_fold.specs.Folded.{IsContextOf};
ghost use Rattle.edge_fold.specs.Contributions.{all_given, weighted_entries};
ghost use Rattle.edge_fold.specs.inside.EntryNumbers.{IsEntryContribution};
ghost use Rattle.edge_fold.specs.inside.Statements.{IsEntryOf};

use crate::apply_context::{ApplyContext, EntryContribution, SourceContribution};
use crate::entry_numbers::{EntryWith, reduce_all_entries};
use kernels::Shape;

impl ApplyContext<'_> {
    /// What is given on every edge, where it is an entry of the source with the weight.
    #[inline]
    pub(crate) fn entry_contribution(self) -> Option<EntryContribution>
        ensures { IfSome result (λ g. (m : StateValue) (steps : List FunctionStatementsTree) → IsContextOf self.entry m steps
            → IsEntryOf m g (all_given m steps)) }
    {
        if self.second.is_some() {
            return None;
        }
        let given = entry_of(self.first.shape())?;
        Some(given)
    }

    /// What sources with these weights give each destination together, where each gives an entry of its own with the weight
    /// and there is a source.
    #[inline]
    pub(crate) fn reduced_entries(
        self,
        sources: &[u32],
        weights: &[i64],
    ) -> Option<SourceContribution>
        requires { length weights.now ≡ length sources.now }
        ensures { IfSome result (λ s. (m : StateValue) (steps : List FunctionStatementsTree) → IsContextOf self.entry m steps
            → IsEntryContribution s (all_given m steps) (weighted_entries sources.now weights.now)) }
    {
        let given = self.entry_contribution()?;
        self.weighed_by(given, sources, weights)
    }

    /// What sources with these weights give each destination together by an entry of each with its weight, if there is a source.
    #[inline]
    pub(crate) fn weighed_by(
        self,
        given: EntryContribution,
        sources: &[u32],
        weights: &[i64],
    ) -> Option<SourceContribution>
        requires { length weights.now ≡ length sources.now }
        ensures { IfSome result (λ s. (m : StateValue) (gives : Edge → List (ℕ × Reduction × ℤ)) → self.entry.vectors.now.vectors ≡ m.vectors
            → IsEntryOf m given gives → IsEntryContribution s gives (weighted_entries sources.now weights.now)) }
    {
        let numbers = EntryWith {
            lane: self.vectors.lane(given.from),
            operator: given.operator,
        };
        let number = reduce_all_entries(given.reduction, numbers, sources, weights)?;
        Some(SourceContribution {
            vector: given.vector,
            reduction: given.reduction,
            number,
        })
    }
}

/// What a statement of a shape gives on every edge, where it is an entry of the source with the weight.
#[inline]
pub(crate) fn entry_of(shape: Shape) -> Option<EntryContribution>
    ensures { IfSome result (λ g. (m : StateValue) → IsEntryOf m g (shape_given shape m)) }
{
    match shape {
        Shape::EntryWith(vector, reduction, from, operator) => Some(EntryContribution {
            vector,
            reduction,
            from,
            operator,
        }),
        _ => None,
    }
}
