//! Contributions of several sources, reduced to one number, of an edge function that depends on the source alone.
ghost use Rattle.std.specs.Prelude.{◌≡◌, List, IfSome};
ghost use Rattle.typed_tree.specs.FunctionStatementTree.{FunctionStatementsTree};
ghost use Rattle.algorithm_meaning.specs.State.{StateValue};
ghost use Rattle.kernels.specs.ShapePairs.{shape_given};
ghost use Rattle.edge_fold.specs.Folded.{IsContextOf};
ghost use Rattle.edge_fold.specs.Contributions.{all_given};
ghost use Rattle.edge_fold.specs.inside.ReducedContributions.{IsReducedContribution};

use crate::apply_context::{ApplyContext, SourceContribution};
use crate::source_numbers::{OneNumber, OwnEntry, OwnEntryPlus, OwnNumber, reduce_numbers};
use kernels::Shape;

impl ApplyContext<'_> {
    /// What sources give each destination together, where each gives its own number and there is a source.
    #[inline]
    pub(crate) fn reduced_contribution(self, sources: &[u32]) -> Option<SourceContribution>
        ensures { IfSome result (λ s. (m : StateValue) (steps : List FunctionStatementsTree) → IsContextOf self.entry m steps
            → IsReducedContribution s (all_given m steps) sources.now) }
    {
        if self.second.is_some() {
            return None;
        }
        let contribution = self.reduced_contribution_by(self.first.shape(), sources)?;
        Some(contribution)
    }

    /// What sources give each destination together by a statement of a shape, if each gives its own number.
    #[inline]
    pub(crate) fn reduced_contribution_by(
        self,
        shape: Shape,
        sources: &[u32],
    ) -> Option<SourceContribution>
        ensures { IfSome result (λ s. (m : StateValue) → self.entry.vectors.now.vectors ≡ m.vectors
            → IsReducedContribution s (shape_given shape m) sources.now) }
    {
        match shape {
            Shape::Other | Shape::EntryWith(_, _, _, _) => None,
            Shape::Source(vector, reduction) => Some(SourceContribution {
                vector,
                reduction,
                number: reduce_numbers(reduction, &OwnNumber, sources)?,
            }),
            Shape::Entry(vector, reduction, from) => {
                let entries = OwnEntry {
                    lane: self.vectors.lane(from),
                };
                Some(SourceContribution {
                    vector,
                    reduction,
                    number: reduce_numbers(reduction, &entries, sources)?,
                })
            }
            Shape::EntryPlus(vector, reduction, from, number) => {
                let entries = OwnEntryPlus {
                    lane: self.vectors.lane(from),
                    number,
                };
                Some(SourceContribution {
                    vector,
                    reduction,
                    number: reduce_numbers(reduction, &entries, sources)?,
                })
            }
            Shape::Constant(vector, reduction, number) => Some(SourceContribution {
                vector,
                reduction,
                number: reduce_numbers(reduction, &OneNumber { number }, sources)?,
            }),
        }
    }
}
