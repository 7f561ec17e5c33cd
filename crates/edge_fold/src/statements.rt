//! Statements: contributions of an edge function of two statements, each of a shape, of which one is folded after the other.
ghost use Rattle.std.specs.Prelude.{◌≡◌, ◌++◌, true, false, List, IfSome, IfOk};
ghost use Rattle.weighted_edges.specs.Edge.{Edge};
ghost use Rattle.typed_tree.specs.FunctionStatementTree.{FunctionStatementsTree};
ghost use Rattle.algorithm_meaning.specs.State.{StateValue};
ghost use Rattle.kernels.specs.ShapePairs.{shape_given};
ghost use Rattle.edge_fold.specs.Folded.{IsContextOf, HasFolded};
ghost use Rattle.edge_fold.specs.Contributions.{all_given, column, weighted_entries};
ghost use Rattle.edge_fold.specs.inside.EntryNumbers.{IsEntryContribution};
ghost use Rattle.edge_fold.specs.inside.Statements.{ArePairContributions, IsPairOf};

use crate::apply_context::{ApplyContext, SourceContribution};
use crate::entry_contributions::entry_of;
use crate::neighbour_entries::UnitColumn;
use crate::scratch::Scratch;
use kernels::{Shape, ShapePair};
use std::alloc::{AllocError, Global};

/// A destination with fewer sources is folded in a block of many lists, which is faster than a loop for each statement.
const FEW_NEIGHBOURS: usize = 16;

/// What two statements give a destination.
#[derive(Clone, Copy)]
pub(crate) struct ContributionPair {
    pub(crate) first: SourceContribution,
    pub(crate) second: SourceContribution,
}

impl ApplyContext<'_> {
    /// The shapes of the two statements, if the function has two and no other function is applied with it.
    #[inline]
    fn shape_pair(self) -> Option<ShapePair>
        ensures { IfSome result (λ p. (m : StateValue) (steps : List FunctionStatementsTree) → IsContextOf self.entry m steps
            → IsPairOf m p (all_given m steps)) }
    {
        if self.second.is_some() {
            return None;
        }
        let pair = self.first.shape_pair()?;
        Some(pair)
    }

    /// What sources give each destination together by two statements, with these weights or none, if each statement gives a number
    /// of its own source, and there is a source.
    fn reduced_pair(self, sources: &[u32], weights: &[i64]) -> Option<ContributionPair>
        ensures { IfSome result (λ p. (m : StateValue) (steps : List FunctionStatementsTree) → IsContextOf self.entry m steps
            → ArePairContributions p (all_given m steps) (weighted_entries sources.now weights.now)) }
    {
        let pair = self.shape_pair()?;
        let first = self.reduced_statement(pair.first, sources, weights)?;
        let second = self.reduced_statement(pair.second, sources, weights)?;
        Some(ContributionPair { first, second })
    }

    /// What sources give each destination together by a statement of a shape, with these weights or none.
    fn reduced_statement(
        self,
        shape: Shape,
        sources: &[u32],
        weights: &[i64],
    ) -> Option<SourceContribution>
        ensures { IfSome result (λ s. (m : StateValue) → self.entry.vectors.now.vectors ≡ m.vectors
            → IsEntryContribution s (shape_given shape m) (weighted_entries sources.now weights.now)) }
    {
        if let Some(contribution) = self.reduced_contribution_by(shape, sources) {
            return Some(contribution);
        }
        if weights.len() != sources.len() {
            return None;
        }
        let given = entry_of(shape)?;
        self.weighed_by(given, sources, weights)
    }
}

impl Scratch {
    /// Folds the edges from sources to a destination, with these weights or with any where none are given, if they are not few and
    /// what is given on an edge is what two statements of a shape give. It gives whether that is so: if not, nothing is changed. The
    /// only error is out of memory.
    pub(crate) fn fold_pair_into(
        &mut self,
        alloc: Global,
        context: ApplyContext<'_>,
        sources: &[u32],
        weights: &[i64],
        destination: u32,
    ) -> Result<bool, AllocError>
        ensures folded { IfOk result (λ done. done ≡ true → (m : StateValue) (steps : List FunctionStatementsTree) (edges : List Edge)
            → IsContextOf context.entry m steps → HasFolded context.entry m steps edges self.old
            → HasFolded context.entry m steps (edges ++ column destination (weighted_entries sources.now weights.now)) self.new) }
        ensures unchanged { IfOk result (λ done. done ≡ false → self.new ≡ self.old) }
    {
        if sources.len() < FEW_NEIGHBOURS {
            return Ok(false);
        }
        let Some(pair) = context.reduced_pair(sources, weights) else {
            return Ok(false);
        };
        let column = UnitColumn {
            neighbours: &[destination],
        };
        self.slots.join_number(alloc, context, pair.first, &column)?;
        self.slots
            .join_number(alloc, context, pair.second, &column)?;
        Ok(true)
    }
}
