//! Folding by destination: edges to one destination.
ghost use Rattle.std.specs.Prelude.{◌≡◌, ◌≤◌, ◌++◌, ℕ, ℤ, false, List, [], length, OnOk};
ghost use Rattle.typed_tree.specs.FunctionStatementTree.{FunctionStatementsTree};
ghost use Rattle.algorithm_meaning.specs.State.{StateValue};
ghost use Rattle.edge_fold.specs.Folded.{IsContextOf, HasFolded};
ghost use Rattle.weighted_edges.specs.Edge.{Edge};
ghost use Rattle.edge_fold.specs.Between.{firsts};
ghost use Rattle.edge_fold.specs.Contributions.{column, weighted_entries};
ghost use Rattle.kernels.specs.declared.columns.TheConstants.{PAIRS};

use crate::apply_context::ApplyContext;
use crate::neighbour_entries::UnitColumn;
use crate::scratch::Scratch;
use std::alloc::{AllocError, Global};

impl Scratch {
    /// Folds the edges from sources, at most `PAIRS`, to a destination, with any weights, where no function reads weights.
    /// The only error is out of memory.
    pub fn fold_into(
        &mut self,
        alloc: Global,
        context: ApplyContext<'_>,
        sources: &[u32],
        destination: u32,
    ) -> Result<(), AllocError>
        requires few { length sources.now ≤ PAIRS }
        requires unweighted { context.weighted ≡ false }
        ensures { OnOk result ((m : StateValue) (steps : List FunctionStatementsTree) (edges : List Edge) (entries : List (ℕ × ℤ)) → firsts entries ≡ sources.now
            → IsContextOf context.entry m steps
            → HasFolded context.entry m steps edges self.old → HasFolded context.entry m steps (edges ++ column destination entries) self.new) }
    {
        if let Some(contribution) = context.reduced_contribution(sources) {
            let column = UnitColumn {
                neighbours: &[destination],
            };
            self.slots
                .join_number(alloc, context, contribution, &column)?;
            return Ok(());
        }
        let done = self.fold_pair_into(alloc, context, sources, &[], destination)?;
        if done {
            return Ok(());
        }
        self.gather_into(alloc, context, sources, destination)
    }

    /// Adds edges to those that wait, and lets the kernels run where these fill a block.
    fn gather_into(
        &mut self,
        alloc: Global,
        context: ApplyContext<'_>,
        sources: &[u32],
        destination: u32,
    ) -> Result<(), AllocError>
        requires few { length sources.now ≤ PAIRS }
        requires unweighted { context.weighted ≡ false }
        ensures { OnOk result ((m : StateValue) (steps : List FunctionStatementsTree) (edges : List Edge) → IsContextOf context.entry m steps
            → HasFolded context.entry m steps edges self.old
            → HasFolded context.entry m steps (edges ++ column destination (weighted_entries sources.now [])) self.new) }
    {
        let room = self.pairs.room();
        if sources.len() <= room {
            self.pairs.add_into(sources, destination);
            return Ok(());
        }
        let (first, rest) = sources.split_at(room);
        self.pairs.add_into(first, destination);
        self.flush(alloc, context)?;
        self.pairs.add_into(rest, destination);
        Ok(())
    }
}
