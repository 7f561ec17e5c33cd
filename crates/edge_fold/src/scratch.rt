//! Scratch: the memory that a run keeps for its applies.
ghost use Rattle.std.specs.Prelude.{◌≡◌, ℕ, ℤ, false, ◌<◌, ◌≤◌, ◌++◌, List, [], true, length, IfOk, OnOk};
ghost use Rattle.kernels.specs.declared.columns.TheConstants.{PAIRS};

use crate::apply_context::ApplyContext;
use crate::neighbour_entries::{NeighbourEntries, UnitColumn};
use crate::pairs::Pairs;
use crate::run::run_functions;
use crate::vector_accumulator::VectorAccumulators;
use kernels::Block;
use std::alloc::{AllocError, Global};

/// Memory for applies of edge functions, kept from one to the next.
pub struct Scratch {
    pub(crate) slots: VectorAccumulators,
    pub(crate) pairs: Pairs,
    pub(crate) block: Block,
}

impl Drop for Scratch {
    fn drop(self) {
        let Scratch {
            slots: _,
            pairs: _,
            block: _,
        } = self;
    }
}

impl Scratch {
    ghost use Rattle.typed_tree.specs.FunctionStatementTree.{FunctionStatementsTree};
    ghost use Rattle.algorithm_meaning.specs.State.{StateValue};
    ghost use Rattle.edge_fold.specs.declared.apply_context.ApplyContext.{ApplyContext};
    ghost use Rattle.edge_fold.specs.Folded.{IsContextOf, HasFolded};
    ghost use Rattle.weighted_edges.specs.Edge.{Edge};
    ghost use Rattle.edge_fold.specs.Between.{firsts};
    ghost use Rattle.edge_fold.specs.Contributions.{weighted_entries, row};

    /// Memory for applies, of which none is taken yet.
    pub fn new(alloc: Global) -> Scratch
        ensures { (f : ApplyContext) (m : StateValue) (steps : List FunctionStatementsTree) → HasFolded f m steps [] result }
    {
        Scratch {
            slots: VectorAccumulators::new(alloc),
            pairs: Pairs::new(),
            block: Block::new(alloc),
        }
    }

    /// Begins an apply, whatever became of the one before. It takes constant time.
    pub fn begin(&mut self)
        ensures { (f : ApplyContext) (m : StateValue) (steps : List FunctionStatementsTree) → HasFolded f m steps [] self.new }
    {
        self.slots.used = 0;
        self.pairs.count = 0;
    }

    /// Folds the edges from a source to destinations by index, with no block and however many they are, if what is given
    /// on an edge depends on its source and its weight alone. It gives whether that is so: if not, nothing is changed. The only
    /// error is out of memory.
    #[inline(always)]
    pub fn fold_entries<E: NeighbourEntries>(
        &mut self,
        alloc: Global,
        context: ApplyContext<'_>,
        source: u32,
        destinations: &E,
    ) -> Result<bool, AllocError>
        ensures folded { IfOk result (λ done. done ≡ true → (m : StateValue) (steps : List FunctionStatementsTree) (edges : List Edge)
            → IsContextOf context.entry m steps → HasFolded context.entry m steps edges self.old
            → HasFolded context.entry m steps (edges ++ row source (E.entries destinations.now)) self.new) }
        ensures unchanged { IfOk result (λ done. done ≡ false → self.new ≡ self.old) }
    {
        if let Some(contribution) = context.source_contribution(source) {
            self.slots
                .join_number(alloc, context, contribution, destinations)?;
            return Ok(true);
        }
        if let Some(given) = context.entry_contribution() {
            self.slots
                .join_weights(alloc, context, given, source, destinations)?;
            return Ok(true);
        }
        Ok(false)
    }

    /// Folds the edges from a source to destinations, at most `PAIRS`, with any weights, where no function reads weights.
    /// The only error is out of memory.
    pub fn fold(
        &mut self,
        alloc: Global,
        context: ApplyContext<'_>,
        source: u32,
        destinations: &[u32],
    ) -> Result<(), AllocError>
        requires few { length destinations.now ≤ PAIRS }
        requires unweighted { context.weighted ≡ false }
        ensures { OnOk result ((m : StateValue) (steps : List FunctionStatementsTree) (edges : List Edge) (entries : List (ℕ × ℤ))
            → firsts entries ≡ destinations.now → IsContextOf context.entry m steps
            → HasFolded context.entry m steps edges self.old → HasFolded context.entry m steps (edges ++ row source entries) self.new) }
    {
        let column = UnitColumn {
            neighbours: destinations,
        };
        let done = self.fold_entries(alloc, context, source, &column)?;
        if done {
            return Ok(());
        }
        self.gather(alloc, context, source, destinations)
    }

    /// Adds edges to those that wait, and lets the kernels run where these fill a block.
    fn gather(
        &mut self,
        alloc: Global,
        context: ApplyContext<'_>,
        source: u32,
        destinations: &[u32],
    ) -> Result<(), AllocError>
        requires few { length destinations.now ≤ PAIRS }
        requires unweighted { context.weighted ≡ false }
        ensures { OnOk result ((m : StateValue) (steps : List FunctionStatementsTree) (edges : List Edge) → IsContextOf context.entry m steps
            → HasFolded context.entry m steps edges self.old
            → HasFolded context.entry m steps (edges ++ row source (weighted_entries destinations.now [])) self.new) }
    {
        let room = self.pairs.room();
        if destinations.len() <= room {
            self.pairs.add(source, destinations);
            return Ok(());
        }
        let (first, rest) = destinations.split_at(room);
        self.pairs.add(source, first);
        self.flush(alloc, context)?;
        self.pairs.add(source, rest);
        Ok(())
    }

    /// Lets the kernels run over the pairs that wait. The only error is out of memory.
    pub fn flush(&mut self, alloc: Global, context: ApplyContext<'_>) -> Result<(), AllocError>
        ensures folded { OnOk result ((m : StateValue) (steps : List FunctionStatementsTree) (edges : List Edge) → IsContextOf context.entry m steps
            → HasFolded context.entry m steps edges self.old → HasFolded context.entry m steps edges self.new) }
        ensures none { OnOk result (self.new.pairs.count ≡ 0) }
    {
        let columns = self.pairs.columns(context.weighted);
        run_functions(alloc, context, columns, &mut self.block, &mut self.slots)?;
        self.pairs.count = 0;
        Ok(())
    }
}
