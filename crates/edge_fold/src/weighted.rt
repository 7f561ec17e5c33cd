//! Folding with weights: edges for functions that read them.
ghost use Rattle.std.specs.Prelude.{◌≡◌, ◌+◌, ◌≤◌, ◌++◌, ℕ, true, List, length, OnOk};
ghost use Rattle.typed_tree.specs.FunctionStatementTree.{FunctionStatementsTree};
ghost use Rattle.algorithm_meaning.specs.State.{StateValue};
ghost use Rattle.weighted_edges.specs.Edge.{Edge};
ghost use Rattle.edge_fold.specs.Folded.{IsContextOf, HasFolded};
ghost use Rattle.edge_fold.specs.Contributions.{column, weighted_entries, row};
ghost use Rattle.kernels.specs.declared.columns.TheConstants.{PAIRS};

use crate::apply_context::ApplyContext;
use crate::neighbour_entries::{UnitColumn, WeightedColumns};
use crate::pairs::Pairs;
use crate::scratch::Scratch;
use std::alloc::{AllocError, Global};

impl Pairs {
    ghost use Rattle.edge_fold.specs.Folded.{waiting};

    /// Adds the edges from a source to destinations, with these weights.
    pub(crate) fn add_weighted(&mut self, source: u32, destinations: &[u32], weights: &[i64])
        requires few { self.old.count + length destinations.now ≤ PAIRS }
        requires same { length weights.now ≡ length destinations.now }
        ensures waiting { waiting true self.new ≡ waiting true self.old ++ row source (weighted_entries destinations.now weights.now) }
        ensures count { self.new.count ≡ self.old.count + length destinations.now }
    {
        let end = self.count + destinations.len();
        self.sources[self.count..end].fill(source);
        self.destinations[self.count..end].copy_from_slice(destinations);
        self.weights[self.count..end].copy_from_slice(weights);
        self.count = end;
    }

    /// Adds the edges from sources to a destination, with these weights.
    pub(crate) fn add_into_weighted(&mut self, sources: &[u32], weights: &[i64], destination: u32)
        requires few { self.old.count + length sources.now ≤ PAIRS }
        requires same { length weights.now ≡ length sources.now }
        ensures waiting { waiting true self.new ≡ waiting true self.old ++ column destination (weighted_entries sources.now weights.now) }
        ensures count { self.new.count ≡ self.old.count + length sources.now }
    {
        let end = self.count + sources.len();
        self.sources[self.count..end].copy_from_slice(sources);
        self.destinations[self.count..end].fill(destination);
        self.weights[self.count..end].copy_from_slice(weights);
        self.count = end;
    }
}

impl Scratch {
    /// Folds the edges from a source to destinations, at most `PAIRS`, with these weights, where a function reads weights.
    /// The only error is out of memory.
    pub fn fold_weighted(
        &mut self,
        alloc: Global,
        context: ApplyContext<'_>,
        source: u32,
        destinations: &[u32],
        weights: &[i64],
    ) -> Result<(), AllocError>
        requires few { length destinations.now ≤ PAIRS }
        requires same { length weights.now ≡ length destinations.now }
        requires weighted { context.weighted ≡ true }
        ensures { OnOk result ((m : StateValue) (steps : List FunctionStatementsTree) (edges : List Edge) → IsContextOf context.entry m steps
            → HasFolded context.entry m steps edges self.old
            → HasFolded context.entry m steps (edges ++ row source (weighted_entries destinations.now weights.now)) self.new) }
    {
        let columns = WeightedColumns {
            neighbours: destinations,
            weights,
        };
        let done = self.fold_entries(alloc, context, source, &columns)?;
        if done {
            return Ok(());
        }
        self.gather_weighted(alloc, context, source, destinations, weights)
    }

    /// Adds edges to those that wait, and lets the kernels run where these fill a block.
    fn gather_weighted(
        &mut self,
        alloc: Global,
        context: ApplyContext<'_>,
        source: u32,
        destinations: &[u32],
        weights: &[i64],
    ) -> Result<(), AllocError>
        requires few { length destinations.now ≤ PAIRS }
        requires same { length weights.now ≡ length destinations.now }
        requires weighted { context.weighted ≡ true }
        ensures { OnOk result ((m : StateValue) (steps : List FunctionStatementsTree) (edges : List Edge) → IsContextOf context.entry m steps
            → HasFolded context.entry m steps edges self.old
            → HasFolded context.entry m steps (edges ++ row source (weighted_entries destinations.now weights.now)) self.new) }
    {
        let room = self.pairs.room();
        if destinations.len() <= room {
            self.pairs.add_weighted(source, destinations, weights);
            return Ok(());
        }
        let (first, rest) = destinations.split_at(room);
        let (first_weights, rest_weights) = weights.split_at(room);
        self.pairs.add_weighted(source, first, first_weights);
        self.flush(alloc, context)?;
        self.pairs.add_weighted(source, rest, rest_weights);
        Ok(())
    }

    /// Folds the edges from sources, at most `PAIRS`, with these weights, to a destination, where a function reads weights.
    /// The only error is out of memory.
    pub fn fold_into_weighted(
        &mut self,
        alloc: Global,
        context: ApplyContext<'_>,
        sources: &[u32],
        weights: &[i64],
        destination: u32,
    ) -> Result<(), AllocError>
        requires few { length sources.now ≤ PAIRS }
        requires same { length weights.now ≡ length sources.now }
        requires weighted { context.weighted ≡ true }
        ensures { OnOk result ((m : StateValue) (steps : List FunctionStatementsTree) (edges : List Edge) → IsContextOf context.entry m steps
            → HasFolded context.entry m steps edges self.old
            → HasFolded context.entry m steps (edges ++ column destination (weighted_entries sources.now weights.now)) self.new) }
    {
        if let Some(contribution) = context.reduced_entries(sources, weights) {
            let column = UnitColumn {
                neighbours: &[destination],
            };
            self.slots
                .join_number(alloc, context, contribution, &column)?;
            return Ok(());
        }
        let done = self.fold_pair_into(alloc, context, sources, weights, destination)?;
        if done {
            return Ok(());
        }
        self.gather_into_weighted(alloc, context, sources, weights, destination)
    }

    /// Adds edges to those that wait, and lets the kernels run where these fill a block.
    fn gather_into_weighted(
        &mut self,
        alloc: Global,
        context: ApplyContext<'_>,
        sources: &[u32],
        weights: &[i64],
        destination: u32,
    ) -> Result<(), AllocError>
        requires few { length sources.now ≤ PAIRS }
        requires same { length weights.now ≡ length sources.now }
        requires weighted { context.weighted ≡ true }
        ensures { OnOk result ((m : StateValue) (steps : List FunctionStatementsTree) (edges : List Edge) → IsContextOf context.entry m steps
            → HasFolded context.entry m steps edges self.old
            → HasFolded context.entry m steps (edges ++ column destination (weighted_entries sources.now weights.now)) self.new) }
    {
        let room = self.pairs.room();
        if sources.len() <= room {
            self.pairs.add_into_weighted(sources, weights, destination);
            return Ok(());
        }
        let (first, rest) = sources.split_at(room);
        let (first_weights, rest_weights) = weights.split_at(room);
        self.pairs
            .add_into_weighted(first, first_weights, destination);
        self.flush(alloc, context)?;
        self.pairs
            .add_into_weighted(rest, rest_weights, destination);
        Ok(())
    }
}
