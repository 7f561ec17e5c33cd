//! Merge: the pieces of an apply, and their results put together.
ghost use Rattle.std.specs.Prelude.{◌≡◌, ℕ, ◌<◌, ◌≤◌, Bool, List, [], length, IfOk, IfSome, OnOk};
ghost use Rattle.std.specs.List.{filter, flat_map, range_with_len};
ghost use Rattle.std.specs.List.Sorted.{IsPermutation};
ghost use Rattle.crew.specs.Pieces.{AreAnswers, pieces_of};
ghost use Rattle.kernels.specs.FunctionStatementTree.{FunctionStatementsTree};
ghost use Rattle.kernels.specs.State.{StateValue};
ghost use Rattle.kernels.specs.Registers.{HasSizes};
ghost use Rattle.crew.specs.Partition.{piece_of};
ghost use Rattle.edge_fold.specs.Changed.{AreApart};
ghost use Rattle.edge_fold.specs.Ends.{IsEndTest};
ghost use Rattle.edge_fold.specs.Folded.{AreKernels, IsContextOf, HasFolded};
ghost use Rattle.edge_fold.specs.Gathered.{AllAreNonDescending, AreGathered};
ghost use Rattle.edge_apply.specs.Applied.{AreChangesOf};
ghost use Rattle.edge_apply.specs.Pieces.{EachGathered};
ghost use Rattle.edge_apply.specs.Words.{is_set, passes_words};
ghost use Rattle.push_engine.specs.Pieces.{Answers};
ghost use Rattle.push_engine.specs.inside.Rows.{rows_to};
ghost use Rattle.push_engine.specs.Sources.{passing_in};

use crate::listed::words_of_end;
use crate::neighbour_block::NeighbourBlock;
use crate::sources::{RowInput, fold_rows};
use crate::work::PushWork;
use crew::{Found, Work, Workers};
use edge_apply::{Apply, is_worth_workers, join_all, merge_by_ranges, part_between};
use edge_fold::{ApplyContext, FoldStart, Gathered, Scratch};
use kernels::EndpointFilter;
use std::alloc::{AllocError, Global};
use std::thread::Threads;
use vectors::Changes;

impl PushWork<'_> {
    /// How many pieces there are: none where the list that is cut is empty.
    pub fn pieces(&self) -> usize
        ensures { result ≡ length self.now.partition }
    {
        self.partition.pieces()
    }

    /// What the whole apply changes, from what was found of all its pieces, in whatever order. It is what a push says:
    /// for each vector that a function has given something one list of changes, by ascending vertices, and a vector
    /// without one does not change. The scratch serves any apply after this one, whatever became of it.
    ///
    /// The only error is out of memory.
    pub fn merge(
        &self,
        alloc: Global,
        found: &[Found<Gathered>],
        scratch: &mut Scratch,
    ) -> Result<Changes, AllocError>
        ensures once { IfOk result (λ c. AreApart c.vectors.items) }
        ensures changes { IfOk result (λ c. AreAnswers (Answers self.now) found.now
            → IsPermutation (pieces_of found.now) (range_with_len 1 (length self.now.partition))
            → AreChangesOf self.now.apply c.vectors.items) }
    {
        let context = self.apply.context(FoldStart::OldEntry);
        scratch.begin();
        join_all(alloc, context, found, scratch)?;
        scratch.changes(alloc, context, None)
    }

    /// What the apply changes, merged by these workers, each for its own ranges of destinations, if the pieces have found much.
    /// It takes their scratches from `states`, and puts them back.
    pub(crate) fn merge_by_workers<R: Threads + Sync, G>(
        &self,
        workers: &Workers<'_, R, G>,
        alloc: Global,
        found: &[Found<Gathered>],
        scratch: &mut Scratch,
        states: &mut Vec<Scratch>,
    ) -> Result<Changes, AllocError>
        ensures once { IfOk result (λ c. AreApart c.vectors.items) }
        ensures changes { IfOk result (λ c. AreAnswers (Answers self.now) found.now
            → IsPermutation (pieces_of found.now) (range_with_len 1 (length self.now.partition))
            → AreChangesOf self.now.apply c.vectors.items) }
    {
        if workers.count.get() > 1 && is_worth_workers(found) {
            return merge_by_ranges(workers.rt, workers.count, alloc, &self.apply, found, states);
        }
        self.merge(alloc, found, scratch)
    }

    /// The words by whose bits destinations are tested as edges come, where they are.
    fn destination_words(&self) -> Option<&[u64]>
        ensures { IfSome result (λ words. (m : StateValue) (to : ℕ → Bool) → self.now.apply.vectors.now.vectors ≡ m.vectors
            → HasSizes self.now.apply.sizes.now m → IsEndTest self.now.apply.to m to
            → (v : ℕ) → v < self.now.apply.flat.now.vertices → is_set words.now v ≡ to v) }
    {
        match &self.bits {
            Some(set) => set.words(),
            None => words_of_end(self.apply.to),
        }
    }

    /// What the edges from the sources of a piece give to the destinations whose bits are set and that an end lets
    /// through; words or an end that are not given let all through.
    fn gather_piece(
        &self,
        alloc: Global,
        piece: usize,
        words: Option<&[u64]>,
        to: Option<EndpointFilter<'_>>,
        state: &mut Scratch,
    ) -> Result<Gathered, AllocError>
        requires some { 0 < piece }
        requires inside { piece ≤ length self.now.partition }
        ensures ascending { IfOk result (λ g. AllAreNonDescending g.vectors.items) }
        ensures given { IfOk result (λ g. (m : StateValue) (steps : List FunctionStatementsTree) (from test : ℕ → Bool)
            → self.now.apply.vectors.now.vectors ≡ m.vectors → HasSizes self.now.apply.sizes.now m
            → AreKernels self.now.apply.first.now self.now.apply.second steps → IsEndTest self.now.apply.from m from → IsEndTest to.entry m test
            → AreGathered self.now.apply.flat.now.vertices m steps
            (filter (λ e. test e.1) (rows_to (passes_words words.entry) self.now.apply.flat.now.edges
            (passing_in self.now.tested from (piece_of self.now.partition self.now.sources.items piece)))) g) }
    {
        let context = self.apply.context(FoldStart::Unit);
        let indices = self.partition.piece(piece);
        let part = part_between(&self.sources, indices.start, indices.end);
        state.begin();
        self.fold_part(alloc, context, part, words, state)?;
        state.gathered(alloc, context, to)
    }

    /// Folds the edges from the sources of a piece that pass to the destinations whose bits are set.
    fn fold_part(
        &self,
        alloc: Global,
        context: ApplyContext<'_>,
        part: &[u32],
        to: Option<&[u64]>,
        scratch: &mut Scratch,
    ) -> Result<(), AllocError>
        ensures { OnOk result ((m : StateValue) (steps : List FunctionStatementsTree) (from : ℕ → Bool) → IsContextOf context.entry m steps
            → IsEndTest self.now.apply.from m from
            → HasFolded context.entry m steps [] scratch.old
            → HasFolded context.entry m steps (rows_to (passes_words to.entry) self.now.apply.flat.now.edges
            (passing_in self.now.tested from part.now)) scratch.new) }
    {
        if self.tested {
            fold_passing_part(alloc, &self.apply, context, part, to, scratch)?;
            return Ok(());
        }
        let mut block = NeighbourBlock::new();
        let flat = self.apply.flat;
        let input = RowInput { flat, context, to };
        fold_rows(alloc, input, part, &mut block, scratch)?;
        Ok(())
    }
}

impl<'a> Work for PushWork<'a> {
    type Out = Gathered;

    type State = Scratch;

    ghost pieces = { λ w. length w.partition };

    ghost keeps = { λ _ _. Unit {0} };

    ghost answers = { Answers };

    fn state(&self, alloc: Global) -> Result<Scratch, AllocError> {
        Ok(Scratch::new(alloc))
    }

    fn piece(
        &self,
        alloc: Global,
        state: &mut Scratch,
        piece: usize,
    ) -> Result<Gathered, AllocError> {
        match self.destination_words() {
            Some(words) => self.gather_piece(alloc, piece, Some(words), None, state),
            None => self.gather_piece(alloc, piece, None, self.apply.to, state),
        }
    }
}

/// Folds the edges from those of some sources that an end lets through to the destinations whose bits are set.
fn fold_passing_part(
    alloc: Global,
    apply: &Apply<'_>,
    context: ApplyContext<'_>,
    part: &[u32],
    to: Option<&[u64]>,
    scratch: &mut Scratch,
) -> Result<(), AllocError>
    ensures { OnOk result ((m : StateValue) (steps : List FunctionStatementsTree) (test : ℕ → Bool) → IsContextOf context.entry m steps → IsEndTest apply.now.from m test
        → HasFolded context.entry m steps [] scratch.old → HasFolded context.entry m steps
        (rows_to (passes_words to.entry) apply.now.flat.now.edges (filter test part.now)) scratch.new) }
{
    let mut block = NeighbourBlock::new();
    let flat = apply.flat;
    let input = RowInput { flat, context, to };
    match apply.from {
        None => {
            fold_rows(alloc, input, part, &mut block, scratch)?;
            Ok(())
        }
        Some(end) => {
            let mut kept = Vec::new(alloc);
            scratch.keep_passing(context, end, part, &mut kept)?;
            fold_rows(alloc, input, &kept, &mut block, scratch)?;
            Ok(())
        }
    }
}
