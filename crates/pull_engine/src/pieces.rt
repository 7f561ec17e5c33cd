//! Pieces of an apply by pull, and their merge.
ghost use Rattle.std.specs.Prelude.{◌≡◌, ℕ, ◌-◌, ◌<◌, ◌≤◌, ◌++◌, Bool, List, [], length, Contains, IfNone, IfOk, IfSome, OnOk, Some};
ghost use Rattle.std.specs.List.{flat_map, range_with_len};
ghost use Rattle.std.specs.List.Sorted.{IsPermutation};
ghost use Rattle.crew.specs.Partition.{end_of};
ghost use Rattle.crew.specs.Pieces.{AreAnswers, pieces_of};
ghost use Rattle.kernels.specs.State.{StateValue};
ghost use Rattle.edge_fold.specs.Ends.{IsEndTest};
ghost use Rattle.edge_fold.specs.Changed.{AreApart};
ghost use Rattle.edge_apply.specs.Applied.{AreChangesOf};
ghost use Rattle.vectors.specs.declared.changes.EntryChange.{EntryChange as Change};
ghost use Rattle.pull_engine.specs.Pieces.{Answers, AreFor, GathersPiece, IsPiecePulled};
ghost use Rattle.pull_engine.specs.inside.PieceRanges.{IsRangeOfPiece};
ghost use Rattle.pull_engine.specs.Ranges.{all_listed, shape_vector as vector_of};

use crate::changes::changes_in;
use crate::destinations::fold_range;
use crate::ranges::PullRange;
use crate::shapes::{ShapeTarget, pull_shape, shape_target};
use crate::work::PullWork;
use crew::{Found, Work};
use edge_apply::{count_found, join_all};
use edge_fold::{ApplyContext, FoldStart, Gathered, GatheredIn, Scratch};
use kernels::EndpointFilter;
use std::alloc::{AllocError, Global};
use vectors::{Changes, EntryChange};

impl PullWork<'_> {
    /// How many pieces there are, at least one.
    pub fn pieces(&self) -> usize
        ensures { result ≡ length self.now.partition }
    {
        self.partition.pieces()
    }

    /// What the whole apply changes, from what was found of all its pieces, in whatever order. It is what a pull says:
    /// for each vector that a function has given something one list of changes, by ascending vertices, and a vector
    /// without one does not change. The scratch serves any apply after this one, whatever became of it.
    ///
    /// The only error is out of memory.
    pub fn merge(
        &self,
        alloc: Global,
        found: &[Found<Gathered>],
        scratch: &mut Scratch,
    ) -> Result<Changes, AllocError>
        ensures once { IfOk result (λ c. AreApart c.vectors.items) }
        ensures changes { IfOk result (λ c. AreAnswers (Answers self.now) found.now
            → IsPermutation (pieces_of found.now) (range_with_len 1 (length self.now.partition))
            → AreChangesOf self.now.apply c.vectors.items) }
    {
        match shape_target(self.shape) {
            Some(target) => {
                let changes = append_pieces(alloc, self.partition.pieces(), found)?;
                changes_in(alloc, target.vector, changes)
            }
            None => self.merge_gathered(alloc, found, scratch),
        }
    }

    /// What the whole apply changes, from what its pieces give by functions of no known shape.
    fn merge_gathered(
        &self,
        alloc: Global,
        found: &[Found<Gathered>],
        scratch: &mut Scratch,
    ) -> Result<Changes, AllocError>
        ensures once { IfOk result (λ c. AreApart c.vectors.items) }
        ensures changes { IfOk result (λ c. AreAnswers (GathersPiece self.now) found.now
            → IsPermutation (pieces_of found.now) (range_with_len 1 (length self.now.partition))
            → AreChangesOf self.now.apply c.vectors.items) }
    {
        let context = self.apply.context(FoldStart::OldEntry);
        scratch.begin();
        join_all(alloc, context, found, scratch)?;
        scratch.changes(alloc, context, None)
    }

    /// The first vertex of a piece, and the one after its last.
    fn vertices_of(&self, piece: usize) -> (u32, u32)
        requires some { 0 < piece }
        requires inside { piece ≤ length self.now.partition }
        ensures low { result.0 ≡ end_of self.now.partition (piece - 1) }
        ensures high { result.1 ≡ end_of self.now.partition piece }
        ensures order { result.0 ≤ result.1 }
        ensures within { result.1 ≤ self.now.apply.flat.now.vertices }
    {
        self.apply.flat.vertices();
        let indices = self.partition.piece(piece);
        (indices.start as u32, indices.end as u32)
    }

    /// The destinations of the apply, a set in bits.
    fn destinations(&self) -> Option<EndpointFilter<'_>>
        ensures { (m : StateValue) (test : ℕ → Bool) → IsEndTest self.now.apply.to m test → IsEndTest result m test }
    {
        match &self.members {
            Some(set) => Some(EndpointFilter::Members(set)),
            None => self.apply.to,
        }
    }

    /// The range of a piece.
    fn range(&self, start: FoldStart, piece: usize) -> PullRange<'_>
        requires some { 0 < piece }
        requires inside { piece ≤ length self.now.partition }
        ensures { IsRangeOfPiece self.now start piece result }
    {
        let (low, high) = self.vertices_of(piece);
        PullRange {
            flat: self.apply.flat,
            context: self.apply.context(start),
            from: self.sources.words(),
            to: self.destinations(),
            low,
            high,
            masked: &self.masked,
        }
    }

    /// What the edges into the vertices of a piece give.
    fn gather_piece(
        &self,
        alloc: Global,
        scratch: &mut Scratch,
        piece: usize,
    ) -> Result<Gathered, AllocError>
        requires some { 0 < piece }
        requires inside { piece ≤ length self.now.partition }
        ensures { IfOk result (GathersPiece self.now piece) }
    {
        let range = self.range(FoldStart::Unit, piece);
        fold_range(alloc, range, scratch)?;
        scratch.gathered(alloc, range.context, None)
    }

    /// What the apply changes at the vertices of a piece, by a function of a common shape.
    fn pull_piece(
        &self,
        alloc: Global,
        scratch: &mut Scratch,
        piece: usize,
    ) -> Result<Vec<EntryChange>, AllocError>
        requires some { 0 < piece }
        requires inside { piece ≤ length self.now.partition }
        ensures { IfOk result (λ cs. IfSome (vector_of self.now.shape) (λ vector. IsPiecePulled vector self.now piece cs.items)) }
    {
        let range = self.range(FoldStart::OldEntry, piece);
        pull_shape(alloc, self.shape, range, scratch)
    }
}

impl<'a> Work for PullWork<'a> {
    type Out = Gathered;

    type State = Scratch;

    ghost pieces = { λ w. length w.partition };

    ghost keeps = { λ _ _. Unit {0} };

    ghost answers = { Answers };

    fn state(&self, alloc: Global) -> Result<Scratch, AllocError> {
        Ok(Scratch::new(alloc))
    }

    fn piece(
        &self,
        alloc: Global,
        scratch: &mut Scratch,
        piece: usize,
    ) -> Result<Gathered, AllocError> {
        match shape_target(self.shape) {
            Some(target) => {
                let changes = self.pull_piece(alloc, scratch, piece)?;
                listed_in(alloc, target, changes)
            }
            None => self.gather_piece(alloc, scratch, piece),
        }
    }
}

/// The changes of one vector, as what a piece answers.
fn listed_in(
    alloc: Global,
    target: ShapeTarget,
    changes: Vec<EntryChange>,
) -> Result<Gathered, AllocError>
    ensures { IfOk result (λ g. (all_listed g.vectors.items ≡ changes.items)
        × AreFor (Some target.vector) (Some target.reduction) g.vectors.items) }
{
    let mut vectors = Vec::with_capacity(alloc, 1)?;
    vectors.push(GatheredIn {
        vector: target.vector,
        reduction: target.reduction,
        numbers: changes,
    })?;
    Ok(Gathered { vectors })
}

/// The changes of all pieces, one piece after the other. The only error is out of memory.
fn append_pieces(
    alloc: Global,
    pieces: usize,
    found: &[Found<Gathered>],
) -> Result<Vec<EntryChange>, AllocError>
    ensures { IfOk result (λ cs. (parts : ℕ → List Change) → IsPermutation (pieces_of found.now) (range_with_len 1 pieces)
        → AreAnswers (λ k g. all_listed g.vectors.items ≡ parts k) found.now → cs.items ≡ flat_map parts (range_with_len 1 pieces)) }
{
    let mut changes = Vec::with_capacity(alloc, count_found(found))?;
    'pieces: for index in 0..pieces {
        match find_piece(found, index + 1) {
            Some(one) => append_listed(&one.vectors, &mut changes)?,
            None => {}
        }
    }
    Ok(changes)
}

/// Adds all that is listed.
fn append_listed(vectors: &[GatheredIn], changes: &mut Vec<EntryChange>) -> Result<(), AllocError>
    ensures { OnOk result (changes.new.items ≡ changes.old.items ++ all_listed vectors.now) }
{
    'vectors: for of_vector in vectors {
        changes.extend_from_slice(&of_vector.numbers)?;
    }
    Ok(())
}

/// What was found of a piece. It takes constant time where the pieces come in their order.
fn find_piece(found: &[Found<Gathered>], piece: usize) -> Option<&Gathered>
    requires { 0 < piece }
    ensures some { IfSome result (λ g. (parts : ℕ → List Change) → AreAnswers (λ k g. all_listed g.vectors.items ≡ parts k) found.now
        → all_listed g.now.vectors.items ≡ parts piece) }
    ensures none { IfNone result (¬ Contains (pieces_of found.now) piece) }
{
    if piece <= found.len() && found[piece - 1].piece == piece {
        return Some(&found[piece - 1].out);
    }
    'found: for one in found {
        if one.piece == piece {
            return Some(&one.out);
        }
    }
    None
}
