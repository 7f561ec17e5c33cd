//! The follower, who does the edge applies of a run, makes its record, and follows that of a former run.
ghost use Rattle.std.specs.Prelude.{◌≡◌, ℤ, List, None, IfOk, IfSome};
ghost use Rattle.std.specs.Arc.{arc_value};
ghost use Rattle.edge_differences.specs.Listed.{AreSameBut};
ghost use Rattle.edge_fold.specs.Changed.{AreApart};
ghost use Rattle.follow_engine.specs.Reduced.{AreChangesReduced};
ghost use Rattle.flat_snapshot.specs.Digraph.{Digraph};
ghost use Rattle.plans.specs.declared.functions.FunctionKernels.{FunctionKernels};
ghost use Rattle.runner.specs.EdgeMap.{IsApplyOfRun};
ghost use Rattle.vectors.specs.Changes.{with_all_changes};
ghost use Rattle.run_records.specs.Recorded.{AreRecorded, vectors_through};
ghost use Rattle.run_records.specs.inside.FormerRun.{IsBeside};
ghost use Rattle.run_records.specs.inside.Follower.{AreKnownOf, AreRecordersVectors, IsFollower, IsRecorderOf, Knows};
ghost use Rattle.run_records.specs.declared.follower.Recorder.TheVariants as Recorder;

use crate::former_run::FormerRun;
use crate::recording::Recording;
use crate::run_record::RunRecord;
use edge_apply::Apply;
use edge_fold::Scratch;
use flat_snapshot::Flat;
use follow_engine::found_changes_may_be_followed;
use plans::Plan;
use run_state::RunView;
use runner::{ApplyEngine, EdgeApplier, EdgeMap, apply_of, edge_map};
use std::alloc::{AllocError, Global};
use std::sync::Arc;
use vectors::Changes;
use vertex_marks::VertexMarks;
use vertex_sets::{Form, VertexSet};

/// What a follower records.
#[derive(Drop)]
pub(crate) enum Recorder {
    /// The run has done no apply.
    NotBegun,
    /// The vectors are as the last recorded apply has left them.
    Open(Recording),
    /// The vectors were written to otherwise after the last recorded apply.
    Closed(Recording),
    /// The record had no room, or memory was refused for it.
    Dropped,
}

/// An applier that makes the record of a run, and goes beside that of a former run as long as that is worth it. `by` does the
/// applies from nothing.
pub struct Follower<'a, E> {
    by: E,
    pub(crate) former: Option<FormerRun<'a>>,
    pub(crate) recorder: Recorder,
    marks: VertexMarks,
    scratch: Scratch,
}

impl<E: Drop> Drop for Follower<'_, E> {
    fn drop(self) {
        let Follower {
            by: _,
            former: _,
            recorder: _,
            marks: _,
            scratch: _,
        } = self;
    }
}

impl<'a, E: Drop> Follower<'a, E> {
    /// One that follows no record.
    pub fn of_nothing(alloc: Global, by: E) -> Follower<'a, E>
        ensures by { result.by ≡ by }
        ensures follower { (f : FunctionKernels) (g : Digraph) → IsFollower f g result }
    {
        Follower {
            by,
            former: None,
            recorder: Recorder::NotBegun,
            marks: VertexMarks::new(alloc),
            scratch: Scratch::new(alloc),
        }
    }

    /// One that follows a record, if there is memory for a copy of its vectors. The listed edges are all in which the graph of
    /// the run differs from that of the record, and both have the same number of vertices.
    pub fn of(
        alloc: Global,
        run_record: &'a RunRecord,
        edges: &'a [(u32, u32)],
        by: E,
    ) -> Follower<'a, E>
        ensures by { result.by ≡ by }
        ensures follower { (g : Digraph) → (arc_value run_record.now.graph).vertices ≡ g.vertices → AreSameBut edges.now g.edges (arc_value run_record.now.graph).edges
            → IsFollower (arc_value run_record.now.plan).functions g result }
    {
        let former = FormerRun::new(alloc, run_record, edges).ok();
        Follower {
            by,
            former,
            recorder: Recorder::NotBegun,
            marks: VertexMarks::new(alloc),
            scratch: Scratch::new(alloc),
        }
    }

    /// The record of a run of this plan on this graph, if it was kept.
    pub fn into_record(self, plan: Arc<Plan>, graph: Arc<Flat>) -> Option<RunRecord>
        requires { IsFollower (arc_value plan).functions (arc_value graph) self }
        ensures { IfSome result (λ r. (r.plan ≡ plan) × (r.graph ≡ graph)) }
    {
        let Follower {
            by: _,
            former: _,
            recorder,
            marks: _,
            scratch: _,
        } = self;
        match recorder {
            Recorder::NotBegun => None,
            Recorder::Open(recording) => Some(RunRecord::of(recording, plan, graph)),
            Recorder::Closed(recording) => Some(RunRecord::of(recording, plan, graph)),
            Recorder::Dropped => None,
        }
    }

    /// Appends an apply and its changes to the record. A record that has no room for it is dropped.
    fn keep_record(
        &mut self,
        alloc: Global,
        run: RunView<'_>,
        asked: EdgeMap,
        apply: &Apply<'_>,
        changes: &Changes,
    )
        requires recorder { IsRecorderOf run.functions.now run.graph.now self.old.recorder }
        requires vectors { AreRecordersVectors self.old.recorder run.vectors.now.vectors }
        requires apply { IsApplyOfRun run asked apply.now }
        requires once { AreApart changes.now.vectors.items }
        requires changes { AreChangesReduced apply.now changes.now.vectors.items }
        ensures engine { self.new.by ≡ self.old.by }
        ensures former { self.new.former ≡ self.old.former }
        ensures recorder { IsRecorderOf run.entry.functions.now run.entry.graph.now self.new.recorder }
        ensures vectors { AreRecordersVectors self.new.recorder (with_all_changes changes.now.vectors.items run.entry.vectors.now.vectors) }
    {
        self.recorder = with_apply(
            alloc,
            take_recorder(&mut self.recorder),
            run,
            asked,
            apply,
            changes,
        );
    }
}

impl<E: ApplyEngine> Follower<'_, E> {
    /// What an apply of a run changes, if it is found beside the record. If it is not, the record is followed no more.
    fn followed(
        &mut self,
        alloc: Global,
        run: RunView<'_>,
        asked: EdgeMap,
        apply: &Apply<'_>,
    ) -> Option<Changes>
        requires former { IfSome self.old.former (IsBeside run.functions.now run.graph.now) }
        requires known { IfSome self.old.former (AreKnownOf run.vectors.now.vectors) }
        requires apply { IsApplyOfRun run asked apply.now }
        ensures once { IfSome result (λ c. AreApart c.vectors.items) }
        ensures changes { IfSome result (λ c. AreChangesReduced apply.now c.vectors.items) }
        ensures former { IfSome self.new.former (IsBeside run.entry.functions.now run.entry.graph.now) }
        ensures known { IfSome result (λ c. IfSome self.new.former (AreKnownOf (with_all_changes c.vectors.items run.entry.vectors.now.vectors))) }
        ensures none { result ≡ None → self.new.former ≡ None }
        ensures engine { self.new.by ≡ self.old.by }
        ensures recorder { self.new.recorder ≡ self.old.recorder }
    {
        let mut former = self.former.take()?;
        let (marks, scratch) = (&mut self.marks, &mut self.scratch);
        match former.follow(alloc, run, asked, apply, marks, scratch) {
            Err(_) => None,
            Ok(found) => {
                let changes = found?;
                self.former = Some(former);
                Some(changes)
            }
        }
    }

    /// What an apply of a run changes, found beside the record if it is followed, and else from nothing.
    fn changes(
        &mut self,
        alloc: Global,
        run: RunView<'_>,
        asked: EdgeMap,
        apply: &Apply<'_>,
    ) -> Result<Changes, AllocError>
        requires engine { E.is_ready self.old.by run.graph.now }
        requires former { IfSome self.old.former (IsBeside run.functions.now run.graph.now) }
        requires known { IfSome self.old.former (AreKnownOf run.vectors.now.vectors) }
        requires apply { IsApplyOfRun run asked apply.now }
        ensures once { IfOk result (λ c. AreApart c.vectors.items) }
        ensures changes { IfOk result (λ c. AreChangesReduced apply.now c.vectors.items) }
        ensures engine { E.is_ready self.new.by run.entry.graph.now }
        ensures former { IfSome self.new.former (IsBeside run.entry.functions.now run.entry.graph.now) }
        ensures known { IfOk result (λ c. IfSome self.new.former (AreKnownOf (with_all_changes c.vectors.items run.entry.vectors.now.vectors))) }
        ensures recorder { self.new.recorder ≡ self.old.recorder }
    {
        if let Some(changes) = self.followed(alloc, run, asked, apply) {
            return Ok(changes);
        }
        found_changes_may_be_followed();
        edge_map(alloc, *apply, &mut self.by)
    }
}

impl<E: ApplyEngine + Drop> EdgeApplier for Follower<'_, E> {
    ghost is_ready = { λ s f g. E.is_ready s.by g × IsFollower f g s };

    ghost knows = { λ s vectors. Knows s vectors };

    fn forget_vectors(&mut self) {
        self.former = forgotten(self.former.take());
        self.recorder = closed(take_recorder(&mut self.recorder));
    }

    fn apply_edges(
        &mut self,
        alloc: Global,
        run: RunView<'_>,
        asked: EdgeMap,
    ) -> Result<Changes, AllocError> {
        let no_members = VertexSet::empty(alloc, run.graph.vertices(), Form::List)?;
        let apply = apply_of(run, asked, &no_members);
        let changes = self.changes(alloc, run, asked, &apply)?;
        self.keep_record(alloc, run, asked, &apply, &changes);
        Ok(changes)
    }
}

/// A recorder after an apply and its changes, which go to the end of an open record. A record that has no room is dropped.
fn with_apply(
    alloc: Global,
    recorder: Recorder,
    run: RunView<'_>,
    asked: EdgeMap,
    apply: &Apply<'_>,
    changes: &Changes,
) -> Recorder
    requires recorder { IsRecorderOf run.functions.now run.graph.now recorder }
    requires vectors { AreRecordersVectors recorder run.vectors.now.vectors }
    requires apply { IsApplyOfRun run asked apply.now }
    requires once { AreApart changes.now.vectors.items }
    requires changes { AreChangesReduced apply.now changes.now.vectors.items }
    ensures recorder { IsRecorderOf run.entry.functions.now run.entry.graph.now result }
    ensures vectors { AreRecordersVectors result (with_all_changes changes.now.vectors.items run.entry.vectors.now.vectors) }
{
    match recorder {
        Recorder::NotBegun => {
            match Recording::begin(alloc, run.vectors, run.graph.vertices()) {
                Err(_) => Recorder::Dropped,
                Ok(recording) => added(alloc, recording, run, asked, apply, changes),
            }
        }
        Recorder::Open(recording) => added(alloc, recording, run, asked, apply, changes),
        Recorder::Closed(ended) => Recorder::Closed(ended),
        Recorder::Dropped => Recorder::Dropped,
    }
}

/// An open record with one more apply, or none if it has no room for that.
fn added(
    alloc: Global,
    mut recording: Recording,
    run: RunView<'_>,
    asked: EdgeMap,
    apply: &Apply<'_>,
    changes: &Changes,
) -> Recorder
    requires recorded { AreRecorded run.functions.now run.graph.now recording.start.vectors recording.applies.items }
    requires vectors { run.vectors.now.vectors ≡ vectors_through recording.applies.items recording.start.vectors }
    requires apply { IsApplyOfRun run asked apply.now }
    requires once { AreApart changes.now.vectors.items }
    requires changes { AreChangesReduced apply.now changes.now.vectors.items }
    ensures recorder { IsRecorderOf run.entry.functions.now run.entry.graph.now result }
    ensures vectors { AreRecordersVectors result (with_all_changes changes.now.vectors.items run.entry.vectors.now.vectors) }
{
    match recording.add(alloc, run, asked, apply, changes) {
        Err(_) => Recorder::Dropped,
        Ok(()) => Recorder::Open(recording),
    }
}

/// A run beside a record, of which the vectors may be any.
fn forgotten(former: Option<FormerRun<'_>>) -> Option<FormerRun<'_>>
    ensures beside { (f : FunctionKernels) (g : Digraph) → IfSome former.entry (IsBeside f g) → IfSome result (IsBeside f g) }
    ensures known { (vectors : List (List ℤ)) → IfSome result (AreKnownOf vectors) }
{
    match former {
        None => None,
        Some(former) => Some(former.with_any_vectors()),
    }
}

/// What was recorded. Nothing more is.
fn closed(recorder: Recorder) -> Recorder
    ensures recorded { (f : FunctionKernels) (g : Digraph) → IsRecorderOf f g recorder → IsRecorderOf f g result }
    ensures vectors { (vectors : List (List ℤ)) → AreRecordersVectors result vectors }
{
    match recorder {
        Recorder::NotBegun => Recorder::NotBegun,
        Recorder::Open(recording) => Recorder::Closed(recording),
        Recorder::Closed(recording) => Recorder::Closed(recording),
        Recorder::Dropped => Recorder::Dropped,
    }
}

/// Takes what a follower records, and leaves that it records nothing.
fn take_recorder(recorder: &mut Recorder) -> Recorder
    ensures taken { result ≡ recorder.old }
    ensures left { recorder.new ≡ Recorder.Dropped }
{
    std::mem::replace(recorder, Recorder::Dropped)
}
