//! The last run that has a record, and a run beside that record.
ghost use Rattle.std.specs.Prelude.{◌≡◌, ◌≤◌, Err, IfOk, IfErr, IfSome, MatchBool, OnErr, length, ⊤};
ghost use Rattle.std.specs.Arc.{arc_value};
ghost use Rattle.shared_graph.specs.Histories.{batches_of, fold_of_first, steps_of, state_at, IsNewest, IsVersionOf, Shows};
ghost use Rattle.snapshot_runs.specs.declared.error.LatestRunError.TheVariants.{BadWorkers};
ghost use Rattle.snapshot_runs.specs.Outcome.{IsOutcomeOn, Leaves};
ghost use Rattle.snapshot_runs.specs.inside.Beside.{AreAlikeBut};
ghost use Rattle.snapshot_runs.specs.inside.Recorded.{IsRecordedOn, IsRecordedRun};
ghost use Rattle.version_list.specs.Machine.{opened};
ghost use Rattle.version_list.specs.Timeline.{IsLegal};

use crate::error::LatestRunError;
use crate::recorded::{flat_of, run_first_held};
use crew::{Gate, Workers};
use flat_snapshot::Flat;
use plans::Plan;
use run_records::{FormerRecord, RecordedRun, RunRecord, run_with_record};
use shared_graph::{Held, LatestError, Naming, Reader, Snapshot, Token};
use std::alloc::{AllocError, Global};
use std::sync::Arc;
use std::thread::Threads;
use tree_batch::Graph;

/// For so many edges of a graph one edge that differs is worth following.
const EDGES_FOR_ONE: usize = 100;

/// A run: the number of its version, its record, and a history that has the version.
pub(crate) struct LastRun<J: Naming> {
    version: u64,
    pub(crate) run_record: RunRecord,
    history: Token<J>,
    ghost made: { version ≤ length (batches_of history) },
    ghost graph_is: { arc_value run_record.graph ≡ fold_of_first J.vertices history version },
}

impl<J: Naming> Drop for LastRun<J> {
    fn drop(self) {
        let LastRun {
            version: _,
            run_record: _,
            history: _,
        } = self;
    }
}

impl<J: Naming> LastRun<J> {
    /// A run on the version of this number, which the history has.
    pub(crate) fn new(version: u64, run_record: RunRecord, history: Token<J>) -> LastRun<J>
        requires { IsVersionOf J.vertices history version (arc_value run_record.graph) }
        ensures { result.run_record ≡ run_record }
    {
        LastRun {
            version,
            run_record,
            history,
        }
    }

    /// The plan.
    pub(crate) fn plan(&self) -> &Plan
        ensures { result.now ≡ arc_value self.now.run_record.plan }
    {
        self.run_record.plan()
    }

    /// Runs the plan on the newest version, beside the record if the edges that differ are known and few.
    pub(crate) fn run_again<R: Threads + Sync, G: Gate + Sync>(
        &self,
        workers: &Workers<'_, R, G>,
        alloc: Global,
        reader: &mut Reader<J>,
        turns: u64,
    ) -> Result<(u64, RecordedRun), LatestRunError>
        ensures history { IfOk result (λ r. Shows (opened J.vertices J.room) reader.old reader.new) }
        ensures run { IfOk result (λ r. IsRecordedRun J.vertices (arc_value self.now.run_record.plan) turns reader.new.shown r.0 r.1) }
        ensures workers { result ≡ Err BadWorkers → ⊥ }
        ensures refused { IfErr result (λ e. Leaves (opened J.vertices J.room) e reader.old reader.new) }
    {
        let (snapshot, edges) = self.newest_since(alloc, reader)?;
        let graph = self.flat_of_newer(alloc, &snapshot.graph, &edges)?;
        let run = self.run_beside(workers, alloc, &graph, turns, &edges)?;
        Ok((snapshot.number, run))
    }

    /// Runs the plan on a version that is held, beside the record if that is of this version. The only error is out of memory.
    pub(crate) fn run_held_again<R: Threads + Sync, G: Gate + Sync>(
        &self,
        workers: &Workers<'_, R, G>,
        alloc: Global,
        held: &Held<J>,
        turns: u64,
    ) -> Result<RecordedRun, AllocError>
        ensures { IfOk result (IsRecordedOn (arc_value self.now.run_record.plan) held.now.graph turns) }
    {
        if self.is_on(held) {
            let no_edges = Some(Vec::new(alloc));
            self.run_beside(workers, alloc, self.run_record.graph(), turns, &no_edges)
        } else {
            run_first_held(workers, alloc, self.run_record.plan(), held, turns)
        }
    }

    // Whether the run was on the version that is held. Of the two histories one begins the other, so a number is that of one
    // version in both.
    fn is_on(&self, held: &Held<J>) -> bool
        ensures { MatchBool result (arc_value self.now.run_record.graph ≡ held.now.graph) ⊤ }
    {
        self.history.begins(&held.history());
        self.version == held.snapshot().number
    }

    // The newest version, and the edges in which it may differ from that of this run, if they are known.
    fn newest_since(
        &self,
        alloc: Global,
        reader: &mut Reader<J>,
    ) -> Result<(Snapshot, Option<Vec<(u32, u32)>>), LatestError>
        ensures shows { IfOk result (λ r. Shows (opened J.vertices J.room) reader.old reader.new) }
        ensures newest { IfOk result (λ r. IsNewest (state_at (opened J.vertices J.room) reader.new.shown) r.0.number (arc_value r.0.graph)) }
        ensures edges { IfOk result (λ r. IfSome r.1 (λ edges. AreAlikeBut edges.items (arc_value r.0.graph) (arc_value self.now.run_record.graph))) }
        ensures err { OnErr result (reader.new ≡ reader.old) }
        ensures legal { IsLegal (opened J.vertices J.room) (steps_of reader.new.shown) }
    {
        let (snapshot, edges) = reader.latest_since(alloc, self.version)?;
        if reader.knows(&self.history) {
            Ok((snapshot, edges))
        } else {
            Ok((snapshot, None))
        }
    }

    // The flat snapshot of a graph, which shares with that of this run if the edges that differ are known.
    fn flat_of_newer(
        &self,
        alloc: Global,
        graph: &Graph,
        edges: &Option<Vec<(u32, u32)>>,
    ) -> Result<Arc<Flat>, AllocError>
        requires { IfSome edges.now (λ edges. AreAlikeBut edges.items graph.now (arc_value self.now.run_record.graph)) }
        ensures { IfOk result (λ flat. arc_value flat ≡ graph.now) }
    {
        match edges {
            None => flat_of(alloc, graph),
            Some(edges) => {
                let flat = Flat::following(alloc, self.run_record.graph(), graph, edges)?;
                Ok(Arc::new(alloc, flat)?)
            }
        }
    }

    // Runs the plan on a graph, beside the record if the edges that differ are known and few.
    fn run_beside<R: Threads + Sync, G: Gate + Sync>(
        &self,
        workers: &Workers<'_, R, G>,
        alloc: Global,
        graph: &Arc<Flat>,
        turns: u64,
        edges: &Option<Vec<(u32, u32)>>,
    ) -> Result<RecordedRun, AllocError>
        requires { IfSome edges.now (λ edges. AreAlikeBut edges.items (arc_value graph.now) (arc_value self.now.run_record.graph)) }
        ensures means { IfOk result (λ r. IsOutcomeOn (arc_value self.now.run_record.plan) (arc_value graph.now) turns r.outcome) }
        ensures kept { IfOk result (λ r. IfSome r.run_record (λ made. (arc_value made.plan ≡ arc_value self.now.run_record.plan)
            × (arc_value made.graph ≡ arc_value graph.now))) }
    {
        let plan = self.run_record.plan();
        match edges {
            Some(edges) if edges.len() <= graph.edge_count() / EDGES_FOR_ONE => {
                let run_record = &self.run_record;
                let former = FormerRecord { run_record, edges };
                run_with_record(workers, alloc, plan, graph, turns, Some(former))
            }
            _ => run_with_record(workers, alloc, plan, graph, turns, None),
        }
    }
}
