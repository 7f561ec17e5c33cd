//! The record of a run: its edge applies, and what they changed.
ghost use Rattle.std.specs.Prelude.{◌≡◌, vec_len};
ghost use Rattle.std.specs.Arc.{arc_value};
ghost use Rattle.std.proofs.Props.{props};
ghost use Rattle.run_records.specs.Recorded.{AreRecorded};
ghost use Rattle.run_records.specs.inside.Propositions.{AreRecorded-prop};

use crate::apply_record::ApplyRecord;
use crate::recording::Recording;
use flat_snapshot::Flat;
use plans::Plan;
use std::sync::Arc;
use vectors::Vectors;

/// The edge applies of a run of a plan on a graph, from the first one on, up to the first at which the vectors had been written
/// to otherwise since the apply before.
pub struct RunRecord {
    pub(crate) plan: Arc<Plan>,
    pub(crate) graph: Arc<Flat>,
    /// The vectors at the first apply.
    pub(crate) start: Vectors,
    pub(crate) applies: Vec<ApplyRecord>,
    ghost recorded: { AreRecorded (arc_value plan).functions (arc_value graph) start.vectors applies.items } by { AreRecorded-prop (arc_value plan).functions (arc_value graph) start.vectors applies.items },
}

impl Drop for RunRecord {
    fn drop(self) {
        let RunRecord {
            plan: _,
            graph: _,
            start: _,
            applies: _,
        } = self;
    }
}

impl RunRecord {
    /// The record of a run of this plan on this graph.
    pub(crate) fn of(recording: Recording, plan: Arc<Plan>, graph: Arc<Flat>) -> RunRecord
        requires { AreRecorded (arc_value plan).functions (arc_value graph) recording.start.vectors recording.applies.items }
        ensures plan { result.plan ≡ plan }
        ensures graph { result.graph ≡ graph }
    {
        let (start, applies) = recording.into_parts();
        RunRecord {
            plan,
            graph,
            start,
            applies,
        }
    }

    /// The plan of the run.
    pub fn plan(&self) -> &Arc<Plan>
        ensures { arc_value result.now ≡ arc_value self.now.plan }
    {
        &self.plan
    }

    /// The graph of the run.
    pub fn graph(&self) -> &Arc<Flat>
        ensures { arc_value result.now ≡ arc_value self.now.graph }
    {
        &self.graph
    }

    /// How many edge applies it has.
    pub fn len(&self) -> usize
        ensures { result ≡ vec_len self.now.applies }
    {
        self.applies.len()
    }
}
