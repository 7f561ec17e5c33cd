//! A run beside the record of a former run of the same plan.
ghost use Rattle.std.specs.Prelude.{◌≡◌, [], true, None, IfOk, IfSome};
ghost use Rattle.std.specs.Arc.{arc_value};
ghost use Rattle.std.specs.Option.{option_map};
ghost use Rattle.edge_differences.specs.Listed.{AreSameBut};
ghost use Rattle.edge_fold.specs.Changed.{AreApart};
ghost use Rattle.flat_snapshot.specs.Digraph.{Digraph};
ghost use Rattle.follow_engine.specs.Local.{are_local};
ghost use Rattle.follow_engine.specs.Reduced.{AreChangesReduced};
ghost use Rattle.plans.specs.declared.functions.FunctionKernels.{FunctionKernels};
ghost use Rattle.runner.specs.EdgeMap.{IsApplyOfRun};
ghost use Rattle.vectors.specs.Changes.{with_all_changes};
ghost use Rattle.follow_engine.specs.Following.{AreEndsBut};
ghost use Rattle.run_records.specs.inside.Ends.{AreOfOneKind};
ghost use Rattle.run_records.specs.inside.FormerRun.{AreAlikeBut, AreKnown, IsBeside, IsRecordedApply};

use crate::apply_record::ApplyRecord;
use crate::differences::end_differences;
use crate::ends::recorded_end;
use crate::rows::have_rows;
use crate::run_record::RunRecord;
use crate::vector_copies::copied;
use edge_apply::Apply;
use edge_fold::Scratch;
use follow_engine::{
    Differences, Followed, FormerApply, all_differing, differing, follow,
    vectors_agree_where_none_differs,
};
use kernels::EndpointFilter;
use run_state::RunView;
use runner::EdgeMap;
use std::alloc::{AllocError, Global};
use vectors::{Changes, Vectors};
use vertex_marks::VertexMarks;
use vertex_sets::{Form, VertexSet};

/// Where a run is beside the record of a former run.
pub(crate) struct FormerRun<'a> {
    pub(crate) run_record: &'a RunRecord,
    /// The ends of the edges in which the two graphs may differ.
    pub(crate) edges: &'a [(u32, u32)],
    /// The vectors of the former run at its next apply.
    pub(crate) vectors: Vectors,
    pub(crate) next: usize,
    /// The vertices at which the vectors of the two runs may differ, if they are known.
    pub(crate) candidates: Option<Vec<u32>>,
}

impl Drop for FormerRun<'_> {
    fn drop(self) {
        let FormerRun {
            run_record: _,
            edges: _,
            vectors: _,
            next: _,
            candidates: _,
        } = self;
    }
}

/// In what an apply may differ from the recorded one.
#[derive(Drop)]
struct NamedDifferences {
    entries: Vec<u32>,
    sources: Vec<u32>,
    destinations: Vec<u32>,
}

impl NamedDifferences {
    /// Whether nothing is named.
    fn is_empty(&self) -> bool {
        self.entries.is_empty() && self.sources.is_empty() && self.destinations.is_empty()
    }
}

impl<'a> FormerRun<'a> {
    /// A run that is before the first apply of a record. The only error is out of memory.
    pub(crate) fn new(
        alloc: Global,
        run_record: &'a RunRecord,
        edges: &'a [(u32, u32)],
    ) -> Result<FormerRun<'a>, AllocError>
        ensures { IfOk result (λ r. (g : Digraph) → (arc_value run_record.now.graph).vertices ≡ g.vertices
            → AreSameBut edges.now g.edges (arc_value run_record.now.graph).edges → IsBeside (arc_value run_record.now.plan).functions g r) }
    {
        Ok(FormerRun {
            run_record,
            edges,
            vectors: copied(alloc, &run_record.start)?,
            next: 0,
            candidates: None,
        })
    }

    /// Gives this run back with no candidates: from then on the vectors of the two runs may differ anywhere.
    pub(crate) fn with_any_vectors(mut self) -> FormerRun<'a>
        ensures beside { (f : FunctionKernels) (g : Digraph) → IsBeside f g self.entry → IsBeside f g result }
        ensures candidates { result.candidates ≡ None }
    {
        self.candidates = None;
        self
    }

    /// What an apply of a run changes, found beside the next apply of the record. It answers `None` if that is an apply of
    /// other functions or between other ends, if a function reads more than the two ends of an edge, if there is no next one, or
    /// if the budget is spent: then nothing more may be asked. The only error is out of memory, after which nothing more may
    /// be asked either.
    pub(crate) fn follow(
        &mut self,
        alloc: Global,
        run: RunView<'_>,
        asked: EdgeMap,
        apply: &Apply<'_>,
        marks: &mut VertexMarks,
        scratch: &mut Scratch,
    ) -> Result<Option<Changes>, AllocError>
        requires beside { IsBeside run.functions.now run.graph.now self.old }
        requires known { AreKnown run.graph.now.vertices self.old.vectors.vectors (option_map (λ c. c.items) self.old.candidates) run.vectors.now.vectors }
        requires apply { IsApplyOfRun run asked apply.now }
        ensures once { IfOk result (λ found. IfSome found (λ c. AreApart c.vectors.items)) }
        ensures changes { IfOk result (λ found. IfSome found (λ c. AreChangesReduced apply.now c.vectors.items)) }
        ensures beside { IfOk result (λ found. IfSome found (λ _. IsBeside run.entry.functions.now run.entry.graph.now self.new)) }
        ensures known { IfOk result (λ found. IfSome found (λ c. AreKnown run.entry.graph.now.vertices self.new.vectors.vectors (option_map (λ l. l.items) self.new.candidates)
            (with_all_changes c.vectors.items run.entry.vectors.now.vectors))) }
    {
        let Some(recorded) = self.run_record.applies.get(self.next) else {
            return Ok(None);
        };
        if !is_same_map(recorded, asked) || !stays_local(apply) {
            return Ok(None);
        }
        let no_members = VertexSet::empty(alloc, run.graph.vertices(), Form::List)?;
        let former = self.recorded_apply(recorded, apply, &no_members);
        let Some(named) = self.differences(alloc, apply, &former)? else {
            return Ok(None);
        };
        let followed = Followed {
            former: FormerApply {
                apply: former,
                changes: &recorded.changes,
            },
            differences: Differences {
                entries: &named.entries,
                sources: &named.sources,
                destinations: &named.destinations,
                edges: self.edges,
            },
            budget: budget_of(apply, &former, &named, self.edges),
        };
        let Some(changes) = follow(alloc, apply, &followed, marks, scratch)? else {
            return Ok(None);
        };
        self.candidates = Some(marks.members(alloc)?);
        self.vectors.write(&recorded.changes);
        self.next += 1;
        Ok(Some(changes))
    }

    /// A recorded apply, as the engines take it.
    fn recorded_apply<'b>(
        &'b self,
        recorded: &'b ApplyRecord,
        apply: &Apply<'_>,
        no_members: &'b VertexSet,
    ) -> Apply<'b>
        requires { no_members.now.members ≡ [] }
        ensures { IsRecordedApply self.now recorded.now result }
    {
        let functions = &self.run_record.plan.functions;
        let ends = recorded.asked.ends;
        Apply {
            flat: &self.run_record.graph,
            vectors: &self.vectors,
            sizes: &recorded.sizes,
            from: recorded_end(ends.from, &recorded.sources, functions, no_members),
            to: recorded_end(ends.to, &recorded.destinations, functions, no_members),
            first: functions.edge.get(recorded.asked.first),
            second: recorded.asked.second.map(|index| functions.edge.get(index)),
            direction: apply.direction,
            parallelization: apply.parallelization,
        }
    }

    /// In what an apply may differ from the recorded one, or `None` if no lists can name it.
    fn differences(
        &self,
        alloc: Global,
        apply: &Apply<'_>,
        former: &Apply<'_>,
    ) -> Result<Option<NamedDifferences>, AllocError>
        requires from { AreOfOneKind apply.now.from former.now.from }
        requires to { AreOfOneKind apply.now.to former.now.to }
        requires known { AreKnown apply.now.flat.now.vertices self.now.vectors.vectors (option_map (λ c. c.items) self.now.candidates) apply.now.vectors.now.vectors }
        ensures entries { IfOk result (λ found. IfSome found (λ d. AreAlikeBut apply.now.flat.now.vertices self.now.vectors.vectors apply.now.vectors.now.vectors d.entries.items)) }
        ensures sources { IfOk result (λ found. IfSome found (λ d. AreEndsBut d.sources.items apply.now.from former.now.from)) }
        ensures destinations { IfOk result (λ found. IfSome found (λ d. AreEndsBut d.destinations.items apply.now.to former.now.to)) }
    {
        let Some(entries) = self.other_entries(alloc, apply)? else {
            return Ok(None);
        };
        let Some(sources) = end_differences(alloc, apply.from, former.from)? else {
            return Ok(None);
        };
        let Some(destinations) = end_differences(alloc, apply.to, former.to)? else {
            return Ok(None);
        };
        Ok(Some(NamedDifferences {
            entries,
            sources,
            destinations,
        }))
    }

    /// The vertices at which the vectors of an apply differ from those that are kept, or `None` if they have other rows.
    fn other_entries(
        &self,
        alloc: Global,
        apply: &Apply<'_>,
    ) -> Result<Option<Vec<u32>>, AllocError>
        requires { AreKnown apply.now.flat.now.vertices self.now.vectors.vectors (option_map (λ c. c.items) self.now.candidates) apply.now.vectors.now.vectors }
        ensures { IfOk result (λ found. IfSome found (λ listed. AreAlikeBut apply.now.flat.now.vertices self.now.vectors.vectors apply.now.vectors.now.vectors listed.items)) }
    {
        let count = self.vectors.count();
        let vertices = apply.flat.vertices();
        if !have_rows(&self.vectors, count, vertices) {
            return Ok(None);
        }
        if !have_rows(apply.vectors, count, vertices) {
            return Ok(None);
        }
        vectors_agree_where_none_differs();
        match &self.candidates {
            None => {
                let found = all_differing(alloc, apply.vectors, &self.vectors, count, vertices)?;
                Ok(Some(found))
            }
            Some(listed) => {
                let found = differing(alloc, apply.vectors, &self.vectors, count, listed)?;
                Ok(Some(found))
            }
        }
    }
}

/// Whether an apply is of the recorded functions and between the recorded ends.
fn is_same_map(recorded: &ApplyRecord, asked: EdgeMap) -> bool
    ensures { result ≡ true → (recorded.now.asked.ends ≡ asked.ends) × (recorded.now.asked.first ≡ asked.first)
        × (recorded.now.asked.second ≡ asked.second) }
{
    let was = recorded.asked;
    was.ends == asked.ends && was.first == asked.first && was.second == asked.second
}

/// Whether the functions of an apply read no entry but those of the two ends of an edge, and no size of a set.
fn stays_local(apply: &Apply<'_>) -> bool
    ensures { result ≡ are_local apply.now.first.now apply.now.second }
{
    match apply.second {
        None => apply.first.stays_local(),
        Some(second) => apply.first.stays_local() && second.stays_local(),
    }
}

/// How many edges may be gone over to follow a former apply: about half of those that the apply has from its sources, if these are
/// a set, and half of all else. If nothing that differs reaches a destination, none is gone over.
fn budget_of(
    apply: &Apply<'_>,
    former: &Apply<'_>,
    named: &NamedDifferences,
    edges: &[(u32, u32)],
) -> usize {
    if named.is_empty() && !passes_one(apply, edges) && !passes_one(former, edges) {
        return 0;
    }
    match apply.from {
        Some(EndpointFilter::Members(set)) => set_budget(apply, set),
        _ => apply.flat.edge_count() / 2,
    }
}

/// Half of the edges from a set. If they are more than a twentieth of all edges, of which the hybrid then pulls, a quarter of all.
fn set_budget(apply: &Apply<'_>, sources: &VertexSet) -> usize {
    let most = apply.flat.edge_count() / 20;
    let mut edges = 0usize;
    'sources: for source in sources.iter() {
        if most < edges {
            return apply.flat.edge_count() / 4;
        }
        edges += apply.flat.out_degree(source) as usize;
    }
    edges / 2
}

/// Whether the first end of an apply may let the source of one of some edges through.
fn passes_one(apply: &Apply<'_>, edges: &[(u32, u32)]) -> bool {
    match apply.from {
        Some(EndpointFilter::Members(set)) => has_source(set, edges),
        _ => true,
    }
}

/// Whether the source of one of some edges is a member of a set.
fn has_source(set: &VertexSet, edges: &[(u32, u32)]) -> bool {
    'edges: for edge in edges {
        if set.contains(edge.0) {
            return true;
        }
    }
    false
}
