//! Streams of small edits, and a run after each of them beside the record of the run before.
ghost use Rattle.std.specs.Prelude.{◌≡◌, IfOk, IfSome};
ghost use Rattle.std.specs.Arc.{arc_value};

use bench_support::{Random, random_weight};
use edge_differences::named_edges;
use flat_snapshot::Flat;
use plans::Plan;
use run_records::{RecordedRun, RunRecord, run_after, run_recorded};
use runner::{SerialApplier, run_alone};
use std::alloc::Global;
use std::sync::Arc;
use std::test::Fail;
use test_helpers::Checked;
use test_oracle::{PROGRAMS, Scheduled, check_same};
use tree_batch::{Batch, Entry, Graph, GraphError};

// How many streams each program has.
const STREAMS: u64 = 10;

const VERTICES: u32 = 40;

// At most so many turns of a run: some runs end by their turns.
const TURNS: [u64; 4] = [0, 2, 5, 60];

fn random_vertex(random: &mut Random) -> u32 {
    random.below(u64::from(VERTICES)) as u32
}

fn random_entry(random: &mut Random, vertices: u32) -> Entry {
    let (source, destination) = (random_vertex(random), random_vertex(random));
    match random.below(8) {
        0 => Entry::Grow(vertices.saturating_add(random.below(2) as u32)),
        1..=3 => Entry::Remove(source, destination),
        _ => Entry::Add(source, destination, random_weight(random)),
    }
}

// A batch of at most so many entries.
fn random_batch(
    alloc: Global,
    random: &mut Random,
    vertices: u32,
    most: u32,
) -> Result<Batch, GraphError> {
    let mut batch = Batch::new(alloc);
    for _ in 0..random.below(u64::from(most) + 1) {
        batch.push(random_entry(random, vertices))?;
    }
    Ok(batch)
}

// A graph and the run on it after a batch, beside the record of the run before it if there is one.
fn run_beside(
    alloc: Global,
    plan: &Arc<Plan>,
    former: &Option<RunRecord>,
    before: &Graph,
    batch: &Batch,
    turns: u64,
) -> Result<(Graph, RecordedRun), Fail>
    requires { IfSome former.now (λ r. arc_value r.graph ≡ before.now) }
    ensures { IfOk result (λ r. IfSome r.1.run_record (λ made. arc_value made.graph ≡ r.0)) }
{
    let after = before.apply(alloc, batch)?;
    let flat = Arc::new(alloc, Flat::of(alloc, &after)?)?;
    let by = SerialApplier::new(alloc);
    match former {
        Some(former) if after.vertices() == before.vertices() => {
            let edges = named_edges(alloc, &[batch.clone()?])?;
            let run = run_after(alloc, former, flat, &edges, turns, by)?;
            Ok((after, run))
        }
        _ => {
            let run = run_recorded(alloc, plan.clone()?, flat, turns, by)?;
            Ok((after, run))
        }
    }
}

// Checks that each run of a stream shows what a run from nothing shows.
fn check_stream(alloc: Global, plan: &Arc<Plan>, seed: u64) -> Result<Checked, Fail> {
    let mut random = Random::new(seed);
    let first = random_batch(alloc, &mut random, VERTICES, 120)?;
    let mut graph = Graph::new(VERTICES, 64)?.apply(alloc, &first)?;
    let mut former = None;
    'edits: for _ in 0..3 + random.below(23) {
        let batch = random_batch(alloc, &mut random, graph.vertices(), 3)?;
        let turns = TURNS[random.below(4) as usize];
        let (after, run) = run_beside(alloc, plan, &former, &graph, &batch, turns)?;
        let flat = Flat::of(alloc, &after)?;
        let from_nothing = run_alone(alloc, plan, &flat, turns)?;
        let RecordedRun {
            outcome,
            run_record,
        } = run;
        if let Err(fact) = check_same(&outcome, &from_nothing) {
            return Ok(Err(fact));
        }
        graph = after;
        former = run_record;
    }
    Ok(Ok(()))
}

// The plan of a program.
fn plan_of(alloc: Global, (_, program, schedule): &Scheduled) -> Result<Arc<Plan>, Fail> {
    let mut text = String::new(alloc);
    text.push_str(program)?;
    text.push_str(schedule)?;
    let plan = compiler::compile(alloc, text.as_bytes())?;
    Ok(Arc::new(alloc, plan)?)
}

#[test]
fn runs_beside_a_record_show_what_runs_from_nothing_show(rt: HostRuntime) -> Result<(), Fail> {
    for scheduled in &PROGRAMS {
        let plan = plan_of(rt.alloc(), scheduled)?;
        for seed in 0..STREAMS {
            let checked = check_stream(rt.alloc(), &plan, seed)?;
            assert!(rt; checked == Ok(()), "{}, seed {seed}", scheduled.0);
        }
    }
    Ok(())
}
