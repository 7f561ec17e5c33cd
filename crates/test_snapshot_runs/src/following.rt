//! Runs that follow one another, on the newest version and on held ones, on streams of small edits, beside runs from nothing.
ghost use Rattle.std.specs.Prelude.{◌≡◌};

use crate::calls::Kept;
use bench_support::{Random, random_weight};
use compiler::compile;
use crew::Open;
use plans::Plan;
use shared_graph::{Naming, Opening, Reader, SharedError, SharedGraph};
use snapshot_runs::{Runs, run_held, run_held_after, run_latest, run_latest_after};
use std::alloc::Global;
use std::marker::Brand;
use std::sync::{Arc, Wait};
use std::test::Fail;
use std::thread::Threads;
use test_helpers::Checked;
use test_oracle::{PROGRAMS, Scheduled, check_same};
use tree_batch::{Batch, Entry, GraphError};
use version_list::Which;

const VERTICES: u32 = 40;

// How many entries the first batch has, so that few edits are a hundredth of the edges.
const FIRST: u64 = 900;

// How many streams each program has, and how many batches a stream has.
const STREAMS: u64 = 2;

const BATCHES: u64 = 12;

// How many versions a stream holds.
const HOLDS: u64 = 3;

// On which versions the runs of a stream are: on the newest, or on those that are held.
#[derive(Clone, Copy)]
enum StreamKind {
    Newest,
    Held,
}

// At most so many turns of a run: some runs end by their turns.
const TURNS: [u64; 3] = [2, 5, 60];

// By how many workers a run is done.
const WORKERS: [usize; 3] = [1, 2, 4];

fn random_vertex(random: &mut Random) -> u32 {
    random.below(u64::from(VERTICES)) as u32
}

fn random_entry(random: &mut Random) -> Entry {
    let (source, destination) = (random_vertex(random), random_vertex(random));
    match random.below(4) {
        0 => Entry::Remove(source, destination),
        _ => Entry::Add(source, destination, random_weight(random)),
    }
}

// A batch of so many entries, and sometimes of a vertex more.
fn random_batch(alloc: Global, random: &mut Random, count: u64) -> Result<Batch, GraphError> {
    let mut batch = Batch::new(alloc);
    for _ in 0..count {
        batch.push(random_entry(random))?;
    }
    Ok(batch)
}

// Commits a batch of so many entries. Some batches ask for as many vertices as there are or for one more.
fn commit<J: Naming, R: Threads + Wait + Sync>(
    rt: &R,
    alloc: Global,
    graph: &SharedGraph<J, &R>,
    writer: &mut Reader<J>,
    random: &mut Random,
    count: u64,
) -> Result<(), Fail> {
    let mut batch = random_batch(alloc, random, count)?;
    if random.below(6) == 0 {
        let vertices = writer.latest()?.graph.vertices();
        batch.push(Entry::Grow(vertices.saturating_add(random.below(2) as u32)))?;
    }
    graph.commit(rt, alloc, writer, batch)?;
    Ok(())
}

// Checks that a run that may follow the one before shows what a run from nothing shows, on the same version.
fn check_run<J: Naming, R: Threads + Sync>(
    rt: &R,
    alloc: Global,
    runs: &mut Runs<J>,
    reader: &mut Reader<J>,
    other: &mut Reader<J>,
    workers: usize,
    turns: u64,
) -> Result<Checked, Fail> {
    let (version, outcome) = run_latest_after(rt, alloc, runs, reader, workers, turns, &Open)?;
    let (newest, wanted) = run_latest(rt, alloc, runs.plan(), other, 1, turns, &Open)?;
    if version != newest {
        return Ok(Err("the version"));
    }
    Ok(check_same(&outcome, &wanted))
}

// Checks that a run on a held version that may follow the one before shows what a run from nothing shows.
fn check_held<J: Naming, R: Threads + Sync>(
    rt: &R,
    alloc: Global,
    runs: &mut Runs<J>,
    kept: Option<&Kept<J>>,
    workers: usize,
    turns: u64,
) -> Result<Checked, Fail> {
    let Some(Kept { held: Some(held) }) = kept else {
        return Ok(Err("the version that is held"));
    };
    let outcome = run_held_after(rt, alloc, runs, held, workers, turns, &Open)?;
    let wanted = run_held(rt, alloc, runs.plan(), held, 1, turns, &Open)?;
    Ok(check_same(&outcome, &wanted))
}

// Checks some runs on versions that are held: two times on one, and on another one or on the newest between.
fn check_held_runs<J: Naming, R: Threads + Sync>(
    rt: &R,
    alloc: Global,
    runs: &mut Runs<J>,
    kept: &[Kept<J>],
    (reader, other): (&mut Reader<J>, &mut Reader<J>),
    random: &mut Random,
) -> Result<Checked, Fail> {
    let mut checked = Ok(());
    for _ in 0..2 {
        let turns = TURNS[random.below(3) as usize];
        let workers = WORKERS[random.below(3) as usize];
        let index = random.below(kept.len().max(1) as u64) as usize;
        for _ in 0..2 {
            let held = kept.get(index);
            checked = checked.and(check_held(rt, alloc, runs, held, workers, turns)?);
        }
        if random.below(3) == 0 {
            checked = checked.and(check_run(rt, alloc, runs, reader, other, workers, turns)?);
        }
    }
    Ok(checked)
}

// Checks the runs of a stream on held versions.
fn check_held_stream<J: Naming, R: Threads + Wait + Sync>(
    rt: &R,
    alloc: Global,
    graph: &SharedGraph<J, &R>,
    readers: &mut Vec<Reader<J>>,
    plan: Arc<Plan>,
    seed: u64,
) -> Result<Checked, Fail> {
    let [writer, reader, other] = readers.as_mut_slice() else {
        return Ok(Err("the readers"));
    };
    let mut random = Random::new(seed);
    let mut runs = Runs::new(plan);
    let mut kept = Vec::new(alloc);
    let mut checked = Ok(());
    commit(rt, alloc, graph, writer, &mut random, FIRST)?;
    for _ in 0..HOLDS {
        let held = graph.hold(rt, alloc, writer, Which::Newest)?;
        kept.push(Kept { held: Some(held) })?;
        let readers = (&mut *reader, &mut *other);
        checked = checked.and(check_held_runs(rt, alloc, &mut runs, &kept, readers, &mut random)?);
        let count = random.below(3);
        commit(rt, alloc, graph, writer, &mut random, count)?;
    }
    Ok(checked)
}

// Checks the runs of a stream. Two readers take turns, and some versions have no run.
fn check_stream<J: Naming, R: Threads + Wait + Sync>(
    rt: &R,
    alloc: Global,
    graph: &SharedGraph<J, &R>,
    readers: &mut Vec<Reader<J>>,
    plan: Arc<Plan>,
    seed: u64,
) -> Result<Checked, Fail> {
    let [writer, reader, other] = readers.as_mut_slice() else {
        return Ok(Err("the readers"));
    };
    let mut random = Random::new(seed);
    let mut runs = Runs::new(plan);
    commit(rt, alloc, graph, writer, &mut random, FIRST)?;
    for round in 0..BATCHES {
        let turns = TURNS[random.below(3) as usize];
        let workers = WORKERS[random.below(3) as usize];
        let checked = if round % 3 == 0 {
            check_run(rt, alloc, &mut runs, other, reader, workers, turns)?
        } else {
            check_run(rt, alloc, &mut runs, reader, other, workers, turns)?
        };
        if checked.is_err() {
            return Ok(checked);
        }
        for _ in 0..random.below(3) {
            let count = random.below(3);
            commit(rt, alloc, graph, writer, &mut random, count)?;
        }
        if round % 5 == 4 {
            graph.trim(rt, writer)?;
        }
    }
    Ok(Ok(()))
}

// Checks the runs of a stream on a graph of its own.
fn check_opened<J: Naming, R: Threads + Wait + AllocGlobal + Sync>(
    rt: &R,
    opening: Opening,
    vertices: u32,
    plan: Arc<Plan>,
    stream: (StreamKind, u64),
) -> Result<Checked, Fail>
    requires book { opening ≡ J.book }
    requires vertices { J.vertices ≡ vertices }
    requires room { J.room ≡ 16777216 }
{
    let alloc = rt.alloc();
    let (graph, mut readers) = SharedGraph::<J, &R>::open(rt, alloc, opening, vertices, 64, 3)?;
    let (kind, seed) = stream;
    match kind {
        StreamKind::Newest => check_stream(rt, alloc, &graph, &mut readers, plan, seed),
        StreamKind::Held => check_held_stream(rt, alloc, &graph, &mut readers, plan, seed),
    }
}

// Checks the streams of a program.
fn check_program<R: Threads + Wait + AllocGlobal + Sync>(
    rt: &R,
    (_, program, schedule): &Scheduled,
    kind: StreamKind,
) -> Result<Checked, Fail> {
    let alloc = rt.alloc();
    let mut text = String::new(alloc);
    text.push_str(program)?;
    text.push_str(schedule)?;
    let plan = Arc::new(alloc, compile(alloc, text.as_bytes())?)?;
    for seed in 0..STREAMS {
        let stream = (kind, seed);
        let checked = check_opened::<Brand, R>(
            rt,
            Opening::new(),
            VERTICES,
            plan.clone()?,
            stream,
        )?;
        if checked.is_err() {
            return Ok(checked);
        }
    }
    Ok(Ok(()))
}

#[test]
fn runs_that_follow_show_what_runs_from_nothing_show(rt: HostRuntime) -> Result<(), Fail> {
    for scheduled in &PROGRAMS {
        let checked = check_program(&rt, scheduled, StreamKind::Newest)?;
        assert!(rt; checked == Ok(()), "{}", scheduled.0);
    }
    Ok(())
}

#[test]
fn held_runs_that_follow_show_what_runs_from_nothing_show(rt: HostRuntime) -> Result<(), Fail> {
    for scheduled in &PROGRAMS {
        let checked = check_program(&rt, scheduled, StreamKind::Held)?;
        assert!(rt; checked == Ok(()), "{}", scheduled.0);
    }
    Ok(())
}
