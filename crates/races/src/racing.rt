//! The run of a race, on threads.
ghost use Rattle.std.specs.Prelude.{◌≡◌, ◌+◌, IfErr, IfOk, length, map};
ghost use Rattle.std.specs.Arc.{arc_value};
ghost use Rattle.std.specs.List.{All};
ghost use Rattle.snapshot_runs.specs.Runs.{plan_of_runs};
ghost use Rattle.version_list.specs.Machine.{opened};
ghost use Rattle.shared_graph.specs.Histories.{fresh_reader, fresh_readers};
ghost use Rattle.races.specs.Race.{AllRan, IsRace, MayRun};
ghost use Rattle.races.specs.RaceScript.{MayOpen, RefusesOnGraph, RefusesRace};
ghost use Rattle.races.specs.inside.Racing.{AllRanEarly, AnswersAll, IsRaced, RanEarly, RefusesRuns, RepliesTo};

use crate::entrants::{EarlyRun, Entrant, entrants};
use crate::error::RaceError;
use crate::outcomes::{CommitReply, ProgramRuns, Race};
use crate::reading::RaceScript;
use plans::Plan;
use shared_graph::{Naming, Opening, Reader, SharedError, SharedGraph, Token};
use std::alloc::{AllocError, Global};
use std::marker::Brand;
use std::sync::{Arc, Wait};
use std::thread::{self, Threads, join};
use tree_batch::Batch;

/// The runs of a race: each of these plans, by so many workers, for at most so many turns.
#[derive(Clone, Copy)]
struct PlannedRuns<'a> {
    plans: &'a [&'a Arc<Plan>],
    workers: usize,
    turns: u64,
}

/// Opens the graph of a script and commits its batches, in order, on one thread, while for each program another runs it on the
/// newest version, by n workers, 1 to 64, for at most n turns. A batch that is refused (111, 123) is reported by its
/// reply, and the next is committed. Once all batches have their replies, each program runs again, on the newest version then.
///
/// Errors: `NotOpened` where the graph is not opened, for its vertices (111), for its chunks (103) or for more than 63
/// programs (124), or memory runs out for it (900). Else `NotRun` for the first program that is not run (411, 125, 900), or
/// if memory runs out.
pub fn race<T: Threads + Wait + Sync>(
    rt: &T,
    alloc: Global,
    script: RaceScript,
    plans: &[&Arc<Plan>],
    workers: usize,
    turns: u64,
) -> Result<Race, RaceError>
    ensures race { IfOk result (IsRace script.vertices 16777216 script.batches.items (map (λ p. arc_value p.now) plans.now) turns) }
    ensures opened { IfOk result (λ _. MayOpen script.vertices script.chunk_size (length plans.now + 1)) }
    ensures workers { IfOk result (λ race. MayRun workers race.runs.items) }
    ensures refused { IfErr result (RefusesRace script.vertices script.chunk_size 16777216 script.batches.items (length plans.now) workers) }
{
    let programs = PlannedRuns {
        plans,
        workers,
        turns,
    };
    race_known::<Brand, T>(rt, alloc, Opening::new(), script, programs)
}

// The race, on a graph that types know.
fn race_known<J: Naming + Send + Sync, T: Threads + Wait + Sync>(
    rt: &T,
    alloc: Global,
    opening: Opening,
    script: RaceScript,
    programs: PlannedRuns<'_>,
) -> Result<Race, RaceError>
    requires book { opening ≡ J.book }
    requires vertices { J.vertices ≡ script.vertices }
    requires room { J.room ≡ 16777216 }
    ensures race { IfOk result (IsRace J.vertices J.room script.batches.items (map (λ p. arc_value p.now) programs.entry.plans.now) programs.entry.turns) }
    ensures opened { IfOk result (λ _. MayOpen J.vertices script.chunk_size (length programs.entry.plans.now + 1)) }
    ensures workers { IfOk result (λ race. MayRun programs.entry.workers race.runs.items) }
    ensures refused { IfErr result (RefusesRace J.vertices script.chunk_size J.room script.batches.items (length programs.entry.plans.now)
        programs.entry.workers) }
{
    let RaceScript {
        vertices,
        chunk_size,
        batches,
    } = script;
    let others = programs.plans.len();
    let (graph, readers, writer) = SharedGraph::<J, &T>::open_with_writer(
        rt, alloc, opening, vertices, chunk_size, others,
    )?;
    let (replies, runs) = race_on(rt, alloc, &graph, writer, readers, batches, programs)?;
    Ok(Race {
        vertices,
        replies,
        runs,
    })
}

// The replies of the commits, and the runs of the programs, each with one of the readers.
fn race_on<J: Naming + Send + Sync, T: Threads + Wait + Sync>(
    rt: &T,
    alloc: Global,
    graph: &SharedGraph<J, &T>,
    writer: Reader<J>,
    readers: Vec<Reader<J>>,
    batches: Vec<Batch>,
    programs: PlannedRuns<'_>,
) -> Result<(Vec<CommitReply>, Vec<ProgramRuns>), RaceError>
    requires writer { writer ≡ fresh_reader (length programs.plans.now) }
    requires readers { readers.items ≡ fresh_readers (length programs.plans.now) }
    ensures raced { IfOk result (IsRaced J.vertices J.room batches.items (map (λ p. arc_value p.now) programs.entry.plans.now) programs.entry.turns) }
    ensures workers { IfOk result (λ raced. MayRun programs.entry.workers raced.1.items) }
    ensures refused { IfErr result (RefusesOnGraph (opened J.vertices J.room) batches.items programs.entry.workers) }
{
    let PlannedRuns {
        plans,
        workers,
        turns,
    } = programs;
    let entrants = entrants(alloc, readers, plans)?;
    let (ran, (writer, answered)) = join(
        rt,
        move || -> Result<Vec<EarlyRun<J>>, AllocError>
            ensures { IfOk result (λ ran. AllRanEarly J.vertices turns workers entrants.items ran.items) }
        { run_all_early(rt, alloc, entrants, workers, turns) },
        move || -> (Reader<J>, Result<Vec<CommitReply>, AllocError>)
            ensures { AnswersAll (opened J.vertices J.room) writer batches.items result.1 result.0 }
        { commit_all(rt, alloc, graph, writer, batches) },
    );
    let replies = answered?;
    let runs = run_all_late(rt, alloc, ran?, &writer.token(), workers, turns)?;
    Ok((replies, runs))
}

// Commits the batches in the name of a reader, and gives the reader back with the replies. The only error is out of memory.
fn commit_all<J: Naming, T: Threads + Wait + Sync>(
    rt: &T,
    alloc: Global,
    graph: &SharedGraph<J, &T>,
    mut writer: Reader<J>,
    batches: Vec<Batch>,
) -> (Reader<J>, Result<Vec<CommitReply>, AllocError>)
    ensures { AnswersAll (opened J.vertices J.room) writer batches.items result.1 result.0 }
{
    let answered = commit_each(rt, alloc, graph, &mut writer, batches);
    (writer, answered)
}

fn commit_each<J: Naming, T: Threads + Wait + Sync>(
    rt: &T,
    alloc: Global,
    graph: &SharedGraph<J, &T>,
    writer: &mut Reader<J>,
    batches: Vec<Batch>,
) -> Result<Vec<CommitReply>, AllocError>
    ensures { AnswersAll (opened J.vertices J.room) writer.old batches.items result writer.new }
{
    let mut replies = Vec::with_capacity(alloc, batches.len())?;
    for batch in batches {
        let committed = graph.commit(rt, alloc, writer, batch);
        replies.push(reply(committed)?)?;
    }
    Ok(replies)
}

// What a commit is answered. The only error is out of memory.
fn reply(committed: Result<u64, SharedError>) -> Result<CommitReply, AllocError>
    ensures { RepliesTo committed result }
{
    match committed {
        Ok(version) => Ok(CommitReply::Version(version)),
        Err(SharedError::NoMemory) => Err(AllocError),
        Err(error) => Ok(CommitReply::Refused(error.number())),
    }
}

// Runs each program on a thread of its own.
fn run_all_early<J: Naming + Send + Sync, T: Threads + Sync>(
    rt: &T,
    alloc: Global,
    entrants: Vec<Entrant<J>>,
    workers: usize,
    turns: u64,
) -> Result<Vec<EarlyRun<J>>, AllocError>
    ensures { IfOk result (λ ran. AllRanEarly J.vertices turns workers entrants.items ran.items) }
{
    thread::map_vec(
        rt,
        entrants,
        &|entrant: Entrant<J>| -> EarlyRun<J>
            ensures { (plan_of_runs result.runs ≡ plan_of_runs entrant.runs) × RanEarly J.vertices turns workers result }
        { entrant.run(rt, alloc, workers, turns) },
    )
}

// Runs each program again.
fn run_all_late<J: Naming, T: Threads + Sync>(
    rt: &T,
    alloc: Global,
    ran: Vec<EarlyRun<J>>,
    told: &Token<J>,
    workers: usize,
    turns: u64,
) -> Result<Vec<ProgramRuns>, RaceError>
    requires { All (RanEarly J.vertices turns workers) ran.items }
    ensures ran { IfOk result (λ runs. AllRan J.vertices J.room turns told.now (map (λ r. plan_of_runs r.runs) ran.items) runs.items) }
    ensures workers { IfOk result (λ runs. MayRun workers runs.items) }
    ensures refused { IfErr result (RefusesRuns workers) }
{
    let mut all = Vec::with_capacity(alloc, ran.len())?;
    for one in ran {
        all.push(one.run_again(rt, alloc, told, workers, turns)?)?;
    }
    Ok(all)
}
