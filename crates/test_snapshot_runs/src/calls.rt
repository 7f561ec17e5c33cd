//! Calls of the readers of a shared graph: a table of them is made in order, and each must be answered as its row says.
ghost use Rattle.std.specs.Prelude.{◌≡◌};

use crate::beside::{run_beside, step_to};
use crate::failure::{Answer, Failure};
use crate::programs::Program;
use crate::running::{run_asked, run_on_held, run_program, run_text};
use shared_graph::{Held, Naming, Opening, Reader, SharedError, SharedGraph, Unreleased};
use std::alloc::{AllocError, Global};
use std::marker::Brand;
use std::sync::Wait;
use std::thread::Threads;
use tree_batch::{Batch, Entry};
use version_list::Which;

/// A call.
#[derive(Clone, Copy)]
pub(crate) enum Call {
    /// Commits these entries.
    Commit(&'static [Entry]),
    /// Commits what makes the path of the version of this number, by the one before.
    Step(u64),
    /// Learns what the first reader's token tells.
    Learn,
    /// Holds a version, beside those that are held.
    Hold(Which),
    /// Releases the version that was held last.
    Release,
    Trim,
    /// Runs a program by so many workers on the newest version.
    Newest(Program, usize),
    /// Runs its text.
    Text(Program, usize),
    /// Runs it on one of the versions that are held, of which the first is 0.
    Held(usize, Program, usize),
    /// Runs it on the newest version, and once more if memory runs out for it.
    Asked(Program, usize),
    /// Commits again and again, while the next reader runs the search.
    Beside,
}

/// The number of a reader, its call, and how that is answered.
pub(crate) type Row = (usize, Call, Answer);

/// The calls on a graph that is opened with so many vertices and readers, and those after it is gone.
#[derive(Clone, Copy)]
pub(crate) struct Table {
    pub(crate) vertices: u32,
    pub(crate) readers: usize,
    pub(crate) rows: &'static [Row],
    pub(crate) closed: &'static [Row],
}

/// Why a table is not answered as it must be: the number with which its graph is not opened, or the place of the first row with another
/// answer, and that answer, of the rows while the graph is there or of those after it is gone.
#[derive(Clone, Copy, Debug, PartialEq, Eq)]
pub(crate) enum Wrong {
    NotOpened(u16),
    Row(usize, Answer),
    ClosedRow(usize, Answer),
}

/// A version that is held, which is let go without a release.
pub(crate) struct Kept<J: Naming> {
    pub(crate) held: Option<Held<J>>,
}

impl<J: Naming> Drop for Kept<J> {
    fn drop(self) {
        let Kept { held } = self;
        if let Some(held) = held {
            held.into_snapshot();
        }
    }
}

// The batch of these entries.
fn batch_of(alloc: Global, entries: &[Entry]) -> Result<Batch, AllocError> {
    let mut batch = Batch::new(alloc);
    for entry in entries {
        if batch.push(*entry).is_err() {
            return Err(AllocError);
        }
    }
    Ok(batch)
}

// The answer to a step.
fn answer(made: Result<u64, SharedError>) -> Answer {
    made.map_err(|error| Failure::Refused(error.number()))
}

/// Commits these entries.
pub(crate) fn commit<J: Naming, R: Threads + Wait + Sync>(
    rt: &R,
    alloc: Global,
    graph: &SharedGraph<J, &R>,
    me: &mut Reader<J>,
    entries: &[Entry],
) -> Answer {
    match batch_of(alloc, entries) {
        Ok(batch) => answer(graph.commit(rt, alloc, me, batch)),
        Err(AllocError) => Err(Failure::Memory),
    }
}

/// Trims in the name of a reader.
pub(crate) fn trim<J: Naming, R: Wait>(
    rt: &R,
    graph: &SharedGraph<J, &R>,
    me: &mut Reader<J>,
) -> Answer {
    answer(graph.trim(rt, me))
}

fn hold<J: Naming, R: Wait>(
    rt: &R,
    alloc: Global,
    graph: &SharedGraph<J, &R>,
    me: &mut Reader<J>,
    (kept, which): (&mut Vec<Kept<J>>, Which),
) -> Answer {
    match graph.hold(rt, alloc, me, which) {
        Ok(held) => {
            let number = held.snapshot().number;
            let is_kept = kept.push(Kept { held: Some(held) }).is_ok();
            if is_kept {
                Ok(number)
            } else {
                Err(Failure::Memory)
            }
        }
        Err(error) => Err(Failure::Refused(error.number())),
    }
}

fn release<J: Naming, R: Wait>(
    rt: &R,
    graph: &SharedGraph<J, &R>,
    me: &mut Reader<J>,
    kept: &mut Vec<Kept<J>>,
) -> Answer {
    let Some(mut last) = kept.pop() else {
        return Err(Failure::Held);
    };
    let Some(held) = last.held.take() else {
        return Err(Failure::Held);
    };
    match graph.release(rt, me, held) {
        Ok(()) => Ok(0),
        Err(Unreleased { error, held }) => {
            held.into_snapshot();
            Err(Failure::Refused(error.number()))
        }
    }
}

// Runs a program on one of the versions that are held.
fn run_kept<J: Naming, R: Threads + Sync>(
    rt: &R,
    alloc: Global,
    kept: Option<&Kept<J>>,
    run: (Program, usize),
) -> Answer {
    match kept {
        Some(Kept { held: Some(held) }) => run_on_held(rt, alloc, held, run),
        _ => Err(Failure::Held),
    }
}

// Has a reader learn what the first reader's token tells.
fn learn<J: Naming>(readers: &mut Vec<Reader<J>>, who: usize) -> Answer {
    let Some(first) = readers.first() else {
        return Err(Failure::Call);
    };
    let token = first.token();
    if let Some(me) = readers.get_mut(who) {
        me.learn(&token);
    }
    Ok(0)
}

// Makes a call that needs a reader alone.
fn run_by<J: Naming, R: Threads + Print + Sync>(
    rt: &R,
    alloc: Global,
    me: &mut Reader<J>,
    call: Call,
) -> Answer {
    match call {
        Call::Newest(program, workers) => run_program(rt, alloc, me, (program, workers)),
        Call::Text(program, workers) => run_text(rt, alloc, me, (program, workers)),
        Call::Asked(program, workers) => run_asked(rt, alloc, me, (program, workers)),
        _ => Err(Failure::Call),
    }
}

// Makes a call of one reader.
fn call_by<J: Naming, R: Threads + Wait + Print + Sync>(
    rt: &R,
    alloc: Global,
    graph: &SharedGraph<J, &R>,
    me: &mut Reader<J>,
    kept: &mut Vec<Kept<J>>,
    call: Call,
) -> Answer {
    match call {
        Call::Commit(entries) => commit(rt, alloc, graph, me, entries),
        Call::Step(number) => commit(rt, alloc, graph, me, step_to(number)),
        Call::Hold(which) => hold(rt, alloc, graph, me, (kept, which)),
        Call::Release => release(rt, graph, me, kept),
        Call::Trim => trim(rt, graph, me),
        Call::Held(at, program, workers) => {
            run_kept(rt, alloc, kept.get(at), (program, workers))
        }
        _ => run_by(rt, alloc, me, call),
    }
}

// Makes a call.
fn make<J: Naming + Send + Sync, R: Threads + Wait + Print + Sync>(
    rt: &R,
    alloc: Global,
    graph: &SharedGraph<J, &R>,
    readers: &mut Vec<Reader<J>>,
    kept: &mut Vec<Kept<J>>,
    (who, call): (usize, Call),
) -> Answer {
    match call {
        Call::Learn => learn(readers, who),
        Call::Beside => run_beside(rt, alloc, graph, readers),
        _ => match readers.get_mut(who) {
            Some(me) => call_by(rt, alloc, graph, me, kept, call),
            None => Err(Failure::Call),
        },
    }
}

// Checks the rows while the graph is there.
fn check_rows<J: Naming + Send + Sync, R: Threads + Wait + Print + Sync>(
    rt: &R,
    alloc: Global,
    graph: &SharedGraph<J, &R>,
    readers: &mut Vec<Reader<J>>,
    rows: &[Row],
) -> Result<(), Wrong> {
    let mut kept = Vec::new(alloc);
    for (at, (who, call, wanted)) in rows.iter().enumerate() {
        let made = make(rt, alloc, graph, readers, &mut kept, (*who, *call));
        if made != *wanted {
            return Err(Wrong::Row(at, made));
        }
    }
    Ok(())
}

// Checks the rows after the graph is gone.
fn check_closed_rows<J: Naming, R: Threads + Print + Sync>(
    rt: &R,
    alloc: Global,
    readers: &mut Vec<Reader<J>>,
    rows: &[Row],
) -> Result<(), Wrong> {
    for (at, (who, call, wanted)) in rows.iter().enumerate() {
        let made = match readers.get_mut(*who) {
            Some(me) => run_by(rt, alloc, me, *call),
            None => Err(Failure::Call),
        };
        if made != *wanted {
            return Err(Wrong::ClosedRow(at, made));
        }
    }
    Ok(())
}

// Checks a table on the graph of a new name.
fn check_opened<J: Naming + Send + Sync, R: Threads + Wait + Print + AllocGlobal + Sync>(
    rt: &R,
    opening: Opening,
    vertices: u32,
    table: &Table,
) -> Result<(), Wrong>
    requires book { opening ≡ J.book }
    requires vertices { J.vertices ≡ vertices }
    requires room { J.room ≡ 16777216 }
{
    let alloc = rt.alloc();
    match SharedGraph::<J, &R>::open(rt, alloc, opening, vertices, 64, table.readers) {
        Ok((graph, mut readers)) => {
            let open = check_rows(rt, alloc, &graph, &mut readers, table.rows);
            drop(graph);
            open.and(check_closed_rows(rt, alloc, &mut readers, table.closed))
        }
        Err(error) => Err(Wrong::NotOpened(error.number())),
    }
}

/// Opens a graph and makes the calls of a table on it. Checks that each is answered as its row says.
pub(crate) fn check_table<R: Threads + Wait + Print + AllocGlobal + Sync>(
    rt: &R,
    table: &Table,
) -> Result<(), Wrong> {
    check_opened::<Brand, R>(rt, Opening::new(), table.vertices, table)
}
