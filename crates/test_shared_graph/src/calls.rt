//! Calls of the readers of a shared graph: a table of them is made in order, and each must be answered as its row says.
ghost use Rattle.std.specs.Prelude.{◌≡◌};

use crate::batches::batch_for;
use crate::failure::{Answer, Failure, answer, latest, need};
use crate::kept::{Kept, check_graph, held_in_chunks, held_is, hold, release};
use crate::memory::growth;
use crate::roles::commit_many;
use crate::seats::{Role, Seat, act_all, seats};
use shared_graph::{LatestError, Naming, Opening, Reader, SharedGraph};
use std::alloc::Global;
use std::marker::Brand;
use std::rt::{Clock, Files};
use std::sync::Wait;
use std::thread::Threads;
use test_helpers::{ask, tell};
use tree_batch::{Batch, Entry, Graph};
use version_list::Which;

/// A call.
#[derive(Clone, Copy)]
pub(crate) enum Call {
    /// Commits these entries.
    Commit(&'static [Entry]),
    /// Commits the neighbours of a hub: its number, and whether they are its destinations, and its sources.
    Hub(u32, bool, bool),
    /// Commits so many edges of 70 vertices.
    Edges(u32),
    /// Commits so many empty batches. Answered by the sum of the cubes of their numbers.
    Many(u64),
    /// Learns what the first reader's token tells.
    Learn,
    /// Holds a version, beside those that are held.
    Hold(Which),
    /// Releases the version that was held last.
    Release,
    Trim,
    /// Takes the newest version three times, which must have so many vertices and these edges.
    Is(u32, &'static [(u32, u32, i64)]),
    /// Takes the newest version, which must have so many vertices and edges.
    Counts(u32, usize),
    /// Takes the newest version with the edges since a version, which must be these, or unknown.
    Since(u64, Option<&'static [(u32, u32)]>),
    /// Takes the newest version with the edges since a version, which must be so many, or unknown.
    CountsSince(u64, Option<usize>),
    /// Looks at the version that was held last: its ticket, its vertices and its edges.
    Held(u64, u32, &'static [(u32, u32, i64)]),
    /// Looks whether the hubs of the version that was held last are sets in chunks of this size.
    InChunks(u32),
    /// Makes a call that memory may run out for, and once more then.
    Asked(&'static Call),
    /// Has all readers do these roles beside one another.
    All(&'static [Role]),
    /// Makes many rounds of steps. Answered by how many pages more the memory grows by than it may.
    Rounds,
}

/// The number of a reader, its call, and how that is answered.
pub(crate) type Row = (usize, Call, Answer);

/// The calls on a graph that is opened so, and those after it is gone.
#[derive(Clone, Copy)]
pub(crate) struct Table {
    pub(crate) vertices: u32,
    pub(crate) chunk_size: u32,
    pub(crate) readers: usize,
    pub(crate) room: u64,
    pub(crate) rows: &'static [Row],
    pub(crate) closed: &'static [Row],
}

/// Why a table is not answered as it must be: the number with which its graph is not opened, or the place of the first row with another
/// answer, and that answer, of the rows while the graph is there or of those after it is gone.
#[derive(Clone, Copy, Debug, PartialEq, Eq)]
pub(crate) enum Wrong {
    NotOpened(u16),
    Row(usize, Answer),
    ClosedRow(usize, Answer),
}

// Checks that a version is what a call says.
fn check_seen(call: Call, graph: &Graph) -> Result<(), Failure> {
    match call {
        Call::Is(vertices, edges) => check_graph(graph, vertices, edges),
        Call::Counts(vertices, edges) => {
            need(graph.vertices() == vertices, Failure::Vertices)?;
            need(graph.edge_count() == edges, Failure::Edges)
        }
        _ => Err(Failure::Call),
    }
}

// Takes the newest version once.
fn look_once<J: Naming>(me: &mut Reader<J>, call: Call) -> Answer {
    let version = latest(me)?;
    check_seen(call, &version.graph)?;
    Ok(version.number)
}

// Takes the newest version three times.
fn look<J: Naming>(me: &mut Reader<J>, call: Call) -> Answer {
    let first = look_once(me, call);
    if look_once(me, call) == first && look_once(me, call) == first {
        first
    } else {
        Err(Failure::Newest)
    }
}

// The number of the newest version, and whether the edges since another version are what a call says.
fn since_holds<J: Naming>(
    alloc: Global,
    reader: &mut Reader<J>,
    version: u64,
    call: Call,
) -> Result<(u64, bool), LatestError> {
    let (snapshot, edges) = reader.latest_since(alloc, version)?;
    let holds = match call {
        Call::Since(_, wanted) => are_edges(edges, wanted),
        Call::CountsSince(_, wanted) => edges.map(|edges| edges.len()) == wanted,
        _ => false,
    };
    let history = reader.history();
    if reader.knows(&history) {
        return Ok((snapshot.number, holds));
    }
    Ok((snapshot.number, false))
}

// Takes the newest version with the edges since another, which must be what a call says.
fn look_since<J: Naming>(alloc: Global, me: &mut Reader<J>, version: u64, call: Call) -> Answer {
    match since_holds(alloc, me, version, call) {
        Ok((number, holds)) => need(holds, Failure::Since).map(|()| number),
        Err(error) => Err(Failure::Refused(error.number())),
    }
}

// Whether edges are these.
fn are_edges(edges: Option<Vec<(u32, u32)>>, wanted: Option<&[(u32, u32)]>) -> bool {
    match (edges, wanted) {
        (Some(edges), Some(wanted)) => edges.as_slice() == wanted,
        (None, None) => true,
        _ => false,
    }
}

// Has a reader learn what the first reader's token tells.
fn learn<J: Naming>(seats: &mut Vec<Seat<J>>, who: usize) -> Answer {
    let Some(first) = seats.first() else {
        return Err(Failure::Call);
    };
    let token = first.reader.token();
    if let Some(me) = seats.get_mut(who) {
        me.reader.learn(&token);
    }
    Ok(0)
}

// Makes a call of one reader on a graph. The batch is what it commits.
fn call_on<J: Naming, R: Threads + Wait + Sync>(
    rt: &R,
    alloc: Global,
    graph: &SharedGraph<J, &R>,
    me: &mut Reader<J>,
    kept: &mut Vec<Kept<J>>,
    (call, batch): (Call, Batch),
) -> Answer {
    match call {
        Call::Hold(which) => hold(rt, alloc, graph, me, (kept, which)),
        Call::Release => release(rt, graph, me, kept),
        Call::Trim => answer(graph.trim(rt, me)),
        Call::Many(count) => commit_many(rt, alloc, graph, me, count),
        _ => answer(graph.commit(rt, alloc, me, batch)),
    }
}

// Makes a call of one reader on a graph.
fn call_by<J: Naming, R: Threads + Wait + Sync>(
    rt: &R,
    alloc: Global,
    graph: &SharedGraph<J, &R>,
    me: &mut Reader<J>,
    kept: &mut Vec<Kept<J>>,
    call: Call,
) -> Answer {
    match batch_for(alloc, call) {
        Ok(batch) => call_on(rt, alloc, graph, me, kept, (call, batch)),
        Err(_) => Err(Failure::Memory),
    }
}

// The newest version of all readers: its number, its vertices and its edges.
fn seen<J: Naming>(seats: &mut Vec<Seat<J>>) -> Result<(u64, u32, usize), Failure> {
    let mut seen = Err(Failure::Call);
    for seat in seats.as_mut_slice().iter_mut() {
        let version = latest(&mut seat.reader)?;
        let found = Ok((
            version.number,
            version.graph.vertices(),
            version.graph.edge_count(),
        ));
        if seen.is_ok() && seen != found {
            return Err(Failure::Newest);
        }
        seen = found;
    }
    seen
}

// The answer to a call that memory ran out for.
const REFUSED: Answer = Err(Failure::Refused(900));

// Makes a call of the first reader that memory may run out for, and once more then. All readers are given the same version until
// then.
fn call_asked<J: Naming, R: Threads + Wait + Print + Sync>(
    rt: &R,
    alloc: Global,
    graph: &SharedGraph<J, &R>,
    seats: &mut Vec<Seat<J>>,
    kept: &mut Vec<Kept<J>>,
    call: Call,
) -> Answer {
    let before = seen(seats)?;
    let Ok(batch) = batch_for(alloc, call) else {
        return Err(Failure::Memory);
    };
    let Some(me) = seats.get_mut(0) else {
        return Err(Failure::Call);
    };
    let asked = ask(rt);
    let first = call_on(rt, alloc, graph, &mut me.reader, kept, (call, batch));
    let told = tell(rt, first == REFUSED);
    asked.and(told).map_err(Failure::Print)?;
    if first != REFUSED {
        return first;
    }
    need(seen(seats)? == before, Failure::Newest)?;
    match seats.get_mut(0) {
        Some(me) => call_by(rt, alloc, graph, &mut me.reader, kept, call),
        None => Err(Failure::Call),
    }
}

// Makes a call that needs no graph.
fn call_alone<J: Naming>(
    alloc: Global,
    seats: &mut Vec<Seat<J>>,
    kept: &Vec<Kept<J>>,
    (who, call): (usize, Call),
) -> Answer {
    match call {
        Call::Learn => learn(seats, who),
        Call::Held(ticket, vertices, edges) => held_is(kept, (ticket, vertices), edges),
        Call::InChunks(chunk_size) => held_in_chunks(alloc, kept, chunk_size),
        Call::Since(version, _) | Call::CountsSince(version, _) => match seats.get_mut(who) {
            Some(me) => look_since(alloc, &mut me.reader, version, call),
            None => Err(Failure::Call),
        },
        _ => match seats.get_mut(who) {
            Some(me) => look(&mut me.reader, call),
            None => Err(Failure::Call),
        },
    }
}

// Makes a call.
fn make<J: Naming + Send + Sync, R: Threads + Wait + Clock + Print + Files + AllocGlobal + Sync>(
    rt: &R,
    alloc: Global,
    graph: &SharedGraph<J, &R>,
    seats: &mut Vec<Seat<J>>,
    kept: &mut Vec<Kept<J>>,
    (who, call): (usize, Call),
) -> Answer {
    match call {
        Call::Learn
        | Call::Held(..)
        | Call::InChunks(_)
        | Call::Is(..)
        | Call::Counts(..)
        | Call::Since(..)
        | Call::CountsSince(..) => call_alone(alloc, seats, kept, (who, call)),
        Call::Asked(call) => call_asked(rt, alloc, graph, seats, kept, *call),
        Call::All(roles) => act_all(rt, alloc, graph, seats, roles),
        _ => match seats.get_mut(who) {
            Some(me) => match call {
                Call::Rounds => growth(rt, alloc, graph, &mut me.reader),
                _ => call_by(rt, alloc, graph, &mut me.reader, kept, call),
            },
            None => Err(Failure::Call),
        },
    }
}

// Checks the rows while the graph is there.
fn check_rows<
    J: Naming + Send + Sync,
    R: Threads + Wait + Clock + Print + Files + AllocGlobal + Sync,
>(
    rt: &R,
    alloc: Global,
    graph: &SharedGraph<J, &R>,
    seats: &mut Vec<Seat<J>>,
    kept: &mut Vec<Kept<J>>,
    rows: &[Row],
) -> Result<(), Wrong> {
    for (at, (who, call, wanted)) in rows.iter().enumerate() {
        let made = make(rt, alloc, graph, seats, kept, (*who, *call));
        if made != *wanted {
            return Err(Wrong::Row(at, made));
        }
    }
    Ok(())
}

// Checks the rows after the graph is gone.
fn check_closed_rows<J: Naming>(
    alloc: Global,
    seats: &mut Vec<Seat<J>>,
    kept: &Vec<Kept<J>>,
    rows: &[Row],
) -> Result<(), Wrong> {
    for (at, (who, call, wanted)) in rows.iter().enumerate() {
        let made = call_alone(alloc, seats, kept, (*who, *call));
        if made != *wanted {
            return Err(Wrong::ClosedRow(at, made));
        }
    }
    Ok(())
}

// Checks a table on the graph of a new name.
fn check_opened<
    J: Naming + Send + Sync,
    R: Threads + Wait + Clock + Print + Files + AllocGlobal + Sync,
>(rt: &R, opening: Opening, vertices: u32, room: u64, table: &Table) -> Result<(), Wrong>
    requires book { opening ≡ J.book }
    requires vertices { J.vertices ≡ vertices }
    requires room { J.room ≡ room }
{
    let alloc = rt.alloc();
    match SharedGraph::<J, &R>::open_with_room(
        rt,
        alloc,
        opening,
        vertices,
        table.chunk_size,
        table.readers,
        room,
    ) {
        Ok((graph, readers)) => {
            let mut seats = seats(alloc, readers);
            let Ok(mut kept) = Vec::with_capacity(alloc, 4) else {
                return Err(Wrong::NotOpened(900));
            };
            let open = check_rows(rt, alloc, &graph, &mut seats, &mut kept, table.rows);
            drop(graph);
            open.and(check_closed_rows(alloc, &mut seats, &kept, table.closed))
        }
        Err(error) => Err(Wrong::NotOpened(error.number())),
    }
}

/// Opens a graph and makes the calls of a table on it. Checks that each is answered as its row says.
pub(crate) fn check_table<R: Threads + Wait + Clock + Print + Files + AllocGlobal + Sync>(
    rt: &R,
    table: &Table,
) -> Result<(), Wrong> {
    check_opened::<Brand, R>(rt, Opening::new(), table.vertices, table.room, table)
}
