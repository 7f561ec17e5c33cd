//! Runs that go one instruction at a time.

use crate::applies::{FORK, graph_of};
use algorithm_meaning::{End, Outcome};
use runner::{Job, SerialApplier, Stand};
use std::alloc::{AllocError, Global};
use std::sync::Arc;
use std::test::Fail;
use test_helpers::{Checked, check};

const LOOP: &str = "element Vertex end element Edge end \
    func main() var t : int = 0; for i in 0:3 if i % 2 == 0 t += i; else t = -t; end end print t; end";

const SEARCH: &str = "element Vertex end element Edge end \
    const edges : edgeset{Edge}(Vertex, Vertex) = load(argv[1]); const parent : vector{Vertex}(int) = -1; \
    func unseen(v : Vertex) -> output : bool output = parent[v] == -1; end \
    func visit(src : Vertex, dst : Vertex) parent[dst] max= src; end \
    func main() var frontier : vertexset{Vertex} = new vertexset{Vertex}(0); \
    frontier.addVertex(0); parent[0] = 0; \
    while frontier.getVertexSetSize() != 0 \
    frontier = edges.from(frontier).to(unseen).applyModified(visit, parent); end end";

// A program, after how many steps it is looked at, how it stands then, and what it shows: turns, text, the entries of its vector
// and the members of its set.
type StepRow = (
    &'static str,
    u32,
    Stand,
    u64,
    &'static [u8],
    &'static [i64],
    &'static [u32],
);

const ENDED: Stand = Stand::Ended(End::Finished);

// The step after the end changes nothing.
const ROWS: [StepRow; 6] = [
    (LOOP, 25, Stand::Going, 3, b"2\n", &[], &[]),
    (LOOP, 26, ENDED, 3, b"2\n", &[], &[]),
    (LOOP, 27, ENDED, 3, b"2\n", &[], &[]),
    (
        SEARCH,
        7,
        Stand::Going,
        1,
        b"",
        &[0, 0, 0, -1, -1, -1],
        &[1, 2],
    ),
    (SEARCH, 20, Stand::Going, 4, b"", &[0, 0, 0, 2, 3, -1], &[]),
    (SEARCH, 21, ENDED, 4, b"", &[0, 0, 0, 2, 3, -1], &[]),
];

// A job of a program on the fork, for at most ten turns.
fn job_of(alloc: Global, text: &str) -> Result<Job, Fail> {
    let graph = Arc::new(alloc, graph_of(alloc, 6, FORK)?).map_err(|_| AllocError)?;
    let plan = compiler::compile(alloc, text.as_bytes())?;
    let plan = Arc::new(alloc, plan).map_err(|_| AllocError)?;
    Ok(Job::new(alloc, plan, graph, 10)?)
}

// Takes so many steps of a job, and tells how it stands then.
fn stepped(alloc: Global, job: &mut Job, steps: u32) -> Result<Stand, AllocError> {
    let mut alone = SerialApplier::new(alloc);
    let mut stand = Stand::Going;
    for _step in 0..steps {
        stand = job.step(alloc, &mut alone)?;
    }
    Ok(stand)
}

// Checks that an outcome shows what a row says.
fn check_shown(outcome: &Outcome, row: &StepRow) -> Checked {
    let (_, _, stand, turns, text, entries, members) = *row;
    let end = match stand {
        Stand::Going => End::TurnsOver,
        Stand::Ended(end) => end,
    };
    let has_entries = match outcome.vectors.as_slice().first() {
        Some(vector) => vector.entries.as_slice() == entries,
        None => entries.is_empty(),
    };
    let has_members = match outcome.sets.as_slice().first() {
        Some(set) => set.members.as_slice() == members,
        None => members.is_empty(),
    };
    check(has_entries, "the entries")?;
    check(has_members, "the members")?;
    check(outcome.end == end, "the end")?;
    check(outcome.turns == turns, "the turns")?;
    check(outcome.text.as_slice() == text, "the text")
}

// Checks that a job stands and shows what a row says.
fn check_row(alloc: Global, row: &StepRow) -> Result<Checked, Fail> {
    let mut job = job_of(alloc, row.0)?;
    let stand = stepped(alloc, &mut job, row.1)?;
    let shown = check_shown(&job.outcome(alloc)?, row);
    Ok(check(stand == row.2, "how the job stands").and(shown))
}

#[test]
fn jobs_stand_and_show_how_far_they_have_come(rt: HostRuntime) -> Result<(), Fail> {
    for row in &ROWS {
        let checked = check_row(rt.alloc(), row)?;
        assert_eq!(rt; checked, Ok(()), "{} steps of {}", row.1, row.0);
    }
    Ok(())
}
