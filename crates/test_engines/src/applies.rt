//! In how many pieces workers do an apply, of which they tell a gate, and what a run shows while pieces are held.

use crate::roll::Roll;
use algorithm_meaning::{End, Outcome};
use crew::PieceAssignment;
use flat_snapshot::Flat;
use runner::run;
use std::alloc::Global;
use std::test::Fail;
use std::thread::Threads;
use test_helpers::{Checked, check};
use tree_batch::{Batch, Entry, Graph};

// Each destination takes the greatest of its sources, which are a set that is made between these two.
const HEAD: &str = "element Vertex end element Edge end \
    const edges : edgeset{Edge}(Vertex, Vertex) = load(argv[1]); const x : vector{Vertex}(int) = -1; \
    func take(src : Vertex, dst : Vertex) x[dst] max= src; end func main() var some : vertexset{Vertex} = ";

const TAIL: &str = " #s1# edges.from(some).apply(take); end ";

const ALL: &str = "edges.getVertices();";

const NONE: &str = "new vertexset{Vertex}(0);";

const VERTEX_0: &str = "new vertexset{Vertex}(0); some.addVertex(0);";

const VERTEX_1: &str = "new vertexset{Vertex}(0); some.addVertex(1);";

const SEARCH: &str = "element Vertex end element Edge end \
    const edges : edgeset{Edge}(Vertex, Vertex) = load(argv[1]); const parent : vector{Vertex}(int) = -1; \
    func unseen(v : Vertex) -> output : bool output = parent[v] == -1; end \
    func visit(src : Vertex, dst : Vertex) parent[dst] max= src; end \
    func main() var frontier : vertexset{Vertex} = new vertexset{Vertex}(0); \
    frontier.addVertex(0); parent[0] = 0; \
    while frontier.getVertexSetSize() != 0 \
    #s1# frontier = edges.from(frontier).to(unseen).applyModified(visit, parent); end end ";

const SPARSE_PUSH: &str = "schedule: program->configApplyDirection(\"s1\", \"SparsePush\")";

const HYBRID: &str = "schedule: program->configApplyDirection(\"s1\", \"DensePull-SparsePush\")";

const DENSE_PUSH: &str = "schedule: program->configApplyDirection(\"s1\", \"DensePush\")";

const DENSE_PULL: &str = "schedule: program->configApplyDirection(\"s1\", \"DensePull\")";

const DIRECTIONS: [&str; 4] = [SPARSE_PUSH, HYBRID, DENSE_PUSH, DENSE_PULL];

const SERIAL: &str = "->configApplyParallelization(\"s1\", \"serial\");";

const STATIC: &str = "->configApplyParallelization(\"s1\", \"static-vertex-parallel\");";

const DYNAMIC: &str = "->configApplyParallelization(\"s1\", \"dynamic-vertex-parallel\");";

const BY_EDGES: &str =
    "->configApplyParallelization(\"s1\", \"edge-aware-dynamic-vertex-parallel\");";

const SHARES: [&str; 4] = [SERIAL, STATIC, DYNAMIC, BY_EDGES];

// A program's text in three parts, and its schedule's in two.
type Text = [&'static str; 5];

// A number of pieces, or the name of what is not as it should be.
type Counted = Result<u64, &'static str>;

/// A graph of n vertices with these edges.
pub(crate) fn graph_of(alloc: Global, vertices: u32, edges: &[(u32, u32)]) -> Result<Flat, Fail> {
    let mut batch = Batch::new(alloc);
    for (source, destination) in edges {
        batch.push(Entry::Add(*source, *destination, 1))?;
    }
    let graph = Graph::new(vertices, 64)?.apply(alloc, &batch)?;
    Ok(Flat::of(alloc, &graph)?)
}

// A ring of n vertices, each with an edge to the next.
fn ring_of(alloc: Global, vertices: u32) -> Result<Flat, Fail> {
    let mut batch = Batch::new(alloc);
    for vertex in 0..vertices {
        batch.push(Entry::Add(vertex, (vertex + 1) % vertices, 1))?;
    }
    let graph = Graph::new(vertices, 64)?.apply(alloc, &batch)?;
    Ok(Flat::of(alloc, &graph)?)
}

// What a program shows, by n workers.
fn shown(
    rt: &(impl Threads + AllocGlobal + Sync),
    graph: &Flat,
    [head, sources, tail, direction, share]: Text,
    workers: usize,
    roll: &Roll,
) -> Result<Outcome, Fail> {
    let text = format!(in rt.alloc(); "{head}{sources}{tail}{direction}{share}")?;
    let plan = compiler::compile(rt.alloc(), text.as_bytes())?;
    Ok(run(rt, rt.alloc(), &plan, graph, workers, 100, roll)?)
}

// For how many pieces of an apply the gate is called by n workers, if it is called once for each.
fn told_pieces(
    rt: &(impl Threads + AllocGlobal + Sync),
    graph: &Flat,
    text: Text,
    workers: usize,
    share: PieceAssignment,
) -> Result<Counted, Fail> {
    let roll = Roll::new(rt.alloc(), false)?;
    drop(shown(rt, graph, text, workers, &roll)?);
    let pieces = roll.pieces();
    let once = roll.check_each_once(pieces, workers as u64, share);
    Ok(once.map(|()| pieces))
}

// Whether so many pieces are right for an apply from all vertices of a large graph: one if the share is serial, one each if it is
// static, and else one each or more.
fn is_enough(pieces: u64, share: usize, workers: u64) -> bool {
    match share {
        0 => pieces == 1,
        1 => pieces == workers,
        _ => pieces >= workers,
    }
}

// Checks that the gate is called once for each piece of an apply from all vertices, and never in a push from no vertex.
fn check_calls(
    rt: &(impl Threads + AllocGlobal + Sync),
    graph: &Flat,
    (direction, share): (usize, usize),
    workers: usize,
) -> Result<Checked, Fail> {
    let assignment = match share {
        1 => PieceAssignment::Fixed,
        _ => PieceAssignment::Claimed,
    };
    let schedule = [DIRECTIONS[direction % 4], SHARES[share % 4]];
    let all = [HEAD, ALL, TAIL, schedule[0], schedule[1]];
    let of_all = match told_pieces(rt, graph, all, workers, assignment)? {
        Ok(pieces) => check(
            is_enough(pieces, share, workers as u64),
            "how many pieces there are",
        ),
        Err(wrong) => Err(wrong),
    };
    if of_all.is_err() || direction > 1 {
        return Ok(of_all);
    }
    let none = [HEAD, NONE, TAIL, schedule[0], schedule[1]];
    let of_none = told_pieces(rt, graph, none, workers, assignment)?;
    Ok(check(of_none == Ok(0), "a push from no vertex"))
}

#[test]
fn workers_are_told_of_each_piece_of_an_apply_once(rt: HostRuntime) -> Result<(), Fail> {
    let graph = ring_of(rt.alloc(), 300)?;
    for workers in [1, 2, 3, 7, 64] {
        for schedule in 0..16usize {
            let choices = (schedule / 4, schedule % 4);
            let told = check_calls(&rt, &graph, choices, workers)?;
            assert_eq!(rt; told, Ok(()), "schedule {schedule} by {workers}");
        }
    }
    Ok(())
}

// An apply: the number of vertices and the edges, its sources, the two parts of its schedule, the number of workers, and how many
// pieces there are.
type CutRow = (
    u32,
    &'static [(u32, u32)],
    &'static str,
    [&'static str; 2],
    usize,
    u64,
);

// All edges from vertex 0.
const STAR: &[(u32, u32)] = &[
    (0, 1),
    (0, 2),
    (0, 3),
    (0, 4),
    (0, 5),
    (0, 6),
    (0, 7),
    (0, 8),
    (0, 9),
    (0, 10),
    (0, 11),
    (0, 12),
    (0, 13),
    (0, 14),
    (0, 15),
    (0, 16),
    (0, 17),
    (0, 18),
    (0, 19),
    (0, 20),
];

// Five edges from 0 and one from each of 3 and 4: by edges the pieces for one worker are {0}, {1, 2, 3} and {4}, and for two {0},
// {1, 2}, {3} and {4}.
const OUT: &[(u32, u32)] = &[(0, 0), (0, 1), (0, 2), (0, 3), (0, 4), (3, 0), (4, 0)];

// The transposed edges.
const INTO: &[(u32, u32)] = &[(0, 0), (1, 0), (2, 0), (3, 0), (4, 0), (0, 3), (0, 4)];

const UNSAID: [&str; 2] = ["", ""];

const STATIC_ALONE: [&str; 2] = ["schedule: program", STATIC];

// What a schedule leaves unsaid is a serial sparse push. A push is cut by its sources, here one; a dense push and a pull by all
// vertices. The hybrid pushes from few edges and pulls from many.
const CUTS: [CutRow; 13] = [
    (21, STAR, VERTEX_0, UNSAID, 2, 1),
    (21, STAR, VERTEX_0, [DENSE_PULL, ";"], 2, 1),
    (21, STAR, ALL, UNSAID, 2, 1),
    (21, STAR, ALL, [DENSE_PUSH, ";"], 2, 1),
    (21, STAR, VERTEX_0, STATIC_ALONE, 2, 1),
    (21, STAR, VERTEX_0, [DENSE_PULL, STATIC], 2, 2),
    (21, STAR, VERTEX_0, [HYBRID, STATIC], 2, 2),
    (21, STAR, VERTEX_1, [HYBRID, STATIC], 2, 1),
    (5, OUT, VERTEX_0, [DENSE_PUSH, BY_EDGES], 1, 3),
    (5, OUT, VERTEX_0, [DENSE_PUSH, BY_EDGES], 2, 4),
    (5, OUT, ALL, [DENSE_PUSH, BY_EDGES], 2, 4),
    (5, INTO, VERTEX_0, [DENSE_PULL, BY_EDGES], 1, 3),
    (5, INTO, VERTEX_0, [DENSE_PULL, BY_EDGES], 2, 4),
];

// In how many pieces the apply of a row is done.
fn cut_pieces(rt: &(impl Threads + AllocGlobal + Sync), row: &CutRow) -> Result<Counted, Fail> {
    let (vertices, edges, sources, [direction, share], workers, _) = *row;
    let graph = graph_of(rt.alloc(), vertices, edges)?;
    let text = [HEAD, sources, TAIL, direction, share];
    told_pieces(rt, &graph, text, workers, PieceAssignment::Claimed)
}

#[test]
fn applies_are_cut_as_their_schedules_say(rt: HostRuntime) -> Result<(), Fail> {
    for (index, row) in CUTS.iter().enumerate() {
        assert_eq!(rt; cut_pieces(&rt, row)?, Ok(row.5), "row {index}");
    }
    Ok(())
}

// What a run ends with: its turns, the entries of its vector, and how many members its set has.
type Wanted<'a> = (u64, &'a [i64], usize);

// Checks that a run finished with this.
fn check_outcome(outcome: &Outcome, (turns, entries, members): Wanted<'_>) -> Checked {
    let (vectors, sets) = (outcome.vectors.as_slice(), outcome.sets.as_slice());
    let (Some(vector), Some(set)) = (vectors.first(), sets.first()) else {
        return Err("a vector and a set");
    };
    check(outcome.end == End::Finished, "the end")?;
    check(outcome.turns == turns, "the turns")?;
    check(vector.entries.as_slice() == entries, "the entries")?;
    check(
        set.members.as_slice().len() == members,
        "how many members there are",
    )
}

// In how many applies a piece was held in a run by n workers, if none was held too long and the run finished with what is wanted.
fn held_pieces(
    rt: &(impl Threads + AllocGlobal + Sync),
    graph: &Flat,
    text: Text,
    workers: usize,
    wanted: Wanted<'_>,
) -> Result<Counted, Fail> {
    // One worker enters piece 2 after piece 1, so nothing is held for it.
    let roll = Roll::new(rt.alloc(), workers > 1)?;
    let outcome = shown(rt, graph, text, workers, &roll)?;
    let checked = check_outcome(&outcome, wanted).and(roll.check());
    Ok(checked.map(|()| roll.held()))
}

/// A fork of six vertices that comes together, and a vertex that no edge reaches.
pub(crate) const FORK: &[(u32, u32)] = &[(0, 1), (0, 2), (1, 3), (2, 3), (3, 4)];

// What a search from vertex 0 finds in the fork.
const PARENTS: &[i64] = &[0, 0, 0, 2, 3, -1];

// Several workers hold a piece in some apply, unless all of it is one piece.
#[test]
fn a_search_finds_the_same_while_pieces_are_held(rt: HostRuntime) -> Result<(), Fail> {
    let fork = graph_of(rt.alloc(), 6, FORK)?;
    for workers in [1, 2, 7] {
        for schedule in 0..16usize {
            let (direction, share) = (DIRECTIONS[schedule / 4], SHARES[schedule % 4]);
            let text = [SEARCH, "", "", direction, share];
            let held = held_pieces(&rt, &fork, text, workers, (4, PARENTS, 0))?;
            let is_cut = workers > 1 && schedule % 4 > 0;
            assert_eq!(rt;
                held.map(|count| count > 0),
                Ok(is_cut),
                "schedule {schedule} by {workers}"
            );
        }
    }
    Ok(())
}

// Piece 1 is held until another worker enters piece 2, under each share of an apply that is cut.
#[test]
fn sixty_four_workers_share_a_thousand_sources(rt: HostRuntime) -> Result<(), Fail> {
    let ring = ring_of(rt.alloc(), 1000)?;
    let mut before = Vec::new(rt.alloc());
    for vertex in 0..1000i64 {
        before.push((vertex + 999) % 1000)?;
    }
    for share in [STATIC, DYNAMIC, BY_EDGES] {
        let text = [HEAD, ALL, TAIL, SPARSE_PUSH, share];
        let held = held_pieces(&rt, &ring, text, 64, (0, &before, 1000))?;
        assert_eq!(rt; held, Ok(1), "{share}");
    }
    Ok(())
}
