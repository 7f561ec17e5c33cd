//! Programs, graphs and sessions of the tests.

use plans::Plan;
use session::{Session, SessionStep};
use std::alloc::{AllocError, Global};
use std::test::Fail;
use tree_batch::{Batch, Entry};

// A search from vertex 0, which tells the parent of each vertex.
const SEARCH: &str = "element Vertex end element Edge end \
    const edges : edgeset{Edge}(Vertex, Vertex) = load(argv[1]); const parent : vector{Vertex}(int) = -1; \
    func unseen(v : Vertex) -> output : bool output = parent[v] == -1; end \
    func visit(src : Vertex, dst : Vertex) parent[dst] max= src; end \
    func main() var frontier : vertexset{Vertex} = new vertexset{Vertex}(0); \
    frontier.addVertex(0); parent[0] = 0; \
    while frontier.getVertexSetSize() != 0 \
    frontier = edges.from(frontier).to(unseen).applyModified(visit, parent); end end";

// A program whose second statement is a fault on a graph of fewer than ten vertices.
const FAULTY: &str = "element Vertex end element Edge end \
    const parent : vector{Vertex}(int) = -1; \
    func main() print 1; parent[9] = 0; print 2; end";

// The lengths of the shortest ways from vertex 0.
const WAYS: &str = "element Vertex end element Edge end \
    const edges : edgeset{Edge}(Vertex, Vertex, int) = load(argv[1]); const far : vector{Vertex}(int) = 1000; \
    func relax(src : Vertex, dst : Vertex, length : int) far[dst] min= far[src] + length; end \
    func main() var frontier : vertexset{Vertex} = new vertexset{Vertex}(0); \
    frontier.addVertex(0); far[0] = 0; \
    while frontier.getVertexSetSize() != 0 \
    frontier = edges.from(frontier).applyModified(relax, far); end end";

/// The edges of a fork that comes together, and of a tail; a sixth vertex has none.
pub(crate) const FORK: &[Entry] = &[
    Entry::Add(0, 1, 1),
    Entry::Add(0, 2, 1),
    Entry::Add(1, 3, 1),
    Entry::Add(2, 3, 1),
    Entry::Add(3, 4, 1),
];

/// How many vertices the graphs have.
pub(crate) const VERTICES: u32 = 6;

/// The step that commits these entries.
pub(crate) fn commit(alloc: Global, entries: &[Entry]) -> Result<SessionStep, AllocError> {
    let mut batch = Batch::new(alloc);
    for entry in entries {
        if batch.push(*entry).is_err() {
            return Err(AllocError);
        }
    }
    Ok(SessionStep::Commit(batch))
}

/// The plans of the search, of the faulty program and of the lengths, in this order.
pub(crate) fn plans(alloc: Global) -> Result<Vec<Plan>, Fail> {
    let mut plans = Vec::new(alloc);
    for text in [SEARCH, FAULTY, WAYS] {
        plans.push(compiler::compile(alloc, text.as_bytes())?)?;
    }
    Ok(plans)
}

/// A session of six vertices with these programs.
pub(crate) fn session(alloc: Global) -> Result<Session, Fail> {
    Ok(Session::new(alloc, VERTICES, 64, plans(alloc)?)?)
}
