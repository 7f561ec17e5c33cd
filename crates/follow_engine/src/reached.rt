//! The destinations whose entries an apply may change otherwise than the former one did.
ghost use Rattle.std.specs.Prelude.{◌≡◌, ◌<◌, ◌≤◌, ◌||◌, ◌&&◌, ◌==◌, ◌+◌, ℕ, true, false, if◌then◌else◌, None, length, IfSome};
ghost use Rattle.kernels.specs.EdgeApply.{is_member};
ghost use Rattle.vertex_marks.specs.Marks.{is_marked, room};
ghost use Rattle.flat_snapshot.specs.Neighbours.{destinations_of};
ghost use Rattle.follow_engine.specs.Reached.{is_edge_reached, is_reached, is_row_reached, leads, may_pass};
ghost use Rattle.follow_engine.specs.Work.{edges_from_some, marking_work};

use crate::differences::Differences;
use edge_apply::Apply;
use flat_snapshot::Flat;
use kernels::EndpointFilter;
use vertex_marks::VertexMarks;

/// Marks the destinations whose entries an apply may change otherwise than the former apply did: the vertices that are named,
/// the destinations of named edges, and those of the edges from named sources and from sources with a named entry. It goes
/// over at most `budget` edges, and answers whether these were enough. If they were not, what is marked means nothing. A named
/// number that is no vertex is not marked.
pub fn mark_reached(
    apply: &Apply<'_>,
    former: &Apply<'_>,
    differences: &Differences<'_>,
    budget: usize,
    marks: &mut VertexMarks,
) -> bool
    requires room { apply.now.flat.now.vertices ≤ room marks.old }
    requires clear { (v : ℕ) → is_marked marks.old v ≡ false }
    ensures room { room marks.new ≡ room marks.old }
    ensures reached { result ≡ true → (v : ℕ) → v < apply.now.flat.now.vertices
        → is_marked marks.new v ≡ is_reached apply.now former.now differences.now v }
    ensures within { result ≡ true → marking_work apply.now differences.now ≤ budget }
    ensures spent { result ≡ false → budget < marking_work apply.now differences.now }
{
    let vertices = apply.flat.vertices();
    mark_all(differences.entries, vertices, marks);
    mark_all(differences.destinations, vertices, marks);
    mark_destinations(apply.from, former.from, differences.edges, vertices, marks);
    let Some(left) = mark_rows(apply.flat, None, differences.sources, budget, marks) else {
        return false;
    };
    mark_rows(apply.flat, apply.from, differences.entries, left, marks).is_some()
}

/// Whether an end may let a vertex through: a member, or any vertex if the end is a filter.
fn may_pass(end: Option<EndpointFilter<'_>>, vertex: u32) -> bool
    ensures { result ≡ may_pass end.entry vertex }
{
    match end {
        Some(end) => end_may_pass(end, vertex),
        None => true,
    }
}

/// Whether an end that is given may do so.
fn end_may_pass(end: EndpointFilter<'_>, vertex: u32) -> bool
    ensures { result ≡ may_pass (Some end.entry) vertex }
{
    match end {
        EndpointFilter::Members(set) => set.contains(vertex),
        EndpointFilter::Filter(_) => true,
    }
}

/// Whether one of two ends may do so.
fn either_may_pass(
    now: Option<EndpointFilter<'_>>,
    was: Option<EndpointFilter<'_>>,
    vertex: u32,
) -> bool
    ensures { result ≡ may_pass now.entry vertex || may_pass was.entry vertex }
{
    may_pass(now, vertex) || may_pass(was, vertex)
}

/// Marks a vertex if it is to be marked and is one.
#[inline]
fn mark_if(wanted: bool, vertex: u32, vertices: u32, marks: &mut VertexMarks)
    requires { vertices ≤ room marks.old }
    ensures room { room marks.new ≡ room marks.old }
    ensures marks { (v : ℕ) → v < vertices → is_marked marks.new v ≡ is_marked marks.old v || (wanted && (vertex == v)) }
{
    if wanted && vertex < vertices {
        marks.insert(vertex);
    }
}

/// Marks those that are vertices.
fn mark_all(named: &[u32], vertices: u32, marks: &mut VertexMarks)
    requires { vertices ≤ room marks.old }
    ensures room { room marks.new ≡ room marks.old }
    ensures marks { (v : ℕ) → v < vertices → is_marked marks.new v ≡ is_marked marks.old v || is_member v named.now }
{
    'named: for vertex in named {
        mark_if(true, *vertex, vertices, marks);
    }
}

/// Marks the destinations of those edges whose source one of two ends may let through.
fn mark_destinations(
    now: Option<EndpointFilter<'_>>,
    was: Option<EndpointFilter<'_>>,
    edges: &[(u32, u32)],
    vertices: u32,
    marks: &mut VertexMarks,
)
    requires { vertices ≤ room marks.old }
    ensures room { room marks.new ≡ room marks.old }
    ensures marks { (v : ℕ) → v < vertices → is_marked marks.new v ≡ is_marked marks.old v || is_edge_reached now.entry was.entry edges.now v }
{
    'edges: for edge in edges {
        mark_if(either_may_pass(now, was, edge.0), edge.1, vertices, marks);
    }
}

/// Marks the destinations of the edges from those sources that an end may let through. It answers how many edges of the
/// budget are left, or `None` if it is spent before the end.
fn mark_rows(
    flat: &Flat,
    end: Option<EndpointFilter<'_>>,
    sources: &[u32],
    budget: usize,
    marks: &mut VertexMarks,
) -> Option<usize>
    requires { flat.now.vertices ≤ room marks.old }
    ensures room { room marks.new ≡ room marks.old }
    ensures marks { IfSome result (λ _. (v : ℕ) → v < flat.now.vertices
        → is_marked marks.new v ≡ is_marked marks.old v || is_row_reached flat.now.edges end.entry sources.now v) }
    ensures left { IfSome result (λ left. left + edges_from_some flat.now.edges end.entry sources.now ≡ budget) }
    ensures spent { result ≡ None → budget < edges_from_some flat.now.edges end.entry sources.now }
{
    let mut left = budget;
    'sources: for source in sources {
        left = mark_source(flat, end, *source, left, marks)?;
    }
    Some(left)
}

/// Marks the destinations of the edges from a source if an end may let it through, with as many edges of the budget.
fn mark_source(
    flat: &Flat,
    end: Option<EndpointFilter<'_>>,
    source: u32,
    budget: usize,
    marks: &mut VertexMarks,
) -> Option<usize>
    requires { flat.now.vertices ≤ room marks.old }
    ensures room { room marks.new ≡ room marks.old }
    ensures marks { IfSome result (λ _. (v : ℕ) → v < flat.now.vertices
        → is_marked marks.new v ≡ is_marked marks.old v || (may_pass end.entry source && leads flat.now.edges source v)) }
    ensures left { IfSome result (λ left. left + (if may_pass end.entry source then length (destinations_of source flat.now.edges) else 0) ≡ budget) }
    ensures spent { result ≡ None → budget < (if may_pass end.entry source then length (destinations_of source flat.now.edges) else 0) }
{
    if !may_pass(end, source) {
        return Some(budget);
    }
    let edges = flat.out_degree(source) as usize;
    if budget < edges {
        return None;
    }
    mark_row(flat, source, marks);
    Some(budget - edges)
}

/// Marks the destinations of the edges from a source.
fn mark_row(flat: &Flat, source: u32, marks: &mut VertexMarks)
    requires { flat.now.vertices ≤ room marks.old }
    ensures room { room marks.new ≡ room marks.old }
    ensures marks { (v : ℕ) → v < flat.now.vertices → is_marked marks.new v ≡ is_marked marks.old v || leads flat.now.edges source v }
{
    let vertices = flat.vertices();
    'destinations: for (destination, _) in flat.out(source) {
        mark_if(true, destination, vertices, marks);
    }
}
