//! The numbers of edges to the vertices of a graph, as a partition by edges asks for them.
ghost use Rattle.std.specs.Prelude.{◌≡◌, ◌*◌, ◌^◌, ◌<◌, length};
ghost use Rattle.std.specs.List.{range_with_len, sum_by};
ghost use Rattle.flat_snapshot.specs.Neighbours.{sources_of};
ghost use Rattle.pull_engine.specs.inside.Degrees.{in_degrees};

use crew::DegreeList;
use flat_snapshot::Flat;

/// The numbers of edges to all vertices of a graph. Those of a run of 64 vertices are read off their block.
#[derive(Clone, Copy)]
pub(crate) struct InDegrees<'a> {
    pub(crate) flat: &'a Flat,
}

impl DegreeList for InDegrees<'_> {
    ghost degrees = { λ d. in_degrees d.flat.now };

    fn total(&self) -> usize {
        self.flat.edge_count() + self.flat.vertices() as usize
    }

    fn run_total(&self, run: usize) -> usize {
        let vertices = self.flat.vertices() as usize;
        let edges = edges_into(self.flat, run as u32);
        edges + (vertices - 64 * run).min(64)
    }

    fn degree(&self, index: usize) -> u32 {
        self.flat.vertices();
        self.flat.in_degree(index as u32)
    }
}

/// How many edges there are to the vertices of a block.
fn edges_into(flat: &Flat, block: u32) -> usize
    ensures { result ≡ sum_by (λ v. length (sources_of v flat.now.edges)) (range_with_len (64 * block) 64) }
{
    match flat.in_block(block) {
        Some(found) => found.edge_count(),
        None => 0,
    }
}
