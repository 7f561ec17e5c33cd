//! The numbers of edges from listed sources, as a partition by edges asks for them.
ghost use Rattle.std.specs.Prelude.{◌≡◌, ◌+◌, ◌*◌, ◌^◌, ◌<◌, ◌≤◌, length, vec_len, IfOk, IfSome};
ghost use Rattle.std.specs.List.{range_with_len, sum_by};
ghost use Rattle.std.proofs.Props.{props};
ghost use Rattle.crew.specs.Limits.{weight};
ghost use Rattle.flat_snapshot.specs.Neighbours.{destinations_of};
ghost use Rattle.push_engine.specs.inside.Degrees.{out_degrees, AreRunTotals};

use crew::DegreeList;
use flat_snapshot::Flat;
use pages::BLOCK_SIZE;
use std::alloc::{AllocError, Global};

/// The numbers of edges from listed sources. Those of each run of 64 sources are counted once, and if a run is a block of the
/// graph, they are read off it.
pub(crate) struct SourceDegrees<'a> {
    flat: &'a Flat,
    sources: &'a [u32],
    totals: Vec<usize>,
    total: usize,
    ghost room: { length sources.now ≤ 64 * vec_len totals },
    ghost runs: { AreRunTotals (out_degrees flat.now sources.now) totals.items } by { Prim.hlevel (props) },
    ghost whole: { total ≡ weight (out_degrees flat.now sources.now) },
}

impl Drop for SourceDegrees<'_> {
    fn drop(self) {
        let SourceDegrees {
            flat: _,
            sources: _,
            totals: _,
            total: _,
        } = self;
    }
}

impl<'a> SourceDegrees<'a> {
    /// The numbers of edges from these sources. The only error is out of memory.
    pub(crate) fn new(
        alloc: Global,
        flat: &'a Flat,
        sources: &'a [u32],
    ) -> Result<SourceDegrees<'a>, AllocError>
        requires { length sources.now < 2 ^ 31 }
        ensures flat { IfOk result (λ d. d.flat.now ≡ flat.now) }
        ensures sources { IfOk result (λ d. d.sources.now ≡ sources.now) }
    {
        let runs = sources.len().div_ceil(64);
        let mut totals = Vec::with_capacity(alloc, runs)?;
        let mut total = 0usize;
        'runs: for run in 0..runs {
            let stop = (64 * run + 64).min(sources.len());
            let weight = weight_of(flat, &sources[64 * run..stop]);
            totals.push(weight)?;
            total += weight;
        }
        Ok(SourceDegrees {
            flat,
            sources,
            totals,
            total,
        })
    }
}

impl DegreeList for SourceDegrees<'_> {
    ghost degrees = { λ d. out_degrees d.flat.now d.sources.now };

    fn total(&self) -> usize {
        self.total
    }

    fn run_total(&self, run: usize) -> usize {
        self.totals[run]
    }

    fn degree(&self, index: usize) -> u32 {
        self.flat.out_degree(self.sources[index])
    }
}

/// The number of sources in a run, and of the edges from them.
fn weight_of(flat: &Flat, run: &[u32]) -> usize
    requires { length run.now ≤ 64 }
    ensures weight { result ≡ weight (out_degrees flat.now run.now) }
    ensures few { result ≤ length run.now * (2 ^ 32 + 1) }
{
    match block_of(run) {
        Some(block) => 64 + edges_from(flat, block),
        None => weight_of_each(flat, run),
    }
}

/// The number of sources in a run, and of the edges from them, by a look at each source.
fn weight_of_each(flat: &Flat, run: &[u32]) -> usize
    requires { length run.now ≤ 64 }
    ensures weight { result ≡ weight (out_degrees flat.now run.now) }
    ensures few { result ≤ length run.now * (2 ^ 32 + 1) }
{
    let mut weight = 0usize;
    'sources: for source in run {
        weight += flat.out_degree(*source) as usize + 1;
    }
    weight
}

/// The block of which these are all vertices, in their order.
fn block_of(run: &[u32]) -> Option<u32>
    ensures { IfSome result (λ block. run.now ≡ range_with_len (64 * block) 64) }
{
    if run.len() != 64 {
        return None;
    }
    let block = run[0] / BLOCK_SIZE;
    'vertices: for (index, vertex) in run.iter().enumerate() {
        if *vertex as usize != 64 * block as usize + index {
            return None;
        }
    }
    Some(block)
}

/// The number of edges from the vertices of a block.
fn edges_from(flat: &Flat, block: u32) -> usize
    ensures total { result ≡ sum_by (λ u. length (destinations_of u flat.now.edges)) (range_with_len (64 * block) 64) }
    ensures few { result ≤ 64 * 2 ^ 32 }
{
    match flat.out_block(block) {
        Some(found) => found.edge_count(),
        None => 0,
    }
}
