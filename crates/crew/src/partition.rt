//! Partition: where the pieces of some work end.
ghost use Rattle.std.specs.Prelude.{◌≡◌, ℕ, ◌+◌, ◌-◌, ◌*◌, ◌^◌, ◌<◌, ◌≤◌, [], ◌++◌, length, replicate, IfOk, OnOk};
ghost use Rattle.apply_options.specs.declared.apply_schedule.Parallelization.TheVariants.{EdgeAwareDynamicVertex};
ghost use Rattle.crew.specs.Boundaries.{dynamic_ends, boundaries, run_ends_from, rest_of, static_ends};
ghost use Rattle.crew.specs.Partition.{AreEnds, end_of};

use crate::degree_list::{DegreeList, ListedDegrees};
use crate::edge_aware::push_edge_aware;
use crate::worker_count::WorkerCount;
use apply_options::Parallelization;
use std::alloc::{AllocError, Global};
use std::marker::Model;
use std::ops::Range;

/// Where the pieces of a list of vertices end.
#[derive(Drop)]
pub struct Partition {
    ends: Vec<usize>,
}

impl Model for Partition {
    ghost use Rattle.std.specs.Prelude.{ℕ, List};

    ghost Value = { List ℕ };

    ghost view = { λ c. c.ends.items };
}

impl Partition {
    /// The partition of n vertices for n workers, as a schedule says. The degrees of the vertices are read where
    /// it says `EdgeAwareDynamicVertex`, and then it takes time in proportion to the vertices, and else to the workers.
    /// Where there is no vertex, there is no piece.
    ///
    /// The only error is out of memory.
    pub fn of(
        alloc: Global,
        parallelization: Parallelization,
        workers: WorkerCount,
        count: usize,
        degrees: &[u32],
    ) -> Result<Partition, AllocError>
        requires few { count < 2 ^ 32 }
        requires degrees { parallelization ≡ EdgeAwareDynamicVertex → length degrees.now ≡ count }
        ensures ends { IfOk result (λ c. c ≡ boundaries parallelization workers count degrees.now) }
        ensures whole { IfOk result (λ c. AreEnds 0 count c) }
    {
        let listed = ListedDegrees { list: degrees };
        Partition::by_degrees(alloc, parallelization, workers, count, &listed)
    }

    /// The partition of vertices of these degrees, like [`Partition::of`]. If the schedule says `EdgeAwareDynamicVertex`, it takes
    /// time in proportion to the runs of the degrees and to 64 for each piece.
    ///
    /// The only error is out of memory.
    pub fn by_degrees<D: DegreeList>(
        alloc: Global,
        parallelization: Parallelization,
        workers: WorkerCount,
        count: usize,
        degrees: &D,
    ) -> Result<Partition, AllocError>
        requires few { count < 2 ^ 32 }
        requires degrees { parallelization ≡ EdgeAwareDynamicVertex → length (D.degrees degrees.now) ≡ count }
        ensures ends { IfOk result (λ c. c ≡ boundaries parallelization workers count (D.degrees degrees.now)) }
        ensures whole { IfOk result (λ c. AreEnds 0 count c) }
    {
        let workers = workers.get();
        let mut ends = Vec::new(alloc);
        if count > 0 {
            push_ends(&mut ends, parallelization, workers, count, degrees)?;
        }
        Ok(Partition { ends })
    }

    /// How many pieces there are.
    pub fn pieces(&self) -> usize
        ensures { result ≡ length self.now }
    {
        self.ends.len()
    }

    /// The indices of a piece in the list. Pieces are numbered from 1.
    pub fn piece(&self, number: usize) -> Range<usize>
        requires some { 0 < number }
        requires inside { number ≤ length self.now }
        ensures start { result.start ≡ end_of self.now (number - 1) }
        ensures end { result.end ≡ end_of self.now number }
    {
        let start = if number == 1 {
            0
        } else {
            self.ends[number - 2]
        };
        start..self.ends[number - 1]
    }
}

/// Adds the ends of the pieces of n vertices.
fn push_ends<D: DegreeList>(
    ends: &mut Vec<usize>,
    parallelization: Parallelization,
    workers: usize,
    count: usize,
    degrees: &D,
) -> Result<(), AllocError>
    requires workers { (1 ≤ workers) × (workers ≤ 64) }
    requires some { 0 < count }
    requires few { count < 2 ^ 32 }
    requires degrees { parallelization ≡ EdgeAwareDynamicVertex → length (D.degrees degrees.now) ≡ count }
    ensures { OnOk result (ends.new.items ≡ ends.old.items ++ boundaries parallelization workers count (D.degrees degrees.now)) }
{
    match parallelization {
        Parallelization::Serial => push_rest(ends, 0, count),
        Parallelization::StaticVertex => push_static(ends, workers, count),
        Parallelization::DynamicVertex => push_dynamic(ends, workers, count),
        Parallelization::EdgeAwareDynamicVertex => {
            push_edge_aware(ends, workers, count, degrees)
        }
    }
}

/// Those of a piece for each worker.
fn push_static(ends: &mut Vec<usize>, workers: usize, count: usize) -> Result<(), AllocError>
    requires workers { 0 < workers }
    requires some { 0 < count }
    requires few { count < 2 ^ 32 }
    ensures { OnOk result (ends.new.items ≡ ends.old.items ++ static_ends workers count) }
{
    let pieces = workers.min(count);
    let longer = count % pieces;
    let run = count / pieces;
    let middle = push_runs(ends, 0, longer, run + 1)?;
    push_runs(ends, middle, pieces - longer, run)?;
    Ok(())
}

/// Those of four pieces for each worker.
fn push_dynamic(ends: &mut Vec<usize>, workers: usize, count: usize) -> Result<(), AllocError>
    requires workers { (1 ≤ workers) × (workers ≤ 64) }
    requires some { 0 < count }
    requires few { count < 2 ^ 32 }
    ensures { OnOk result (ends.new.items ≡ ends.old.items ++ dynamic_ends workers count) }
{
    let run = count.div_ceil(4 * workers);
    let last = push_runs(ends, 0, count / run, run)?;
    push_rest(ends, last, count % run)?;
    Ok(())
}

/// Adds the ends of n runs that have so many vertices each, and gives the last one.
fn push_runs(
    ends: &mut Vec<usize>,
    start: usize,
    runs: usize,
    run: usize,
) -> Result<usize, AllocError>
    requires { start + runs * run < 2 ^ 64 }
    ensures ends { OnOk result (ends.new.items ≡ ends.old.items ++ run_ends_from start (replicate runs run)) }
    ensures last { IfOk result (λ e. e ≡ start + runs * run) }
{
    let mut end = start;
    'runs: for _index in 0..runs {
        end += run;
        ends.push(end)?;
    }
    Ok(end)
}

/// Adds the end of what is left over, where something is.
fn push_rest(ends: &mut Vec<usize>, start: usize, rest: usize) -> Result<(), AllocError>
    requires { start + rest < 2 ^ 64 }
    ensures { OnOk result (ends.new.items ≡ ends.old.items ++ run_ends_from start (rest_of rest)) }
{
    if rest > 0 {
        ends.push(start + rest)?;
    }
    Ok(())
}
