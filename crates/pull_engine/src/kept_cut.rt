//! A cut of all vertices of a graph that is kept from pull to pull.
ghost use Rattle.std.specs.Prelude.{IfOk, IfSome};
ghost use Rattle.flat_snapshot.specs.Digraph.{Digraph};
ghost use Rattle.pull_engine.specs.KeptCut.{IsCutFor, IsCutOf};

use crate::listed::partition_vertices;
use apply_options::Parallelization;
use crew::{Partition, WorkerCount};
use flat_snapshot::Flat;
use std::alloc::{AllocError, Global};

/// The cut of all vertices of a graph that the last pull in pieces had, so that the next one need not make it again. It is for
/// one graph.
#[derive(Drop)]
pub struct KeptCut {
    /// As which schedule says, and for how many workers, the vertices are cut.
    parallelization: Parallelization,
    workers: usize,
    partition: Option<Partition>,
}

impl KeptCut {
    /// Nothing is kept yet, so it is for any graph.
    pub fn new() -> KeptCut
        ensures { (g : Digraph) → IsCutOf result g }
    {
        KeptCut {
            parallelization: Parallelization::Serial,
            workers: 0,
            partition: None,
        }
    }

    /// Takes the cut of the vertices of a graph for n workers, as a schedule says. It is made if another one, or none, is kept. The
    /// only error is out of memory.
    pub(crate) fn take(
        &mut self,
        alloc: Global,
        parallelization: Parallelization,
        workers: WorkerCount,
        flat: &Flat,
    ) -> Result<Partition, AllocError>
        requires { IsCutOf self.old flat.now }
        ensures taken { IfOk result (IsCutFor parallelization workers flat.now) }
        ensures left { IsCutOf self.new flat.now }
    {
        match self.take_kept(parallelization, workers) {
            Some(partition) => Ok(partition),
            None => partition_vertices(alloc, parallelization, workers, flat),
        }
    }

    /// Takes the cut that is kept, if it is for n workers, as a schedule says.
    fn take_kept(
        &mut self,
        parallelization: Parallelization,
        workers: WorkerCount,
    ) -> Option<Partition>
        ensures taken { (g : Digraph) → IsCutOf self.old g → IfSome result (IsCutFor parallelization workers g) }
        ensures left { (g : Digraph) → IsCutOf self.old g → IsCutOf self.new g }
    {
        let has_schedule = self.parallelization == parallelization;
        let has_workers = self.workers == workers.get();
        if has_schedule && has_workers {
            self.partition.take()
        } else {
            None
        }
    }

    /// Keeps the cut of a graph for n workers, as a schedule says.
    pub(crate) fn keep(
        &mut self,
        parallelization: Parallelization,
        workers: WorkerCount,
        partition: Partition,
    )
        ensures { (g : Digraph) → IsCutFor parallelization workers g partition → IsCutOf self.new g }
    {
        self.parallelization = parallelization;
        self.workers = workers.get();
        self.partition = Some(partition);
    }
}
