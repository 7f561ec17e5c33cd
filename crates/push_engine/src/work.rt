//! Work of an apply by push, in pieces.
ghost use Rattle.std.specs.Prelude.{◌≡◌, ◌↔◌, ℕ, ◌<◌, Bool, true, Err, length, map, vec_len, IfOk, IfSome, IsSome};
ghost use Rattle.kernels.specs.EdgeApply.{is_member};
ghost use Rattle.kernels.specs.State.{StateValue};
ghost use Rattle.kernels.specs.Registers.{HasSizes};
ghost use Rattle.crew.specs.declared.error.CrewError.TheVariants.{BadWorkers, NoMemory};
ghost use Rattle.crew.specs.Outcome.{AreWorkers};
ghost use Rattle.edge_fold.specs.Ends.{IsEndTest};
ghost use Rattle.crew.specs.Boundaries.{boundaries};
ghost use Rattle.crew.specs.Partition.{AreEnds};
ghost use Rattle.flat_snapshot.specs.Neighbours.{destinations_of};
ghost use Rattle.std.proofs.Props.{props};
ghost use Rattle.edge_apply.specs.inside.Propositions.{AreEnds-prop, AscendsFrom-prop};
ghost use Rattle.edge_apply.specs.Lists.{IsEndFor};
ghost use Rattle.vertex_sets.specs.declared.form.Form.TheVariants as Form;
ghost use Rattle.push_engine.specs.inside.Sources.{AreSources};
ghost use Rattle.push_engine.specs.Sources.{cut_list};
ghost use Rattle.push_engine.specs.Work.{makes_bits};

use crate::listed::{destination_bits, list_sources, partition_sources};
use crew::{CrewError, Partition, WorkerCount};
use edge_apply::Apply;
use edge_fold::Scratch;
use std::alloc::{AllocError, Global};
use vertex_sets::VertexSet;

/// An apply in pieces, which workers may do side by side: the sources are cut as its schedule says, and a piece answers
/// what the edges from its sources give, where destinations are tested as by a push: as they come, by bits that are made
/// once, or at the end. [`PushWork::merge`] makes the changes of the whole apply of it.
pub struct PushWork<'a> {
    pub(crate) apply: Apply<'a>,
    pub(crate) sources: Vec<u32>,
    pub(crate) tested: bool,
    pub(crate) partition: Partition,
    pub(crate) bits: Option<VertexSet>,
    ghost whole: { AreEnds 0 (length sources.items) partition } by { AreEnds-prop 0 (length sources.items) partition },
    ghost passing: { (m : StateValue) (from : ℕ → Bool) → apply.vectors.now.vectors ≡ m.vectors → HasSizes apply.sizes.now m → IsEndTest apply.from m from
        → AreSources apply.flat.now.edges from tested sources.items } by { Prim.hlevel (AscendsFrom-prop, props) },
    ghost form: { IfSome bits (λ s. s.form ≡ Form.Bits) } by { Prim.hlevel (props) },
    ghost destinations: { IfSome bits (λ s. (m : StateValue) (to : ℕ → Bool) → apply.vectors.now.vectors ≡ m.vectors → HasSizes apply.sizes.now m
        → IsEndTest apply.to m to
        → (v : ℕ) → v < apply.flat.now.vertices → is_member v s.members ≡ to v) } by { Prim.hlevel (props) },
}

impl Drop for PushWork<'_> {
    fn drop(self) {
        let PushWork {
            apply: _,
            sources: _,
            tested: _,
            partition: _,
            bits: _,
        } = self;
    }
}

impl<'a> PushWork<'a> {
    /// The pieces of an apply for n workers, 1 to 64. What is cut is the list of the vertices that its end lets
    /// through, and by the direction `DensePush` that of all vertices. Where the schedule cuts by edges, their degrees are
    /// read. Destinations that are tested as edges come are put into bits, where they are not kept so. It takes time in
    /// proportion to the list, and to the vertices where a filter is to be run or bits are made. The scratch serves any
    /// apply after this one.
    ///
    /// Errors: `BadWorkers` where the number of workers is not 1 to 64, else `NoMemory`.
    pub fn new(
        alloc: Global,
        apply: &Apply<'a>,
        workers: usize,
        scratch: &mut Scratch,
    ) -> Result<PushWork<'a>, CrewError>
        ensures workers { IfOk result (λ _. AreWorkers workers) }
        ensures refused { result ≡ Err BadWorkers → ¬ AreWorkers workers }
        ensures memory { result ≡ Err NoMemory → AreWorkers workers }
        ensures apply { IfOk result (λ w. w.apply ≡ apply.now) }
        ensures list { IfOk result (λ w. (m : StateValue) (from : ℕ → Bool) → apply.now.vectors.now.vectors ≡ m.vectors
            → HasSizes apply.now.sizes.now m → IsEndTest apply.now.from m from
            → IsEndFor apply.now.flat.now.vertices apply.now.from → w.sources.items ≡ cut_list apply.now.direction apply.now.flat.now.vertices from) }
        ensures partition { IfOk result (λ w. w.partition ≡ boundaries apply.now.parallelization workers (vec_len w.sources)
            (map (λ u. length (destinations_of u apply.now.flat.now.edges)) w.sources.items)) }
        ensures bits { IfOk result (λ w. IsSome w.bits ↔ (makes_bits apply.now.flat.now apply.now.from apply.now.to ≡ true)) }
    {
        let Some(count) = WorkerCount::new(workers) else {
            return Err(CrewError::BadWorkers);
        };
        Ok(PushWork::for_workers(alloc, apply, count, scratch)?)
    }

    /// The pieces of an apply for these workers, as [`PushWork::new`] says. The only error is out of memory.
    pub(crate) fn for_workers(
        alloc: Global,
        apply: &Apply<'a>,
        count: WorkerCount,
        scratch: &mut Scratch,
    ) -> Result<PushWork<'a>, AllocError>
        ensures apply { IfOk result (λ w. w.apply ≡ apply.now) }
        ensures list { IfOk result (λ w. (m : StateValue) (from : ℕ → Bool) → apply.now.vectors.now.vectors ≡ m.vectors
            → HasSizes apply.now.sizes.now m → IsEndTest apply.now.from m from
            → IsEndFor apply.now.flat.now.vertices apply.now.from → w.sources.items ≡ cut_list apply.now.direction apply.now.flat.now.vertices from) }
        ensures partition { IfOk result (λ w. w.partition ≡ boundaries apply.now.parallelization count (vec_len w.sources)
            (map (λ u. length (destinations_of u apply.now.flat.now.edges)) w.sources.items)) }
        ensures bits { IfOk result (λ w. IsSome w.bits ↔ (makes_bits apply.now.flat.now apply.now.from apply.now.to ≡ true)) }
    {
        let listed = list_sources(alloc, apply, scratch)?;
        let partition = partition_sources(alloc, apply, count, &listed.sources)?;
        let bits = destination_bits(alloc, apply, scratch)?;
        Ok(PushWork {
            apply: *apply,
            sources: listed.sources,
            tested: listed.tested,
            partition,
            bits,
        })
    }
}
