//! Work of an apply by pull, in pieces.
ghost use Rattle.std.specs.Prelude.{◌≡◌, ℕ, ◌<◌, Bool, Err, length, map, IfOk, IfSome};
ghost use Rattle.std.specs.List.{range_with_len};
ghost use Rattle.std.proofs.Props.{props};
ghost use Rattle.kernels.specs.EdgeApply.{is_member};
ghost use Rattle.kernels.specs.State.{StateValue};
ghost use Rattle.kernels.specs.Registers.{HasSizes};
ghost use Rattle.crew.specs.declared.error.CrewError.TheVariants.{BadWorkers, NoMemory};
ghost use Rattle.crew.specs.Outcome.{AreWorkers};
ghost use Rattle.edge_fold.specs.Ends.{IsEndTest};
ghost use Rattle.crew.specs.Boundaries.{boundaries};
ghost use Rattle.crew.specs.Partition.{AreEnds};
ghost use Rattle.edge_apply.specs.inside.Propositions.{AreEnds-prop};
ghost use Rattle.flat_snapshot.specs.Neighbours.{sources_of};
ghost use Rattle.vertex_sets.specs.declared.form.Form.TheVariants as Form;
ghost use Rattle.pull_engine.specs.inside.Sources.{AreInBits, is_source};
ghost use Rattle.pull_engine.specs.inside.Propositions.{AreInBits-prop, IsMaskOf-prop};
ghost use Rattle.pull_engine.specs.inside.Masked.{IsMaskOf};
ghost use Rattle.kernels.specs.inside.Propositions.{HasShape-prop};
ghost use Rattle.pull_engine.specs.inside.Ranges.{IsShapeOfApply};

use crate::listed::{member_bits, partition_vertices};
use crate::masks::mask_of;
use crate::shapes::apply_shape;
use crate::source_words::SourceWords;
use crew::{CrewError, Partition, WorkerCount};
use edge_apply::Apply;
use edge_fold::{FoldStart, Scratch};
use kernels::Shape;
use std::alloc::{AllocError, Global};
use vertex_sets::VertexSet;

/// An apply in pieces, which workers may do side by side: all vertices are cut as its schedule says, and a piece answers
/// what the edges into those of its vertices give that pass. [`PullWork::merge`] makes the changes of the whole apply of it.
pub struct PullWork<'a> {
    pub(crate) apply: Apply<'a>,
    pub(crate) sources: SourceWords<'a>,
    pub(crate) members: Option<VertexSet>,
    pub(crate) partition: Partition,
    pub(crate) shape: Shape,
    /// What sources give by the shape, or nothing.
    pub(crate) masked: Vec<i64>,
    ghost whole: { AreEnds 0 apply.flat.now.vertices partition } by { AreEnds-prop 0 apply.flat.now.vertices partition },
    ghost form: { AreInBits sources } by { AreInBits-prop sources },
    ghost passing: { (m : StateValue) (from : ℕ → Bool) → apply.vectors.now.vectors ≡ m.vectors → HasSizes apply.sizes.now m → IsEndTest apply.from m from
        → (v : ℕ) → v < apply.flat.now.vertices → is_source sources v ≡ from v } by { Prim.hlevel (props) },
    ghost member_bits: { IfSome members (λ s. (m : StateValue) (test : ℕ → Bool) → IsEndTest apply.to m test
        → (v : ℕ) → test v ≡ is_member v s.members) } by { Prim.hlevel (props) },
    ghost shaped: { IsShapeOfApply shape apply.first.now apply.second } by { Prim.hlevel (HasShape-prop, props) },
    ghost mask: { IsMaskOf shape apply.vectors.now.vectors (is_source sources) masked.items } by { IsMaskOf-prop shape apply.vectors.now.vectors (is_source sources) masked.items },
}

impl Drop for PullWork<'_> {
    fn drop(self) {
        let PullWork {
            apply: _,
            sources: _,
            members: _,
            partition: _,
            shape: _,
            masked: _,
        } = self;
    }
}

impl<'a> PullWork<'a> {
    /// The pieces of an apply for n workers, 1 to 64. All vertices are cut, and are tested in their pieces. If the schedule
    /// cuts by edges, the edges of each block of 64 vertices are read, and degrees only in blocks in which a piece ends. The
    /// sources that pass are put into bits, and so are destinations that are a set, if they are not kept so. If sources are tested,
    /// all vertices are destinations and there are four edges or more to a vertex, what each source gives is put into a list once
    /// for all pieces. It takes time in proportion to the graph's vertices if there is such a list or an end has to be put into
    /// bits, and else to its blocks. The scratch serves any apply after this one.
    ///
    /// Errors: `BadWorkers` where the number of workers is not 1 to 64, else `NoMemory`.
    pub fn new(
        alloc: Global,
        apply: &Apply<'a>,
        workers: usize,
        scratch: &mut Scratch,
    ) -> Result<PullWork<'a>, CrewError>
        ensures workers { IfOk result (λ _. AreWorkers workers) }
        ensures refused { result ≡ Err BadWorkers → ¬ AreWorkers workers }
        ensures memory { result ≡ Err NoMemory → AreWorkers workers }
        ensures apply { IfOk result (λ w. w.apply ≡ apply.now) }
        ensures partition { IfOk result (λ w. w.partition ≡ boundaries apply.now.parallelization workers apply.now.flat.now.vertices
            (map (λ v. length (sources_of v apply.now.flat.now.edges)) (range_with_len 0 apply.now.flat.now.vertices))) }
    {
        let Some(count) = WorkerCount::new(workers) else {
            return Err(CrewError::BadWorkers);
        };
        let partition = partition_vertices(alloc, apply.parallelization, count, apply.flat)?;
        Ok(PullWork::of_partition(alloc, apply, partition, scratch)?)
    }

    /// The pieces of an apply if all vertices are cut so, as [`PullWork::new`] says. The only error is out of memory.
    pub(crate) fn of_partition(
        alloc: Global,
        apply: &Apply<'a>,
        partition: Partition,
        scratch: &mut Scratch,
    ) -> Result<PullWork<'a>, AllocError>
        requires { AreEnds 0 apply.now.flat.now.vertices partition }
        ensures apply { IfOk result (λ w. w.apply ≡ apply.now) }
        ensures partition { IfOk result (λ w. w.partition ≡ partition) }
    {
        let context = apply.context(FoldStart::Unit);
        let sources = SourceWords::of(alloc, apply.from, context, scratch)?;
        let members = member_bits(alloc, apply.to)?;
        let shape = apply_shape(apply.first, apply.second);
        let masked = mask_of(alloc, shape, apply, sources.words())?;
        Ok(PullWork {
            apply: *apply,
            sources,
            members,
            partition,
            shape,
            masked,
        })
    }

    /// Where all vertices are cut.
    pub(crate) fn into_partition(self) -> Partition
        ensures { result ≡ self.entry.partition }
    {
        let PullWork {
            apply: _,
            sources: _,
            members: _,
            partition,
            shape: _,
            masked: _,
        } = self;
        partition
    }
}
