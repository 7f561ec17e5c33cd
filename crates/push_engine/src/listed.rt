//! The sources of an apply, listed, and its destinations as bits.
ghost use Rattle.std.specs.Prelude.{◌≡◌, ◌↔◌, ℕ, ◌<◌, Bool, Some, true, false, List, length, map, IfOk, IfSome, IsSome};
ghost use Rattle.std.specs.List.{filter, range_with_len};
ghost use Rattle.kernels.specs.EdgeApply.{is_member};
ghost use Rattle.kernels.specs.State.{StateValue};
ghost use Rattle.apply_options.specs.declared.apply_schedule.Parallelization.TheVariants.{EdgeAwareDynamicVertex};
ghost use Rattle.kernels.specs.Registers.{HasSizes};
ghost use Rattle.edge_fold.specs.Ends.{IsEndTest, IsTest};
ghost use Rattle.crew.specs.Boundaries.{boundaries};
ghost use Rattle.crew.specs.Partition.{AreEnds};
ghost use Rattle.flat_snapshot.specs.Digraph.{IsDigraph};
ghost use Rattle.flat_snapshot.specs.Neighbours.{destinations_of};
ghost use Rattle.vertex_sets.specs.VertexSet.{IsVertexSet};
ghost use Rattle.edge_apply.specs.inside.Lists.{AscendsFrom};
ghost use Rattle.edge_apply.specs.Lists.{IsEndFor};
ghost use Rattle.edge_apply.specs.Words.{is_set};
ghost use Rattle.push_engine.specs.inside.Sources.{AreSources};
ghost use Rattle.push_engine.specs.Sources.{cut_list};
ghost use Rattle.push_engine.specs.Work.{is_kept_as_bits, makes_bits};

use crate::changes::is_tested_first;
use crate::source_degrees::SourceDegrees;
use apply_options::{Direction, Parallelization};
use crew::{Partition, WorkerCount};
use edge_apply::{Apply, all_vertices, passing_set};
use edge_fold::{FoldStart, Scratch};
use kernels::EndpointFilter;
use std::alloc::{AllocError, Global};
use vertex_sets::{Form, VertexSet};

/// Sources, ascending, and whether each piece is to test its own.
#[derive(Drop)]
pub(crate) struct Listed {
    pub(crate) sources: Vec<u32>,
    pub(crate) tested: bool,
}

/// The list of an apply that is cut into pieces: the vertices that its end lets through, and by the direction `DensePush`
/// all vertices, which are tested in their pieces. The only error is out of memory.
pub(crate) fn list_sources(
    alloc: Global,
    apply: &Apply<'_>,
    scratch: &mut Scratch,
) -> Result<Listed, AllocError>
    ensures sources { IfOk result (λ l. (m : StateValue) (from : ℕ → Bool) → apply.now.vectors.now.vectors ≡ m.vectors
        → HasSizes apply.now.sizes.now m → IsEndTest apply.now.from m from
        → AreSources apply.now.flat.now.edges from l.tested l.sources.items) }
    ensures list { IfOk result (λ l. (m : StateValue) (from : ℕ → Bool) → apply.now.vectors.now.vectors ≡ m.vectors → HasSizes apply.now.sizes.now m
        → IsEndTest apply.now.from m from
        → IsEndFor apply.now.flat.now.vertices apply.now.from → l.sources.items ≡ cut_list apply.now.direction apply.now.flat.now.vertices from) }
{
    match apply.from {
        None => {
            let sources = all_vertices(alloc, apply.flat)?;
            Ok(Listed {
                sources,
                tested: false,
            })
        }
        Some(end) => list_from(alloc, apply, end, scratch),
    }
}

/// Lists the sources of an apply if only some vertices pass.
fn list_from(
    alloc: Global,
    apply: &Apply<'_>,
    from: EndpointFilter<'_>,
    scratch: &mut Scratch,
) -> Result<Listed, AllocError>
    ensures sources { IfOk result (λ l. (m : StateValue) (test : ℕ → Bool) → apply.now.vectors.now.vectors ≡ m.vectors
        → HasSizes apply.now.sizes.now m → IsTest from.entry m test
        → AreSources apply.now.flat.now.edges test l.tested l.sources.items) }
    ensures list { IfOk result (λ l. (m : StateValue) (test : ℕ → Bool) → apply.now.vectors.now.vectors ≡ m.vectors → HasSizes apply.now.sizes.now m
        → IsTest from.entry m test
        → IsEndFor apply.now.flat.now.vertices (Some from.entry) → l.sources.items ≡ cut_list apply.now.direction apply.now.flat.now.vertices test) }
{
    if apply.direction == Direction::DensePush {
        let sources = all_vertices(alloc, apply.flat)?;
        return Ok(Listed {
            sources,
            tested: true,
        });
    }
    let sources = passing_sources(alloc, apply, from, scratch)?;
    Ok(Listed {
        sources,
        tested: false,
    })
}

/// The vertices that an end lets through.
fn passing_sources(
    alloc: Global,
    apply: &Apply<'_>,
    from: EndpointFilter<'_>,
    scratch: &mut Scratch,
) -> Result<Vec<u32>, AllocError>
    ensures sources { IfOk result (λ us. (m : StateValue) (test : ℕ → Bool) → apply.now.vectors.now.vectors ≡ m.vectors
        → HasSizes apply.now.sizes.now m → IsTest from.entry m test
        → AreSources apply.now.flat.now.edges test false us.items) }
    ensures list { IfOk result (λ us. (m : StateValue) (test : ℕ → Bool) → apply.now.vectors.now.vectors ≡ m.vectors → HasSizes apply.now.sizes.now m
        → IsTest from.entry m test
        → IsEndFor apply.now.flat.now.vertices (Some from.entry) → us.items ≡ filter test (range_with_len 0 apply.now.flat.now.vertices)) }
{
    match from {
        EndpointFilter::Members(set) => members_of(alloc, set),
        EndpointFilter::Filter(_) => {
            let all = all_vertices(alloc, apply.flat)?;
            let mut kept = Vec::new(alloc);
            let context = apply.context(FoldStart::Unit);
            scratch.keep_passing(context, from, &all, &mut kept)?;
            Ok(kept)
        }
    }
}

/// The members of a set, in a list. The only error is out of memory.
fn members_of(alloc: Global, set: &VertexSet) -> Result<Vec<u32>, AllocError>
    ensures ascending { IfOk result (λ us. AscendsFrom 0 us.items) }
    ensures members { IfOk result (λ us. us.items ≡ set.now.members) }
    ensures valid { IsVertexSet set.now }
{
    let mut found = Vec::new(alloc);
    'members: for member in set.iter() {
        found.push(member)?;
    }
    Ok(found)
}

/// Where a schedule cuts sources for n workers. The only error is out of memory.
pub(crate) fn partition_sources(
    alloc: Global,
    apply: &Apply<'_>,
    workers: WorkerCount,
    sources: &[u32],
) -> Result<Partition, AllocError>
    ensures ends { IfOk result (λ c. c ≡ boundaries apply.now.parallelization workers (length sources.now)
        (map (λ u. length (destinations_of u apply.now.flat.now.edges)) sources.now)) }
    ensures whole { IfOk result (λ c. AreEnds 0 (length sources.now) c) }
{
    let count = sources.len();
    // A graph has fewer vertices.
    if count > i32::MAX as usize {
        return Err(AllocError);
    }
    let parallelization = apply.parallelization;
    if parallelization != Parallelization::EdgeAwareDynamicVertex {
        return Partition::of(alloc, parallelization, workers, count, &[]);
    }
    let degrees = SourceDegrees::new(alloc, apply.flat, sources)?;
    Partition::by_degrees(alloc, parallelization, workers, count, &degrees)
}

/// The destinations that an end lets through, as bits, where they are tested as edges come and are not kept so already.
/// The only error is out of memory.
pub(crate) fn destination_bits(
    alloc: Global,
    apply: &Apply<'_>,
    scratch: &mut Scratch,
) -> Result<Option<VertexSet>, AllocError>
    ensures form { IfOk result (λ b. IfSome b (λ s. s.form ≡ Form.Bits)) }
    ensures passing { IfOk result (λ b. IfSome b (λ s. (m : StateValue) (to : ℕ → Bool) → apply.now.vectors.now.vectors ≡ m.vectors
        → HasSizes apply.now.sizes.now m → IsEndTest apply.now.to m to
        → (v : ℕ) → v < apply.now.flat.now.vertices → is_member v s.members ≡ to v)) }
    ensures made { IfOk result (λ b. IsSome b ↔ (makes_bits apply.now.flat.now apply.now.from apply.now.to ≡ true)) }
{
    let Some(end) = apply.to else {
        return Ok(None);
    };
    if !is_tested_first(apply, end) {
        return Ok(None);
    }
    bits_of_end(alloc, apply, end, scratch)
}

/// The destinations that an end lets through, as bits, whether they are tested first or last.
fn bits_of_end(
    alloc: Global,
    apply: &Apply<'_>,
    to: EndpointFilter<'_>,
    scratch: &mut Scratch,
) -> Result<Option<VertexSet>, AllocError>
    ensures form { IfOk result (λ b. IfSome b (λ s. s.form ≡ Form.Bits)) }
    ensures passing { IfOk result (λ b. IfSome b (λ s. (m : StateValue) (test : ℕ → Bool) → apply.now.vectors.now.vectors ≡ m.vectors
        → HasSizes apply.now.sizes.now m → IsTest to.entry m test
        → (v : ℕ) → v < apply.now.flat.now.vertices → is_member v s.members ≡ test v)) }
    ensures made { IfOk result (λ b. IsSome b ↔ (is_kept_as_bits to.entry ≡ false)) }
{
    match to {
        EndpointFilter::Members(set) => {
            if set.words().is_some() {
                return Ok(None);
            }
            let bits = set.to_form(alloc, Form::Bits)?;
            Ok(Some(bits))
        }
        EndpointFilter::Filter(_) => {
            let context = apply.context(FoldStart::Unit);
            let bits = passing_set(alloc, context, to, scratch)?;
            Ok(Some(bits))
        }
    }
}

/// The words of the set of an end, where it is kept as bits.
pub(crate) fn words_of_end<'a>(end: Option<EndpointFilter<'a>>) -> Option<&'a [u64]>
    ensures { IfSome result (λ words. (m : StateValue) (test : ℕ → Bool) → IsEndTest end.entry m test → (v : ℕ) → is_set words.now v ≡ test v) }
{
    match end {
        None => None,
        Some(to) => words_of(to),
    }
}

/// The words of the set of an end that is given, if it is kept as bits.
fn words_of<'a>(to: EndpointFilter<'a>) -> Option<&'a [u64]>
    ensures { IfSome result (λ words. (m : StateValue) (test : ℕ → Bool) → IsTest to.entry m test → (v : ℕ) → is_set words.now v ≡ test v) }
{
    match to {
        EndpointFilter::Members(set) => set.words(),
        EndpointFilter::Filter(_) => None,
    }
}
