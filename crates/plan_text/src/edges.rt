//! Edge applies, and groups of fields, as words.
ghost use Rattle.std.specs.Prelude.{◌≡◌, ◌++◌, ◌∷◌, [], map, codes, OnOk};
ghost use Rattle.typed_tree.specs.ProgramTree.{program_tree};
ghost use Rattle.plan_text.specs.Expressions.{vector_name_at, spaced};
ghost use Rattle.plan_text.specs.Lines.{changed_words, dense_word, direction_word, edges_words, end_word, group_words, parallelization_word, part_words, second_words};

use crate::applied_function::{AppliedFunction, ChangedSet};
use crate::names::Lines;
use crate::words::put_word;
use apply_options::{ApplySchedule, DenseVertexSet, Direction, Parallelization};
use std::alloc::AllocError;
use typed_tree::{ApplyEnds, VertexFilter};

impl<'a> Lines<'a> {
    /// Puts the words of an edge apply, of one function or of two that are done together. The only error is out of memory.
    #[tactic(auto, using(crate::proofs::Spaces::spaced_append))]
    pub fn put_edges(
        self,
        out: &mut Vec<u8>,
        ends: ApplyEnds,
        first: AppliedFunction,
        second: Option<AppliedFunction>,
        apply_schedule: ApplySchedule,
    ) -> Result<(), AllocError>
        ensures { OnOk result (out.new.items ≡ out.old.items ++ spaced (edges_words (program_tree self.entry.program.now) ends first second apply_schedule)) }
    {
        self.put_ends(out, ends)?;
        self.put_part(out, first)?;
        self.put_second(out, second)?;
        put_apply_schedule(out, apply_schedule)
    }

    /// `eapply FROM TO`
    fn put_ends(self, out: &mut Vec<u8>, ends: ApplyEnds) -> Result<(), AllocError>
        ensures { OnOk result (out.new.items ≡ out.old.items
            ++ spaced (codes "eapply" ∷ end_word (program_tree self.entry.program.now) ends.from
            ∷ end_word (program_tree self.entry.program.now) ends.to ∷ [])) }
    {
        put_word(out, b"eapply")?;
        put_word(out, self.end(ends.from))?;
        put_word(out, self.end(ends.to))
    }

    fn put_second(
        self,
        out: &mut Vec<u8>,
        second: Option<AppliedFunction>,
    ) -> Result<(), AllocError>
        ensures { OnOk result (out.new.items ≡ out.old.items ++ spaced (second_words (program_tree self.entry.program.now) second)) }
    {
        match second {
            None => Ok(()),
            Some(part) => self.put_part(out, part),
        }
    }

    /// `f`, or `f -> s v`
    fn put_part(self, out: &mut Vec<u8>, part: AppliedFunction) -> Result<(), AllocError>
        ensures { OnOk result (out.new.items ≡ out.old.items ++ spaced (part_words (program_tree self.entry.program.now) part)) }
    {
        put_word(
            out,
            self.function(&self.program.edge_functions, part.function),
        )?;
        self.put_changed(out, part.changed)
    }

    fn put_changed(self, out: &mut Vec<u8>, changed: Option<ChangedSet>) -> Result<(), AllocError>
        ensures { OnOk result (out.new.items ≡ out.old.items ++ spaced (changed_words (program_tree self.entry.program.now) changed)) }
    {
        match changed {
            None => Ok(()),
            Some(changed) => {
                put_word(out, b"->")?;
                put_word(out, self.name(changed.name))?;
                put_word(out, self.vector(changed.vector))
            }
        }
    }

    /// An end of an edge apply.
    fn end(self, end: Option<VertexFilter>) -> &'a [u8]
        ensures { result.now ≡ end_word (program_tree self.entry.program.now) end }
    {
        match end {
            None => b"-",
            Some(VertexFilter::Members(slot)) => self.name(slot.name),
            Some(VertexFilter::Function(index)) => self.function(&self.program.filters, index),
        }
    }

    /// Puts the words of a group of vectors that are kept side by side. The only error is out of memory.
    pub fn put_group(self, out: &mut Vec<u8>, vectors: &[usize]) -> Result<(), AllocError>
        ensures { OnOk result (out.new.items ≡ out.old.items ++ spaced (group_words (program_tree self.entry.program.now) vectors.now)) }
    {
        put_word(out, b"fields")?;
        self.put_vectors(out, vectors)
    }

    fn put_vectors(self, out: &mut Vec<u8>, vectors: &[usize]) -> Result<(), AllocError>
        ensures { OnOk result (out.new.items ≡ out.old.items ++ spaced (map (vector_name_at (program_tree self.entry.program.now)) vectors.now)) }
    {
        'vectors: for vector in vectors {
            put_word(out, self.vector(*vector))?;
        }
        Ok(())
    }
}

/// `: DIRECTION PARALLELIZATION DENSE`
fn put_apply_schedule(out: &mut Vec<u8>, apply_schedule: ApplySchedule) -> Result<(), AllocError>
    ensures { OnOk result (out.new.items ≡ out.old.items
        ++ spaced (codes ":" ∷ direction_word apply_schedule.direction ∷ parallelization_word apply_schedule.parallelization ∷ dense_word apply_schedule.dense_vertex_set ∷ [])) }
{
    put_word(out, b":")?;
    put_word(out, direction_text(apply_schedule.direction))?;
    put_word(out, parallelization_text(apply_schedule.parallelization))?;
    put_word(out, dense_text(apply_schedule.dense_vertex_set))
}

fn direction_text(direction: Option<Direction>) -> &'static [u8]
    ensures { result.now ≡ direction_word direction }
{
    match direction {
        None | Some(Direction::SparsePush) => b"SparsePush",
        Some(Direction::DensePush) => b"DensePush",
        Some(Direction::DensePull) => b"DensePull",
        Some(Direction::Hybrid) => b"DensePull-SparsePush",
    }
}

fn parallelization_text(parallelization: Option<Parallelization>) -> &'static [u8]
    ensures { result.now ≡ parallelization_word parallelization }
{
    match parallelization {
        None | Some(Parallelization::Serial) => b"serial",
        Some(Parallelization::StaticVertex) => b"static-vertex-parallel",
        Some(Parallelization::DynamicVertex) => b"dynamic-vertex-parallel",
        Some(Parallelization::EdgeAwareDynamicVertex) => b"edge-aware-dynamic-vertex-parallel",
    }
}

fn dense_text(dense: Option<DenseVertexSet>) -> &'static [u8]
    ensures { result.now ≡ dense_word dense }
{
    match dense {
        None | Some(DenseVertexSet::BoolArray) => b"bool-array",
        Some(DenseVertexSet::Bitvector) => b"bitvector",
    }
}
