//! What statements of `main` do with vertex sets.
ghost use Rattle.std.specs.Prelude.{◌≡◌, [], ◌∷◌, ◌++◌, if◌then◌else◌, nat_lt, IfOk, OnOk, map, slice_get};
ghost use Rattle.typed_tree.specs.IntExpressionTree.{int_expression_tree};
ghost use Rattle.typed_tree.specs.ProgramTree.{program_tree};
ghost use Rattle.typed_tree.specs.FunctionStatementTree.{function_tree};
ghost use Rattle.algorithm_meaning.specs.EdgeApply.{after_edge_apply, modified};
ghost use Rattle.algorithm_meaning.specs.Statements.{with_vectors};
ghost use Rattle.algorithm_meaning.specs.Function.{filtered};
ghost use Rattle.plain_run.specs.inside.Seen.{graph_of, stand, state_of};
ghost use Rattle.algorithm_meaning.specs.Value.{members_of};
ghost use Rattle.algorithm_meaning.specs.VertexSets.{after_add_vertex, after_assign_set, after_declare_set, inserted, members_for, set_members, vectors_after};

use crate::edge_apply::{apply_edges, modified_vertices};
use crate::evaluate::members_at;
use crate::filter::filter_members;
use crate::initial_state::vertices_below;
use crate::state::{InterpreterState, RunInput, StatementContext};
use crate::values::{fault, vertex_of};
use algorithm_meaning::{End, SetBinding};
use std::alloc::{AllocError, Global};
use typed_tree::{ApplyEnds, Function, IntExpression, Sequence, SetValue};

/// A set variable begins with this value. Where that is what an apply changed, the vectors are changed too.
pub(crate) fn declare_set(
    alloc: Global,
    name: usize,
    value: SetValue,
    input: RunInput<'_>,
    state: &mut InterpreterState,
) -> Result<(), AllocError>
    ensures meaning { OnOk result (state_of state.new
        ≡ after_declare_set (program_tree input.entry.program.now) (graph_of input.entry.graph.now) name value (state_of state.old)) }
    ensures turns { state.new.turns ≡ state.old.turns }
{
    let members = value_of(alloc, value, input, state)?;
    state.sets.push(SetBinding { name, members })?;
    Ok(())
}

/// A set variable gets this value, in the same way.
pub(crate) fn assign_set(
    alloc: Global,
    index: usize,
    value: SetValue,
    input: RunInput<'_>,
    state: &mut InterpreterState,
) -> Result<(), AllocError>
    ensures meaning { OnOk result (state_of state.new
        ≡ after_assign_set (program_tree input.entry.program.now) (graph_of input.entry.graph.now) index value (state_of state.old)) }
    ensures turns { state.new.turns ≡ state.old.turns }
{
    let members = value_of(alloc, value, input, state)?;
    put_members(index, members, &mut state.sets);
    Ok(())
}

/// A set gets one more vertex.
pub(crate) fn add_vertex(
    alloc: Global,
    index: usize,
    e: &IntExpression,
    context: StatementContext,
    state: &mut InterpreterState,
) -> Result<Option<End>, AllocError>
    ensures meaning { IfOk result (λ end. stand end (state_of state.new)
        ≡ after_add_vertex context.vertices context.number index (int_expression_tree e.now) (state_of state.old)) }
    ensures turns { state.new.turns ≡ state.old.turns }
{
    let Some(vertex) = vertex_of(e, context.vertices, state) else {
        return Ok(fault(context.number));
    };
    let members = with_vertex(alloc, vertex, members_at(&state.sets, index))?;
    put_members(index, Sequence::new(members), &mut state.sets);
    Ok(None)
}

/// The members that a set value has, and the vectors after it.
fn value_of(
    alloc: Global,
    value: SetValue,
    input: RunInput<'_>,
    state: &mut InterpreterState,
) -> Result<Sequence<u32>, AllocError>
    ensures members { IfOk result (λ members. members
        ≡ members_for (program_tree input.entry.program.now) (graph_of input.entry.graph.now) value (state_of state.old)) }
    ensures vectors { OnOk result (state_of state.new
        ≡ with_vectors (state_of state.old) (vectors_after (program_tree input.entry.program.now) (graph_of input.entry.graph.now) value (state_of state.old))) }
    ensures turns { state.new.turns ≡ state.old.turns }
{
    match value {
        SetValue::Empty => Ok(Sequence::new(Vec::new(alloc))),
        SetValue::All => Ok(Sequence::new(vertices_below(alloc, input.graph.vertices)?)),
        SetValue::Copy(slot) => {
            let members = Vec::from_slice(alloc, members_at(&state.sets, slot.index))?;
            Ok(Sequence::new(members))
        }
        SetValue::Filter(slot, function) => {
            filter_set(alloc, slot.index, function, &input.program.filters, state)
        }
        SetValue::Modified(ends, function, vector) => {
            apply_modified(alloc, ends, function, vector, input, state)
        }
    }
}

/// The members of a set that a filter lets through.
fn filter_set(
    alloc: Global,
    index: usize,
    function: usize,
    filters: &[Function],
    state: &mut InterpreterState,
) -> Result<Sequence<u32>, AllocError>
    ensures members { IfOk result (λ members. members ≡ filtered (map function_tree filters.now) function state.old.sets.items state.old.vectors.items
        (members_of (slice_get state.old.sets.items index))) }
    ensures vectors { OnOk result (state_of state.new ≡ state_of state.old) }
    ensures turns { state.new.turns ≡ state.old.turns }
{
    let members = members_at(&state.sets, index);
    let kept = filter_members(
        alloc,
        filters,
        function,
        &state.sets,
        &mut state.vectors,
        members,
    )?;
    Ok(Sequence::new(kept))
}

/// Applies an edge function, and gives the vertices whose entry of a vector differs after it.
fn apply_modified(
    alloc: Global,
    ends: ApplyEnds,
    function: usize,
    vector: usize,
    input: RunInput<'_>,
    state: &mut InterpreterState,
) -> Result<Sequence<u32>, AllocError>
    ensures members { IfOk result (λ members. members ≡ modified input.entry.graph.now.vertices vector state.old.vectors.items
        (after_edge_apply (program_tree input.entry.program.now).filters (program_tree input.entry.program.now).edge_functions
        (graph_of input.entry.graph.now) ends (function ∷ []) (state_of state.old))) }
    ensures vectors { OnOk result (state_of state.new ≡ with_vectors (state_of state.old)
        (after_edge_apply (program_tree input.entry.program.now).filters (program_tree input.entry.program.now).edge_functions
        (graph_of input.entry.graph.now) ends (function ∷ []) (state_of state.old))) }
    ensures turns { state.new.turns ≡ state.old.turns }
{
    let after = apply_edges(alloc, ends, function, input, state)?;
    let changed = modified_vertices(alloc, input.graph.vertices, vector, &state.vectors, &after)?;
    state.vectors = after;
    Ok(Sequence::new(changed))
}

/// Gives the set at an index these members; where there is no set nothing is changed.
fn put_members(index: usize, members: Sequence<u32>, sets: &mut Vec<SetBinding>)
    ensures { sets.new.items ≡ set_members sets.old.items index members }
{
    if index < sets.len() {
        let set = &mut sets[index];
        set.members = members;
    }
}

/// The members with one more vertex, once, in ascending order.
#[tactic(auto, using(algorithm_meaning::proofs::Members::inserted_above))]
fn with_vertex(alloc: Global, vertex: u32, members: &[u32]) -> Result<Vec<u32>, AllocError>
    ensures { IfOk result (λ v. v.items ≡ inserted vertex members.now) }
{
    let mut more = Vec::new(alloc);
    let mut left = members;
    'members: while let Some((first, others)) = left.split_first() {
        if vertex <= *first {
            push_before(vertex, *first, &mut more)?;
            more.extend_from_slice(left)?;
            return Ok(more);
        }
        more.push(*first)?;
        left = others;
    }
    more.push(vertex)?;
    Ok(more)
}

/// Adds a vertex that is below the next one, and none that is the next one.
fn push_before(vertex: u32, next: u32, members: &mut Vec<u32>) -> Result<(), AllocError>
    ensures { OnOk result (members.new.items ≡ members.old.items ++ (if nat_lt vertex next then vertex ∷ [] else [])) }
{
    if vertex < next {
        members.push(vertex)?;
    }
    Ok(())
}
