//! `apply` of edge functions, and `applyModified`.
ghost use Rattle.std.specs.Prelude.{◌≡◌, [], ◌∷◌, ◌++◌, Some, false, true, if◌then◌else◌, IfOk, OnOk, map, replicate, slice_index_or, slice_set};
ghost use Rattle.std.specs.List.{filter, range_with_len};
ghost use Rattle.typed_tree.specs.ProgramTree.{program_tree};
ghost use Rattle.typed_tree.specs.FunctionStatementTree.{function_tree, function_statements_tree};
ghost use Rattle.algorithm_meaning.specs.EdgeApply.{after_edge_apply, after_edges, gives, is_end, is_modified, modified, with_given};
ghost use Rattle.algorithm_meaning.specs.Function.{result_of};
ghost use Rattle.plain_run.specs.inside.Flags.{HasFlags, flagged, marked};
ghost use Rattle.plain_run.specs.inside.Seen.{graph_of, state_of};

use crate::entries::{copied, reduce_entry_at};
use crate::evaluate::{entry_of, members_at};
use crate::filter::filter_passes;
use crate::function::{FunctionFrame, begin, new_frame, run_steps, steps_at};
use crate::state::{EdgeList, InterpreterState, RunInput};
use algorithm_meaning::{Contribution, SetBinding, Writing};
use std::alloc::{AllocError, Global};
use typed_tree::{ApplyEnds, Function, FunctionStatement, Sequence, VertexFilter};

/// The vertices that the ends of an edge may be: for each vertex whether it may.
struct Passing {
    sources: Vec<bool>,
    destinations: Vec<bool>,
}

impl Drop for Passing {
    fn drop(self) {
        let Passing {
            sources: _,
            destinations: _,
        } = self;
    }
}

/// Applies the edge function at an index to the edges between the ends, and gives the vectors after it. The
/// state stays. It looks at each edge and each vertex once.
pub(crate) fn apply_edges(
    alloc: Global,
    ends: ApplyEnds,
    function: usize,
    input: RunInput<'_>,
    state: &mut InterpreterState,
) -> Result<Vec<Sequence<i64>>, AllocError>
    ensures vectors { IfOk result (λ v. v.items
        ≡ after_edge_apply (program_tree input.entry.program.now).filters (program_tree input.entry.program.now).edge_functions
        (graph_of input.entry.graph.now) ends (function ∷ []) (state_of state.old)) }
    ensures state { OnOk result (state_of state.new ≡ state_of state.old) }
    ensures turns { state.new.turns ≡ state.old.turns }
{
    let RunInput { program, graph } = input;
    let filters: &[Function] = &program.filters;
    let sources = flags_of(alloc, filters, graph, ends.from, state)?;
    let destinations = flags_of(alloc, filters, graph, ends.to, state)?;
    let passing = Passing {
        sources,
        destinations,
    };
    let steps = steps_at(&program.edge_functions, function);
    let InterpreterState { vectors, sets, .. } = state;
    run_for_edges(alloc, steps, &passing, graph.edges, sets, vectors)
}

/// Runs statements for each of these edges that passes, and gives the vectors after it.
fn run_for_edges(
    alloc: Global,
    steps: &[FunctionStatement],
    passing: &Passing,
    edges: &[(u32, u32, i64)],
    sets: &[SetBinding],
    before: &mut Vec<Sequence<i64>>,
) -> Result<Vec<Sequence<i64>>, AllocError>
    ensures after { IfOk result (λ v. v.items ≡ after_edges (function_statements_tree steps.now ∷ []) sets.now before.old.items
        (filter (flagged passing.now) edges.now) before.old.items) }
    ensures before { OnOk result (before.new.items ≡ before.old.items) }
{
    let mut after = copied(alloc, before)?;
    let mut frame = new_frame(alloc);
    'edges: for edge in edges {
        if passes(passing, *edge) {
            run_for_edge(steps, sets, *edge, before, &mut after, &mut frame)?;
        }
    }
    Ok(after)
}

fn passes(passing: &Passing, edge: (u32, u32, i64)) -> bool
    ensures { result ≡ flagged passing.now edge }
{
    flag_at(&passing.sources, edge.0) && flag_at(&passing.destinations, edge.1)
}

fn flag_at(flags: &[bool], vertex: u32) -> bool
    ensures { result ≡ slice_index_or flags.now vertex false }
{
    match flags.get(vertex as usize) {
        Some(flag) => *flag,
        None => false,
    }
}

fn run_for_edge(
    steps: &[FunctionStatement],
    sets: &[SetBinding],
    edge: (u32, u32, i64),
    before: &mut Vec<Sequence<i64>>,
    after: &mut Vec<Sequence<i64>>,
    frame: &mut FunctionFrame,
) -> Result<(), AllocError>
    ensures after { OnOk result (after.new.items ≡ with_given edge.1 (gives (function_statements_tree steps.now) sets.now before.old.items edge) after.old.items) }
    ensures before { OnOk result (before.new.items ≡ before.old.items) }
{
    begin(frame, edge.0, edge.1, edge.2);
    run_steps(steps, Writing::Collected, sets, before, frame)?;
    put_given(&frame.given, edge.1, after);
    Ok(())
}

/// Puts what a vertex was given into its entries.
fn put_given(given: &[Contribution], vertex: u32, vectors: &mut Vec<Sequence<i64>>)
    ensures { vectors.new.items ≡ with_given vertex given.now vectors.old.items }
{
    'given: for contribution in given {
        reduce_entry_at(vectors, vertex, *contribution);
    }
}

/// For each vertex, whether an end lets it through.
fn flags_of(
    alloc: Global,
    filters: &[Function],
    graph: &EdgeList,
    end: Option<VertexFilter>,
    state: &mut InterpreterState,
) -> Result<Vec<bool>, AllocError>
    ensures flags { IfOk result (λ f. HasFlags f.items (is_end (map function_tree filters.now) (graph_of graph.now) (state_of state.old) end)) }
    ensures state { OnOk result (state_of state.new ≡ state_of state.old) }
    ensures turns { state.new.turns ≡ state.old.turns }
{
    match end {
        None => vec![in alloc; true; graph.vertices as usize],
        Some(filter) => flags_of_end(alloc, filters, graph, filter, state),
    }
}

/// For each vertex, whether a given end lets it through.
fn flags_of_end(
    alloc: Global,
    filters: &[Function],
    graph: &EdgeList,
    end: VertexFilter,
    state: &mut InterpreterState,
) -> Result<Vec<bool>, AllocError>
    ensures flags { IfOk result (λ f. HasFlags f.items (is_end (map function_tree filters.now) (graph_of graph.now) (state_of state.old) (Some end))) }
    ensures state { OnOk result (state_of state.new ≡ state_of state.old) }
    ensures turns { state.new.turns ≡ state.old.turns }
{
    let vertices = graph.vertices;
    match end {
        VertexFilter::Members(slot) => {
            let members = members_at(&state.sets, slot.index);
            flags_of_members(alloc, vertices, members)
        }
        VertexFilter::Function(function) => {
            let steps = steps_at(filters, function);
            flags_of_filter(alloc, steps, vertices, &state.sets, &mut state.vectors)
        }
    }
}

/// For each vertex whether it is one of these.
fn flags_of_members(alloc: Global, vertices: u32, members: &[u32]) -> Result<Vec<bool>, AllocError>
    ensures { IfOk result (λ f. f.items ≡ marked members.now (replicate vertices false)) }
{
    let mut flags = vec![in alloc; false; vertices as usize]?;
    'members: for member in members {
        set_flag(&mut flags, *member);
    }
    Ok(flags)
}

fn set_flag(flags: &mut Vec<bool>, vertex: u32)
    ensures { flags.new.items ≡ slice_set flags.old.items vertex true }
{
    let index = vertex as usize;
    if index < flags.len() {
        flags[index] = true;
    }
}

/// For each vertex whether a filter's statements let it through.
fn flags_of_filter(
    alloc: Global,
    steps: &[FunctionStatement],
    vertices: u32,
    sets: &[SetBinding],
    vectors: &mut Vec<Sequence<i64>>,
) -> Result<Vec<bool>, AllocError>
    ensures flags { IfOk result (λ f. f.items ≡ map (result_of (function_statements_tree steps.now) sets.now vectors.old.items) (range_with_len 0 vertices)) }
    ensures vectors { OnOk result (vectors.new.items ≡ vectors.old.items) }
{
    let mut frame = new_frame(alloc);
    let mut flags = Vec::new(alloc);
    'vertices: for vertex in 0..vertices {
        let flag = filter_passes(steps, sets, vertex, vectors, &mut frame)?;
        flags.push(flag)?;
    }
    Ok(flags)
}

/// The vertices whose entry of a vector differs, ascending.
pub(crate) fn modified_vertices(
    alloc: Global,
    vertices: u32,
    vector: usize,
    before: &[Sequence<i64>],
    after: &[Sequence<i64>],
) -> Result<Vec<u32>, AllocError>
    ensures { IfOk result (λ v. v.items ≡ modified vertices vector before.now after.now) }
{
    let mut changed = Vec::new(alloc);
    'vertices: for vertex in 0..vertices {
        keep_if(differs(vector, vertex, before, after), vertex, &mut changed)?;
    }
    Ok(changed)
}

fn keep_if(kept: bool, vertex: u32, vertices: &mut Vec<u32>) -> Result<(), AllocError>
    ensures { OnOk result (vertices.new.items ≡ vertices.old.items ++ (if kept then vertex ∷ [] else [])) }
{
    if kept {
        vertices.push(vertex)?;
    }
    Ok(())
}

fn differs(vector: usize, vertex: u32, before: &[Sequence<i64>], after: &[Sequence<i64>]) -> bool
    ensures { result ≡ is_modified vector before.now after.now vertex }
{
    entry_of(before, vector, vertex as usize) != entry_of(after, vector, vertex as usize)
}
