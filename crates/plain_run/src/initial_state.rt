//! Initial state: what a run has before the first statement.
ghost use Rattle.std.specs.Prelude.{◌≡◌, pos, map, replicate, IfOk};
ghost use Rattle.std.specs.List.{range_with_len};
ghost use Rattle.typed_tree.specs.ProgramTree.{program_tree};
ghost use Rattle.plain_run.specs.inside.Degrees.{counted, counted_once};
ghost use Rattle.algorithm_meaning.specs.Meaning.{full_set, initial_state, initial_entries};
ghost use Rattle.plain_run.specs.inside.Seen.{graph_of, state_of};

use crate::state::{EdgeList, Environment, InterpreterState};
use algorithm_meaning::{SetBinding, arithmetic_of};
use std::alloc::{AllocError, Global};
use typed_tree::{InitialValue, Operator, Sequence, Typed, Vector};
use weighted_edges::UNIT_WEIGHT;

/// The state before the first statement.
pub(crate) fn open(
    alloc: Global,
    program: &Typed,
    graph: &EdgeList,
    turns: u64,
) -> Result<InterpreterState, AllocError>
    ensures { IfOk result (λ s. state_of s ≡ initial_state (program_tree program.now) (graph_of graph.now) turns) }
{
    Ok(InterpreterState {
        vectors: open_vectors(alloc, &program.vectors, graph)?,
        sets: open_sets(alloc, &program.sets, graph)?,
        scope: Environment {
            integers: Vec::new(alloc),
            conditions: Vec::new(alloc),
            source: 0,
            destination: 0,
            weight: UNIT_WEIGHT,
        },
        text: Vec::new(alloc),
        turns,
    })
}

fn open_vectors(
    alloc: Global,
    vectors: &[Vector],
    graph: &EdgeList,
) -> Result<Vec<Sequence<i64>>, AllocError>
    ensures { IfOk result (λ v. v.items ≡ map (λ v. initial_entries (graph_of graph.now) v.beginning) vectors.now) }
{
    let mut opened = Vec::new(alloc);
    'vectors: for vector in vectors {
        opened.push(open_vector(alloc, vector.beginning, graph)?)?;
    }
    Ok(opened)
}

fn open_vector(
    alloc: Global,
    beginning: InitialValue,
    graph: &EdgeList,
) -> Result<Sequence<i64>, AllocError>
    ensures { IfOk result (λ v. v ≡ initial_entries (graph_of graph.now) beginning) }
{
    match beginning {
        InitialValue::Number(n) => {
            let entries = vec![in alloc; n; graph.vertices as usize]?;
            Ok(Sequence::new(entries))
        }
        InitialValue::OutDegrees => {
            let mut degrees = zeros(alloc, graph.vertices)?;
            count_sources(graph.edges, &mut degrees);
            Ok(Sequence::new(degrees))
        }
    }
}

fn zeros(alloc: Global, vertices: u32) -> Result<Vec<i64>, AllocError>
    ensures { IfOk result (λ v. v.items ≡ replicate vertices (pos 0)) }
{
    let entries = vec![in alloc; 0; vertices as usize]?;
    Ok(entries)
}

/// Counts each edge at its source.
fn count_sources(edges: &[(u32, u32, i64)], degrees: &mut Vec<i64>)
    ensures { degrees.new.items ≡ counted edges.now degrees.old.items }
{
    'edges: for edge in edges {
        count_at(edge.0 as usize, degrees);
    }
}

fn count_at(vertex: usize, degrees: &mut Vec<i64>)
    ensures { degrees.new.items ≡ counted_once vertex degrees.old.items }
{
    if vertex < degrees.len() {
        degrees[vertex] = arithmetic_of(Operator::Add, degrees[vertex], 1);
    }
}

fn open_sets(
    alloc: Global,
    names: &[usize],
    graph: &EdgeList,
) -> Result<Vec<SetBinding>, AllocError>
    ensures { IfOk result (λ v. v.items ≡ map (full_set (graph_of graph.now)) names.now) }
{
    let mut opened = Vec::new(alloc);
    'sets: for name in names {
        let members = Sequence::new(vertices_below(alloc, graph.vertices)?);
        opened.push(SetBinding {
            name: *name,
            members,
        })?;
    }
    Ok(opened)
}

/// All vertices, ascending.
pub(crate) fn vertices_below(alloc: Global, vertices: u32) -> Result<Vec<u32>, AllocError>
    ensures { IfOk result (λ v. v.items ≡ range_with_len 0 vertices) }
{
    let mut members = Vec::new(alloc);
    'vertices: for vertex in 0..vertices {
        members.push(vertex)?;
    }
    Ok(members)
}
