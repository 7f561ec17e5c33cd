//! Entries of vectors, and the statements of `main` that write one.
//!
//! Each is called with its statement's number and the number of vertices, and answers how the run ended if it
//! did, and then it has changed nothing.
ghost use Rattle.std.specs.Prelude.{◌≡◌, IfOk};
ghost use Rattle.typed_tree.specs.IntExpressionTree.{int_expression_tree};
ghost use Rattle.algorithm_meaning.specs.Statements.{after_reduce_entry, after_set_entry};
ghost use Rattle.plain_run.specs.inside.Seen.{stand, state_of};
ghost use Rattle.algorithm_meaning.specs.Value.{reduce_at, with_entry};

use crate::evaluate::entry_of;
use crate::state::{InterpreterState, StatementContext};
use crate::values::{fault, number_of, vertex_of};
use algorithm_meaning::{Contribution, End, reduce};
use apply_options::Reduction;
use std::alloc::{AllocError, Global};
use typed_tree::{IntExpression, Sequence};

pub(crate) fn set_entry_in(
    vector: usize,
    index: &IntExpression,
    e: &IntExpression,
    context: StatementContext,
    state: &mut InterpreterState,
) -> Option<End>
    ensures meaning { stand result (state_of state.new)
        ≡ after_set_entry context.vertices context.number vector (int_expression_tree index.now) (int_expression_tree e.now) (state_of state.old) }
    ensures turns { state.new.turns ≡ state.old.turns }
{
    let Some(vertex) = vertex_of(index, context.vertices, state) else {
        return fault(context.number);
    };
    let Some(value) = number_of(e, context.vertices, state) else {
        return fault(context.number);
    };
    set_entry(&mut state.vectors, vector, vertex as usize, value);
    None
}

pub(crate) fn reduce_entry(
    vector: usize,
    index: &IntExpression,
    reduction: Reduction,
    e: &IntExpression,
    context: StatementContext,
    state: &mut InterpreterState,
) -> Option<End>
    ensures meaning { stand result (state_of state.new)
        ≡ after_reduce_entry context.vertices context.number vector (int_expression_tree index.now) reduction (int_expression_tree e.now) (state_of state.old) }
    ensures turns { state.new.turns ≡ state.old.turns }
{
    let Some(vertex) = vertex_of(index, context.vertices, state) else {
        return fault(context.number);
    };
    let Some(given) = number_of(e, context.vertices, state) else {
        return fault(context.number);
    };
    let contribution = Contribution {
        vector,
        reduction,
        number: given,
    };
    reduce_entry_at(&mut state.vectors, vertex, contribution);
    None
}

/// Puts an entry of a vector; where there is no such index nothing is changed.
pub(crate) fn set_entry(vectors: &mut Vec<Sequence<i64>>, vector: usize, vertex: usize, value: i64)
    ensures { vectors.new.items ≡ with_entry vectors.old.items vector vertex value }
{
    if vector < vectors.len() {
        vectors[vector].set(vertex, value);
    }
}

/// Reduces the entry of a vector at a vertex with a number; where there is no such index nothing is changed.
pub(crate) fn reduce_entry_at(
    vectors: &mut Vec<Sequence<i64>>,
    vertex: u32,
    contribution: Contribution,
)
    ensures { vectors.new.items ≡ reduce_at vectors.old.items contribution.vector vertex contribution.reduction contribution.number }
{
    let Contribution {
        vector,
        reduction,
        number,
    } = contribution;
    let vertex = vertex as usize;
    let value = reduce(reduction, entry_of(vectors, vector, vertex), number);
    set_entry(vectors, vector, vertex, value);
}

/// A copy of the vectors.
pub(crate) fn copied(
    alloc: Global,
    vectors: &[Sequence<i64>],
) -> Result<Vec<Sequence<i64>>, AllocError>
    ensures { IfOk result (λ v. v.items ≡ vectors.now) }
{
    let mut copies = Vec::new(alloc);
    'vectors: for vector in vectors {
        let entries = Vec::from_slice(alloc, vector.as_slice())?;
        copies.push(Sequence::new(entries))?;
    }
    Ok(copies)
}
