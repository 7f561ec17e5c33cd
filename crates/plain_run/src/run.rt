//! The slow run of programs.
ghost use Rattle.std.specs.Prelude.{◌≡◌, ◌<◌, ◌≤◌, [], ◌∷◌, IfOk, IfNone, OnOk};
ghost use Rattle.typed_tree.specs.BoolExpressionTree.{bool_expression_tree};
ghost use Rattle.typed_tree.specs.BlockTree.{statement_kind_tree, simple_statement_tree, value_statement_tree, block_tree};
ghost use Rattle.typed_tree.specs.ProgramTree.{program_tree};
ghost use Rattle.algorithm_meaning.specs.EdgeApply.{after_edge_apply};
ghost use Rattle.algorithm_meaning.specs.Statements.{with_vectors};
ghost use Rattle.algorithm_meaning.specs.Loop.{after_for, after_while, for_body, inside, take_turn};
ghost use Rattle.algorithm_meaning.specs.Meaning.{after, after_all, after_simple, meaning};
ghost use Rattle.plain_run.specs.inside.Seen.{graph_of, stand, state_of};

use crate::edge_apply::apply_edges;
use crate::entries::{reduce_entry, set_entry_in};
use crate::initial_state::open;
use crate::outcome::show;
use crate::print::{print_bool_in, print_int_in};
use crate::sets::{add_vertex, assign_set, declare_set};
use crate::state::{EdgeList, InterpreterState, RunInput, StatementContext};
use crate::values::{counter_of, decide, depth, fault, forget, go_on, is_below, push_counter};
use crate::variables::{declare_bool, declare_int, reduce_int, set_bool, set_int};
use crate::vertex_apply::apply_vertex;
use algorithm_meaning::{End, LoopCounter, Outcome};
use std::alloc::{AllocError, Global};
use typed_tree::{
    ApplyEnds, BoolExpression, MainStatement, SimpleStatement, StatementKind, Typed, ValueStatement,
};

/// Runs a program on a graph, whose vertices are the numbers below `vertices`, and gives what it means:
/// it goes over the trees, one statement after the other, and is slow. The loops of the program make at
/// most `turns` turns in all. The caller sees to it that the edges, each its source, its
/// destination and its weight, ascend and name vertices.
///
/// The only error is out of memory.
pub fn plain_run(
    alloc: Global,
    program: &Typed,
    vertices: u32,
    edges: &[(u32, u32, i64)],
    turns: u64,
) -> Result<Outcome, AllocError>
    ensures { IfOk result (λ o. o ≡ meaning (program_tree program.now) (record { vertices = vertices; edges = edges.now }) turns) }
{
    let graph = EdgeList { vertices, edges };
    let mut state = open(alloc, program, &graph, turns)?;
    let input = RunInput {
        program,
        graph: &graph,
    };
    let end = run_all(alloc, &program.main, input, &mut state)?;
    show(alloc, program, turns, state, end)
}

/// Runs statements in order, and answers how the run ended if it did.
#[cycle(run)]
fn run_all(
    alloc: Global,
    block: &[MainStatement],
    input: RunInput<'_>,
    state: &mut InterpreterState,
) -> Result<Option<End>, AllocError>
    ensures meaning { IfOk result (λ end. stand end (state_of state.new)
        ≡ after_all (program_tree input.entry.program.now) (graph_of input.entry.graph.now) (block_tree block.now) (state_of state.old)) }
    ensures turns { state.new.turns ≤ state.old.turns }
{
    'statements: for statement in block {
        let end = run_statement(alloc, statement, input, state)?;
        if end.is_some() {
            return Ok(end);
        }
    }
    Ok(None)
}

#[cycle(run)]
fn run_statement(
    alloc: Global,
    statement: &MainStatement,
    input: RunInput<'_>,
    state: &mut InterpreterState,
) -> Result<Option<End>, AllocError>
    ensures meaning { IfOk result (λ end. stand end (state_of state.new)
        ≡ after (program_tree input.entry.program.now) (graph_of input.entry.graph.now) statement.now.number
        (statement_kind_tree statement.now.action) (state_of state.old)) }
    ensures turns { state.new.turns ≤ state.old.turns }
{
    let number = statement.number;
    let vertices = input.graph.vertices;
    match &statement.action {
        StatementKind::Simple(simple) => run_simple(alloc, simple, number, input, state),
        StatementKind::If(c, body) => match decide(c, vertices, state) {
            None => Ok(fault(number)),
            Some(true) => run_inside(alloc, body, input, state),
            Some(false) => Ok(None),
        },
        StatementKind::IfElse(c, body, other) => match decide(c, vertices, state) {
            None => Ok(fault(number)),
            Some(true) => run_inside(alloc, body, input, state),
            Some(false) => run_inside(alloc, other, input, state),
        },
        StatementKind::While(c, body) => run_while(alloc, body, c, number, input, state),
        StatementKind::For(_, first, end, body) => match counter_of(first, end, vertices, state) {
            None => Ok(fault(number)),
            Some(counter) => run_for(alloc, body, counter, number, input, state),
        },
    }
}

/// Runs a statement without a block.
fn run_simple(
    alloc: Global,
    statement: &SimpleStatement,
    number: u64,
    input: RunInput<'_>,
    state: &mut InterpreterState,
) -> Result<Option<End>, AllocError>
    ensures meaning { IfOk result (λ end. stand end (state_of state.new)
        ≡ after_simple (program_tree input.entry.program.now) (graph_of input.entry.graph.now) number (simple_statement_tree statement.now) (state_of state.old)) }
    ensures turns { state.new.turns ≡ state.old.turns }
{
    let context = StatementContext {
        number,
        vertices: input.graph.vertices,
    };
    match statement {
        SimpleStatement::Value(statement) => run_value(alloc, statement, number, input, state),
        SimpleStatement::SetEntry(vector, subscript, e) => {
            Ok(set_entry_in(*vector, subscript, e, context, state))
        }
        SimpleStatement::ReduceEntry(vector, subscript, reduction, e) => Ok(reduce_entry(
            *vector, subscript, *reduction, e, context, state,
        )),
        SimpleStatement::DeclareSet(name, value) => {
            declare_set(alloc, *name, *value, input, state)?;
            Ok(None)
        }
        SimpleStatement::AssignSet(slot, value) => {
            assign_set(alloc, slot.index, *value, input, state)?;
            Ok(None)
        }
        SimpleStatement::ApplyVertex(set, function) => {
            let functions = &input.program.vertex_functions;
            apply_vertex(alloc, functions, set.index, *function, state)?;
            Ok(None)
        }
        SimpleStatement::ApplyEdges(ends, function) => {
            apply_in(alloc, *ends, *function, input, state)?;
            Ok(None)
        }
    }
}

/// Runs a statement that takes a value.
fn run_value(
    alloc: Global,
    statement: &ValueStatement,
    number: u64,
    input: RunInput<'_>,
    state: &mut InterpreterState,
) -> Result<Option<End>, AllocError>
    ensures meaning { IfOk result (λ end. stand end (state_of state.new)
        ≡ after_simple (program_tree input.entry.program.now) (graph_of input.entry.graph.now) number (value_statement_tree statement.now) (state_of state.old)) }
    ensures turns { state.new.turns ≡ state.old.turns }
{
    let context = StatementContext {
        number,
        vertices: input.graph.vertices,
    };
    match statement {
        ValueStatement::DeclareInt(_, e) => declare_int(e, context, state),
        ValueStatement::DeclareBool(_, c) => declare_bool(c, context, state),
        ValueStatement::SetInt(slot, e) => Ok(set_int(slot.index, e, context, state)),
        ValueStatement::SetBool(slot, c) => Ok(set_bool(slot.index, c, context, state)),
        ValueStatement::ReduceInt(slot, reduction, e) => Ok(reduce_int(
            slot.index, *reduction, e, context, state,
        )),
        ValueStatement::AddVertex(slot, e) => add_vertex(alloc, slot.index, e, context, state),
        ValueStatement::PrintInt(e) => print_int_in(e, context, state),
        ValueStatement::PrintBool(c) => print_bool_in(c, context, state),
    }
}

/// Applies an edge function.
fn apply_in(
    alloc: Global,
    ends: ApplyEnds,
    function: usize,
    input: RunInput<'_>,
    state: &mut InterpreterState,
) -> Result<(), AllocError>
    ensures meaning { OnOk result (state_of state.new ≡ with_vectors (state_of state.old)
        (after_edge_apply (program_tree input.entry.program.now).filters (program_tree input.entry.program.now).edge_functions
        (graph_of input.entry.graph.now) ends (function ∷ []) (state_of state.old))) }
    ensures turns { state.new.turns ≡ state.old.turns }
{
    let after = apply_edges(alloc, ends, function, input, state)?;
    state.vectors = after;
    Ok(())
}

/// Runs a block and, where the run continues, forgets what became visible in it.
#[cycle(run)]
fn run_inside(
    alloc: Global,
    block: &[MainStatement],
    input: RunInput<'_>,
    state: &mut InterpreterState,
) -> Result<Option<End>, AllocError>
    ensures meaning { IfOk result (λ end. stand end (state_of state.new)
        ≡ inside (after_all (program_tree input.entry.program.now) (graph_of input.entry.graph.now) (block_tree block.now)) (state_of state.old)) }
    ensures turns { state.new.turns ≤ state.old.turns }
{
    let depth = depth(state);
    let end = run_all(alloc, block, input, state)?;
    if end.is_none() {
        forget(depth, state);
    }
    Ok(end)
}

/// Runs the body as long as the test holds.
#[cycle(run)]
fn run_while(
    alloc: Global,
    body: &[MainStatement],
    test: &BoolExpression,
    number: u64,
    input: RunInput<'_>,
    state: &mut InterpreterState,
) -> Result<Option<End>, AllocError>
    ensures meaning { IfOk result (λ end. stand end (state_of state.new)
        ≡ after_while input.entry.graph.now.vertices number (bool_expression_tree test.now)
        (after_all (program_tree input.entry.program.now) (graph_of input.entry.graph.now) (block_tree body.now)) (state_of state.old)) }
    ensures turns { state.new.turns ≤ state.old.turns }
{
    'turns: loop {
        match decide(test, input.graph.vertices, state) {
            None => return Ok(fault(number)),
            Some(false) => return Ok(None),
            Some(true) => {}
        }
        let end = run_turn(alloc, body, input, state)?;
        if end.is_some() {
            return Ok(end);
        }
    }
}

/// Takes a turn and runs the body, or answers that no turn is left.
#[cycle(run)]
#[tactic(auto, using(crate::proofs::Loops::turn_is_taken))]
fn run_turn(
    alloc: Global,
    body: &[MainStatement],
    input: RunInput<'_>,
    state: &mut InterpreterState,
) -> Result<Option<End>, AllocError>
    ensures meaning { IfOk result (λ end. stand end (state_of state.new)
        ≡ take_turn state.old.turns (state_of state.old)
        (inside (after_all (program_tree input.entry.program.now) (graph_of input.entry.graph.now) (block_tree body.now)))) }
    ensures turns { state.new.turns ≤ state.old.turns }
    ensures fewer { IfOk result (λ end. IfNone end (state.new.turns < state.old.turns)) }
{
    if state.turns == 0 {
        return Ok(Some(End::TurnsOver));
    }
    state.turns -= 1;
    run_inside(alloc, body, input, state)
}

/// Runs the body with each value up to the bound.
#[cycle(run)]
fn run_for(
    alloc: Global,
    body: &[MainStatement],
    counter: LoopCounter,
    number: u64,
    input: RunInput<'_>,
    state: &mut InterpreterState,
) -> Result<Option<End>, AllocError>
    ensures meaning { IfOk result (λ end. stand end (state_of state.new)
        ≡ after_for number (after_all (program_tree input.entry.program.now) (graph_of input.entry.graph.now) (block_tree body.now)) counter (state_of state.old)) }
    ensures turns { state.new.turns ≤ state.old.turns }
{
    let mut counter = counter;
    'turns: loop {
        if !is_below(&counter) {
            return Ok(None);
        }
        let end = run_for_turn(alloc, body, &counter, input, state)?;
        if end.is_some() {
            return Ok(end);
        }
        go_on(&mut counter);
    }
}

/// Takes a turn and runs the body of a `for` with the next value, or answers that no turn is left.
#[cycle(run)]
#[tactic(auto, using(crate::proofs::Loops::turn_is_taken))]
fn run_for_turn(
    alloc: Global,
    body: &[MainStatement],
    counter: &LoopCounter,
    input: RunInput<'_>,
    state: &mut InterpreterState,
) -> Result<Option<End>, AllocError>
    ensures meaning { IfOk result (λ end. stand end (state_of state.new)
        ≡ take_turn state.old.turns (state_of state.old)
        (for_body (after_all (program_tree input.entry.program.now) (graph_of input.entry.graph.now) (block_tree body.now)) counter.now)) }
    ensures turns { state.new.turns ≤ state.old.turns }
    ensures fewer { IfOk result (λ end. IfNone end (state.new.turns < state.old.turns)) }
{
    if state.turns == 0 {
        return Ok(Some(End::TurnsOver));
    }
    state.turns -= 1;
    let depth = depth(state);
    push_counter(counter, state)?;
    let end = run_all(alloc, body, input, state)?;
    if end.is_none() {
        forget(depth, state);
    }
    Ok(end)
}
