//! State of a run, and what it works on.
use algorithm_meaning::SetBinding;
use typed_tree::{Sequence, Typed};

/// The graph that a program runs on.
#[derive(Clone, Copy, Debug)]
pub(crate) struct EdgeList<'a> {
    pub(crate) vertices: u32,
    pub(crate) edges: &'a [(u32, u32, i64)],
}

/// What is run: a program, on a graph.
#[derive(Clone, Copy)]
pub(crate) struct RunInput<'a> {
    pub(crate) program: &'a Typed,
    pub(crate) graph: &'a EdgeList<'a>,
}

/// What a statement of `main` is called with: its number, and how many vertices the graph has.
#[derive(Clone, Copy)]
pub(crate) struct StatementContext {
    pub(crate) number: u64,
    pub(crate) vertices: u32,
}

/// The variables that are visible, by their indices, and the vertices and the weight that a function works on.
#[derive(Drop)]
pub(crate) struct Environment {
    pub(crate) integers: Vec<i64>,
    pub(crate) conditions: Vec<bool>,
    pub(crate) source: u32,
    pub(crate) destination: u32,
    pub(crate) weight: i64,
}

/// Where a run stands.
#[derive(Drop)]
pub(crate) struct InterpreterState {
    pub(crate) vectors: Vec<Sequence<i64>>,
    pub(crate) sets: Vec<SetBinding>,
    pub(crate) scope: Environment,
    pub(crate) text: Vec<u8>,
    /// How many turns are left.
    pub(crate) turns: u64,
}
