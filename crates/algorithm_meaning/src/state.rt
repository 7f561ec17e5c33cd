//! State of `main`: what a run keeps, as data that the definitions speak of.
use typed_tree::Sequence;

/// A vertex set of `main`: the index of its name in the program's names, and its members, ascending.
#[derive(Drop)]
pub struct SetBinding {
    pub name: usize,
    pub members: Sequence<u32>,
}

/// How many variables and vertex sets of `main` are visible, the constant sets among them.
#[derive(Clone, Copy, Debug)]
pub struct Depth {
    pub integers: usize,
    pub conditions: usize,
    pub sets: usize,
}

/// The value that a `for` has, and the bound that it stays below.
#[derive(Clone, Copy, Debug)]
pub struct LoopCounter {
    pub next: i64,
    pub end: i64,
}
