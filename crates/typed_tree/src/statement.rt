//! Statements of `main`.

use crate::expression::{BoolExpression, IntExpression, VarRef};
use apply_options::Reduction;

/// A statement of `main`.
#[cycle(statements)]
pub struct MainStatement {
    /// Its number, from 1 in the order of the text, a block before its body.
    pub number: u64,
    /// The index of its label among the labels of the program, where it has one.
    pub label: Option<usize>,
    pub action: StatementKind,
}

/// What a set variable gets.
#[derive(Clone, Copy, Debug, PartialEq, Eq)]
pub enum SetValue {
    /// No vertex.
    Empty,
    /// All vertices.
    All,
    /// The members of another set.
    Copy(VarRef),
    /// The members of a set that the filter at this index passes.
    Filter(VarRef, usize),
    /// What an edge apply changes: the vertices whose entry of the vector at the second index differs after
    /// the edge function at the first index was applied between the ends.
    Modified(ApplyEnds, usize, usize),
}

/// Which vertices an end of an edge may be.
#[derive(Clone, Copy, Debug, PartialEq, Eq)]
pub enum VertexFilter {
    /// The members of a vertex set.
    Members(VarRef),
    /// Those that the filter at this index passes.
    Function(usize),
}

/// Which edges an apply looks at: those whose source `from` lets through and whose destination `to` does. An
/// end that is not given lets all vertices through.
#[derive(Clone, Copy, Debug, PartialEq, Eq)]
pub struct ApplyEnds {
    pub from: Option<VertexFilter>,
    pub to: Option<VertexFilter>,
}

/// What a statement of `main` does.
#[cycle(statements)]
pub enum StatementKind {
    Simple(SimpleStatement),
    If(BoolExpression, Vec<MainStatement>),
    IfElse(BoolExpression, Vec<MainStatement>, Vec<MainStatement>),
    While(BoolExpression, Vec<MainStatement>),
    /// Declares an int variable, whose name is at this index, in its body, and runs the body with each
    /// value from the first bound up to the second, which is left out.
    For(usize, IntExpression, IntExpression, Vec<MainStatement>),
}

/// A statement without a block.
pub enum SimpleStatement {
    Value(ValueStatement),
    /// The vector at this index gets an entry at the index, which must be a vertex: first the index,
    /// then the value.
    SetEntry(usize, IntExpression, IntExpression),
    /// Reduces the entry at the index with the value.
    ReduceEntry(usize, IntExpression, Reduction, IntExpression),
    /// Declares a set variable, whose name is at this index, with its first value.
    DeclareSet(usize, SetValue),
    AssignSet(VarRef, SetValue),
    /// Runs the vertex function at this index for each vertex of the set.
    ApplyVertex(VarRef, usize),
    /// Applies the edge function at this index to the edges between the ends.
    ApplyEdges(ApplyEnds, usize),
}

/// A statement that takes the value of one expression, and writes to no vector.
pub enum ValueStatement {
    /// Declares an int variable, whose name is at this index, with its first value.
    DeclareInt(usize, IntExpression),
    /// Declares a bool variable, whose name is at this index, with its first value.
    DeclareBool(usize, BoolExpression),
    SetInt(VarRef, IntExpression),
    SetBool(VarRef, BoolExpression),
    /// Reduces the variable with the value.
    ReduceInt(VarRef, Reduction, IntExpression),
    /// Adds the vertex to the set; it must be one.
    AddVertex(VarRef, IntExpression),
    /// Writes the number and a line feed.
    PrintInt(IntExpression),
    /// Writes `true` or `false` and a line feed.
    PrintBool(BoolExpression),
}

impl Drop for MainStatement {
    #[cycle(drops)]
    fn drop(self) {
        let MainStatement {
            number: _,
            label: _,
            action: _,
        } = self;
    }
}

impl Drop for StatementKind {
    #[cycle(drops)]
    fn drop(self) {
        match self {
            StatementKind::Simple(_)
            | StatementKind::If(_, _)
            | StatementKind::IfElse(_, _, _)
            | StatementKind::While(_, _)
            | StatementKind::For(_, _, _, _) => {}
        }
    }
}

impl Drop for SimpleStatement {
    fn drop(self) {
        match self {
            SimpleStatement::Value(_)
            | SimpleStatement::SetEntry(_, _, _)
            | SimpleStatement::ReduceEntry(_, _, _, _)
            | SimpleStatement::DeclareSet(_, _)
            | SimpleStatement::AssignSet(_, _)
            | SimpleStatement::ApplyVertex(_, _)
            | SimpleStatement::ApplyEdges(_, _) => {}
        }
    }
}

impl Drop for ValueStatement {
    fn drop(self) {
        match self {
            ValueStatement::DeclareInt(_, _)
            | ValueStatement::DeclareBool(_, _)
            | ValueStatement::SetInt(_, _)
            | ValueStatement::SetBool(_, _)
            | ValueStatement::ReduceInt(_, _, _)
            | ValueStatement::AddVertex(_, _)
            | ValueStatement::PrintInt(_)
            | ValueStatement::PrintBool(_) => {}
        }
    }
}
