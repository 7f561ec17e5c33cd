//! Declarations, and the source that they make.

use crate::initial::Initial;
use crate::name::Name;
use crate::schedule::Chain;
use crate::statement::Statement;

/// What a name is declared to be.
#[derive(Clone, Copy, Debug, PartialEq, Eq)]
pub enum DeclaredType {
    /// `int`
    Int,
    /// `bool`
    Bool,
    /// `Vertex`
    Vertex,
    /// `vertexset{Vertex}`
    VertexSet,
    /// `vector{Vertex}(int)`
    Vector,
    /// `edgeset{Edge}(Vertex, Vertex)`
    EdgeSet,
    /// `edgeset{Edge}(Vertex, Vertex, int)`
    WeightedEdgeSet,
}

/// A name and its type: a parameter of a function or its result, or what is declared.
#[derive(Drop)]
pub struct Parameter {
    pub name: Name,
    pub declared: DeclaredType,
}

/// A declaration. `at` is the offset of its first token in the text.
pub enum Declaration {
    /// `const name : type = initial;`
    Constant {
        at: usize,
        constant: Parameter,
        initial: Initial,
    },
    /// `func name(parameters) -> result : type statements end`, with or without the result.
    Function {
        at: usize,
        name: Name,
        parameters: Vec<Parameter>,
        result: Option<Parameter>,
        body: Vec<Statement>,
    },
}

impl Drop for Declaration {
    fn drop(self) {
        match self {
            Declaration::Constant {
                at: _,
                constant: _,
                initial: _,
            } => {}
            Declaration::Function {
                at: _,
                name: _,
                parameters: _,
                result: _,
                body: _,
            } => {}
        }
    }
}

/// A source: its declarations, and its schedule where it has that part. `length` is the length of its text
/// in bytes, which is no part of the tree that a contract sees.
pub struct Source {
    pub declarations: Vec<Declaration>,
    pub schedule: Option<Vec<Chain>>,
    pub length: usize,
}

impl Drop for Source {
    fn drop(self) {
        let Source {
            declarations: _,
            schedule: _,
            length: _,
        } = self;
    }
}
