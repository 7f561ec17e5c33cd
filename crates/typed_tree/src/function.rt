//! Functions of users.

use crate::expression::{BoolExpression, IntExpression, VarRef};
use apply_options::Reduction;

/// A statement of a function. A variable that is declared in a block is gone after it.
#[cycle(steps)]
pub enum FunctionStatement {
    Variable(VariableStatement),
    /// In a vertex function: the entry of the vector at this index gets the value, at the function's vertex.
    SetEntry(usize, IntExpression),
    /// The entry of the vector at this index is reduced with the value: in a vertex function at its vertex, in
    /// an edge function at the destination.
    ReduceEntry(usize, Reduction, IntExpression),
    If(BoolExpression, Vec<FunctionStatement>),
    IfElse(BoolExpression, Vec<FunctionStatement>, Vec<FunctionStatement>),
}

/// A statement of a function that declares a variable or changes one.
pub enum VariableStatement {
    /// Declares an int variable, whose name is at this index, with its first value.
    DeclareInt(usize, IntExpression),
    /// Declares a bool variable, whose name is at this index, with its first value.
    DeclareBool(usize, BoolExpression),
    SetInt(VarRef, IntExpression),
    /// Sets a variable or the filter's result.
    SetBool(VarRef, BoolExpression),
    /// Reduces the variable with the value.
    ReduceInt(VarRef, Reduction, IntExpression),
}

/// A function of a user: on an edge, on a vertex, or a filter, whose result is the first bool variable.
pub struct Function {
    /// The index of its name in the program's names.
    pub name: usize,
    /// What it does, in order.
    pub steps: Vec<FunctionStatement>,
}

impl Drop for FunctionStatement {
    #[cycle(drops)]
    fn drop(self) {
        match self {
            FunctionStatement::Variable(_)
            | FunctionStatement::SetEntry(_, _)
            | FunctionStatement::ReduceEntry(_, _, _)
            | FunctionStatement::If(_, _)
            | FunctionStatement::IfElse(_, _, _) => {}
        }
    }
}

impl Drop for VariableStatement {
    fn drop(self) {
        match self {
            VariableStatement::DeclareInt(_, _)
            | VariableStatement::DeclareBool(_, _)
            | VariableStatement::SetInt(_, _)
            | VariableStatement::SetBool(_, _)
            | VariableStatement::ReduceInt(_, _, _) => {}
        }
    }
}

impl Drop for Function {
    fn drop(self) {
        let Function { name: _, steps: _ } = self;
    }
}
