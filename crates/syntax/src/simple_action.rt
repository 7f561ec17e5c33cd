//! Statements without a block.

use crate::declaration::Parameter;
use crate::expression::Expression;
use crate::initial::{Ends, Initial};
use crate::name::Name;
use apply_options::Reduction;

/// What a statement without a block does. `at` is the offset of its first token in the text; where there is none,
/// the first token is the first name.
pub enum SimpleAction {
    /// `var name : type = initial;`
    Declare {
        at: usize,
        variable: Parameter,
        initial: Initial,
    },
    /// `print value;`
    Print {
        at: usize,
        value: Expression,
    },
    /// `name = value;`
    Assign {
        name: Name,
        value: Initial,
    },
    /// `name red value;`
    Reduce {
        name: Name,
        reduction: Reduction,
        value: Expression,
    },
    /// `vector[index] = value;`
    SetEntry {
        vector: Name,
        index: Expression,
        value: Expression,
    },
    /// `vector[index] red value;`
    ReduceEntry {
        vector: Name,
        index: Expression,
        reduction: Reduction,
        value: Expression,
    },
    /// `set.addVertex(vertex);`
    AddVertex {
        set: Name,
        vertex: Expression,
    },
    /// `target.from(..).to(..).apply(function);`
    Apply {
        target: Name,
        ends: Ends,
        function: Name,
    },
}

impl Drop for SimpleAction {
    fn drop(self) {
        match self {
            SimpleAction::Declare {
                at: _,
                variable: _,
                initial: _,
            } => {}
            SimpleAction::Print { at: _, value: _ } => {}
            SimpleAction::Assign { name: _, value: _ } => {}
            SimpleAction::Reduce {
                name: _,
                reduction: _,
                value: _,
            } => {}
            SimpleAction::SetEntry {
                vector: _,
                index: _,
                value: _,
            } => {}
            SimpleAction::ReduceEntry {
                vector: _,
                index: _,
                reduction: _,
                value: _,
            } => {}
            SimpleAction::AddVertex { set: _, vertex: _ } => {}
            SimpleAction::Apply {
                target: _,
                ends: _,
                function: _,
            } => {}
        }
    }
}
