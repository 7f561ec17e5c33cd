//! Operations: what an instruction does, with the kernels of its expressions.
use crate::part::EdgePart;
use crate::set_expression::SetExpression;
use apply_options::Reduction;
use kernels::ExpressionKernel;
use typed_tree::{ApplyEnds, VarRef};

/// What an instruction does. A name is the index of one in the plan's names, a vector or a function its index in its list,
/// and `to` the index of an instruction.
pub enum PlanOperation {
    Value(ValueOperation),
    Entry(EntryOperation),
    Set(SetOperation),
    Apply(ApplyOperation),
    Control(ControlOperation),
}

/// Takes the value of an expression, and writes to no vector.
pub enum ValueOperation {
    Int {
        value: ExpressionKernel,
        used: IntUse,
    },
    Bool {
        value: ExpressionKernel,
        used: BoolUse,
    },
    /// The set gets a vertex.
    AddVertex {
        slot: VarRef,
        vertex: ExpressionKernel,
    },
}

/// What is done with a value of type `int`.
#[derive(Clone, Copy, Debug, PartialEq, Eq)]
pub enum IntUse {
    /// A new variable has it.
    Declare { name: usize },
    Set { slot: VarRef },
    Reduce { slot: VarRef, reduction: Reduction },
    Print,
}

/// What is done with a value of type `bool`.
#[derive(Clone, Copy, Debug, PartialEq, Eq)]
pub enum BoolUse {
    /// A new variable has it.
    Declare { name: usize },
    Set { slot: VarRef },
    Print,
}

/// Writes to the entry of a vector at an index.
pub struct EntryOperation {
    pub vector: usize,
    pub index: ExpressionKernel,
    pub value: ExpressionKernel,
    pub used: EntryUse,
}

/// How an entry gets a value.
#[derive(Clone, Copy, Debug, PartialEq, Eq)]
pub enum EntryUse {
    Set,
    Reduce(Reduction),
}

/// Gives a vertex set its members.
#[derive(Clone, Copy, Debug, PartialEq, Eq)]
pub enum SetOperation {
    DeclareSet {
        name: usize,
        members: SetExpression,
    },
    AssignSet {
        slot: VarRef,
        members: SetExpression,
    },
}

/// Runs functions of the user.
#[derive(Clone, Copy, Debug, PartialEq, Eq)]
pub enum ApplyOperation {
    /// One vertex function, or two, at each member of a set.
    ApplyVertices {
        set: VarRef,
        first: usize,
        second: Option<usize>,
    },
    /// One edge function, or two, on the edges between two ends.
    ApplyEdges {
        ends: ApplyEnds,
        first: EdgePart,
        second: Option<EdgePart>,
    },
}

/// Says where the run continues, or that it ends.
pub enum ControlOperation {
    /// Continues at the index unless the test holds.
    Unless { test: ExpressionKernel, to: usize },
    /// A `for` whose name has its first value: the bound, which does not see the name.
    Enter { name: usize, end: ExpressionKernel },
    /// Leaves the innermost `for` for the index unless its value is below its bound.
    UnlessBelow { name: usize, to: usize },
    /// The innermost `for` continues to its next value.
    Advance { name: usize },
    /// Uses a turn, or ends the run.
    Turn,
    Jump { to: usize },
    End,
}

impl Drop for PlanOperation {
    fn drop(self) {
        match self {
            PlanOperation::Value(_)
            | PlanOperation::Entry(_)
            | PlanOperation::Set(_)
            | PlanOperation::Apply(_)
            | PlanOperation::Control(_) => {}
        }
    }
}

impl Drop for ValueOperation {
    fn drop(self) {
        match self {
            ValueOperation::Int { value: _, used: _ }
            | ValueOperation::Bool { value: _, used: _ }
            | ValueOperation::AddVertex { slot: _, vertex: _ } => {}
        }
    }
}

impl Drop for EntryOperation {
    fn drop(self) {
        let EntryOperation {
            vector: _,
            index: _,
            value: _,
            used: _,
        } = self;
    }
}

impl Drop for ControlOperation {
    fn drop(self) {
        match self {
            ControlOperation::Unless { test: _, to: _ }
            | ControlOperation::Enter { name: _, end: _ }
            | ControlOperation::UnlessBelow { name: _, to: _ }
            | ControlOperation::Advance { name: _ }
            | ControlOperation::Turn
            | ControlOperation::Jump { to: _ }
            | ControlOperation::End => {}
        }
    }
}
