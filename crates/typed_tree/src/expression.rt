//! Expressions, each of one type.

/// What a run keeps and a name means.
#[derive(Clone, Copy, Debug, PartialEq, Eq)]
pub struct VarRef {
    /// Its index among the visible ones of its kind: integers, conditions or vertex sets.
    pub index: usize,
    /// The index of its name in the program's names.
    pub name: usize,
}

/// A vertex that a function works on.
#[derive(Clone, Copy, Debug, PartialEq, Eq)]
pub enum Endpoint {
    /// The source of the edge, or the one vertex of a vertex function or filter.
    Source,
    /// The destination of the edge.
    Destination,
}

/// An operator on two integers that gives an integer.
#[derive(Clone, Copy, Debug, PartialEq, Eq)]
pub enum Operator {
    Add,
    Subtract,
    Multiply,
    Divide,
    Remainder,
}

/// A comparison of two integers.
#[derive(Clone, Copy, Debug, PartialEq, Eq)]
pub enum ComparisonOperator {
    Equal,
    NotEqual,
    Less,
    LessOrEqual,
    Greater,
    GreaterOrEqual,
}

/// An operator on two conditions.
#[derive(Clone, Copy, Debug, PartialEq, Eq)]
pub enum Connective {
    And,
    Or,
    Equal,
    NotEqual,
}

/// An expression of type `int`. A vertex reads as its number.
#[cycle(integers)]
pub enum IntExpression {
    /// A literal.
    Number(i64),
    /// A named constant: the index of its name in the program's names, and its value.
    Constant(usize, i64),
    /// A variable of `main` or of the function.
    Variable(VarRef),
    /// A vertex that the function works on.
    Parameter(Endpoint),
    /// In an edge function: the weight of the edge that it works on.
    Weight,
    /// In a function: the entry of the vector at this index, at a vertex that the function works on.
    EntryAt(usize, Endpoint),
    /// In `main`: the entry of the vector at this index, at an index that must be a vertex.
    Entry(usize, Box<IntExpression>),
    /// How many members a vertex set has.
    SetSize(VarRef),
    /// The number with its sign changed so many times.
    Negative(usize, Box<IntExpression>),
    /// Operators of one level, of which each takes what all before it gave.
    Arithmetic(Box<IntExpression>, Vec<Operand>),
}

/// An operator and what it takes on its right.
#[cycle(integers)]
pub struct Operand {
    pub operator: Operator,
    pub integer: IntExpression,
}

/// An expression of type `bool`.
#[cycle(conditions)]
pub enum BoolExpression {
    /// `true` or `false`.
    Literal(bool),
    /// A named constant: the index of its name in the program's names, and its value.
    Constant(usize, bool),
    /// A variable of `main` or of the function, or a filter's result.
    Variable(VarRef),
    /// The truth value inverted so many times.
    Not(usize, Box<BoolExpression>),
    /// A comparison of two integers.
    Compare(ComparisonOperator, IntExpression, IntExpression),
    /// One operator between conditions, which takes what all before it gave. All are evaluated.
    Connect(Connective, Box<BoolExpression>, Vec<BoolExpression>),
}

impl Drop for IntExpression {
    #[cycle(drops)]
    fn drop(self) {
        match self {
            IntExpression::Number(_)
            | IntExpression::Constant(_, _)
            | IntExpression::Variable(_)
            | IntExpression::Parameter(_)
            | IntExpression::Weight
            | IntExpression::EntryAt(_, _)
            | IntExpression::Entry(_, _)
            | IntExpression::SetSize(_)
            | IntExpression::Negative(_, _)
            | IntExpression::Arithmetic(_, _) => {}
        }
    }
}

impl Drop for Operand {
    #[cycle(drops)]
    fn drop(self) {
        let Operand {
            operator: _,
            integer: _,
        } = self;
    }
}

impl Drop for BoolExpression {
    #[cycle(drops)]
    fn drop(self) {
        match self {
            BoolExpression::Literal(_)
            | BoolExpression::Constant(_, _)
            | BoolExpression::Variable(_)
            | BoolExpression::Not(_, _)
            | BoolExpression::Compare(_, _, _)
            | BoolExpression::Connect(_, _, _) => {}
        }
    }
}
