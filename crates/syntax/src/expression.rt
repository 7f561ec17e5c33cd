//! The trees of expressions, one type for each level of the grammar.

use crate::name::Name;
use crate::operators::{Addition, Multiplication, Prefix, Relation};
use std::marker::Model;

/// One conjunction, or several with `or` between them.
#[cycle(expression)]
pub struct Expression {
    pub first: Conjunction,
    pub more: Vec<Conjunction>,
}

impl Drop for Expression {
    #[cycle(drops)]
    fn drop(self) {
        let Expression { first: _, more: _ } = self;
    }
}

impl Model for Expression {
    ghost use Rattle.std.specs.Prelude.{map};
    ghost use Rattle.syntax.specs.SourceTrees.{ExpressionTree};
    ghost use Rattle.syntax.specs.inside.ExpressionCodes.{coded_expression};
    ghost use Rattle.syntax.specs.ExpressionDepth.{expression_depth};

    ghost Value = { ExpressionTree };

    ghost coded = { coded_expression };

    ghost use Rattle.syntax.specs.ExpressionViews.{expression_from};
    ghost use Rattle.syntax.specs.inside.ExpressionViews.{conjunction_of};

    ghost view = { λ e. expression_from (conjunction_of e.first) (map conjunction_of e.more.items) };

    ghost size = { expression_depth };

    ghost use Rattle.syntax.specs.inside.ExpressionFalls.{expression_falls};

    ghost size_decreases = { λ a h. expression_falls a };
}

/// One comparison, or several with `and` between them.
#[cycle(expression)]
pub struct Conjunction {
    pub first: Comparison,
    pub more: Vec<Comparison>,
}

impl Drop for Conjunction {
    #[cycle(drops)]
    fn drop(self) {
        let Conjunction { first: _, more: _ } = self;
    }
}

/// A sum, or two with a relation between them.
#[cycle(expression)]
pub struct Comparison {
    pub left: Sum,
    pub right: Option<(Relation, Box<Sum>)>,
}

impl Drop for Comparison {
    #[cycle(drops)]
    fn drop(self) {
        let Comparison { left: _, right: _ } = self;
    }
}

/// One term, or several with `+` and `-` between them: each but the first is after its operator.
#[cycle(expression)]
pub struct Sum {
    pub first: Term,
    pub more: Vec<(Addition, Term)>,
}

impl Drop for Sum {
    #[cycle(drops)]
    fn drop(self) {
        let Sum { first: _, more: _ } = self;
    }
}

/// One operand, or several with `*`, `/` and `%` between them: each but the first is after its
/// operator.
#[cycle(expression)]
pub struct Term {
    pub first: Unary,
    pub more: Vec<(Multiplication, Unary)>,
}

impl Drop for Term {
    #[cycle(drops)]
    fn drop(self) {
        let Term { first: _, more: _ } = self;
    }
}

/// A primary after any number of `-` and `not`, in the order of the text.
#[cycle(expression)]
pub struct Unary {
    pub signs: Vec<Prefix>,
    pub primary: Primary,
}

impl Drop for Unary {
    #[cycle(drops)]
    fn drop(self) {
        let Unary {
            signs: _,
            primary: _,
        } = self;
    }
}

/// An operand without operators.
#[cycle(expression)]
pub enum Primary {
    /// A number.
    Number(i64),
    /// `true` or `false`.
    Truth(bool),
    /// A name.
    Variable(Name),
    /// `name[index]`
    Entry(Name, Box<Expression>),
    /// `name.getVertexSetSize()`
    Size(Name),
    /// An expression in parentheses.
    Parentheses(Box<Expression>),
}

impl Drop for Primary {
    #[cycle(drops)]
    fn drop(self) {
        match self {
            Primary::Number(_) | Primary::Truth(_) => {}
            Primary::Variable(_) | Primary::Size(_) => {}
            Primary::Entry(_, _) => {}
            Primary::Parentheses(_) => {}
        }
    }
}
