//! The syntax of the algorithm language: the trees of a source, the terminals that they are spelled with, and how
//! deep a source may nest (`docs/LANGUAGE.md` has the grammar).
//!
//! A terminal is a token as the grammar sees it: its bytes or its value, without its place. Names, labels, and
//! keywords that open a declaration, a statement or a call of the schedule keep their offsets
//! (`specs/Terminals.antt`, `specs/Offsets.antt`). A contract sees an [`Expression`] as an `ExpressionTree`, one
//! type for each level of the grammar, and a [`Source`] as a `SourceTree`; both have no pointers.
//! `specs/ExpressionSpelling.antt` and `specs/SourceSpelling.antt` give the terminals of each tree, with one
//! equation for each rule of the grammar, and `specs/Nesting.antt` counts what is open. `Begins` says that
//! terminals are those of an expression, at most so deep, and then a rest that does not continue with it
//! (`specs/ExpressionBeginnings.antt`).
//!
//! `terminals_have_one_source` is the law that no two sources have the same terminals, and `sources_are_read_exactly`
//! the law of the reading function, by which a parser is proved to accept exactly the grammar;
//! `terminals_have_one_tree`, `beginnings_are_one`, `reading_is_exact` and `what_ends_goes_no_further` are those of
//! expressions. They do nothing when called. [`first_too_deep`] finds where a text nests deeper than the limit.
//!
//! Statements without a block have a type of their own, [`SimpleAction`]; a tree has all kinds of statements in one
//! type.
//!
//! A tree keeps what makes its terminals its own: parentheses, labels, an absent `else` apart from an empty
//! one, the operators of one level as one list.
//!
//! The parser, the writer of sources, the checker of types and the schedule depend on this crate. The language is
//! after GraphIt (Zhang, Yang, Baghdadi, Kamil, Shun, Amarasinghe, OOPSLA 2018), with a grammar of its own.
#![tactic(auto)]

mod declaration;
mod expression;
mod initial;
mod laws;
mod name;
mod nesting;
mod operators;
mod schedule;
mod simple_action;
mod statement;

pub use declaration::{Declaration, DeclaredType, Parameter, Source};
pub use expression::{Comparison, Conjunction, Expression, Primary, Sum, Term, Unary};
pub use initial::{Ends, Initial};
pub use laws::{
    beginnings_are_one, reading_is_exact, sources_are_read_exactly, terminals_have_one_source,
    terminals_have_one_tree, what_ends_goes_no_further,
};
pub use name::Name;
pub use nesting::{NESTING_LIMIT, first_too_deep};
pub use operators::{Addition, Multiplication, Prefix, Relation};
pub use schedule::{Call, Chain, QuotedText};
pub use simple_action::SimpleAction;
pub use statement::{Action, ForLoop, Statement};
