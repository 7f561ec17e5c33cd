//! The trees of a checked program: all names are resolved, and each expression has a type.
//!
//! A [`Typed`] has a table of names, the labels, the vectors, the constant sets and the functions in the
//! order in which they are declared, the statements of `main`, and the calls of the schedule. What a tree
//! speaks of it names by an index: a vector, a function and a name by its index in the program's list, a
//! variable and a set by its index among those that are visible (`VarRef`), the vertex that a function works on
//! by `Endpoint`. Integers and conditions are types of their own, so that no number means a truth value.
//! A named constant keeps its name beside its value, and a statement its number and its label.
//!
//! Each Rust type is plain data. Contracts speak of pure trees, which have no pointers: each file of
//! `specs/` defines one kind, as `IntExpressionTree` or `BlockTree`, and says which one a Rust tree is. A
//! [`Sequence`] is a `Vec` that contracts see as a list. Operators in a row are one list in the Rust tree, and
//! signs in a row one count, so that no code recurses by their number; the pure trees nest. Statements of `main`
//! without blocks are of a type of their own, [`SimpleStatement`], and so are statements of functions on variables,
//! [`VariableStatement`]; a pure tree has all kinds of statements in one type.
//!
//! `specs/Resolved.antt` says what it is for each index in a program to be that of something that is there, and for
//! entries at an index to be in `main` alone (`IsResolved`). The checker's programs are so by a law of `types`.
//!
//! What functions read and write besides their own variables is found by one walk over their trees. `specs/Fold.antt`
//! says what it gives for each kind of tree, and the definitions of what functions use, of whatever crate, are cases of
//! it; `specs/Independence.antt` has those of vectors. In code [`function_passes`] and [`end_passes`] put each access to an
//! [`AccessTest`], and [`push_written`] collects what is written.
//!
//! The trees have their `Drop` by hand. A derived one would be written out, and proved again, in each
//! function of each crate where a tree ends.
//!
//! The checker, which makes these trees, the meaning of programs and the schedule depend on this crate.
#![tactic(auto)]

mod accesses;
mod apply;
mod expression;
mod function;
mod program;
mod sequence;
mod statement;

pub use accesses::{Access, AccessTest, end_passes, function_passes, push_written};
pub use apply::StatementApply;
pub use expression::{
    BoolExpression, ComparisonOperator, Connective, Endpoint, IntExpression, Operand, Operator,
    VarRef,
};
pub use function::{Function, FunctionStatement, VariableStatement};
pub use program::{InitialValue, ScheduleCall, Typed, Vector};
pub use sequence::{Name, Sequence};
pub use statement::{
    ApplyEnds, MainStatement, SetValue, SimpleStatement, StatementKind, ValueStatement,
    VertexFilter,
};
