//! Types of expressions: the names that are visible at a point of a source, the value that an expression has
//! there, and its faults.
//!
//! A contract sees a [`Scope`] as a `ScopeTree`: the visible names in the order in which they became visible,
//! each with the [`Entity`] that it means, and how many indices of integers, conditions and vertex sets are
//! taken. [`type_expression`] looks each name up there and gives the [`Value`] of an expression: a tree of
//! `typed_tree` for an integer or a condition, a vertex, a set, or `Error` where a part of it breaks a rule.
//!
//! `specs/Expression.antt` says which value an expression has and which faults, with one equation for each rule
//! of the grammar. Each definition gives a `WithFaults`, which is a value with the list of the faults on the way to
//! it, and `>>=` continues after a fault. An expression with a faulty part has no further fault of its own. Each
//! call answers with the value of its definition, and keeps of all faults so far the one with the least offset,
//! of several there the one with the least number (`specs/Faults.antt`, [`note`]). `least_fault_is_told` is the law
//! that this is the least of them; it does nothing when called.
//!
//! [`Names`] are a hash map that keeps the order of insertion. No visible name is declared again, so the end of
//! a block is a cut of that map, and a look-up does not depend on how many names there are. Operators of one
//! level are typed in a loop, and signs in a row are counted.
//!
//! The checker of statements and declarations, `types`, depends on this crate.
#![tactic(auto)]

mod bare_name;
mod expression;
mod fault;
mod laws;
mod names;
mod operands;
mod operators;
mod scope;
mod value;

pub use bare_name::lone_operand;
pub use expression::{entity, type_expression, type_index, vector};
pub use fault::{Fault, TypeRule, note};
pub use laws::least_fault_is_told;
pub use names::Names;
pub use scope::{Entity, Inside, Mark, Scope};
pub use value::{Value, reads_entry, set_named, vector_named};
