//! The state of the checker of types, and the types of initializers.
//!
//! A contract sees a [`Checker`] as a `CheckerTree`: the visible names, all names and labels so far, the number of
//! statements of `main`, and the vectors that each edge function reduces. Beside it the checker holds the allocator and
//! the first fault. [`declare`] and [`label`] add to it.
//! [`read_initial`] gives the [`Initializer`] of an initial or assigned value, and [`integer`], [`condition`] and the
//! methods of `Initializer` convert a value to the type that its place requires. [`integer_literal`],
//! [`condition_literal`] and [`kind_of`] read a declaration by its form alone, without its names.
//!
//! `specs/Checker.antt`, `specs/Initial.antt` and `specs/DeclarationForms.antt` have one equation for each rule. As in
//! `expression_types`, each definition gives a value with the list of the faults on the way to it, and a call keeps of
//! all faults so far the least, in `first_fault` of the checker or, if it only converts a value, in the place that it is
//! lent. The only error of a call is out of memory.
//!
//! The checker of statements and declarations, `types`, depends on this crate.
#![tactic(auto)]

mod checker;
mod entry;
mod function_kind;
mod initial;
mod literal;
mod quoted_names;
mod reductions;
mod wanted;

pub use checker::{Checker, declare, declare_loop_variable, label};
pub use entry::WrittenEntry;
pub use function_kind::{FunctionKind, is_int, is_vertex, kind_of};
pub use initial::{
    ApplyEnd, Initializer, NamedApply, are_weights_lacking, edge_function_named, ends_of,
    is_edges_entity, is_error_entity, is_one_wrong, read_apply, read_initial,
    vertex_function_named,
};
pub use literal::{condition_literal, integer_literal};
pub use quoted_names::between_ends;
pub use reductions::Reductions;
pub use wanted::{condition, index_of, integer, integer_of};
