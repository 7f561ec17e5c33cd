//! The compiler: makes of a program's text the plan that is run.
//!
//! [`compile`] is a list of passes: the text is parsed, the source checked, its schedule accepted, and the program lowered to its
//! plan under that schedule. A contract says what the answer is of the text (`specs/Outcome.antt`): the text is a source by the
//! grammar, the source has a program by the rules of types, the program's schedule is accepted, and the plan, with its text, is that of
//! the program under that schedule; each refusal names its cause and comes only where that holds, from the first pass that refuses.
//!
//! Laws, each the contract of a function that does nothing: [`refusals_stand_in_the_text`], and
//! [`checked_programs_reduce_each_vector_in_one_way`], by which `parse`, `check`, `accept`, `lower` and a run of the plan make a
//! road on which each premise is met.
//!
//! Whoever runs programs gets them from here.
#![tactic(auto)]

mod error;
mod passes;

pub use error::CompileError;
pub use passes::{
    checked_programs_reduce_each_vector_in_one_way, compile, refusals_stand_in_the_text,
};
