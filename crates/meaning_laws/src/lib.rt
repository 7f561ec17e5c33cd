//! Laws of meanings, in the words of the language. `algorithm_meaning` defines the meaning of a program step by step; these
//! laws state the result.
//!
//! The calls do nothing: each is a fact that is proved of every program, graph and state. The set that `applyModified`
//! gives has exactly the vertices whose entry differs (`modified_sets_have_the_changed_vertices`), and a filtered one
//! exactly the members that the filter lets through (`filtered_sets_have_the_members_that_pass`). An apply looks at exactly
//! the edges between its ends (`applies_look_at_the_edges_between_their_ends`).
//!
//! Loops are defined with a number that falls. It decides nothing: a loop is its test, and then a turn, its body and the loop
//! again (`loops_are_unrolled`), and any number that is no less than the turns that are left gives the same
//! (`loops_need_no_more_than_their_turns`). A run that does not end by its turns is the same with more of them
//! (`more_turns_change_nothing`), and one that does has used them all (`turns_run_out_when_all_are_used`).
//!
//! What a run has printed are lines of numbers and of truth values (`runs_print_lines`), and each set that it shows has
//! vertices of the graph in ascending order (`runs_show_sets_of_vertices`).
//!
//! No crate of the program depends on this one, so that its proofs are off the way of a build.
#![tactic(auto)]

mod loops;
mod members;
mod outcomes;

pub use loops::{
    loops_are_unrolled, loops_need_no_more_than_their_turns, more_turns_change_nothing,
    turns_run_out_when_all_are_used,
};
pub use members::{
    applies_look_at_the_edges_between_their_ends, filtered_sets_have_the_members_that_pass,
    modified_sets_have_the_changed_vertices,
};
pub use outcomes::{runs_print_lines, runs_show_sets_of_vertices};
