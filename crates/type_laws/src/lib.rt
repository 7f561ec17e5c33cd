//! Laws of types, in the words of the language. `types` defines the program and the faults of a source step by step; these
//! laws state what that means.
//!
//! The calls do nothing: each is a fact that is proved of every source. A source has a program or a reported fault,
//! never both (`sources_have_a_program_or_a_fault`), and the reported fault is the least of its faults
//! (`reported_faults_are_the_least`).
//!
//! `specs/BrokenRules.antt` says which rules a source breaks and where, with one definition for each rule over the parts of
//! a source (`specs/SourceParts.antt`): the faults of the source are these (`faults_are_the_broken_rules`), and the
//! reported one is the least (`reported_faults_are_the_least_broken_rules`). For expressions `specs/ExpressionRules.antt` has
//! one case for each rule and each form (`faults_of_expressions_are_their_broken_rules`), and an expression with a faulty
//! part has the faults of its parts alone (`expressions_with_faulty_parts_have_no_further_fault`).
//!
//! A source has a program exactly where it keeps the rules (`sources_have_a_program_where_they_keep_the_rules`):
//! `specs/KeptRules.antt` has the rules as a relation over the source, with the types of expressions in
//! `specs/ExpressionTypes.antt` and the meanings of names in `specs/Meanings.antt`. An expression has no fault exactly where
//! it has a type (`expressions_have_types_where_they_have_no_fault`). In a source with a program:
//!
//! - each used name is visible (`checked_sources_use_visible_names`), and no visible name is declared again
//!   (`checked_sources_declare_new_names`);
//! - constants and functions are of the kinds that there are, and functions hold what their kind may hold
//!   (`checked_sources_are_well_typed`);
//! - functions read and write vectors at their own vertices, and no index of `main` has an entry in it
//!   (`checked_sources_access_own_entries`);
//! - `print` is in `main` alone (`checked_sources_print_in_main_alone`), and one function is `main`
//!   (`checked_sources_declare_main`);
//! - no label stands twice (`checked_sources_have_distinct_labels`).
//!
//! In a checked program each index is that of something that is there (`checked_programs_are_resolved`, `IsResolved`
//! of `typed_tree`), and the statements of `main` have the numbers 1, 2, 3 and so on
//! (`statements_are_numbered_in_order`). Their labels are in order (`labels_of_main_are_in_order`), visible vertex sets have
//! different names (`checked_programs_name_visible_sets_apart`), and a set that gets the vertices where an edge apply changed
//! a vector asks for one that the edge function writes (`checked_programs_ask_for_written_vectors`). No statement assigns
//! the variable of a `for` around it (`checked_programs_keep_loop_variables`).
//!
//! No crate of the program depends on this one, so that its proofs are off the way of a build.
#![tactic(auto)]

mod laws;

pub use laws::{
    checked_programs_are_resolved, checked_programs_ask_for_written_vectors,
    checked_programs_keep_loop_variables, checked_programs_name_visible_sets_apart,
    checked_sources_access_own_entries, checked_sources_are_well_typed,
    checked_sources_declare_main, checked_sources_declare_new_names,
    checked_sources_have_distinct_labels, checked_sources_print_in_main_alone,
    checked_sources_use_visible_names, expressions_have_types_where_they_have_no_fault,
    expressions_with_faulty_parts_have_no_further_fault, faults_are_the_broken_rules,
    faults_of_expressions_are_their_broken_rules, labels_of_main_are_in_order,
    reported_faults_are_the_least, reported_faults_are_the_least_broken_rules,
    sources_have_a_program_or_a_fault, sources_have_a_program_where_they_keep_the_rules,
    statements_are_numbered_in_order,
};
