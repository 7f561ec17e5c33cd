//! Laws of plans and of their texts, for readers: no crate of the program depends on this one, so that its proofs are off the
//! way of a build. The calls do nothing: each is a fact that is proved of every program, state and instruction.
//!
//! **Plans** over accepted schedules of checked programs. Two statements that an accepted schedule fuses are one instruction of
//! the plan (`fused_statements_are_one_instruction`): a fusing that is accepted is never given up, since what the rules of
//! schedules and of types ask of the two statements is all that the plan asks. `specs/OneInstruction.antt` says what one
//! instruction for two statements is. The groups of vectors of an accepted schedule fit the vectors of its program on every graph
//! (`accepted_groups_fit`). The machine that runs a plan counts its `for` loops beside the variables. In each configuration that
//! a run of a checked program reaches the counters equal the variables (`loop_counters_are_variables`).
//!
//! **Texts**: what the words that `plan_text` and `lowering` define one by one say to a reader. `specs/Machine.antt` is a machine
//! that reads words as `docs/PLANS.md` describes it: from left to right, with a stack of values. It ends with the value that the
//! expression has, and stops exactly if that has none (`expressions_are_read_by_hand`). It does so with a text in brackets, which
//! is cut at its spaces (`brackets_are_read_by_hand`), and the brackets of an instruction have the values that the instruction
//! takes (`instructions_have_their_values`, `reductions_are_read_by_hand`). `specs/Given.antt` says what the machine knows of
//! names. Each name of the language but `neg` is taken for one, and meets the other premises too (`names_are_plain`).
//!
//! The first word of an instruction says its kind (`first_words_say_the_kind`), and the words after it what it works on
//! (`words_name_what_is_worked_on`, `words_name_edge_applies`), by which reduction an entry changes (`words_say_the_reduction`),
//! where a run may continue (`words_say_where_to_go`), and by what the engines do an edge apply (`words_say_the_settings`). These laws
//! speak of words. The text of a plan, cut into lines and these into words, is the words of its instructions
//! (`lines_are_cut_into_words`, `texts_are_cut_into_instructions`).
#![tactic(auto)]

mod brackets;
mod expressions;
mod instructions;
mod laws;
mod lines;
mod names;

pub use brackets::{
    brackets_are_read_by_hand, instructions_have_their_values, reductions_are_read_by_hand,
};
pub use expressions::{expressions_are_read_by_hand, names_are_plain};
pub use instructions::{first_words_say_the_kind, words_say_the_settings, words_say_where_to_go};
pub use laws::{
    accepted_groups_fit, fused_statements_are_one_instruction, loop_counters_are_variables,
};
pub use lines::{lines_are_cut_into_words, texts_are_cut_into_instructions};
pub use names::{words_name_edge_applies, words_name_what_is_worked_on, words_say_the_reduction};
