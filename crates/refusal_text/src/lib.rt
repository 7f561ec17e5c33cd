//! The lines for people after the refusal of a program's text: the place, the source line with a caret, the meaning of the number,
//! and the cure; and the causes of refused lines of a script.
//!
//! [`place_of`] is the line and the column of an offset, and its contract says so. [`explanation`] makes the lines on a text. It
//! answers for any text, offset and number, and promises nothing of its words but that they come: they are for people, and may be
//! others tomorrow. Of a text outside the grammar (211) it guesses the cause by the tokens around the place, or lists the tokens
//! with which the parser gets further; of a wrong type or kind (223) it has the rule of what begins there, and of a schedule the
//! form of the call. [`fault_explanation`] shows the statement at which a run ended. [`refused_lines`] finds the cause of each
//! refused line in the script; that of a commit's 111 is an entry of its batch.
#![tactic(auto)]

mod calls;
mod cause;
mod expected;
mod habits;
mod indexes;
mod kinds;
mod lines;
mod meaning;
mod place;
mod script_batch;
mod script_line;
mod script_text;
mod spot;
mod statements;
mod told;
mod unexpected;
mod words;

pub use lines::{explanation, fault_explanation};
pub use place::{Place, line_at, place_of};
pub use script_text::{RefusedLine, refused_lines};
