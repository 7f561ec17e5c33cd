//! What the numbers of refusals mean, and what to do.

use refusal_numbers::{
    BAD_ARGUMENT, BAD_BYTE, BAD_FIELDS, BAD_LABEL, DIFFERENT_SETS, GIVEN_TWICE, MIXED_REDUCTIONS,
    NO_APPLY, NO_MAIN, NOT_ADJACENT, NOT_INDEPENDENT, NOT_REDUCTION, NUMBER_TOO_LARGE,
    PRINT_OUTSIDE_MAIN, REDECLARED, TOO_DEEP, UNFINISHED_TEXT, UNKNOWN_LABEL, UNKNOWN_NAME,
    WRONG_INDEX, WRONG_TYPE,
};

/// What a number means, and what to do.
#[derive(Clone, Copy)]
pub(crate) struct Meaning {
    pub(crate) means: &'static str,
    pub(crate) cure: &'static str,
}

/// The meaning of a number by which a program's text is refused, or none of another number.
pub(crate) fn meaning_of(number: u16) -> Option<Meaning> {
    let (means, cure) = match number {
        BAD_BYTE..=TOO_DEEP => of_tokens(number),
        UNKNOWN_NAME..=BAD_LABEL => of_types(number),
        UNKNOWN_LABEL..=BAD_FIELDS => of_schedule(number),
        _ => None,
    }?;
    Some(Meaning { means, cure })
}

fn of_tokens(number: u16) -> Option<(&'static str, &'static str)> {
    match number {
        BAD_BYTE => Some((
            "a byte begins no token",
            "remove the byte; a comment begins with `//`, a label is `#name#` without spaces, and conditions are joined by `and`, `or` and `not`",
        )),
        NUMBER_TOO_LARGE => Some((
            "a number is above 9223372036854775807",
            "write a smaller number; the least int is `-9223372036854775807 - 1`",
        )),
        UNFINISHED_TEXT => Some((
            "a text in quotes is not closed on its line, or has a byte outside 0x20 to 0x7E",
            "close it; there are no escapes",
        )),
        TOO_DEEP => Some((
            "blocks and brackets nest deeper than 64",
            "use variables for parts of the expression",
        )),
        _ => None,
    }
}

fn of_types(number: u16) -> Option<(&'static str, &'static str)> {
    match number {
        UNKNOWN_NAME => Some((
            "a name is not visible where it is used",
            "declare it before; a name of a block is forgotten at its `end`",
        )),
        REDECLARED => Some((
            "a name is visible already, or a second constant is an edgeset",
            "take another name",
        )),
        WRONG_TYPE => Some((
            "the type or the kind is wrong there",
            "docs/LANGUAGE.md lists the type that each place takes",
        )),
        NOT_REDUCTION => Some((
            "an edge function assigns an entry of a vector",
            "reduce it: `min=`, `max=` or `+=`",
        )),
        MIXED_REDUCTIONS => Some((
            "an edge function reduces one vector in two ways",
            "use a second vector",
        )),
        WRONG_INDEX => Some((
            "an entry is read or written at a vertex that is not allowed there, or an index in `main` contains an entry",
            "an edge function writes only at its second vertex; in `main` take the entry into a variable first",
        )),
        PRINT_OUTSIDE_MAIN => Some((
            "a `print` is in another function than `main`",
            "print in `main`, after the apply",
        )),
        NO_MAIN => Some((
            "there is no function `main` that has neither parameters nor a result",
            "add `func main() .. end`",
        )),
        BAD_LABEL => Some((
            "a label is twice in the text",
            "rename one; labels in functions and in `main` must differ too",
        )),
        _ => None,
    }
}

fn of_schedule(number: u16) -> Option<(&'static str, &'static str)> {
    match number {
        UNKNOWN_LABEL => Some((
            "a schedule names a label that the program does not have",
            "write the label without `#`, as the statement has it",
        )),
        NO_APPLY => Some((
            "the label is not that of an apply, or is that of a vertex apply in a call for edge applies",
            "put the label before the apply in `main`",
        )),
        BAD_ARGUMENT => Some((
            "a call has too few or too many arguments, or a value that does not exist",
            "take a value of the table in docs/LANGUAGE.md",
        )),
        GIVEN_TWICE => Some((
            "a label has that value already, or is fused already, or with itself",
            "keep one of the calls",
        )),
        NOT_ADJACENT => Some((
            "the second of two fused statements does not follow the first at once in the same block",
            "name them in the order of the text, and move what is between them",
        )),
        DIFFERENT_SETS => Some((
            "two fused applies have different kinds, sets, sources or destinations",
            "give both the same `from` and `to`",
        )),
        NOT_INDEPENDENT => Some((
            "the second of two fused edge applies depends on what the first writes",
            "do not fuse them",
        )),
        BAD_FIELDS => Some((
            "fewer than two fields are fused, or a name is not a vector, is named twice, or is in an earlier group",
            "name each vector once, in one group",
        )),
        _ => None,
    }
}
