//! Which rule on types and kinds a statement or a declaration has to keep, by the word that it begins with.

use crate::words::{begins_with, begins_word};

/// What a statement or a declaration that begins with this text has to keep, of the rules of 223.
pub(crate) fn kind_rule(text: &[u8]) -> &'static str {
    if begins_word(text, b"const") {
        return of_constant(text);
    }
    if begins_word(text, b"var") {
        return "a variable is an int, a bool or a vertex set, in a function no set; it begins with an expression of its type; `+` and `<` take ints, `and` and `not` bools";
    }
    if begins_word(text, b"func") {
        return "an edge function has two parameters of type Vertex and perhaps a third of type int, a vertex function one, a filter one and a result of type bool";
    }
    if begins_word(text, b"print") {
        return "what is printed is an int or a bool; `+` and `<` take ints, `and` and `not` bools";
    }
    if begins_word(text, b"if") {
        return "what `if` tests is a bool, such as `x == 1`; `+` and `<` take ints, `and` and `not` bools";
    }
    if begins_word(text, b"while") {
        return "what `while` tests is a bool, such as `s.getVertexSetSize() != 0`; it stands in `main` alone";
    }
    if begins_word(text, b"for") {
        return "the two bounds of a `for` are ints; it stands in `main` alone";
    }
    of_name(text)
}

// The rule of a constant, by its type.
fn of_constant(text: &[u8]) -> &'static str {
    match declared_type(text) {
        [b'e', ..] => "a constant of edges is `load(argv[1])`",
        [b'v', b'e', b'r', ..] => "a constant set is `edges.getVertices()`",
        [b'v', ..] => "a vector begins with a number, or with `edges.getOutDegrees()`",
        [b'i', ..] => "a constant int is a number, or `-` and a number, and no expression",
        [b'b', ..] => "a constant bool is `true` or `false`",
        _ => "a constant is an int, a bool, a vector, a vertex set or an edgeset, and no vertex",
    }
}

// What is after the first colon of a text, and white bytes.
fn declared_type(text: &[u8]) -> &[u8] {
    let mut colon = false;
    'bytes: for i in 0..text.len() {
        if colon && text[i] != b' ' {
            return &text[i..];
        }
        colon = colon || text[i] == b':';
    }
    &[]
}

// The rule of a statement that begins with a name, by the first sign after the name.
fn of_name(text: &[u8]) -> &'static str {
    match sign_after_name(text) {
        [b'.', ..] =>
            "edges are applied as `e.from(s).to(t).apply(f)` by an edge function, one with a weight on an edgeset with `int` alone, a set as `s.apply(f)` by a vertex function, both in `main`; `addVertex` takes an int",
        [b'[', ..] =>
            "an entry of a vector is assigned or reduced by an int, in a filter not at all; an index in `main` is an int",
        sign
            if begins_with(sign, b"+=")
                || begins_with(sign, b"min=")
                || begins_with(sign, b"max=") => {
            "an int variable is reduced by an int; a constant and the name of a `for` are not changed"
        }
        _ =>
            "a variable is assigned an expression of its type, where `+` and `<` take ints, `and` and `not` bools; a constant, a parameter and the name of a `for` are not assigned",
    }
}

// What is after the name that a text begins with, and spaces.
fn sign_after_name(text: &[u8]) -> &[u8] {
    'bytes: for i in 0..text.len() {
        if !text[i].is_ascii_alphanumeric() && text[i] != b'_' && text[i] != b' ' {
            return &text[i..];
        }
    }
    &[]
}
