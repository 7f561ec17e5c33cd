//! Guesses why a text is outside the grammar, by what is at the fault and before it.

use crate::words::{begins_with, ends_with};

/// A guess at the cause of the fault 211 that stands between these two parts of a text.
pub(crate) fn cause_of(before: &[u8], behind: &[u8]) -> Option<&'static str> {
    let shown = without_white_end(before);
    if shown.is_empty() && begins_script(behind) {
        return Some("this is a script: `gsnap script` takes it before the programs");
    }
    if let Some(told) = cause_of_sign(before, shown, behind) {
        return Some(told);
    }
    if ends_with(shown, b".") && begins_with(behind, b"from") {
        return Some("`from` stands before `to`");
    }
    if ends_with(shown, b".") && begins_with(behind, b"applyModified") {
        return Some(
            "its set has to go somewhere: `s = edges.applyModified(f, x);`, or take `apply`",
        );
    }
    if ends_with(shown, b"elif") {
        return Some("there is no `elif`: write `else if ..`, and an `end` more");
    }
    None
}

/// A guess at the cause of the fault 201 at the byte that begins this part of a text.
pub(crate) fn cause_of_byte(behind: &[u8]) -> Option<&'static str> {
    if begins_with(behind, b"#") {
        return Some("a comment begins with `//`; a label is `#name#`, with nothing between");
    }
    if begins_with(behind, b"&") {
        return Some("write `and` between two conditions");
    }
    if begins_with(behind, b"|") {
        return Some("write `or` between two conditions");
    }
    if begins_with(behind, b"!") {
        return Some("write `not` before a condition in parentheses; `!=` compares");
    }
    None
}

// The cause where a sign that the language does not have, or has elsewhere, is at the fault.
fn cause_of_sign(before: &[u8], shown: &[u8], behind: &[u8]) -> Option<&'static str> {
    if begins_with(behind, b"{") {
        return Some("blocks have no braces: a body goes up to its `end`");
    }
    if begins_with(behind, b"/*") || ends_with(before, b"/") && begins_with(behind, b"*") {
        return Some("a comment begins with `//` and goes up to the end of its line");
    }
    if begins_with(behind, b"\"") && ends_with(shown, b"print") {
        return Some("`print` takes a number or a truth value: there are no texts");
    }
    if begins_with(behind, b".") && ends_in_digit(before) {
        return Some("there are no fractions: count in hundredths or millionths");
    }
    if begins_with(behind, b"+=") || begins_with(behind, b"min=") || begins_with(behind, b"max=") {
        return Some("a reduction is a statement, `x += 1;`, and no part of an expression");
    }
    if let [b'-' | b'*' | b'/' | b'%', b'=', ..] = behind {
        return Some("there is no such statement but `+=`: write `x += -1;` or `x = x * 2;`");
    }
    None
}

fn begins_script(text: &[u8]) -> bool {
    begins_with(text, b"vertices ")
        || begins_with(text, b"grow ")
        || begins_with(text, b"add ")
        || begins_with(text, b"del ")
        || begins_with(text, b"commit")
}

fn ends_in_digit(text: &[u8]) -> bool {
    match text.last() {
        Some(byte) => byte.is_ascii_digit(),
        None => false,
    }
}

fn is_white_byte(byte: u8) -> bool {
    byte == b' ' || byte == b'\t' || byte == b'\r' || byte == b'\n'
}

// The text without the white bytes at its end.
fn without_white_end(text: &[u8]) -> &[u8] {
    let mut end = 0;
    'bytes: for i in 0..text.len() {
        if !is_white_byte(text[i]) {
            end = i + 1;
        }
    }
    &text[..end]
}
