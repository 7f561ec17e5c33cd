//! A line of a script: its bytes, and why it is refused.

use crate::words::{begins_with, ends_with, word};
use decimal::{integer, leading_digits};
use refusal_numbers::{
    BAD_CHUNK_SIZE, BAD_LINE, BAD_WORKERS, HISTORY_FULL, NO_PROGRAM, NOT_HELD, NOT_KEPT,
    VERTEX_RANGE,
};

// A command, the least and the greatest number of words after it, and how many those are.
const COMMANDS: [(&str, usize, usize, &str); 9] = [
    ("vertices", 1, 2, "takes 1 or 2 numbers"),
    ("add", 2, 3, "takes 2 or 3 numbers"),
    ("del", 2, 2, "takes 2 numbers"),
    ("grow", 1, 1, "takes 1 number"),
    ("commit", 0, 0, "takes no number"),
    ("hold", 0, 2, "takes no number, or `at` and 1 number"),
    ("release", 1, 1, "takes 1 number"),
    ("edges", 0, 1, "takes no number or 1"),
    ("run", 3, 4, "takes 3 or 4 numbers"),
];

/// Why a line is refused: a word of it, or no byte, and what is said of that word or of the line.
#[derive(Clone, Copy)]
pub(crate) struct LineFault<'l> {
    pub(crate) word: &'l [u8],
    pub(crate) said: &'static str,
}

fn line_fault<'l>(said: &'static str) -> LineFault<'l> {
    LineFault { word: &[], said }
}

fn word_fault<'l>(line: &'l [u8], index: usize, said: &'static str) -> LineFault<'l> {
    LineFault {
        word: word(line, index).unwrap_or(&[]),
        said,
    }
}

/// The line that a text begins with, without its line feed.
pub(crate) fn first_line(text: &[u8]) -> &[u8] {
    match text.iter().position(|byte| *byte == b'\n') {
        Some(end) => &text[..end],
        None => text,
    }
}

/// The line of this number, from 1, without its line feed, or no bytes if there is no such line.
pub(crate) fn line_of(text: &[u8], number: u64) -> &[u8] {
    let mut line = 0u64;
    let mut begins_line = true;
    'bytes: for i in 0..text.len() {
        if begins_line {
            line = line.saturating_add(1);
            if line == number {
                return first_line(&text[i..]);
            }
        }
        begins_line = text[i] == b'\n';
    }
    &[]
}

/// Why a line is refused by this number. A commit's 111 is found by its batch.
pub(crate) fn fault_of(line: &[u8], number: u16) -> LineFault<'_> {
    match number {
        BAD_LINE => bad_line_fault(line),
        BAD_CHUNK_SIZE => word_fault(line, 2, "is not a power of two from 1 to 256"),
        VERTEX_RANGE => word_fault(line, 1, "is not a number of vertices from 1 to 16777216"),
        NOT_KEPT => word_fault(line, 2, "is a version that is neither the newest nor held"),
        NOT_HELD => word_fault(line, ticket_index(line), "is not an open ticket"),
        HISTORY_FULL => line_fault("the history is full"),
        BAD_WORKERS => word_fault(line, 3, "is not a number of workers from 1 to 64"),
        NO_PROGRAM => word_fault(
            line,
            1,
            "is not the number of a program of the command line",
        ),
        _ => line_fault("this is not a command, or not one allowed here"),
    }
}

// Why a line is no command that is possible at its place.
fn bad_line_fault(line: &[u8]) -> LineFault<'_> {
    if let Some(fault) = words_fault(line) {
        return fault;
    }
    if begins_with(line, b"vertices ") {
        return line_fault("a graph is open already");
    }
    line_fault("`vertices N` has to come before it")
}

// The index of the word that is a ticket.
fn ticket_index(line: &[u8]) -> usize {
    if begins_with(line, b"run ") { 4 } else { 1 }
}

/// Why the words of a line are no command, or none if they are one.
pub(crate) fn words_fault(line: &[u8]) -> Option<LineFault<'_>> {
    if let Some(said) = spelling_fault(line) {
        return Some(line_fault(said));
    }
    let name = word(line, 0)?;
    let Some((_, least, most, said)) = COMMANDS
        .iter()
        .find(|(command, _, _, _)| command.as_bytes() == name)
    else {
        return Some(word_fault(line, 0, "is not a command"));
    };
    let holds = name == b"hold".as_slice();
    let count = line.iter().filter(|byte| **byte == b' ').count();
    if holds && count > 0 && word(line, 1) != Some(b"at".as_slice()) {
        return Some(word_fault(line, 1, "is not `at`, as in `hold at 3`"));
    }
    if count < *least || count > *most || holds && count == 1 {
        return Some(word_fault(line, 0, said));
    }
    let first = if holds { 2 } else { 1 };
    'words: for i in first..count.saturating_add(1) {
        if let Some(said) = number_fault(name, i, word(line, i).unwrap_or(&[])) {
            return Some(word_fault(line, i, said));
        }
    }
    None
}

// Why a line is not words with one space between two.
fn spelling_fault(line: &[u8]) -> Option<&'static str> {
    if begins_with(line, b"#") || begins_with(line, b"//") {
        return Some("a script has no comments");
    }
    if line.contains(&b'\t') {
        return Some("a tab is in it: words are separated by one space");
    }
    if line.contains(&b'\r') {
        return Some("a carriage return is in it: a line ends with a line feed alone");
    }
    if begins_with(line, b" ") {
        return Some("a space is before its first word");
    }
    if ends_with(line, b" ") {
        return Some("a space is after its last word");
    }
    'bytes: for i in 1..line.len() {
        if line[i] == b' ' && line[i - 1] == b' ' {
            return Some("two spaces are between two words");
        }
    }
    None
}

// Why a word is not the number at this index after a command.
fn number_fault(name: &[u8], index: usize, word: &[u8]) -> Option<&'static str> {
    if name == b"add".as_slice() && index == 3 {
        return match integer(word) {
            Some(_) => None,
            None => Some(
                "is not a weight: decimal digits, perhaps after a `-`, from -2^63 to 2^63 - 1",
            ),
        };
    }
    if word.is_empty() || !word.iter().all(|byte| byte.is_ascii_digit()) {
        return Some("is not a number: decimal digits without a sign");
    }
    let is_short = name == b"vertices".as_slice()
        || name == b"add".as_slice()
        || name == b"del".as_slice()
        || name == b"grow".as_slice();
    match number(word) {
        Some(value) if is_short && value > u32::MAX as u64 => Some("is above 4294967295"),
        Some(_) => None,
        None if is_short => Some("is above 4294967295"),
        None => Some("is above 18446744073709551615"),
    }
}

/// The number that a word of digits is, if it is below 2^64.
pub(crate) fn number(word: &[u8]) -> Option<u64> {
    match leading_digits(word) {
        Some((number, _)) => Some(number),
        None => None,
    }
}
