//! The lines that are written after a refusal.

use crate::calls::call_form;
use crate::cause::cause_of_byte;
use crate::indexes::index_rule;
use crate::kinds::kind_rule;
use crate::meaning::meaning_of;
use crate::place::{line_at, place_of};
use crate::spot::{spot_at, tokens_of};
use crate::statements::statement_at;
use crate::told::push_told;
use crate::unexpected::push_unexpected;
use decimal::push_number;
use refusal_numbers::{BAD_BYTE, UNEXPECTED, WRONG_INDEX, WRONG_TYPE};
use std::alloc::{AllocError, Global};

// How many bytes of a line are shown before a place, and in all.
const MOST_BEFORE: usize = 80;

const MOST_SHOWN: usize = 120;

/// The lines that show where in the text of the file of this name the byte at this offset stands, say what the number of a
/// refusal means, and what to do. A number by which no text is refused has no meaning, and then the place alone is written.
/// The only error is out of memory.
pub fn explanation(
    alloc: Global,
    file: &str,
    text: &[u8],
    at: usize,
    number: u16,
) -> Result<Vec<u8>, AllocError> {
    let mut lines = Vec::new(alloc);
    push_place(&mut lines, file, text, at)?;
    if number == UNEXPECTED {
        push_unexpected(&mut lines, alloc, text, at)?;
        return Ok(lines);
    }
    let Some(meaning) = meaning_of(number) else {
        return Ok(lines);
    };
    push_told(&mut lines, meaning.means)?;
    let rule = rule_of(alloc, text, at, number)?;
    push_told(&mut lines, rule.unwrap_or(meaning.cure))?;
    if let Some(form) = call_form(text.get(at..).unwrap_or(&[])) {
        push_told(&mut lines, form)?;
    }
    Ok(lines)
}

// What a text has to keep at the place of a refusal by this number, or the likely cause of it.
fn rule_of(
    alloc: Global,
    text: &[u8],
    at: usize,
    number: u16,
) -> Result<Option<&'static str>, AllocError> {
    let behind = text.get(at..).unwrap_or(&[]);
    match number {
        BAD_BYTE => Ok(cause_of_byte(behind)),
        WRONG_TYPE => Ok(Some(kind_rule(behind))),
        WRONG_INDEX => {
            let all = tokens_of(alloc, text)?;
            Ok(Some(index_rule(spot_at(text, &all, at))))
        }
        _ => Ok(None),
    }
}

/// The lines that show where in the program's text of the file of this name the statement of `main` with this number stands, and
/// what a fault of a run at it means. Where no such statement is found, that alone is written. The only error is out of memory.
pub fn fault_explanation(
    alloc: Global,
    file: &str,
    text: &[u8],
    statement: u64,
) -> Result<Vec<u8>, AllocError> {
    let mut lines = Vec::new(alloc);
    if let Some(at) = statement_at(alloc, text, statement)? {
        push_place(&mut lines, file, text, at)?;
    }
    push_told(
        &mut lines,
        "an index in it, or what it adds to a set, is no vertex of the version that the run is on",
    )?;
    push_told(
        &mut lines,
        "vertices are numbered from 0: compare it with the number of vertices, `vertices.getVertexSetSize()`",
    )?;
    Ok(lines)
}

// Adds the file, the line and the column, what is shown of the source line, and a caret below the byte. A byte that is no ASCII
// is as it is.
fn push_place(lines: &mut Vec<u8>, file: &str, text: &[u8], at: usize) -> Result<(), AllocError> {
    let place = place_of(text, at);
    lines.extend_from_slice(b" --> ")?;
    lines.extend_from_slice(file.as_bytes())?;
    lines.push(b':')?;
    push_number(lines, place.line as u64)?;
    lines.push(b':')?;
    push_number(lines, place.column as u64)?;
    lines.extend_from_slice(b"\n  | ")?;
    let (shown, before) = shown_part(line_at(text, at), place.column.saturating_sub(1));
    lines.extend_from_slice(shown)?;
    lines.extend_from_slice(b"\n  | ")?;
    'columns: for byte in shown.iter().take(before) {
        lines.push(if *byte == b'\t' { b'\t' } else { b' ' })?;
    }
    lines.extend_from_slice(b"^\n")
}

// What is shown of a line with n bytes before a place in it, and how many of these are shown: of a long line a part
// around the place.
fn shown_part(line: &[u8], before: usize) -> (&[u8], usize) {
    let start = before.saturating_sub(MOST_BEFORE).min(line.len());
    let end = start.saturating_add(MOST_SHOWN).min(line.len());
    (&line[start..end], before.saturating_sub(start))
}
