//! The lines on a fault 211: the unexpected token, and the likely cause or what is possible there.

use crate::cause::cause_of;
use crate::expected::{expected, semicolon_helps, shown};
use crate::habits::habit_at;
use crate::spot::{Spot, spot_at, tokens_of};
use crate::told::push_told;
use std::alloc::{AllocError, Global};

// How many bytes of a token are shown.
const MOST_OF_TOKEN: usize = 40;

/// Adds the lines on the fault 211 at this offset of a text. The only error is out of memory.
pub(crate) fn push_unexpected(
    lines: &mut Vec<u8>,
    alloc: Global,
    text: &[u8],
    at: usize,
) -> Result<(), AllocError> {
    let all = tokens_of(alloc, text)?;
    let spot = spot_at(text, &all, at);
    push_token(lines, spot.bytes(0))?;
    match guess(alloc, spot, at)? {
        Some(guess) => push_told(lines, guess),
        None => push_expected(lines, alloc, text, at),
    }
}

// Adds the line that names the token at the fault, or the end of the text.
fn push_token(lines: &mut Vec<u8>, token: &[u8]) -> Result<(), AllocError> {
    if token.is_empty() {
        return push_told(lines, "the text ends too early");
    }
    lines.extend_from_slice(b" = unexpected `")?;
    lines.extend_from_slice(&token[..token.len().min(MOST_OF_TOKEN)])?;
    lines.extend_from_slice(b"` here: a program cannot continue with it\n")
}

// The likely cause, if one is found.
fn guess(alloc: Global, spot: Spot<'_>, at: usize) -> Result<Option<&'static str>, AllocError> {
    let (before, behind) = spot.text.split_at(at.min(spot.text.len()));
    if let Some(cause) = cause_of(before, behind) {
        return Ok(Some(cause));
    }
    if let Some(habit) = habit_at(spot) {
        return Ok(Some(habit));
    }
    let Some(last) = spot.token(1) else {
        return Ok(None);
    };
    let end = last.span.end;
    if !semicolon_helps(alloc, spot.text, end, at)? {
        return Ok(None);
    }
    let between = spot.text.get(end..at).unwrap_or(&[]);
    if between.contains(&b'\n') {
        Ok(Some("a `;` may be missing at the end of the line before"))
    } else {
        Ok(Some("a `;` may be missing before it"))
    }
}

// Adds the line that lists what is possible at the fault.
fn push_expected(
    lines: &mut Vec<u8>,
    alloc: Global,
    text: &[u8],
    at: usize,
) -> Result<(), AllocError> {
    let found = expected(alloc, &text[..at.min(text.len())])?;
    if found.is_empty() {
        return push_told(
            lines,
            "look before this place too: an `end` or a `;` may be missing",
        );
    }
    lines.extend_from_slice(b" = expected ")?;
    'found: for (i, index) in found.iter().enumerate() {
        if i > 0 {
            lines.extend_from_slice(if i + 1 == found.len() { b" or " } else { b", " })?;
        }
        lines.extend_from_slice(shown(*index).as_bytes())?;
    }
    lines.push(b'\n')?;
    Ok(())
}
