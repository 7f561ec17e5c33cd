//! The lines on the lines of a script that were refused.

use crate::script_batch::push_refused_entry;
use crate::script_line::{fault_of, line_of};
use crate::words::begins_word;
use decimal::push_number;
use refusal_numbers::VERTEX_RANGE;
use std::alloc::{AllocError, Global};

// How many bytes of a word are shown.
const MOST_OF_WORD: usize = 40;

/// A line of a script that was refused: its number, from 1, and that of the refusal.
#[derive(Clone, Copy, Debug, PartialEq, Eq)]
pub struct RefusedLine {
    pub line: u64,
    pub number: u16,
}

/// The lines that name the file of this name, each of these lines of the script in it, the number of its refusal and the cause; and
/// last how many lines of it were refused in all. Of a text that is a program only that is said. The only error is out of memory.
pub fn refused_lines(
    alloc: Global,
    file: &str,
    text: &[u8],
    refused: &[RefusedLine],
    count: u64,
) -> Result<Vec<u8>, AllocError> {
    let mut lines = Vec::new(alloc);
    let is_program = begins_word(text, b"element");
    'refused: for one in refused
        .iter()
        .take(if is_program { 1 } else { refused.len() })
    {
        push_file(&mut lines, file)?;
        push_number(&mut lines, one.line)?;
        lines.extend_from_slice(b": refused ")?;
        push_number(&mut lines, one.number as u64)?;
        lines.extend_from_slice(b": ")?;
        if is_program {
            lines.extend_from_slice(
                b"this is a program: `gsnap script SCRIPT PROGRAM` takes it after the script",
            )?;
        } else {
            push_cause(&mut lines, text, *one)?;
        }
        lines.push(b'\n')?;
    }
    push_file(&mut lines, file)?;
    push_count(&mut lines, count)?;
    Ok(lines)
}

fn push_file(lines: &mut Vec<u8>, file: &str) -> Result<(), AllocError> {
    lines.extend_from_slice(file.as_bytes())?;
    lines.push(b':')?;
    Ok(())
}

fn push_count(lines: &mut Vec<u8>, count: u64) -> Result<(), AllocError> {
    lines.push(b' ')?;
    push_number(lines, count)?;
    lines.extend_from_slice(if count == 1 {
        b" line was refused\n"
    } else {
        b" lines were refused\n"
    })
}

// Adds why a line was refused.
fn push_cause(lines: &mut Vec<u8>, text: &[u8], refused: RefusedLine) -> Result<(), AllocError> {
    let line = line_of(text, refused.line);
    if refused.number == VERTEX_RANGE && line == b"commit".as_slice() {
        return push_refused_entry(lines, text, refused.line);
    }
    let fault = fault_of(line, refused.number);
    if !fault.word.is_empty() {
        lines.push(b'`')?;
        lines.extend_from_slice(&fault.word[..fault.word.len().min(MOST_OF_WORD)])?;
        lines.extend_from_slice(b"` ")?;
    }
    lines.extend_from_slice(fault.said.as_bytes())
}
