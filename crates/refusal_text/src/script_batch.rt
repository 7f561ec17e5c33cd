//! The batch of a commit that is refused by 111, and the entry in it that is refused.

use crate::script_line::{first_line, number, words_fault};
use crate::words::word;
use decimal::push_number;
use std::alloc::AllocError;

const MAX_VERTICES: u64 = 16_777_216;

/// A line, and the number of vertices or the vertex in it.
#[derive(Clone, Copy)]
struct Entry {
    line: u64,
    number: u64,
}

/// The vertices of the newest version, and of the pending batch what decides whether it is refused.
#[derive(Clone, Copy)]
struct Pending {
    // How many vertices the newest version has, or 0 while no graph is open.
    vertices: u64,
    // The most vertices that a `grow` line asks for, or 0.
    asked: u64,
    // The first `grow` line that asks for too few or too many.
    misgrown: Option<Entry>,
    // The first line with the greatest vertex.
    farthest: Option<Entry>,
}

/// Adds which entry of its batch a commit in the line of this number is refused for.
pub(crate) fn push_refused_entry(
    lines: &mut Vec<u8>,
    text: &[u8],
    commit: u64,
) -> Result<(), AllocError> {
    let pending = pending_at(text, commit);
    let vertices = pending.vertices.max(pending.asked);
    if let Some(entry) = pending.misgrown {
        push_entry(lines, entry, b" asks for ")?;
        lines.extend_from_slice(b" vertices, and ")?;
        push_number(lines, pending.vertices)?;
        lines.extend_from_slice(b" to 16777216 are possible")?;
    } else if let Some(entry) = pending.farthest {
        push_entry(lines, entry, b" names vertex ")?;
        lines.extend_from_slice(b", and the vertices are 0 to ")?;
        push_number(lines, vertices.saturating_sub(1))?;
    }
    lines.extend_from_slice(b"; the whole batch is dropped")
}

fn push_entry(lines: &mut Vec<u8>, entry: Entry, said: &[u8]) -> Result<(), AllocError> {
    lines.extend_from_slice(b"line ")?;
    push_number(lines, entry.line)?;
    lines.extend_from_slice(said)?;
    push_number(lines, entry.number)
}

// What is pending where the line of this number begins.
fn pending_at(text: &[u8], end: u64) -> Pending {
    let mut pending = Pending {
        vertices: 0,
        asked: 0,
        misgrown: None,
        farthest: None,
    };
    let mut line = 0u64;
    let mut begins_line = true;
    'bytes: for i in 0..text.len() {
        if begins_line {
            line = line.saturating_add(1);
            if line == end {
                return pending;
            }
            pending = after_line(pending, line, first_line(&text[i..]));
        }
        begins_line = text[i] == b'\n';
    }
    pending
}

// What is pending after a line.
fn after_line(pending: Pending, line: u64, bytes: &[u8]) -> Pending {
    if words_fault(bytes).is_some() {
        return pending;
    }
    let first = number(word(bytes, 1).unwrap_or(&[])).unwrap_or(0);
    let second = number(word(bytes, 2).unwrap_or(&[])).unwrap_or(0);
    let name = word(bytes, 0).unwrap_or(&[]);
    if pending.vertices == 0 {
        return opened(pending, bytes, first, second);
    }
    if name == b"grow".as_slice() {
        return grown(
            pending,
            Entry {
                line,
                number: first,
            },
        );
    }
    if name == b"add".as_slice() || name == b"del".as_slice() {
        let number = first.max(second);
        return named(pending, Entry { line, number });
    }
    if name == b"commit".as_slice() {
        return committed(pending);
    }
    pending
}

// A graph is open after a line `vertices` that is not refused.
fn opened(pending: Pending, bytes: &[u8], vertices: u64, chunk_size: u64) -> Pending {
    let is_opening = word(bytes, 0) == Some(b"vertices".as_slice());
    let has_size = word(bytes, 2).is_none() || chunk_size.is_power_of_two() && chunk_size <= 256;
    if is_opening && has_size && vertices <= MAX_VERTICES {
        return Pending {
            vertices,
            ..pending
        };
    }
    pending
}

fn grown(pending: Pending, entry: Entry) -> Pending {
    let is_right = entry.number >= pending.vertices && entry.number <= MAX_VERTICES;
    let misgrown = match pending.misgrown {
        None if !is_right => Some(entry),
        before => before,
    };
    Pending {
        asked: pending.asked.max(entry.number),
        misgrown,
        ..pending
    }
}

fn named(pending: Pending, entry: Entry) -> Pending {
    let farthest = match pending.farthest {
        Some(before) if before.number >= entry.number => before,
        _ => entry,
    };
    Pending {
        farthest: Some(farthest),
        ..pending
    }
}

// Nothing is pending after a commit, and the graph has grown if its batch was not refused.
fn committed(pending: Pending) -> Pending {
    let vertices = pending.vertices.max(pending.asked);
    let is_beyond = match pending.farthest {
        Some(entry) => entry.number >= vertices,
        None => false,
    };
    let is_refused = is_beyond || pending.misgrown.is_some();
    Pending {
        vertices: if is_refused {
            pending.vertices
        } else {
            vertices
        },
        asked: 0,
        misgrown: None,
        farthest: None,
    }
}
