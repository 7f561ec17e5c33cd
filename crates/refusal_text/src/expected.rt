//! The tokens that are possible at the place of a fault, found by the parser.

use parser::{ParseError, parse};
use std::alloc::{AllocError, Global};

// A longer beginning of a text is not tried: each token costs a parse of it.
const MOST_TRIED: usize = 1 << 18;

// Tokens, and how they are shown. The first token of a construct is shown for the construct.
const TOKENS: [(&str, &str); 44] = [
    ("const", "a declaration"),
    ("print", "a statement"),
    ("true", "an expression"),
    ("bool", "a type"),
    ("+", "an operator"),
    ("+=", "a reduction"),
    ("configApplyDirection", "a call of a schedule"),
    ("\"\"", "a text in quotes"),
    ("a", "a name"),
    ("1", "a number"),
    ("(", "`(`"),
    ("int", "`int`"),
    ("Vertex", "`Vertex`"),
    ("vertexset", "`vertexset`"),
    ("element", "`element`"),
    ("Edge", "`Edge`"),
    ("in", "`in`"),
    ("else", "`else`"),
    ("end", "`end`"),
    ("new", "`new`"),
    ("load", "`load`"),
    ("argv", "`argv`"),
    ("schedule", "`schedule`"),
    ("program", "`program`"),
    ("from", "`from`"),
    ("to", "`to`"),
    ("apply", "`apply`"),
    ("applyModified", "`applyModified`"),
    ("filter", "`filter`"),
    ("getVertices", "`getVertices`"),
    ("getOutDegrees", "`getOutDegrees`"),
    ("addVertex", "`addVertex`"),
    ("getVertexSetSize", "`getVertexSetSize`"),
    (")", "`)`"),
    ("[", "`[`"),
    ("]", "`]`"),
    ("{", "`{`"),
    ("}", "`}`"),
    (",", "`,`"),
    (";", "`;`"),
    (":", "`:`"),
    (".", "`.`"),
    ("=", "`=`"),
    ("->", "`->`"),
];

// The first and the last row of a statement, an expression and a type.
const FIRST_WHOLE: usize = 1;

const LAST_WHOLE: usize = 3;

// The first and the last row of tokens that begin one of these three too.
const FIRST_PART: usize = 8;

const LAST_PART: usize = 13;

/// How the token of this index is shown.
pub(crate) fn shown(index: usize) -> &'static str {
    match TOKENS.get(index) {
        Some((_, shown)) => shown,
        None => "",
    }
}

/// The indexes of the tokens that are possible after the beginning of a text, or none for a beginning that is too long to be tried.
/// The only error is out of memory.
pub(crate) fn expected(alloc: Global, beginning: &[u8]) -> Result<Vec<usize>, AllocError> {
    let mut found = Vec::new(alloc);
    if beginning.len() > MOST_TRIED {
        return Ok(found);
    }
    let mut has_whole = false;
    'tokens: for (i, (token, _)) in TOKENS.iter().enumerate() {
        let is_part = i >= FIRST_PART && i <= LAST_PART;
        if !(is_part && has_whole) && may_follow(alloc, beginning, token.as_bytes())? {
            found.push(i)?;
            has_whole = has_whole || i >= FIRST_WHOLE && i <= LAST_WHOLE;
        }
    }
    Ok(found)
}

fn may_follow(alloc: Global, beginning: &[u8], token: &[u8]) -> Result<bool, AllocError> {
    let text = joined(alloc, beginning, b" ", token)?;
    goes_past(alloc, &text, beginning.len().saturating_add(1))
}

/// Whether a `;` after the first so many bytes of a text makes its fault come after this offset. The only error is out of memory.
pub(crate) fn semicolon_helps(
    alloc: Global,
    text: &[u8],
    end: usize,
    at: usize,
) -> Result<bool, AllocError> {
    if text.len() > MOST_TRIED {
        return Ok(false);
    }
    let (before, behind) = text.split_at(end.min(text.len()));
    let mended = joined(alloc, before, b";", behind)?;
    goes_past(alloc, &mended, at.saturating_add(1))
}

fn joined(alloc: Global, first: &[u8], second: &[u8], third: &[u8]) -> Result<Vec<u8>, AllocError> {
    let mut text = Vec::new(alloc);
    text.extend_from_slice(first)?;
    text.extend_from_slice(second)?;
    text.extend_from_slice(third)?;
    Ok(text)
}

// Whether a text is in the grammar, or its first fault comes after this offset.
fn goes_past(alloc: Global, text: &[u8], at: usize) -> Result<bool, AllocError> {
    match parse(alloc, text) {
        Ok(source) => {
            drop(source);
            Ok(true)
        }
        Err(ParseError::NoMemory) => Err(AllocError),
        Err(error) => Ok(error.at().is_some_and(|fault| fault > at)),
    }
}
