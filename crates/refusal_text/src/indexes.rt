//! Which rule on the vertices of entries a function has to keep.

use crate::spot::Spot;
use lexer::{Keyword, TokenKind};

// How many tokens there are from `func` to the comma after a first parameter.
const TO_COMMA: usize = 6;

/// What the function around this place has to keep, of the rules of 226.
pub(crate) fn index_rule(spot: Spot<'_>) -> &'static str {
    let func = function_before(spot);
    if spot.bytes_at(func.saturating_add(1)) == b"main".as_slice() {
        return "in `main` an index may not contain `x[..]`: take the entry into a variable first, `var i : int = y[0]; x[i] += 1;`";
    }
    if spot.bytes_at(func.saturating_add(TO_COMMA)) == b",".as_slice() {
        return "an edge function reads entries at its two vertices, and may write only at the second";
    }
    "a vertex function and a filter read and write entries at their own vertex alone"
}

// The index of the last `func` before a place.
fn function_before(spot: Spot<'_>) -> usize {
    let mut last = 0;
    'tokens: for i in 0..spot.index.min(spot.all.len()) {
        if spot.all[i].kind == TokenKind::Keyword(Keyword::Func) {
            last = i;
        }
    }
    last
}
