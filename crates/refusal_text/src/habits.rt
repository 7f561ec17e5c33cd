//! Guesses for texts outside the grammar that are right in another language, or in GraphIt.

use crate::spot::Spot;
use lexer::TokenKind;

// The words before the fault, the word at it, and the guess. `?` is any name, and no word is any token.
const HABITS: [(&str, &str, &str); 44] = [
    (
        "vector { Vertex } (",
        "float",
        "a vector holds ints alone, `vector{Vertex}(int)`: count in hundredths or millionths",
    ),
    (
        "vector { Vertex } (",
        "",
        "a vector holds ints alone: `vector{Vertex}(int)`, with 0 and 1 for a truth value",
    ),
    (
        "return",
        "",
        "there is no `return`: the result has a name, as in `-> r : bool`, and is assigned, as in `r = x[v] == 1;`",
    ),
    (
        "->",
        "bool",
        "the result has a name, `-> r : bool`, and is assigned, as in `r = x[v] == 1;`",
    ),
    (
        "->",
        "int",
        "a result has a name and is a bool, `-> r : bool`; a number is left in a vector",
    ),
    (
        "break",
        "",
        "there is no `break`: a loop ends by its condition, so test a variable in `while`",
    ),
    (
        "continue",
        "",
        "there is no `continue`: put what is to be left out into an `if`",
    ),
    (
        "",
        "def",
        "a function is `func NAME(v : Vertex) .. end`, and the program begins in `func main()`",
    ),
    (
        "",
        "fn",
        "a function is `func NAME(v : Vertex) .. end`, and the program begins in `func main()`",
    ),
    (
        "",
        "function",
        "a function is `func NAME(v : Vertex) .. end`, and the program begins in `func main()`",
    ),
    ("? (", "int", "a name comes before its type: `v : Vertex`"),
    (
        "? (",
        "Vertex",
        "a name comes before its type: `v : Vertex`",
    ),
    (
        ": Vertex ,",
        "int",
        "a name comes before its type: `v : Vertex`",
    ),
    (
        ": Vertex ,",
        "Vertex",
        "a name comes before its type: `v : Vertex`",
    ),
    (
        ";",
        "int",
        "a variable is declared by `var`, its type after its name: `var i : int = 0;`",
    ),
    (
        ")",
        "int",
        "a variable is declared by `var`, its type after its name: `var i : int = 0;`",
    ),
    (
        "end",
        "int",
        "a variable is declared by `var`, its type after its name: `var i : int = 0;`",
    ),
    (
        "else",
        "int",
        "a variable is declared by `var`, its type after its name: `var i : int = 0;`",
    ),
    (
        ";",
        "bool",
        "a variable is declared by `var`, its type after its name: `var found : bool = false;`",
    ),
    (
        ")",
        "bool",
        "a variable is declared by `var`, its type after its name: `var found : bool = false;`",
    ),
    (
        "end",
        "bool",
        "a variable is declared by `var`, its type after its name: `var found : bool = false;`",
    ),
    (
        "else",
        "bool",
        "a variable is declared by `var`, its type after its name: `var found : bool = false;`",
    ),
    (
        "float",
        "?",
        "there are no fractions: count in hundredths or millionths",
    ),
    (
        "double",
        "?",
        "there are no fractions: count in hundredths or millionths",
    ),
    (
        "let",
        "?",
        "a variable is declared by `var`, with its type: `var i : int = 0;`",
    ),
    ("var ?", "=", "a variable has a type: `var i : int = 0;`"),
    (
        "const ?",
        "=",
        "a constant has a type: `const start : int = 0;`",
    ),
    (
        "then",
        "",
        "there is no `then`: the statements follow the condition, up to `else` or `end`",
    ),
    (
        "do",
        "",
        "there is no `do`: the statements follow the condition, up to `end`",
    ),
    (
        ".",
        "size",
        "the number of members is `s.getVertexSetSize()`",
    ),
    (
        ".",
        "length",
        "the number of members is `s.getVertexSetSize()`",
    ),
    (
        "getVertexSetSize",
        "",
        "parentheses follow it: `s.getVertexSetSize()`",
    ),
    (
        "getVertices",
        "",
        "parentheses follow it: `edges.getVertices()`",
    ),
    (
        "getOutDegrees",
        "",
        "parentheses follow it: `edges.getOutDegrees()`",
    ),
    (
        "new vertexset { Vertex }",
        "",
        "a number of members follows it, the vertices from 0: `new vertexset{Vertex}(0)` is empty",
    ),
    (
        "in ? .",
        "",
        "a `for` goes over numbers, `for i in 0:n`; a function is applied to each vertex by `vertices.apply(f)`",
    ),
    (
        "atoi",
        "(",
        "a program has no arguments: declare a constant, `const start : int = 4;`",
    ),
    (
        "apply (",
        "",
        "`apply` takes the name of a function, and the function takes the vertices",
    ),
    (
        "applyModified (",
        "",
        "`applyModified` takes the names of a function and of a vector",
    ),
    (
        "filter (",
        "",
        "`filter` takes the name of a function with a bool as its result",
    ),
    (
        "from (",
        "",
        "`from` takes the name of a set or of a filter",
    ),
    ("to (", "", "`to` takes the name of a set or of a filter"),
    ("?", "+", "a number is added by `i += 1;`"),
    (
        "?",
        "(",
        "no function is called by its name: `apply` runs one, and a sum is made by an apply with `+=`",
    ),
];

/// The guess for a fault 211 at this place.
pub(crate) fn habit_at(spot: Spot<'_>) -> Option<&'static str> {
    'habits: for (before, here, guess) in HABITS.iter() {
        let fits = before.is_empty() || spot.follows(before.as_bytes());
        if fits && (here.is_empty() || spot.is(0, here.as_bytes())) {
            return Some(*guess);
        }
    }
    if names_keyword(spot) {
        return Some("this word is a keyword of the language: take another name");
    }
    if lacks_bound(spot) {
        return Some("a `for` has two bounds: `for i in 0:10` goes from 0 to 9");
    }
    None
}

// Whether a keyword is at the fault, where a name is declared.
fn names_keyword(spot: Spot<'_>) -> bool {
    let keyword = match spot.token(0) {
        Some(token) => match token.kind {
            TokenKind::Keyword(_) => true,
            _ => false,
        },
        None => false,
    };
    keyword
        && (spot.is(1, b"var") || spot.is(1, b"const") || spot.is(1, b"func") || spot.is(1, b"for"))
}

// Whether the fault is after `in`, the first bound of a `for`, and no colon.
fn lacks_bound(spot: Spot<'_>) -> bool {
    'tokens: for before in 1..16usize {
        if spot.is(before, b":") || spot.is(before, b";") {
            return false;
        }
        if spot.is(before, b"in") {
            return before > 1;
        }
    }
    false
}
