//! Initial and assigned values.
ghost use Rattle.std.specs.Prelude.{◌≡◌, ◌≤◌, ℕ, List, [], ◌∷◌, length, IfOk};
ghost use Rattle.syntax.specs.Terminals.{Terminal, OfKeyword, keyword_terminal};
ghost use Rattle.parser.specs.inside.Readers.{terminals, Gives};
ghost use Rattle.syntax.specs.SourceReading.{in_parentheses, closed_by, end_at, ends_at, method_at, initial_at, initial_reader, assigned_at};
ghost use Rattle.syntax.specs.SourceViews.{initial_tree, ends_tree};
ghost use Rattle.parser.specs.inside.Fronts.{begins_call as begins_call_at, is_called, called_terminal, name_pair_at, modified_by, filter_at, call_by, new_set_at, load_at};

use crate::cursor::Cursor;
use crate::syntax_error::SyntaxError;
use lexer::{Keyword, Symbol, TokenKind};
use std::alloc::Global;
use syntax::{Ends, Initial, Name};

/// `vertexset{Vertex}(`
static OPEN_SET: [TokenKind; 5] = [
    TokenKind::Keyword(Keyword::VertexSet),
    TokenKind::Symbol(Symbol::OpenBrace),
    TokenKind::Keyword(Keyword::Vertex),
    TokenKind::Symbol(Symbol::CloseBrace),
    TokenKind::Symbol(Symbol::OpenParenthesis),
];

/// `(argv[`
static OPEN_ARGUMENT: [TokenKind; 3] = [
    TokenKind::Symbol(Symbol::OpenParenthesis),
    TokenKind::Keyword(Keyword::Argv),
    TokenKind::Symbol(Symbol::OpenBracket),
];

/// `])`
static CLOSE_ARGUMENT: [TokenKind; 2] = [
    TokenKind::Symbol(Symbol::CloseBracket),
    TokenKind::Symbol(Symbol::CloseParenthesis),
];

/// `.applyModified`
static APPLY_MODIFIED: [TokenKind; 2] = [
    TokenKind::Symbol(Symbol::Dot),
    TokenKind::Keyword(Keyword::ApplyModified),
];

/// `()`
static NO_ARGUMENTS: [TokenKind; 2] = [
    TokenKind::Symbol(Symbol::OpenParenthesis),
    TokenKind::Symbol(Symbol::CloseParenthesis),
];

/// `=`, the initial value and `;`, and the place after them.
pub(crate) fn assigned(
    alloc: Global,
    cursor: Cursor<'_>,
) -> Result<(Initial, Cursor<'_>), SyntaxError>
    ensures reads { Gives initial_tree result (assigned_at (terminals cursor.entry)) }
    ensures shorter { IfOk result (λ x. length (terminals x.1) ≤ length (terminals cursor.entry)) }
{
    let value = cursor.expect_symbol(Symbol::Assign)?;
    let (initial, semicolon) = initial(alloc, value)?;
    let behind = semicolon.expect_symbol(Symbol::Semicolon)?;
    Ok((initial, behind))
}

/// The ends of an apply, where they are given, and the place after them.
pub(crate) fn ends(alloc: Global, cursor: Cursor<'_>) -> Result<(Ends, Cursor<'_>), SyntaxError>
    ensures reads { Gives ends_tree result (ends_at (terminals cursor.entry)) }
    ensures shorter { IfOk result (λ x. length (terminals x.1) ≤ length (terminals cursor.entry)) }
{
    let (from, left) = end(alloc, cursor, Keyword::From)?;
    let (to, behind) = end(alloc, left, Keyword::To)?;
    Ok((Ends { from, to }, behind))
}

/// The end of an apply that begins with a dot and this keyword, where it is given.
fn end(
    alloc: Global,
    cursor: Cursor<'_>,
    keyword: Keyword,
) -> Result<(Option<Name>, Cursor<'_>), SyntaxError>
    requires { (at : ℕ) → keyword_terminal keyword at ≡ OfKeyword keyword }
    ensures reads { Gives (λ e. e) result (end_at (OfKeyword keyword) (terminals cursor.entry)) }
    ensures shorter { IfOk result (λ x. length (terminals x.1) ≤ length (terminals cursor.entry)) }
{
    match cursor.after_method(keyword) {
        None => Ok((None, cursor)),
        Some(open) => {
            let inside = open.expect_symbol(Symbol::OpenParenthesis)?;
            let (name, close) = inside.name(alloc)?;
            let behind = close.expect_symbol(Symbol::CloseParenthesis)?;
            Ok((Some(name), behind))
        }
    }
}

/// The initial value at the front, and the place after it.
fn initial(alloc: Global, cursor: Cursor<'_>) -> Result<(Initial, Cursor<'_>), SyntaxError>
    ensures reads { Gives initial_tree result (initial_at (terminals cursor.entry)) }
    ensures shorter { IfOk result (λ x. length (terminals x.1) ≤ length (terminals cursor.entry)) }
{
    if let Some(after) = cursor.after_keyword(Keyword::New) {
        return new_set(after);
    }
    if let Some(after) = cursor.after_keyword(Keyword::Load) {
        return load(after);
    }
    if begins_call(cursor) {
        let (name, rest) = cursor.name(alloc)?;
        return call(alloc, name, rest);
    }
    value(alloc, cursor)
}

/// An expression as an initial value.
fn value(alloc: Global, cursor: Cursor<'_>) -> Result<(Initial, Cursor<'_>), SyntaxError>
    ensures reads { Gives initial_tree result (initial_reader (terminals cursor.entry)) }
    ensures shorter { IfOk result (λ x. length (terminals x.1) ≤ length (terminals cursor.entry)) }
{
    let (value, behind) = cursor.expression(alloc)?;
    Ok((Initial::Value(value), behind))
}

/// What is after `new`.
fn new_set(cursor: Cursor<'_>) -> Result<(Initial, Cursor<'_>), SyntaxError>
    ensures reads { Gives initial_tree result (new_set_at (terminals cursor.entry)) }
    ensures shorter { IfOk result (λ x. length (terminals x.1) ≤ length (terminals cursor.entry)) }
{
    let inside = cursor.expect_all(&OPEN_SET)?;
    let (size, close) = inside.number()?;
    let behind = close.expect_symbol(Symbol::CloseParenthesis)?;
    Ok((Initial::NewSet(size), behind))
}

/// What is after `load`.
fn load(cursor: Cursor<'_>) -> Result<(Initial, Cursor<'_>), SyntaxError>
    ensures reads { Gives initial_tree result (load_at (terminals cursor.entry)) }
    ensures shorter { IfOk result (λ x. length (terminals x.1) ≤ length (terminals cursor.entry)) }
{
    let inside = cursor.expect_all(&OPEN_ARGUMENT)?;
    let (argument, close) = inside.number()?;
    let behind = close.expect_all(&CLOSE_ARGUMENT)?;
    Ok((Initial::Load(argument), behind))
}

/// Whether a name is at the front, and after it a dot and the method of an initial value that is no
/// expression.
fn begins_call(cursor: Cursor<'_>) -> bool
    ensures { result ≡ begins_call_at (terminals cursor.entry) }
{
    let Some((token, after)) = cursor.next() else {
        return false;
    };
    match token.kind {
        TokenKind::Name => has_method(after),
        _ => false,
    }
}

/// Whether a dot and the method of an initial value that is no expression are at the front.
fn has_method(cursor: Cursor<'_>) -> bool
    ensures { result ≡ is_called (method_at (terminals cursor.entry)) }
{
    let Some(after) = cursor.after_symbol(Symbol::Dot) else {
        return false;
    };
    let Some((token, _)) = after.next() else {
        return false;
    };
    match token.kind {
        TokenKind::Keyword(keyword) => is_method(keyword),
        _ => false,
    }
}

/// Whether a keyword is a method of an initial value that is no expression, or begins one of its ends.
fn is_method(keyword: Keyword) -> bool
    ensures { (at : ℕ) (rest : List Terminal) → result ≡ called_terminal (keyword_terminal keyword at ∷ rest) }
{
    matches!(
        keyword,
        Keyword::GetVertices
            | Keyword::GetOutDegrees
            | Keyword::Filter
            | Keyword::From
            | Keyword::To
            | Keyword::ApplyModified
    )
}

/// What is after the name with which an initial value begins that is no expression.
fn call(alloc: Global, name: Name, cursor: Cursor<'_>) -> Result<(Initial, Cursor<'_>), SyntaxError>
    ensures reads { Gives initial_tree result (call_by name (terminals cursor.entry) (method_at (terminals cursor.entry))) }
    ensures shorter { IfOk result (λ x. length (terminals x.1) ≤ length (terminals cursor.entry)) }
{
    if let Some(after) = cursor.after_method(Keyword::GetVertices) {
        return without_arguments(Initial::Vertices(name), after);
    }
    if let Some(after) = cursor.after_method(Keyword::GetOutDegrees) {
        return without_arguments(Initial::OutDegrees(name), after);
    }
    if let Some(after) = cursor.after_method(Keyword::Filter) {
        return filter(alloc, name, after);
    }
    modified(alloc, name, cursor)
}

/// A call that has no arguments, and the place after its `()`.
fn without_arguments(
    call: Initial,
    cursor: Cursor<'_>,
) -> Result<(Initial, Cursor<'_>), SyntaxError>
    ensures reads { Gives initial_tree result (closed_by (in_parentheses []) (initial_tree call, terminals cursor.entry)) }
    ensures shorter { IfOk result (λ x. length (terminals x.1) ≤ length (terminals cursor.entry)) }
{
    let behind = cursor.expect_all(&NO_ARGUMENTS)?;
    Ok((call, behind))
}

/// The test of a filter in parentheses.
fn filter(
    alloc: Global,
    set: Name,
    cursor: Cursor<'_>,
) -> Result<(Initial, Cursor<'_>), SyntaxError>
    ensures reads { Gives initial_tree result (filter_at set (terminals cursor.entry)) }
    ensures shorter { IfOk result (λ x. length (terminals x.1) ≤ length (terminals cursor.entry)) }
{
    let (test, behind) = cursor.argument(alloc)?;
    Ok((Initial::Filter { set, test }, behind))
}

/// The ends and `.applyModified(function, vector)` after a name.
fn modified(
    alloc: Global,
    edges: Name,
    cursor: Cursor<'_>,
) -> Result<(Initial, Cursor<'_>), SyntaxError>
    ensures reads { Gives initial_tree result (modified_by edges (terminals cursor.entry)) }
    ensures shorter { IfOk result (λ x. length (terminals x.1) ≤ length (terminals cursor.entry)) }
{
    let (ends, dot) = ends(alloc, cursor)?;
    let open = dot.expect_all(&APPLY_MODIFIED)?;
    let ((function, vector), behind) = name_pair(alloc, open)?;
    let initial = Initial::ApplyModified {
        edges,
        ends,
        function,
        vector,
    };
    Ok((initial, behind))
}

/// Two names in parentheses, and the place after them.
fn name_pair(alloc: Global, cursor: Cursor<'_>) -> Result<((Name, Name), Cursor<'_>), SyntaxError>
    ensures reads { Gives (λ p. p) result (name_pair_at (terminals cursor.entry)) }
    ensures shorter { IfOk result (λ x. length (terminals x.1) ≤ length (terminals cursor.entry)) }
{
    let inside = cursor.expect_symbol(Symbol::OpenParenthesis)?;
    let (first, comma) = inside.name(alloc)?;
    let rest = comma.expect_symbol(Symbol::Comma)?;
    let (second, close) = rest.name(alloc)?;
    let behind = close.expect_symbol(Symbol::CloseParenthesis)?;
    Ok(((first, second), behind))
}
