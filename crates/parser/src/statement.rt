//! Statements that begin with a name.
ghost use Rattle.std.specs.Prelude.{◌≤◌, [], ◌∷◌, length, IfOk, None, Some};
ghost use Rattle.syntax.specs.Terminals.{OfKeyword, OfSymbol};
ghost use Rattle.parser.specs.inside.Readers.{terminals, Gives};
ghost use Rattle.parser.specs.inside.Fronts.{applied_by, applied_function_at};
ghost use Rattle.syntax.specs.SourceReading.{reduction_at, ended_at, read_entry_at, entry_by, after_terminal, after_terminals, method_by, added_at, read_reduction_at, named_action};
ghost use Rattle.syntax.specs.SourceViews.{simple_action_tree};

use crate::cursor::Cursor;
use crate::initial::{assigned, ends};
use crate::syntax_error::SyntaxError;
use apply_options::Reduction;
use lexer::{Keyword, Symbol, TokenKind};
use std::alloc::Global;
use syntax::{Expression, Name, SimpleAction};

/// `.apply`
static APPLY: [TokenKind; 2] = [
    TokenKind::Symbol(Symbol::Dot),
    TokenKind::Keyword(Keyword::Apply),
];

/// `);`
static CLOSE_CALL: [TokenKind; 2] = [
    TokenKind::Symbol(Symbol::CloseParenthesis),
    TokenKind::Symbol(Symbol::Semicolon),
];

/// An expression and `;`, and the place after them.
pub(crate) fn ended(
    alloc: Global,
    cursor: Cursor<'_>,
) -> Result<(Expression, Cursor<'_>), SyntaxError>
    ensures reads { Gives (λ e. e) result (ended_at (terminals cursor.entry)) }
    ensures shorter { IfOk result (λ x. length (terminals x.1) ≤ length (terminals cursor.entry)) }
{
    let (value, semicolon) = cursor.expression(alloc)?;
    let behind = semicolon.expect_symbol(Symbol::Semicolon)?;
    Ok((value, behind))
}

/// The reduction at the front, and the place after it.
fn reduction(cursor: Cursor<'_>) -> Result<(Reduction, Cursor<'_>), SyntaxError>
    ensures reads { Gives (λ r. r) result (reduction_at (terminals cursor.entry)) }
    ensures shorter { IfOk result (λ x. length (terminals x.1) ≤ length (terminals cursor.entry)) }
{
    let Some((token, after)) = cursor.next() else {
        return Err(cursor.unexpected());
    };
    match token.kind {
        TokenKind::Symbol(Symbol::MinAssign) => Ok((Reduction::Min, after)),
        TokenKind::Symbol(Symbol::MaxAssign) => Ok((Reduction::Max, after)),
        TokenKind::Symbol(Symbol::PlusAssign) => Ok((Reduction::Plus, after)),
        _ => Err(cursor.unexpected()),
    }
}

/// What a statement does that begins with a name, from after the name.
pub(crate) fn named(
    alloc: Global,
    name: Name,
    cursor: Cursor<'_>,
) -> Result<(SimpleAction, Cursor<'_>), SyntaxError>
    ensures reads { Gives simple_action_tree result (named_action name (terminals cursor.entry)) }
    ensures shorter { IfOk result (λ x. length (terminals x.1) ≤ length (terminals cursor.entry)) }
{
    if let Some(_) = cursor.after_symbol(Symbol::Assign) {
        let (value, behind) = assigned(alloc, cursor)?;
        return Ok((SimpleAction::Assign { name, value }, behind));
    }
    if let Some(index) = cursor.after_symbol(Symbol::OpenBracket) {
        return entry(alloc, name, index);
    }
    if let Some(_) = cursor.after_symbol(Symbol::Dot) {
        return method(alloc, name, cursor);
    }
    reduced(alloc, name, cursor)
}

/// A reduction of a name and its value, from after the name.
fn reduced(
    alloc: Global,
    name: Name,
    cursor: Cursor<'_>,
) -> Result<(SimpleAction, Cursor<'_>), SyntaxError>
    ensures reads { Gives simple_action_tree result (read_reduction_at name (terminals cursor.entry)) }
    ensures shorter { IfOk result (λ x. length (terminals x.1) ≤ length (terminals cursor.entry)) }
{
    let (reduction, rest) = reduction(cursor)?;
    let (value, behind) = ended(alloc, rest)?;
    let action = SimpleAction::Reduce {
        name,
        reduction,
        value,
    };
    Ok((action, behind))
}

/// An assignment to an entry of a vector or its reduction, from after the bracket.
fn entry(
    alloc: Global,
    vector: Name,
    cursor: Cursor<'_>,
) -> Result<(SimpleAction, Cursor<'_>), SyntaxError>
    ensures reads { Gives simple_action_tree result (read_entry_at vector (terminals cursor.entry)) }
    ensures shorter { IfOk result (λ x. length (terminals x.1) ≤ length (terminals cursor.entry)) }
{
    let (index, close) = cursor.expression(alloc)?;
    let rest = close.expect_symbol(Symbol::CloseBracket)?;
    entry_value(alloc, vector, index, rest)
}

/// What is after the index of an entry.
fn entry_value(
    alloc: Global,
    vector: Name,
    index: Expression,
    cursor: Cursor<'_>,
) -> Result<(SimpleAction, Cursor<'_>), SyntaxError>
    ensures reads { Gives simple_action_tree result
        (entry_by vector index (terminals cursor.entry) (after_terminal (OfSymbol Symbol.Assign) (terminals cursor.entry))) }
    ensures shorter { IfOk result (λ x. length (terminals x.1) ≤ length (terminals cursor.entry)) }
{
    match cursor.after_symbol(Symbol::Assign) {
        Some(after) => entry_assigned(alloc, vector, index, after),
        None => entry_reduced(alloc, vector, index, cursor),
    }
}

/// The value that is assigned to an entry, from after `=`.
fn entry_assigned(
    alloc: Global,
    vector: Name,
    index: Expression,
    cursor: Cursor<'_>,
) -> Result<(SimpleAction, Cursor<'_>), SyntaxError>
    ensures reads { Gives simple_action_tree result (entry_by vector index (terminals cursor.entry) (Some (terminals cursor.entry))) }
    ensures shorter { IfOk result (λ x. length (terminals x.1) ≤ length (terminals cursor.entry)) }
{
    let (value, behind) = ended(alloc, cursor)?;
    let action = SimpleAction::SetEntry {
        vector,
        index,
        value,
    };
    Ok((action, behind))
}

/// The reduction of an entry and its value, from after the index.
fn entry_reduced(
    alloc: Global,
    vector: Name,
    index: Expression,
    cursor: Cursor<'_>,
) -> Result<(SimpleAction, Cursor<'_>), SyntaxError>
    ensures reads { Gives simple_action_tree result (entry_by vector index (terminals cursor.entry) None) }
    ensures shorter { IfOk result (λ x. length (terminals x.1) ≤ length (terminals cursor.entry)) }
{
    let (reduction, rest) = reduction(cursor)?;
    let (value, behind) = ended(alloc, rest)?;
    let action = SimpleAction::ReduceEntry {
        vector,
        index,
        reduction,
        value,
    };
    Ok((action, behind))
}

/// A method that is called on a name, from after the name.
fn method(
    alloc: Global,
    name: Name,
    cursor: Cursor<'_>,
) -> Result<(SimpleAction, Cursor<'_>), SyntaxError>
    ensures reads { Gives simple_action_tree result
        (method_by name (terminals cursor.entry) (after_terminals (OfSymbol Symbol.Dot ∷ OfKeyword Keyword.AddVertex ∷ []) (terminals cursor.entry))) }
    ensures shorter { IfOk result (λ x. length (terminals x.1) ≤ length (terminals cursor.entry)) }
{
    match cursor.after_method(Keyword::AddVertex) {
        Some(after) => added(alloc, name, after),
        None => applied(alloc, name, cursor),
    }
}

/// The vertex that is added to a set, and what stands around it, from after `addVertex`.
fn added(
    alloc: Global,
    set: Name,
    cursor: Cursor<'_>,
) -> Result<(SimpleAction, Cursor<'_>), SyntaxError>
    ensures reads { Gives simple_action_tree result (added_at set (terminals cursor.entry)) }
    ensures shorter { IfOk result (λ x. length (terminals x.1) ≤ length (terminals cursor.entry)) }
{
    let inside = cursor.expect_symbol(Symbol::OpenParenthesis)?;
    let (vertex, close) = inside.expression(alloc)?;
    let behind = close.expect_all(&CLOSE_CALL)?;
    Ok((SimpleAction::AddVertex { set, vertex }, behind))
}

/// The ends and the function of an apply, from after what it is called on.
fn applied(
    alloc: Global,
    target: Name,
    cursor: Cursor<'_>,
) -> Result<(SimpleAction, Cursor<'_>), SyntaxError>
    ensures reads { Gives simple_action_tree result (applied_by target (terminals cursor.entry)) }
    ensures shorter { IfOk result (λ x. length (terminals x.1) ≤ length (terminals cursor.entry)) }
{
    let (ends, dot) = ends(alloc, cursor)?;
    let (function, behind) = applied_function(alloc, dot)?;
    let action = SimpleAction::Apply {
        target,
        ends,
        function,
    };
    Ok((action, behind))
}

/// The function of an apply, from after its ends.
fn applied_function(alloc: Global, cursor: Cursor<'_>) -> Result<(Name, Cursor<'_>), SyntaxError>
    ensures reads { Gives (λ n. n) result (applied_function_at (terminals cursor.entry)) }
    ensures shorter { IfOk result (λ x. length (terminals x.1) ≤ length (terminals cursor.entry)) }
{
    let open = cursor.expect_all(&APPLY)?;
    let (function, semicolon) = open.argument(alloc)?;
    let behind = semicolon.expect_symbol(Symbol::Semicolon)?;
    Ok((function, behind))
}
