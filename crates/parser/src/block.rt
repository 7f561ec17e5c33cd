//! Blocks, and the statements that hold blocks.
ghost use Rattle.std.specs.Prelude.{◌≡◌, ◌<◌, ◌≤◌, length, IfOk};
ghost use Rattle.syntax.specs.Terminals.{OfKeyword};
ghost use Rattle.parser.specs.inside.Readers.{terminals, Gives};
ghost use Rattle.syntax.specs.SourceTrees.{While, For, If, IfElse};
ghost use Rattle.syntax.specs.SourceReading.{block_at, statement_by, begins_statement as begins_statement_at, after_terminal};
ghost use Rattle.syntax.specs.SourceViews.{statement_kind_tree, simple_action_tree, block_tree};
ghost use Rattle.syntax.specs.inside.SourceViews.{statement_of};
ghost use Rattle.parser.specs.inside.Blocks.{action_at, block_in, declared_at, printed_at, range_at, to_end_by, otherwise_by, statement_keyword_of, opened_by};
ghost use Rattle.parser.specs.inside.Views.{statements_tree};

use crate::cursor::Cursor;
use crate::initial::assigned;
use crate::statement::{ended, named};
use crate::syntax_error::SyntaxError;
use crate::types::typed;
use lexer::{Keyword, Symbol, TokenKind};
use std::alloc::Global;
use syntax::{Action, Expression, ForLoop, Name, SimpleAction, Statement};

/// What a statement begins with that begins with a keyword.
#[derive(Clone, Copy)]
pub(crate) enum StatementKeyword {
    Var,
    While,
    For,
    If,
    Print,
}

/// The statements at the front, as many as follow one another, and the place after them. `depth` is how
/// many blocks may be nested in these. No call goes deeper than `depth` blocks.
#[cycle(read)]
pub(crate) fn block(
    alloc: Global,
    cursor: Cursor<'_>,
    depth: u32,
) -> Result<(Vec<Statement>, Cursor<'_>), SyntaxError>
    ensures reads { Gives statements_tree result (block_at depth (terminals cursor.entry)) }
    ensures shorter { IfOk result (λ x. length (terminals x.1) ≤ length (terminals cursor.entry)) }
{
    let mut statements = Vec::new(alloc);
    let mut left = cursor;
    'statements: while begins_statement(left) {
        let (statement, behind) = statement(alloc, left, depth)?;
        statements.push(statement)?;
        left = behind;
    }
    Ok((statements, left))
}

/// Whether a statement begins at the front.
fn begins_statement(cursor: Cursor<'_>) -> bool
    ensures { result ≡ begins_statement_at (terminals cursor.entry) }
{
    let Some((token, _)) = cursor.next() else {
        return false;
    };
    match token.kind {
        TokenKind::Label | TokenKind::Name => true,
        TokenKind::Keyword(keyword) => begun_by(keyword).is_some(),
        _ => false,
    }
}

/// What begins with a keyword.
fn begun_by(keyword: Keyword) -> Option<StatementKeyword>
    ensures { result ≡ statement_keyword_of keyword }
{
    match keyword {
        Keyword::Var => Some(StatementKeyword::Var),
        Keyword::While => Some(StatementKeyword::While),
        Keyword::For => Some(StatementKeyword::For),
        Keyword::If => Some(StatementKeyword::If),
        Keyword::Print => Some(StatementKeyword::Print),
        _ => None,
    }
}

/// A statement with its label, where it has one.
#[cycle(read)]
fn statement(
    alloc: Global,
    cursor: Cursor<'_>,
    depth: u32,
) -> Result<(Statement, Cursor<'_>), SyntaxError>
    ensures reads { Gives statement_of result (statement_by (action_at depth) (terminals cursor.entry)) }
    ensures shorter { IfOk result (λ x. length (terminals x.1) < length (terminals cursor.entry)) }
{
    let (label, rest) = cursor.label(alloc)?;
    let (action, behind) = action(alloc, rest, depth)?;
    Ok((Statement { label, action }, behind))
}

/// What a statement does.
#[cycle(read)]
fn action(
    alloc: Global,
    cursor: Cursor<'_>,
    depth: u32,
) -> Result<(Action, Cursor<'_>), SyntaxError>
    ensures reads { Gives statement_kind_tree result (action_at depth (terminals cursor.entry)) }
    ensures shorter { IfOk result (λ x. length (terminals x.1) < length (terminals cursor.entry)) }
{
    let Some((token, after)) = cursor.next() else {
        return Err(cursor.unexpected());
    };
    let at = token.span.start;
    match token.kind {
        TokenKind::Name => {
            let name = Name::of(alloc, cursor.bytes(token.span), at)?;
            let (action, behind) = named(alloc, name, after)?;
            Ok((Action::Simple(action), behind))
        }
        TokenKind::Keyword(keyword) => match begun_by(keyword) {
            Some(statement_keyword) => opened(alloc, statement_keyword, at, after, depth),
            None => Err(cursor.unexpected()),
        },
        _ => Err(cursor.unexpected()),
    }
}

/// What is after the keyword at this offset with which a statement begins.
#[cycle(read)]
fn opened(
    alloc: Global,
    statement_keyword: StatementKeyword,
    at: usize,
    cursor: Cursor<'_>,
    depth: u32,
) -> Result<(Action, Cursor<'_>), SyntaxError>
    ensures reads { Gives statement_kind_tree result (opened_by (block_in depth) statement_keyword at (terminals cursor.entry)) }
    ensures shorter { IfOk result (λ x. length (terminals x.1) ≤ length (terminals cursor.entry)) }
{
    match statement_keyword {
        StatementKeyword::Var => {
            let (action, behind) = declared(alloc, at, cursor)?;
            Ok((Action::Simple(action), behind))
        }
        StatementKeyword::While => while_loop(alloc, at, cursor, depth),
        StatementKeyword::For => for_loop(alloc, at, cursor, depth),
        StatementKeyword::If => choice(alloc, at, cursor, depth),
        StatementKeyword::Print => {
            let (action, behind) = printed(alloc, at, cursor)?;
            Ok((Action::Simple(action), behind))
        }
    }
}

/// What is after `var`.
fn declared(
    alloc: Global,
    at: usize,
    cursor: Cursor<'_>,
) -> Result<(SimpleAction, Cursor<'_>), SyntaxError>
    ensures reads { Gives simple_action_tree result (declared_at at (terminals cursor.entry)) }
    ensures shorter { IfOk result (λ x. length (terminals x.1) ≤ length (terminals cursor.entry)) }
{
    let (variable, assign) = typed(alloc, cursor)?;
    let (initial, behind) = assigned(alloc, assign)?;
    let action = SimpleAction::Declare {
        at,
        variable,
        initial,
    };
    Ok((action, behind))
}

/// What is after `print`.
fn printed(
    alloc: Global,
    at: usize,
    cursor: Cursor<'_>,
) -> Result<(SimpleAction, Cursor<'_>), SyntaxError>
    ensures reads { Gives simple_action_tree result (printed_at at (terminals cursor.entry)) }
    ensures shorter { IfOk result (λ x. length (terminals x.1) ≤ length (terminals cursor.entry)) }
{
    let (value, behind) = ended(alloc, cursor)?;
    Ok((SimpleAction::Print { at, value }, behind))
}

/// What is after `while`.
#[cycle(read)]
fn while_loop(
    alloc: Global,
    at: usize,
    cursor: Cursor<'_>,
    depth: u32,
) -> Result<(Action, Cursor<'_>), SyntaxError>
    ensures reads { Gives statement_kind_tree result (opened_by (block_in depth) StatementKeyword.While at (terminals cursor.entry)) }
    ensures shorter { IfOk result (λ x. length (terminals x.1) ≤ length (terminals cursor.entry)) }
{
    let (test, rest) = cursor.expression(alloc)?;
    let (body, behind) = to_end(alloc, rest, depth)?;
    Ok((while_action(at, test, body), behind))
}

fn while_action(at: usize, test: Expression, body: Vec<Statement>) -> Action
    ensures { statement_kind_tree result ≡ While at test (block_tree body.items) }
{
    Action::While { at, test, body }
}

/// What is after `for`.
#[cycle(read)]
fn for_loop(
    alloc: Global,
    at: usize,
    cursor: Cursor<'_>,
    depth: u32,
) -> Result<(Action, Cursor<'_>), SyntaxError>
    ensures reads { Gives statement_kind_tree result (opened_by (block_in depth) StatementKeyword.For at (terminals cursor.entry)) }
    ensures shorter { IfOk result (λ x. length (terminals x.1) ≤ length (terminals cursor.entry)) }
{
    let ((name, first, limit), rest) = range(alloc, cursor)?;
    let (body, behind) = to_end(alloc, rest, depth)?;
    Ok((for_action(at, name, first, limit, body), behind))
}

/// The variable of a `for` and the two ends of what it runs over, and the place after them.
fn range(
    alloc: Global,
    cursor: Cursor<'_>,
) -> Result<((Name, Expression, Expression), Cursor<'_>), SyntaxError>
    ensures reads { Gives (λ r. r) result (range_at (terminals cursor.entry)) }
    ensures shorter { IfOk result (λ x. length (terminals x.1) ≤ length (terminals cursor.entry)) }
{
    let (name, within) = cursor.name(alloc)?;
    let bound = within.expect_keyword(Keyword::In)?;
    let (first, colon) = bound.expression(alloc)?;
    let bound = colon.expect_symbol(Symbol::Colon)?;
    let (limit, behind) = bound.expression(alloc)?;
    Ok(((name, first, limit), behind))
}

fn for_action(
    at: usize,
    name: Name,
    first: Expression,
    limit: Expression,
    body: Vec<Statement>,
) -> Action
    ensures { statement_kind_tree result ≡ For at name first limit (block_tree body.items) }
{
    Action::For(ForLoop {
        at,
        name,
        first,
        limit,
        body,
    })
}

/// What is after `if`.
#[cycle(read)]
fn choice(
    alloc: Global,
    at: usize,
    cursor: Cursor<'_>,
    depth: u32,
) -> Result<(Action, Cursor<'_>), SyntaxError>
    ensures reads { Gives statement_kind_tree result (opened_by (block_in depth) StatementKeyword.If at (terminals cursor.entry)) }
    ensures shorter { IfOk result (λ x. length (terminals x.1) ≤ length (terminals cursor.entry)) }
{
    let (test, rest) = cursor.expression(alloc)?;
    let (body, left) = inner(alloc, rest, depth)?;
    otherwise(alloc, at, test, body, left, depth)
}

/// What is after the body of an `if`.
#[cycle(read)]
fn otherwise(
    alloc: Global,
    at: usize,
    test: Expression,
    body: Vec<Statement>,
    cursor: Cursor<'_>,
    depth: u32,
) -> Result<(Action, Cursor<'_>), SyntaxError>
    ensures reads { Gives statement_kind_tree result
        (otherwise_by (block_in depth) at test (block_tree body.items, terminals cursor.entry)
        (after_terminal (OfKeyword Keyword.Else) (terminals cursor.entry))) }
    ensures shorter { IfOk result (λ x. length (terminals x.1) ≤ length (terminals cursor.entry)) }
{
    match cursor.after_keyword(Keyword::Else) {
        None => {
            let behind = cursor.expect_keyword(Keyword::End)?;
            Ok((if_action(at, test, body), behind))
        }
        Some(after) => {
            let (otherwise, behind) = to_end(alloc, after, depth)?;
            Ok((if_else_action(at, test, body, otherwise), behind))
        }
    }
}

fn if_action(at: usize, test: Expression, body: Vec<Statement>) -> Action
    ensures { statement_kind_tree result ≡ If at test (block_tree body.items) }
{
    Action::If { at, test, body }
}

fn if_else_action(
    at: usize,
    test: Expression,
    body: Vec<Statement>,
    otherwise: Vec<Statement>,
) -> Action
    ensures { statement_kind_tree result ≡ IfElse at test (block_tree body.items) (block_tree otherwise.items) }
{
    Action::IfElse {
        at,
        test,
        body,
        otherwise,
    }
}

/// A block in a statement and `end`, and the place after them.
#[cycle(read)]
fn to_end(
    alloc: Global,
    cursor: Cursor<'_>,
    depth: u32,
) -> Result<(Vec<Statement>, Cursor<'_>), SyntaxError>
    ensures reads { Gives statements_tree result (to_end_by (block_in depth) (terminals cursor.entry)) }
    ensures shorter { IfOk result (λ x. length (terminals x.1) ≤ length (terminals cursor.entry)) }
{
    let (body, end) = inner(alloc, cursor, depth)?;
    let behind = end.expect_keyword(Keyword::End)?;
    Ok((body, behind))
}

/// A block in a statement, where one more may be in the others.
#[cycle(read)]
fn inner(
    alloc: Global,
    cursor: Cursor<'_>,
    depth: u32,
) -> Result<(Vec<Statement>, Cursor<'_>), SyntaxError>
    ensures reads { Gives statements_tree result (block_in depth (terminals cursor.entry)) }
    ensures shorter { IfOk result (λ x. length (terminals x.1) ≤ length (terminals cursor.entry)) }
{
    match depth.checked_sub(1) {
        None => Err(cursor.unexpected()),
        Some(inside) => block(alloc, cursor, inside),
    }
}
