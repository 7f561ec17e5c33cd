//! The reader of expressions: one function for each level of the grammar.
ghost use Rattle.std.specs.Prelude.{◌≡◌, ◌≤◌, length, None, IfOk};
ghost use Rattle.parser.specs.inside.Readers.{terminals, Gives, Passes, AnswersBegins};
ghost use Rattle.syntax.specs.ExpressionViews.{primary_of, unary_of};
ghost use Rattle.syntax.specs.inside.ExpressionViews.{term_of, sum_of, comparison_of, conjunction_of};
ghost use Rattle.parser.specs.inside.Literals.{literal_at};
ghost use Rattle.syntax.specs.ExpressionReading.{no_expression, primary_at, name_begins, after_open_bracket, after_dot, after_size_call, truth_of as truth_of_terminal, unary_at, term_at, sum_at, comparison_at, conjunction_at, expression_at};
ghost use Rattle.syntax.specs.inside.ExpressionReading.{expression_in};

use crate::cursor::Cursor;
use crate::syntax_error::SyntaxError;
use lexer::{Keyword, Symbol, TokenKind};
use std::alloc::Global;
use syntax::{Comparison, Conjunction, Expression, Name, Primary, Sum, Term, Unary};

/// The expression at the front of the tokens, as long as it goes, and the place after it: the first
/// token there is no operator that continues with it, and no bracket or dot after a name.
///
/// `depth` is how many parentheses and brackets may be nested.
///
/// The error is `Unexpected` where the tokens begin with no such expression, at the first token after
/// which none could, at the length of the text where they end too early, or after the opening
/// parenthesis or bracket that is deeper than `depth`; and `NoMemory` if memory runs out. The time is
/// in proportion to the tokens read; each name is copied once.
pub(crate) fn read_expression(
    alloc: Global,
    cursor: Cursor<'_>,
    depth: u32,
) -> Result<(Expression, Cursor<'_>), SyntaxError>
    ensures begins { AnswersBegins depth (terminals cursor.entry) result }
    ensures reads { Gives (λ e. e) result (expression_at depth (terminals cursor.entry)) }
    ensures shorter { IfOk result (λ x. length (terminals x.1) ≤ length (terminals cursor.entry)) }
{
    expression(alloc, cursor, depth)
}

#[cycle(read)]
fn expression(
    alloc: Global,
    cursor: Cursor<'_>,
    depth: u32,
) -> Result<(Expression, Cursor<'_>), SyntaxError>
    ensures reads { Gives (λ e. e) result (expression_at depth (terminals cursor.entry)) }
    ensures shorter { IfOk result (λ x. length (terminals x.1) ≤ length (terminals cursor.entry)) }
{
    let (first, rest) = conjunction(alloc, cursor, depth)?;
    let mut more = Vec::new(alloc);
    let mut left = rest;
    'more: while let Some(after) = left.after_keyword(Keyword::Or) {
        let (operand, behind) = conjunction(alloc, after, depth)?;
        more.push(operand)?;
        left = behind;
    }
    Ok((Expression { first, more }, left))
}

#[cycle(read)]
fn conjunction(
    alloc: Global,
    cursor: Cursor<'_>,
    depth: u32,
) -> Result<(Conjunction, Cursor<'_>), SyntaxError>
    ensures reads { Gives conjunction_of result (conjunction_at depth (terminals cursor.entry)) }
    ensures shorter { IfOk result (λ x. length (terminals x.1) ≤ length (terminals cursor.entry)) }
{
    let (first, rest) = comparison(alloc, cursor, depth)?;
    let mut more = Vec::new(alloc);
    let mut left = rest;
    'more: while let Some(after) = left.after_keyword(Keyword::And) {
        let (operand, behind) = comparison(alloc, after, depth)?;
        more.push(operand)?;
        left = behind;
    }
    Ok((Conjunction { first, more }, left))
}

#[cycle(read)]
fn comparison(
    alloc: Global,
    cursor: Cursor<'_>,
    depth: u32,
) -> Result<(Comparison, Cursor<'_>), SyntaxError>
    ensures reads { Gives comparison_of result (comparison_at depth (terminals cursor.entry)) }
    ensures shorter { IfOk result (λ x. length (terminals x.1) ≤ length (terminals cursor.entry)) }
{
    let (left, rest) = sum(alloc, cursor, depth)?;
    match rest.relation() {
        None => Ok((Comparison { left, right: None }, rest)),
        Some((relation, after)) => {
            let (right, behind) = sum(alloc, after, depth)?;
            let right = Some((relation, Box::new(alloc, right)?));
            Ok((Comparison { left, right }, behind))
        }
    }
}

#[cycle(read)]
fn sum(alloc: Global, cursor: Cursor<'_>, depth: u32) -> Result<(Sum, Cursor<'_>), SyntaxError>
    ensures reads { Gives sum_of result (sum_at depth (terminals cursor.entry)) }
    ensures shorter { IfOk result (λ x. length (terminals x.1) ≤ length (terminals cursor.entry)) }
{
    let (first, rest) = term(alloc, cursor, depth)?;
    let mut more = Vec::new(alloc);
    let mut left = rest;
    'more: while let Some((operator, after)) = left.addition() {
        let (summand, behind) = term(alloc, after, depth)?;
        more.push((operator, summand))?;
        left = behind;
    }
    Ok((Sum { first, more }, left))
}

#[cycle(read)]
fn term(alloc: Global, cursor: Cursor<'_>, depth: u32) -> Result<(Term, Cursor<'_>), SyntaxError>
    ensures reads { Gives term_of result (term_at depth (terminals cursor.entry)) }
    ensures shorter { IfOk result (λ x. length (terminals x.1) ≤ length (terminals cursor.entry)) }
{
    let (first, rest) = unary(alloc, cursor, depth)?;
    let mut more = Vec::new(alloc);
    let mut left = rest;
    'more: while let Some((operator, after)) = left.multiplication() {
        let (operand, behind) = unary(alloc, after, depth)?;
        more.push((operator, operand))?;
        left = behind;
    }
    Ok((Term { first, more }, left))
}

#[cycle(read)]
fn unary(alloc: Global, cursor: Cursor<'_>, depth: u32) -> Result<(Unary, Cursor<'_>), SyntaxError>
    ensures reads { Gives unary_of result (unary_at depth (terminals cursor.entry)) }
    ensures shorter { IfOk result (λ x. length (terminals x.1) ≤ length (terminals cursor.entry)) }
{
    let mut signs = Vec::new(alloc);
    let mut left = cursor;
    'signs: while let Some((sign, after)) = left.prefix() {
        signs.push(sign)?;
        left = after;
    }
    let (primary, behind) = primary(alloc, left, depth)?;
    Ok((Unary { signs, primary }, behind))
}

#[cycle(read)]
fn primary(
    alloc: Global,
    cursor: Cursor<'_>,
    depth: u32,
) -> Result<(Primary, Cursor<'_>), SyntaxError>
    ensures reads { Gives primary_of result (primary_at depth (terminals cursor.entry)) }
    ensures shorter { IfOk result (λ x. length (terminals x.1) ≤ length (terminals cursor.entry)) }
{
    let Some((token, after)) = cursor.next() else {
        return Err(cursor.unexpected());
    };
    match token.kind {
        TokenKind::Name => {
            let name = Name::of(alloc, cursor.bytes(token.span), token.span.start)?;
            named(alloc, name, after, depth)
        }
        TokenKind::Symbol(symbol) => {
            if symbol != Symbol::OpenParenthesis {
                return Err(cursor.unexpected());
            }
            let (inside, rest) = inner(alloc, after, depth)?;
            let behind = rest.expect_symbol(Symbol::CloseParenthesis)?;
            Ok((Primary::Parentheses(Box::new(alloc, inside)?), behind))
        }
        _ => literal(cursor),
    }
}

/// The number or the truth value at the front, and the place after it.
fn literal(cursor: Cursor<'_>) -> Result<(Primary, Cursor<'_>), SyntaxError>
    ensures reads { Gives primary_of result (literal_at (terminals cursor.entry)) }
    ensures shorter { IfOk result (λ x. length (terminals x.1) ≤ length (terminals cursor.entry)) }
{
    let Some((token, after)) = cursor.next() else {
        return Err(cursor.unexpected());
    };
    match token.kind {
        TokenKind::Number(n) => Ok((Primary::Number(n), after)),
        TokenKind::Keyword(keyword) => match truth_of(keyword) {
            Some(truth) => Ok((Primary::Truth(truth), after)),
            None => Err(cursor.unexpected()),
        },
        _ => Err(cursor.unexpected()),
    }
}

/// The truth value that a keyword means.
fn truth_of(keyword: Keyword) -> Option<bool>
    ensures { result ≡ truth_of_terminal keyword }
{
    match keyword {
        Keyword::True => Some(true),
        Keyword::False => Some(false),
        _ => None,
    }
}

/// What begins with a name, from after the name.
#[cycle(read)]
fn named(
    alloc: Global,
    name: Name,
    rest: Cursor<'_>,
    depth: u32,
) -> Result<(Primary, Cursor<'_>), SyntaxError>
    ensures reads { Gives primary_of result
        (name_begins (expression_in depth) name (terminals rest.entry) (after_open_bracket (terminals rest.entry)) (after_dot (terminals rest.entry))) }
    ensures shorter { IfOk result (λ x. length (terminals x.1) ≤ length (terminals rest.entry)) }
{
    if let Some(after) = rest.after_symbol(Symbol::OpenBracket) {
        let (index, left) = inner(alloc, after, depth)?;
        let behind = left.expect_symbol(Symbol::CloseBracket)?;
        return Ok((Primary::Entry(name, Box::new(alloc, index)?), behind));
    }
    unindexed(name, rest)
}

/// What begins with a name after which no bracket is opened, from after the name.
fn unindexed(name: Name, rest: Cursor<'_>) -> Result<(Primary, Cursor<'_>), SyntaxError>
    ensures reads { Gives primary_of result (name_begins no_expression name (terminals rest.entry) None (after_dot (terminals rest.entry))) }
    ensures shorter { IfOk result (λ x. length (terminals x.1) ≤ length (terminals rest.entry)) }
{
    if let Some(after) = rest.after_symbol(Symbol::Dot) {
        let behind = size_call(after)?;
        return Ok((Primary::Size(name), behind));
    }
    Ok((Primary::Variable(name), rest))
}

/// The place after `getVertexSetSize()`.
fn size_call(cursor: Cursor<'_>) -> Result<Cursor<'_>, SyntaxError>
    ensures { Passes result (after_size_call (terminals cursor.entry)) }
{
    let open = cursor.expect_keyword(Keyword::GetVertexSetSize)?;
    let close = open.expect_symbol(Symbol::OpenParenthesis)?;
    close.expect_symbol(Symbol::CloseParenthesis)
}

/// An expression in parentheses or brackets, where one more may be opened.
#[cycle(read)]
fn inner(
    alloc: Global,
    cursor: Cursor<'_>,
    depth: u32,
) -> Result<(Expression, Cursor<'_>), SyntaxError>
    ensures reads { Gives (λ e. e) result (expression_in depth (terminals cursor.entry)) }
    ensures shorter { IfOk result (λ x. length (terminals x.1) ≤ length (terminals cursor.entry)) }
{
    match depth.checked_sub(1) {
        None => Err(cursor.unexpected()),
        Some(inside) => expression(alloc, cursor, inside),
    }
}
