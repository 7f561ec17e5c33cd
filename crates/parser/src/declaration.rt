//! Declarations.
ghost use Rattle.std.specs.Prelude.{◌≡◌, ◌<◌, ◌≤◌, length, option_map, IfOk};
ghost use Rattle.syntax.specs.Terminals.{OfSymbol};
ghost use Rattle.parser.specs.inside.Readers.{terminals, Gives};
ghost use Rattle.syntax.specs.SourceReading.{after_terminal, each_at, parameters_at, result_by, begins_declaration as begins_declaration_at, next_declaration, declaration_by, block as block_at_limit};
ghost use Rattle.syntax.specs.SourceViews.{parameter_tree, declaration_tree};
ghost use Rattle.parser.specs.inside.Declarations.{beginning_of, declared_by, constant_at, signature_at, function_at, parameters_from};
ghost use Rattle.parser.specs.inside.Views.{each, signature_tree, statements_tree};

use crate::block::block;
use crate::cursor::Cursor;
use crate::initial::assigned;
use crate::syntax_error::SyntaxError;
use crate::types::typed;
use lexer::{Keyword, Symbol, TokenKind};
use std::alloc::Global;
use syntax::{Declaration, NESTING_LIMIT, Name, Parameter, Statement};

/// What begins with a keyword.
#[derive(Clone, Copy)]
pub(crate) enum Beginning {
    Constant,
    Function,
}

/// The declarations at the front, as many as follow one another, and the place after them.
pub(crate) fn declarations(
    alloc: Global,
    cursor: Cursor<'_>,
) -> Result<(Vec<Declaration>, Cursor<'_>), SyntaxError>
    ensures { Gives (each declaration_tree) result (each_at next_declaration (terminals cursor.entry)) }
{
    let mut declarations = Vec::new(alloc);
    let mut left = cursor;
    'declarations: while begins_declaration(left) {
        let (declaration, behind) = declaration(alloc, left)?;
        declarations.push(declaration)?;
        left = behind;
    }
    Ok((declarations, left))
}

/// Whether a declaration begins at the front.
fn begins_declaration(cursor: Cursor<'_>) -> bool
    ensures { result ≡ begins_declaration_at (terminals cursor.entry) }
{
    let Some((token, _)) = cursor.next() else {
        return false;
    };
    match token.kind {
        TokenKind::Keyword(keyword) => begun_by(keyword).is_some(),
        _ => false,
    }
}

/// What begins with a keyword.
fn begun_by(keyword: Keyword) -> Option<Beginning>
    ensures { result ≡ beginning_of keyword }
{
    match keyword {
        Keyword::Const => Some(Beginning::Constant),
        Keyword::Func => Some(Beginning::Function),
        _ => None,
    }
}

/// A declaration.
fn declaration(alloc: Global, cursor: Cursor<'_>) -> Result<(Declaration, Cursor<'_>), SyntaxError>
    ensures reads { Gives declaration_tree result (declaration_by (terminals cursor.entry)) }
    ensures shorter { IfOk result (λ x. length (terminals x.1) < length (terminals cursor.entry)) }
{
    let Some((token, after)) = cursor.next() else {
        return Err(cursor.unexpected());
    };
    let TokenKind::Keyword(keyword) = token.kind else {
        return Err(cursor.unexpected());
    };
    match begun_by(keyword) {
        None => Err(cursor.unexpected()),
        Some(beginning) => begun(alloc, beginning, token.span.start, after),
    }
}

/// What is after the keyword at this offset with which a declaration begins.
fn begun(
    alloc: Global,
    beginning: Beginning,
    at: usize,
    cursor: Cursor<'_>,
) -> Result<(Declaration, Cursor<'_>), SyntaxError>
    ensures reads { Gives declaration_tree result (declared_by beginning at (terminals cursor.entry)) }
    ensures shorter { IfOk result (λ x. length (terminals x.1) ≤ length (terminals cursor.entry)) }
{
    match beginning {
        Beginning::Constant => constant(alloc, at, cursor),
        Beginning::Function => function(alloc, at, cursor),
    }
}

/// What is after `const`.
fn constant(
    alloc: Global,
    at: usize,
    cursor: Cursor<'_>,
) -> Result<(Declaration, Cursor<'_>), SyntaxError>
    ensures reads { Gives declaration_tree result (constant_at at (terminals cursor.entry)) }
    ensures shorter { IfOk result (λ x. length (terminals x.1) ≤ length (terminals cursor.entry)) }
{
    let (constant, assign) = typed(alloc, cursor)?;
    let (initial, behind) = assigned(alloc, assign)?;
    let declaration = Declaration::Constant {
        at,
        constant,
        initial,
    };
    Ok((declaration, behind))
}

/// What is after `func`.
fn function(
    alloc: Global,
    at: usize,
    cursor: Cursor<'_>,
) -> Result<(Declaration, Cursor<'_>), SyntaxError>
    ensures reads { Gives declaration_tree result (function_at at (terminals cursor.entry)) }
    ensures shorter { IfOk result (λ x. length (terminals x.1) ≤ length (terminals cursor.entry)) }
{
    let ((name, parameters, result), rest) = signature(alloc, cursor)?;
    let (body, end) = body(alloc, rest)?;
    let behind = end.expect_keyword(Keyword::End)?;
    let declaration = Declaration::Function {
        at,
        name,
        parameters,
        result,
        body,
    };
    Ok((declaration, behind))
}

/// The name of a function, its parameters and its result, and the place after them.
fn signature(
    alloc: Global,
    cursor: Cursor<'_>,
) -> Result<((Name, Vec<Parameter>, Option<Parameter>), Cursor<'_>), SyntaxError>
    ensures reads { Gives signature_tree result (signature_at (terminals cursor.entry)) }
    ensures shorter { IfOk result (λ x. length (terminals x.1) ≤ length (terminals cursor.entry)) }
{
    let (name, open) = cursor.name(alloc)?;
    let (parameters, arrow) = parameters(alloc, open)?;
    let (result, behind) = result(alloc, arrow)?;
    Ok(((name, parameters, result), behind))
}

/// The statements of a function. Within them no more is nested than may be open at once.
fn body(alloc: Global, cursor: Cursor<'_>) -> Result<(Vec<Statement>, Cursor<'_>), SyntaxError>
    ensures reads { Gives statements_tree result (block_at_limit (terminals cursor.entry)) }
    ensures shorter { IfOk result (λ x. length (terminals x.1) ≤ length (terminals cursor.entry)) }
{
    block(alloc, cursor, NESTING_LIMIT)
}

/// The result of a function, where it has one.
fn result(alloc: Global, cursor: Cursor<'_>) -> Result<(Option<Parameter>, Cursor<'_>), SyntaxError>
    ensures reads { Gives (option_map parameter_tree) result
        (result_by (terminals cursor.entry) (after_terminal (OfSymbol Symbol.Arrow) (terminals cursor.entry))) }
    ensures shorter { IfOk result (λ x. length (terminals x.1) ≤ length (terminals cursor.entry)) }
{
    match cursor.after_symbol(Symbol::Arrow) {
        None => Ok((None, cursor)),
        Some(after) => {
            let (parameter, behind) = typed(alloc, after)?;
            Ok((Some(parameter), behind))
        }
    }
}

/// The parameters of a function in parentheses.
fn parameters(
    alloc: Global,
    cursor: Cursor<'_>,
) -> Result<(Vec<Parameter>, Cursor<'_>), SyntaxError>
    ensures reads { Gives (each parameter_tree) result (parameters_at (terminals cursor.entry)) }
    ensures shorter { IfOk result (λ x. length (terminals x.1) ≤ length (terminals cursor.entry)) }
{
    let open = cursor.expect_symbol(Symbol::OpenParenthesis)?;
    if let Some(after) = open.after_symbol(Symbol::CloseParenthesis) {
        return Ok((Vec::new(alloc), after));
    }
    let (first, rest) = typed(alloc, open)?;
    let (parameters, close) = more_parameters(alloc, first, rest)?;
    let behind = close.expect_symbol(Symbol::CloseParenthesis)?;
    Ok((parameters, behind))
}

/// A parameter and those after it, each after a comma.
fn more_parameters(
    alloc: Global,
    first: Parameter,
    cursor: Cursor<'_>,
) -> Result<(Vec<Parameter>, Cursor<'_>), SyntaxError>
    ensures reads { Gives (each parameter_tree) result (parameters_from (parameter_tree first) (terminals cursor.entry)) }
    ensures shorter { IfOk result (λ x. length (terminals x.1) ≤ length (terminals cursor.entry)) }
{
    let mut parameters = Vec::new(alloc);
    parameters.push(first)?;
    let mut left = cursor;
    'parameters: while let Some(after) = left.after_symbol(Symbol::Comma) {
        let (parameter, behind) = typed(alloc, after)?;
        parameters.push(parameter)?;
        left = behind;
    }
    Ok((parameters, left))
}
