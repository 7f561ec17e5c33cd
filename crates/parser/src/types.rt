//! Types, and names with their types.
ghost use Rattle.std.specs.Prelude.{◌≡◌, ◌<◌, ◌≤◌, ℕ, length, IfOk};
ghost use Rattle.parser.specs.inside.Readers.{terminals, Gives};
ghost use Rattle.syntax.specs.SourceReading.{edgeset_at, type_at, typed_at};
ghost use Rattle.syntax.specs.SourceViews.{parameter_tree};
ghost use Rattle.parser.specs.inside.Fronts.{begun_type, type_after};

use crate::cursor::Cursor;
use crate::syntax_error::SyntaxError;
use lexer::{Keyword, Symbol, TokenKind};
use std::alloc::Global;
use syntax::{DeclaredType, Parameter};

/// `{Vertex}`
static OF_VERTICES: [TokenKind; 3] = [
    TokenKind::Symbol(Symbol::OpenBrace),
    TokenKind::Keyword(Keyword::Vertex),
    TokenKind::Symbol(Symbol::CloseBrace),
];

/// `{Vertex}(int)`
static OF_VERTICES_AND_NUMBERS: [TokenKind; 6] = [
    TokenKind::Symbol(Symbol::OpenBrace),
    TokenKind::Keyword(Keyword::Vertex),
    TokenKind::Symbol(Symbol::CloseBrace),
    TokenKind::Symbol(Symbol::OpenParenthesis),
    TokenKind::Keyword(Keyword::Int),
    TokenKind::Symbol(Symbol::CloseParenthesis),
];

/// `{Edge}(Vertex, Vertex`
static OF_EDGES_AND_VERTICES: [TokenKind; 7] = [
    TokenKind::Symbol(Symbol::OpenBrace),
    TokenKind::Keyword(Keyword::Edge),
    TokenKind::Symbol(Symbol::CloseBrace),
    TokenKind::Symbol(Symbol::OpenParenthesis),
    TokenKind::Keyword(Keyword::Vertex),
    TokenKind::Symbol(Symbol::Comma),
    TokenKind::Keyword(Keyword::Vertex),
];

/// `int)`
static OF_WEIGHTS: [TokenKind; 2] = [
    TokenKind::Keyword(Keyword::Int),
    TokenKind::Symbol(Symbol::CloseParenthesis),
];

/// The name and its type at the front, and the place after them.
pub(crate) fn typed(
    alloc: Global,
    cursor: Cursor<'_>,
) -> Result<(Parameter, Cursor<'_>), SyntaxError>
    ensures reads { Gives parameter_tree result (typed_at (terminals cursor.entry)) }
    ensures shorter { IfOk result (λ x. length (terminals x.1) ≤ length (terminals cursor.entry)) }
{
    let (name, colon) = cursor.name(alloc)?;
    let rest = colon.expect_symbol(Symbol::Colon)?;
    let (declared, behind) = declared_type(rest)?;
    Ok((Parameter { name, declared }, behind))
}

/// The type at the front, and the place after it.
fn declared_type(cursor: Cursor<'_>) -> Result<(DeclaredType, Cursor<'_>), SyntaxError>
    ensures reads { Gives (λ t. t) result (type_at (terminals cursor.entry)) }
    ensures shorter { IfOk result (λ x. length (terminals x.1) ≤ length (terminals cursor.entry)) }
{
    let Some((token, after)) = cursor.next() else {
        return Err(cursor.unexpected());
    };
    let TokenKind::Keyword(keyword) = token.kind else {
        return Err(cursor.unexpected());
    };
    let Some(declared) = type_begun_by(keyword) else {
        return Err(cursor.unexpected());
    };
    rest_of_type(declared, after)
}

/// The type that begins with a keyword.
fn type_begun_by(keyword: Keyword) -> Option<DeclaredType>
    ensures { result ≡ begun_type keyword }
{
    match keyword {
        Keyword::Int => Some(DeclaredType::Int),
        Keyword::Bool => Some(DeclaredType::Bool),
        Keyword::Vertex => Some(DeclaredType::Vertex),
        Keyword::VertexSet => Some(DeclaredType::VertexSet),
        Keyword::Vector => Some(DeclaredType::Vector),
        Keyword::EdgeSet => Some(DeclaredType::EdgeSet),
        _ => None,
    }
}

/// The type that has begun so, after its first keyword, and the place after it.
fn rest_of_type(
    declared: DeclaredType,
    cursor: Cursor<'_>,
) -> Result<(DeclaredType, Cursor<'_>), SyntaxError>
    ensures reads { Gives (λ t. t) result (type_after declared (terminals cursor.entry)) }
    ensures shorter { IfOk result (λ x. length (terminals x.1) ≤ length (terminals cursor.entry)) }
{
    match declared {
        DeclaredType::Int | DeclaredType::Bool | DeclaredType::Vertex => Ok((declared, cursor)),
        DeclaredType::VertexSet => {
            let behind = cursor.expect_all(&OF_VERTICES)?;
            Ok((declared, behind))
        }
        DeclaredType::Vector => {
            let behind = cursor.expect_all(&OF_VERTICES_AND_NUMBERS)?;
            Ok((declared, behind))
        }
        DeclaredType::EdgeSet | DeclaredType::WeightedEdgeSet => {
            let behind = cursor.expect_all(&OF_EDGES_AND_VERTICES)?;
            edgeset(behind)
        }
    }
}

/// The type of an edgeset after its second `Vertex`, and the place after it: `)`, or `, int)` where its
/// edges have weights.
fn edgeset(cursor: Cursor<'_>) -> Result<(DeclaredType, Cursor<'_>), SyntaxError>
    ensures reads { Gives (λ t. t) result (edgeset_at (terminals cursor.entry)) }
    ensures shorter { IfOk result (λ x. length (terminals x.1) ≤ length (terminals cursor.entry)) }
{
    match cursor.after_symbol(Symbol::Comma) {
        Some(after) => {
            let behind = after.expect_all(&OF_WEIGHTS)?;
            Ok((DeclaredType::WeightedEdgeSet, behind))
        }
        None => {
            let behind = cursor.expect_symbol(Symbol::CloseParenthesis)?;
            Ok((DeclaredType::EdgeSet, behind))
        }
    }
}
