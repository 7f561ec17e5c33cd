//! Types, and what a name is declared or assigned to be.
ghost use Rattle.std.specs.Prelude.{◌++◌, ◌∷◌, OnOk};
ghost use Rattle.lexer.specs.declared.keyword.Keyword.TheVariants as keyword_terminal;
ghost use Rattle.lexer.specs.declared.symbol.Symbol.TheVariants as symbol;
ghost use Rattle.syntax.specs.Terminals.{OfSymbol, Name as terminal_name, OfKeyword};
ghost use Rattle.syntax.specs.SourceTrees.{ApplyModified, Filter, Load, NewSet};
ghost use Rattle.syntax.specs.SourceSpelling.{argument_terminals, assigned_before, end_terminals, ends_before, ended_before, initial_before, type_terminals, typed_before};
ghost use Rattle.syntax.specs.SourceReading.{edge_ends};
ghost use Rattle.syntax.specs.SourceViews.{ends_tree, initial_tree, parameter_tree};
ghost use Rattle.source_text.specs.inside.Written.{Puts};

use crate::expression::put_expression;
use crate::terminals::{put_keyword, put_name, put_number, put_symbol};
use lexer::{Keyword, Symbol};
use std::alloc::AllocError;
use syntax::{DeclaredType, Ends, Expression, Initial, Name, Parameter};

/// Puts a name and its type down.
pub(crate) fn put_parameter(out: &mut Vec<u8>, parameter: &Parameter) -> Result<(), AllocError>
    ensures { OnOk result (Puts (typed_before (parameter_tree parameter.now)) out.old.items out.new.items) }
{
    put_name(out, &parameter.name)?;
    put_symbol(out, Symbol::Colon)?;
    put_type(out, parameter.declared)
}

/// Puts a type down.
fn put_type(out: &mut Vec<u8>, declared: DeclaredType) -> Result<(), AllocError>
    ensures { OnOk result (Puts (λ rest. type_terminals declared ++ rest) out.old.items out.new.items) }
{
    match declared {
        DeclaredType::Int => put_keyword(out, Keyword::Int),
        DeclaredType::Bool => put_keyword(out, Keyword::Bool),
        DeclaredType::Vertex => put_keyword(out, Keyword::Vertex),
        DeclaredType::VertexSet => {
            put_keyword(out, Keyword::VertexSet)?;
            put_in_braces(out, Keyword::Vertex)
        }
        DeclaredType::Vector => {
            put_keyword(out, Keyword::Vector)?;
            put_in_braces(out, Keyword::Vertex)?;
            put_symbol(out, Symbol::OpenParenthesis)?;
            put_keyword(out, Keyword::Int)?;
            put_symbol(out, Symbol::CloseParenthesis)
        }
        DeclaredType::EdgeSet => {
            put_edge_ends(out)?;
            put_symbol(out, Symbol::CloseParenthesis)
        }
        DeclaredType::WeightedEdgeSet => {
            put_edge_ends(out)?;
            put_weight(out)
        }
    }
}

/// Puts `edgeset{Edge}(Vertex, Vertex` down.
fn put_edge_ends(out: &mut Vec<u8>) -> Result<(), AllocError>
    ensures { OnOk result (Puts (λ rest. OfKeyword keyword_terminal.EdgeSet ∷ (edge_ends ++ rest)) out.old.items out.new.items) }
{
    put_keyword(out, Keyword::EdgeSet)?;
    put_in_braces(out, Keyword::Edge)?;
    put_symbol(out, Symbol::OpenParenthesis)?;
    put_keyword(out, Keyword::Vertex)?;
    put_symbol(out, Symbol::Comma)?;
    put_keyword(out, Keyword::Vertex)
}

/// Puts `, int)` down.
fn put_weight(out: &mut Vec<u8>) -> Result<(), AllocError>
    ensures { OnOk result (Puts (λ rest. OfSymbol symbol.Comma ∷ OfKeyword keyword_terminal.Int ∷ OfSymbol symbol.CloseParenthesis ∷ rest)
        out.old.items out.new.items) }
{
    put_symbol(out, Symbol::Comma)?;
    put_keyword(out, Keyword::Int)?;
    put_symbol(out, Symbol::CloseParenthesis)
}

/// Puts a keyword in braces down.
fn put_in_braces(out: &mut Vec<u8>, keyword: Keyword) -> Result<(), AllocError>
    ensures { OnOk result (Puts (λ rest. OfSymbol symbol.OpenBrace ∷ OfKeyword keyword ∷ OfSymbol symbol.CloseBrace ∷ rest) out.old.items out.new.items) }
{
    put_symbol(out, Symbol::OpenBrace)?;
    put_keyword(out, keyword)?;
    put_symbol(out, Symbol::CloseBrace)
}

/// Puts a dot and the name of a method down.
pub(crate) fn put_method(out: &mut Vec<u8>, keyword: Keyword) -> Result<(), AllocError>
    ensures { OnOk result (Puts (λ rest. OfSymbol symbol.Dot ∷ OfKeyword keyword ∷ rest) out.old.items out.new.items) }
{
    put_symbol(out, Symbol::Dot)?;
    put_keyword(out, keyword)
}

/// Puts `()` down.
fn put_no_arguments(out: &mut Vec<u8>) -> Result<(), AllocError>
    ensures { OnOk result (Puts (λ rest. OfSymbol symbol.OpenParenthesis ∷ OfSymbol symbol.CloseParenthesis ∷ rest) out.old.items out.new.items) }
{
    put_symbol(out, Symbol::OpenParenthesis)?;
    put_symbol(out, Symbol::CloseParenthesis)
}

/// Puts a name in parentheses down.
pub(crate) fn put_argument(out: &mut Vec<u8>, name: &Name) -> Result<(), AllocError>
    ensures { OnOk result (Puts (λ rest. argument_terminals name.now ++ rest) out.old.items out.new.items) }
{
    put_symbol(out, Symbol::OpenParenthesis)?;
    put_name(out, name)?;
    put_symbol(out, Symbol::CloseParenthesis)
}

/// Puts the ends of an apply down, where they are given.
pub(crate) fn put_ends(out: &mut Vec<u8>, ends: &Ends) -> Result<(), AllocError>
    ensures { OnOk result (Puts (ends_before (ends_tree ends.now)) out.old.items out.new.items) }
{
    put_end(out, Keyword::From, &ends.from)?;
    put_end(out, Keyword::To, &ends.to)
}

/// Puts an end of an apply down, where it is given.
fn put_end(out: &mut Vec<u8>, keyword: Keyword, name: &Option<Name>) -> Result<(), AllocError>
    ensures { OnOk result (Puts (λ rest. end_terminals (OfKeyword keyword) name.now ++ rest) out.old.items out.new.items) }
{
    match name {
        None => Ok(()),
        Some(name) => {
            put_method(out, keyword)?;
            put_argument(out, name)
        }
    }
}

/// Puts `=`, an initial value and `;` down.
pub(crate) fn put_assigned(out: &mut Vec<u8>, initial: &Initial) -> Result<(), AllocError>
    ensures { OnOk result (Puts (assigned_before (initial_tree initial.now)) out.old.items out.new.items) }
{
    put_symbol(out, Symbol::Assign)?;
    put_initial(out, initial)?;
    put_symbol(out, Symbol::Semicolon)
}

/// Puts an expression and `;` down.
pub(crate) fn put_ended(out: &mut Vec<u8>, expression: &Expression) -> Result<(), AllocError>
    ensures { OnOk result (Puts (ended_before expression.now) out.old.items out.new.items) }
{
    put_expression(out, expression)?;
    put_symbol(out, Symbol::Semicolon)
}

/// Puts an initial value down.
fn put_initial(out: &mut Vec<u8>, initial: &Initial) -> Result<(), AllocError>
    ensures { OnOk result (Puts (initial_before (initial_tree initial.now)) out.old.items out.new.items) }
{
    match initial {
        Initial::NewSet(size) => put_new_set(out, size),
        Initial::Load(number) => put_load(out, number),
        Initial::Vertices(edges) => put_query(out, edges, Keyword::GetVertices),
        Initial::OutDegrees(edges) => put_query(out, edges, Keyword::GetOutDegrees),
        Initial::Filter { set, test } => put_filter(out, set, test),
        Initial::ApplyModified {
            edges,
            ends,
            function,
            vector,
        } => put_apply_modified(out, edges, ends, function, vector),
        Initial::Value(value) => put_expression(out, value),
    }
}

/// Puts `new vertexset{Vertex}(size)` down.
fn put_new_set(out: &mut Vec<u8>, size: &i64) -> Result<(), AllocError>
    ensures { OnOk result (Puts (initial_before (NewSet size.now)) out.old.items out.new.items) }
{
    put_keyword(out, Keyword::New)?;
    put_keyword(out, Keyword::VertexSet)?;
    put_in_braces(out, Keyword::Vertex)?;
    put_symbol(out, Symbol::OpenParenthesis)?;
    put_number(out, size)?;
    put_symbol(out, Symbol::CloseParenthesis)
}

/// Puts `load(argv[number])` down.
fn put_load(out: &mut Vec<u8>, number: &i64) -> Result<(), AllocError>
    ensures { OnOk result (Puts (initial_before (Load number.now)) out.old.items out.new.items) }
{
    put_keyword(out, Keyword::Load)?;
    put_symbol(out, Symbol::OpenParenthesis)?;
    put_keyword(out, Keyword::Argv)?;
    put_symbol(out, Symbol::OpenBracket)?;
    put_number(out, number)?;
    put_symbol(out, Symbol::CloseBracket)?;
    put_symbol(out, Symbol::CloseParenthesis)
}

/// Puts a call on the edges down that takes no arguments.
fn put_query(out: &mut Vec<u8>, edges: &Name, keyword: Keyword) -> Result<(), AllocError>
    ensures { OnOk result (Puts (λ rest. terminal_name edges.now ∷ OfSymbol symbol.Dot ∷ OfKeyword keyword ∷ OfSymbol symbol.OpenParenthesis
        ∷ OfSymbol symbol.CloseParenthesis ∷ rest) out.old.items out.new.items) }
{
    put_name(out, edges)?;
    put_method(out, keyword)?;
    put_no_arguments(out)
}

fn put_filter(out: &mut Vec<u8>, set: &Name, test: &Name) -> Result<(), AllocError>
    ensures { OnOk result (Puts (initial_before (Filter set.now test.now)) out.old.items out.new.items) }
{
    put_name(out, set)?;
    put_method(out, Keyword::Filter)?;
    put_argument(out, test)
}

fn put_apply_modified(
    out: &mut Vec<u8>,
    edges: &Name,
    ends: &Ends,
    function: &Name,
    vector: &Name,
) -> Result<(), AllocError>
    ensures { OnOk result (Puts (initial_before (ApplyModified edges.now (ends_tree ends.now) function.now vector.now)) out.old.items out.new.items) }
{
    put_name(out, edges)?;
    put_ends(out, ends)?;
    put_method(out, Keyword::ApplyModified)?;
    put_name_pair(out, function, vector)
}

/// Puts two names in parentheses down.
fn put_name_pair(out: &mut Vec<u8>, first: &Name, second: &Name) -> Result<(), AllocError>
    ensures { OnOk result (Puts (λ rest. OfSymbol symbol.OpenParenthesis ∷ terminal_name first.now ∷ OfSymbol symbol.Comma ∷ terminal_name second.now
        ∷ OfSymbol symbol.CloseParenthesis ∷ rest) out.old.items out.new.items) }
{
    put_symbol(out, Symbol::OpenParenthesis)?;
    put_name(out, first)?;
    put_symbol(out, Symbol::Comma)?;
    put_name(out, second)?;
    put_symbol(out, Symbol::CloseParenthesis)
}
