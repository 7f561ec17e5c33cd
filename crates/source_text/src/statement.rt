//! Statements, and their blocks.
ghost use Rattle.std.specs.Prelude.{ℕ, ◌++◌, ◌∷◌, OnOk};
ghost use Rattle.lexer.specs.declared.keyword.Keyword.TheVariants as keyword;
ghost use Rattle.lexer.specs.declared.symbol.Symbol.TheVariants as symbol;
ghost use Rattle.syntax.specs.Terminals.{OfSymbol, Name as terminal_name, LeadingKeyword, OfKeyword};
ghost use Rattle.syntax.specs.ExpressionSpelling.{expression_terminals};
ghost use Rattle.syntax.specs.SourceSpelling.{action_before, block_before, label_terminals};
ghost use Rattle.syntax.specs.SourceViews.{statement_kind_tree, block_tree};
ghost use Rattle.source_text.specs.inside.Written.{Puts};

use crate::expression::put_expression;
use crate::simple::put_simple;
use crate::terminals::{put_keyword, put_label, put_name, put_symbol};
use lexer::{Keyword, Symbol};
use std::alloc::AllocError;
use syntax::{Action, Expression, Name, Statement};

/// Puts statements down, in their order.
#[cycle(statements)]
pub(crate) fn put_block(out: &mut Vec<u8>, block: &[Statement]) -> Result<(), AllocError>
    ensures { OnOk result (Puts (block_before (block_tree block.now)) out.old.items out.new.items) }
{
    'block: for statement in block {
        put_statement(out, statement)?;
    }
    Ok(())
}

#[cycle(statements)]
fn put_statement(out: &mut Vec<u8>, statement: &Statement) -> Result<(), AllocError>
    ensures { OnOk result (Puts (λ rest. label_terminals statement.now.label ++ action_before (statement_kind_tree statement.now.action) rest) out.old.items
        out.new.items) }
{
    put_label_given(out, &statement.label)?;
    put_action(out, &statement.action)
}

#[cycle(statements)]
fn put_action(out: &mut Vec<u8>, action: &Action) -> Result<(), AllocError>
    ensures { OnOk result (Puts (action_before (statement_kind_tree action.now)) out.old.items out.new.items) }
{
    match action {
        Action::Simple(action) => put_simple(out, action),
        Action::While { test, body, .. } => {
            put_test(out, Keyword::While, test)?;
            put_to_end(out, body)
        }
        Action::For(for_loop) => {
            put_range(out, &for_loop.name, &for_loop.first, &for_loop.limit)?;
            put_to_end(out, &for_loop.body)
        }
        Action::If { test, body, .. } => {
            put_test(out, Keyword::If, test)?;
            put_to_end(out, body)
        }
        Action::IfElse {
            test,
            body,
            otherwise,
            ..
        } => {
            put_test(out, Keyword::If, test)?;
            put_block(out, body)?;
            put_keyword(out, Keyword::Else)?;
            put_to_end(out, otherwise)
        }
    }
}

/// Puts a block and `end` down.
#[cycle(statements)]
fn put_to_end(out: &mut Vec<u8>, block: &[Statement]) -> Result<(), AllocError>
    ensures { OnOk result (Puts (λ rest. block_before (block_tree block.now) (OfKeyword keyword.End ∷ rest)) out.old.items out.new.items) }
{
    put_block(out, block)?;
    put_keyword(out, Keyword::End)
}

/// Puts the keyword of a loop or a choice and its test down.
fn put_test(out: &mut Vec<u8>, keyword: Keyword, test: &Expression) -> Result<(), AllocError>
    ensures { OnOk result ((at : ℕ) → Puts (λ rest. LeadingKeyword keyword at ∷ (expression_terminals test.now ++ rest)) out.old.items out.new.items) }
{
    put_keyword(out, keyword)?;
    put_expression(out, test)
}

/// Puts `for name in first : limit` down.
fn put_range(
    out: &mut Vec<u8>,
    name: &Name,
    first: &Expression,
    limit: &Expression,
) -> Result<(), AllocError>
    ensures { OnOk result ((at : ℕ) → Puts (λ rest. LeadingKeyword keyword.For at ∷ terminal_name name.now ∷ OfKeyword keyword.In
        ∷ (expression_terminals first.now ++ OfSymbol symbol.Colon ∷ (expression_terminals limit.now ++ rest))) out.old.items out.new.items) }
{
    put_keyword(out, Keyword::For)?;
    put_name(out, name)?;
    put_keyword(out, Keyword::In)?;
    put_expression(out, first)?;
    put_symbol(out, Symbol::Colon)?;
    put_expression(out, limit)
}

/// Puts a label down, where one is given.
fn put_label_given(out: &mut Vec<u8>, label: &Option<Name>) -> Result<(), AllocError>
    ensures { OnOk result (Puts (λ rest. label_terminals label.now ++ rest) out.old.items out.new.items) }
{
    match label {
        None => Ok(()),
        Some(label) => put_label(out, label),
    }
}
