//! The schedule's part of a source.
ghost use Rattle.std.specs.Prelude.{◌≡◌, ◌<◌, ◌≤◌, length, option_map, IfOk};
ghost use Rattle.syntax.specs.Terminals.{OfKeyword, OfSymbol};
ghost use Rattle.parser.specs.inside.Readers.{terminals, Gives};
ghost use Rattle.syntax.specs.SourceReading.{after_terminal, each_at, next_text, next_call, next_chain, call_at, chain_at, setting_at, schedule_by};
ghost use Rattle.syntax.specs.SourceViews.{text_of, call_tree, chain_tree};
ghost use Rattle.parser.specs.inside.Fronts.{begun_setting};
ghost use Rattle.parser.specs.inside.Views.{each};

use crate::cursor::Cursor;
use crate::syntax_error::SyntaxError;
use apply_options::Setting;
use lexer::{Keyword, Symbol, TokenKind};
use std::alloc::Global;
use syntax::{Call, Chain, QuotedText};

/// The schedule's part, where the source has it, and the place after it.
pub(crate) fn schedule(
    alloc: Global,
    cursor: Cursor<'_>,
) -> Result<(Option<Vec<Chain>>, Cursor<'_>), SyntaxError>
    ensures { Gives (option_map (each chain_tree)) result
        (schedule_by (terminals cursor.entry) (after_terminal (OfKeyword Keyword.Schedule) (terminals cursor.entry))) }
{
    match cursor.after_keyword(Keyword::Schedule) {
        None => Ok((None, cursor)),
        Some(colon) => {
            let rest = colon.expect_symbol(Symbol::Colon)?;
            let (chains, behind) = chains(alloc, rest)?;
            Ok((Some(chains), behind))
        }
    }
}

/// The chains of calls at the front, as many as follow one another.
fn chains(alloc: Global, cursor: Cursor<'_>) -> Result<(Vec<Chain>, Cursor<'_>), SyntaxError>
    ensures { Gives (each chain_tree) result (each_at next_chain (terminals cursor.entry)) }
{
    let mut chains = Vec::new(alloc);
    let mut left = cursor;
    'chains: while let Some(after) = left.after_keyword(Keyword::Program) {
        let (chain, behind) = chain(alloc, after)?;
        chains.push(chain)?;
        left = behind;
    }
    Ok((chains, left))
}

/// What is after `program`.
fn chain(alloc: Global, cursor: Cursor<'_>) -> Result<(Chain, Cursor<'_>), SyntaxError>
    ensures reads { Gives chain_tree result (chain_at (terminals cursor.entry)) }
    ensures shorter { IfOk result (λ x. length (terminals x.1) ≤ length (terminals cursor.entry)) }
{
    let rest = cursor.expect_symbol(Symbol::Arrow)?;
    let (first, left) = call(alloc, rest)?;
    let (more, semicolon) = more_calls(alloc, left)?;
    let behind = semicolon.expect_symbol(Symbol::Semicolon)?;
    Ok((Chain { first, more }, behind))
}

/// The calls after the first, each after an arrow.
fn more_calls(alloc: Global, cursor: Cursor<'_>) -> Result<(Vec<Call>, Cursor<'_>), SyntaxError>
    ensures reads { Gives (each call_tree) result (each_at next_call (terminals cursor.entry)) }
    ensures shorter { IfOk result (λ x. length (terminals x.1) ≤ length (terminals cursor.entry)) }
{
    let mut calls = Vec::new(alloc);
    let mut left = cursor;
    'calls: while let Some(after) = left.after_symbol(Symbol::Arrow) {
        let (call, behind) = call(alloc, after)?;
        calls.push(call)?;
        left = behind;
    }
    Ok((calls, left))
}

/// A call with its arguments.
fn call(alloc: Global, cursor: Cursor<'_>) -> Result<(Call, Cursor<'_>), SyntaxError>
    ensures reads { Gives call_tree result (call_at (terminals cursor.entry)) }
    ensures shorter { IfOk result (λ x. length (terminals x.1) ≤ length (terminals cursor.entry)) }
{
    let ((at, setting), open) = setting(cursor)?;
    let inside = open.expect_symbol(Symbol::OpenParenthesis)?;
    let (first, left) = inside.text(alloc)?;
    let (more, close) = more_texts(alloc, left)?;
    let behind = close.expect_symbol(Symbol::CloseParenthesis)?;
    let call = Call {
        at,
        setting,
        first,
        more,
    };
    Ok((call, behind))
}

/// The texts after the first, each after a comma.
fn more_texts(
    alloc: Global,
    cursor: Cursor<'_>,
) -> Result<(Vec<QuotedText>, Cursor<'_>), SyntaxError>
    ensures reads { Gives (each text_of) result (each_at next_text (terminals cursor.entry)) }
    ensures shorter { IfOk result (λ x. length (terminals x.1) ≤ length (terminals cursor.entry)) }
{
    let mut texts = Vec::new(alloc);
    let mut left = cursor;
    'texts: while let Some(after) = left.after_symbol(Symbol::Comma) {
        let (text, behind) = after.text(alloc)?;
        texts.push(text)?;
        left = behind;
    }
    Ok((texts, left))
}

/// The name of the call at the front with its offset, and the place after it.
fn setting(cursor: Cursor<'_>) -> Result<((usize, Setting), Cursor<'_>), SyntaxError>
    ensures reads { Gives (λ s. s) result (setting_at (terminals cursor.entry)) }
    ensures shorter { IfOk result (λ x. length (terminals x.1) ≤ length (terminals cursor.entry)) }
{
    let Some((token, after)) = cursor.next() else {
        return Err(cursor.unexpected());
    };
    let TokenKind::Keyword(keyword) = token.kind else {
        return Err(cursor.unexpected());
    };
    match setting_begun_by(keyword) {
        None => Err(cursor.unexpected()),
        Some(setting) => Ok(((token.span.start, setting), after)),
    }
}

/// The call whose name is a keyword.
fn setting_begun_by(keyword: Keyword) -> Option<Setting>
    ensures { result ≡ begun_setting keyword }
{
    match keyword {
        Keyword::ConfigApplyDirection => Some(Setting::Direction),
        Keyword::ConfigApplyParallelization => Some(Setting::Parallelization),
        Keyword::ConfigApplyDenseVertexSet => Some(Setting::DenseVertexSet),
        Keyword::FuseApplyFunctions => Some(Setting::FuseFunctions),
        Keyword::FuseFields => Some(Setting::FuseFields),
        _ => None,
    }
}
