//! The schedule's part of a source.
ghost use Rattle.std.specs.Prelude.{ℕ, ◌∷◌, map, option_map, OnOk};
ghost use Rattle.syntax.specs.Terminals.{LeadingKeyword};
ghost use Rattle.syntax.specs.SourceSpelling.{call_before, chain_before, each_before, next_call_before, next_text_before, schedule_before, setting_keyword};
ghost use Rattle.syntax.specs.SourceViews.{call_tree, chain_tree, text_of};
ghost use Rattle.source_text.specs.inside.Written.{Puts, chains_tree};

use crate::terminals::{put_keyword, put_symbol, put_text};
use apply_options::Setting;
use lexer::{Keyword, Symbol};
use std::alloc::AllocError;
use syntax::{Call, Chain, QuotedText};

/// Puts the schedule down, where the source has that part.
pub(crate) fn put_schedule(
    out: &mut Vec<u8>,
    schedule: &Option<Vec<Chain>>,
) -> Result<(), AllocError>
    ensures { OnOk result (Puts (schedule_before (option_map chains_tree schedule.now)) out.old.items out.new.items) }
{
    match schedule {
        None => Ok(()),
        Some(chains) => {
            put_keyword(out, Keyword::Schedule)?;
            put_symbol(out, Symbol::Colon)?;
            put_chains(out, chains)
        }
    }
}

fn put_chains(out: &mut Vec<u8>, chains: &[Chain]) -> Result<(), AllocError>
    ensures { OnOk result (Puts (each_before chain_before (map chain_tree chains.now)) out.old.items out.new.items) }
{
    'chains: for chain in chains {
        put_chain(out, chain)?;
    }
    Ok(())
}

/// Puts calls on the program down.
fn put_chain(out: &mut Vec<u8>, chain: &Chain) -> Result<(), AllocError>
    ensures { OnOk result (Puts (chain_before (chain_tree chain.now)) out.old.items out.new.items) }
{
    put_keyword(out, Keyword::Program)?;
    put_next_call(out, &chain.first)?;
    put_more_calls(out, &chain.more)?;
    put_symbol(out, Symbol::Semicolon)
}

fn put_more_calls(out: &mut Vec<u8>, calls: &[Call]) -> Result<(), AllocError>
    ensures { OnOk result (Puts (each_before next_call_before (map call_tree calls.now)) out.old.items out.new.items) }
{
    'calls: for call in calls {
        put_next_call(out, call)?;
    }
    Ok(())
}

/// Puts an arrow and a call down.
fn put_next_call(out: &mut Vec<u8>, call: &Call) -> Result<(), AllocError>
    ensures { OnOk result (Puts (next_call_before (call_tree call.now)) out.old.items out.new.items) }
{
    put_symbol(out, Symbol::Arrow)?;
    put_setting(out, call.setting)?;
    put_symbol(out, Symbol::OpenParenthesis)?;
    put_text(out, &call.first)?;
    put_more_texts(out, &call.more)?;
    put_symbol(out, Symbol::CloseParenthesis)
}

fn put_more_texts(out: &mut Vec<u8>, texts: &[QuotedText]) -> Result<(), AllocError>
    ensures { OnOk result (Puts (each_before next_text_before (map text_of texts.now)) out.old.items out.new.items) }
{
    'texts: for text in texts {
        put_next_text(out, text)?;
    }
    Ok(())
}

/// Puts a comma and a text down.
fn put_next_text(out: &mut Vec<u8>, text: &QuotedText) -> Result<(), AllocError>
    ensures { OnOk result (Puts (next_text_before (text_of text.now)) out.old.items out.new.items) }
{
    put_symbol(out, Symbol::Comma)?;
    put_text(out, text)
}

/// Puts the name of a call down.
fn put_setting(out: &mut Vec<u8>, setting: Setting) -> Result<(), AllocError>
    ensures { OnOk result ((at : ℕ) → Puts (λ rest. LeadingKeyword (setting_keyword setting) at ∷ rest) out.old.items out.new.items) }
{
    match setting {
        Setting::Direction => put_keyword(out, Keyword::ConfigApplyDirection),
        Setting::Parallelization => put_keyword(out, Keyword::ConfigApplyParallelization),
        Setting::DenseVertexSet => put_keyword(out, Keyword::ConfigApplyDenseVertexSet),
        Setting::FuseFunctions => put_keyword(out, Keyword::FuseApplyFunctions),
        Setting::FuseFields => put_keyword(out, Keyword::FuseFields),
    }
}
