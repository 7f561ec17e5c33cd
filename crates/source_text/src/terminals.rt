//! Terminals as text.
ghost use Rattle.std.specs.Prelude.{◌≡◌, ◌++◌, ℕ, List, [], ◌∷◌, OnOk};
ghost use Rattle.lexer.specs.Spelling.{symbol_spelling};
ghost use Rattle.syntax.specs.Terminals.{Terminal, Label as label_terminal, OfSymbol, Name as name_terminal, Number, LeadingKeyword, OfKeyword, Text as text_terminal};
ghost use Rattle.source_text.specs.Text.{text_of, keyword_gap, symbol_gap, AreSpelled, HasTerminals};
ghost use Rattle.source_text.specs.inside.Written.{Puts};

use decimal::push_integer;
use lexer::{Keyword, Symbol};
use std::alloc::AllocError;
use syntax::{Name, QuotedText};

/// The law that the text of terminals has tokens, and that they are these terminals but for their offsets, where each
/// terminal is one that some token is. The call does nothing.
pub fn terminals_are_read_back()
    ensures { (terminals : List Terminal) → AreSpelled terminals → HasTerminals (text_of terminals) terminals }
{}

/// Puts a name down.
pub(crate) fn put_name(out: &mut Vec<u8>, name: &Name) -> Result<(), AllocError>
    ensures { OnOk result (Puts (λ rest. name_terminal name.now ∷ rest) out.old.items out.new.items) }
{
    put(out, name.bytes(), b' ')
}

/// Puts a label down, which has its marks.
pub(crate) fn put_label(out: &mut Vec<u8>, label: &Name) -> Result<(), AllocError>
    ensures { OnOk result (Puts (λ rest. label_terminal label.now ∷ rest) out.old.items out.new.items) }
{
    put(out, label.bytes(), b' ')
}

/// Puts a text down, which has its quotes.
pub(crate) fn put_text(out: &mut Vec<u8>, text: &QuotedText) -> Result<(), AllocError>
    ensures { OnOk result (Puts (λ rest. text_terminal text.now.bytes.items ∷ rest) out.old.items out.new.items) }
{
    put(out, text.bytes(), b' ')
}

/// Puts a number down.
pub(crate) fn put_number(out: &mut Vec<u8>, number: &i64) -> Result<(), AllocError>
    ensures { OnOk result (Puts (λ rest. Number number.now ∷ rest) out.old.items out.new.items) }
{
    push_integer(out, *number)?;
    out.push(b' ')?;
    Ok(())
}

/// Puts a keyword down.
pub(crate) fn put_keyword(out: &mut Vec<u8>, keyword: Keyword) -> Result<(), AllocError>
    ensures statement_keyword { OnOk result ((at : ℕ) → Puts (λ rest. LeadingKeyword keyword at ∷ rest) out.old.items out.new.items) }
    ensures reserved { OnOk result (Puts (λ rest. OfKeyword keyword ∷ rest) out.old.items out.new.items) }
{
    put(out, keyword.spelling(), gap_after_keyword(keyword))
}

/// Puts a symbol down.
pub(crate) fn put_symbol(out: &mut Vec<u8>, symbol: Symbol) -> Result<(), AllocError>
    ensures { OnOk result (Puts (λ rest. OfSymbol symbol ∷ rest) out.old.items out.new.items) }
{
    put(out, spelling(symbol), gap_after_symbol(symbol))
}

/// Puts the bytes of a terminal down, and a byte after them.
fn put(out: &mut Vec<u8>, bytes: &[u8], gap: u8) -> Result<(), AllocError>
    ensures { OnOk result (out.new.items ≡ out.old.items ++ (bytes.now ++ gap ∷ [])) }
{
    out.extend_from_slice(bytes)?;
    out.push(gap)?;
    Ok(())
}

/// What is after a keyword: the end of a line after `end`.
fn gap_after_keyword(keyword: Keyword) -> u8
    ensures { result ≡ keyword_gap keyword }
{
    match keyword {
        Keyword::End => b'\n',
        _ => b' ',
    }
}

/// What is after a symbol: the end of a line after `;`.
fn gap_after_symbol(symbol: Symbol) -> u8
    ensures { result ≡ symbol_gap symbol }
{
    match symbol {
        Symbol::Semicolon => b'\n',
        _ => b' ',
    }
}

/// How a symbol is spelled.
fn spelling(symbol: Symbol) -> &'static [u8]
    ensures { result.now ≡ symbol_spelling symbol }
{
    match symbol {
        Symbol::OpenParenthesis => b"(",
        Symbol::CloseParenthesis => b")",
        Symbol::OpenBracket => b"[",
        Symbol::CloseBracket => b"]",
        Symbol::OpenBrace => b"{",
        Symbol::CloseBrace => b"}",
        Symbol::Comma => b",",
        Symbol::Semicolon => b";",
        Symbol::Colon => b":",
        Symbol::Dot => b".",
        Symbol::Assign => b"=",
        Symbol::Equal => b"==",
        Symbol::NotEqual => b"!=",
        Symbol::Less => b"<",
        Symbol::LessOrEqual => b"<=",
        Symbol::Greater => b">",
        Symbol::GreaterOrEqual => b">=",
        Symbol::Plus => b"+",
        Symbol::Minus => b"-",
        Symbol::Star => b"*",
        Symbol::Slash => b"/",
        Symbol::Percent => b"%",
        Symbol::Arrow => b"->",
        Symbol::PlusAssign => b"+=",
        Symbol::MinAssign => b"min=",
        Symbol::MaxAssign => b"max=",
    }
}
