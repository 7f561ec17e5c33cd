//! How deep the tokens of a text are in what is opened and not closed yet.
ghost use Rattle.std.specs.Prelude.{◌≡◌, ◌≤◌, ℕ, List, MatchOption};
ghost use Rattle.syntax.specs.Nesting.{keyword_change as change_of_keyword, symbol_change as change_of_symbol, nesting_after as behind, terminal_change, limit, StaysWithin, PassesAt};
ghost use Rattle.syntax.specs.Terminals.{terminal_of, terminals_of};

use lexer::{Keyword, Symbol, Token, TokenKind};

/// What a token does to the nesting.
#[derive(Clone, Copy, Debug, PartialEq, Eq)]
pub(crate) enum Change {
    /// It opens what another token closes.
    Opens,
    /// It closes what is open.
    Closes,
    /// Neither.
    Keeps,
}

/// The most that may be open at once.
pub const NESTING_LIMIT: u32 = 64;

/// The offset, in bytes, of the first token at which more is open than [`NESTING_LIMIT`], or `None` where
/// the nesting stays within the limit. `element`, `func`, `while`, `for`, `if`, `(` and `[` open, `end`, `)`
/// and `]` close, and where nothing is open they close nothing. Takes no memory, and time in proportion to
/// the tokens.
pub fn first_too_deep(tokens: &[Token]) -> Option<usize>
    ensures { (text : List ℕ) → MatchOption result (StaysWithin limit 0 (terminals_of text tokens.now)) (λ at. PassesAt text 0 tokens.now at) }
{
    let mut left = tokens;
    let mut depth = 0;
    'tokens: while let Some((token, after)) = left.split_first() {
        depth = nesting_after(token.kind, depth);
        if depth > NESTING_LIMIT {
            return Some(token.span.start);
        }
        left = after;
    }
    None
}

/// How much is open after a token, where so much is open before it.
fn nesting_after(kind: TokenKind, depth: u32) -> u32
    requires { depth ≤ limit }
    ensures { (bytes : List ℕ) (at : ℕ) → result ≡ behind (terminal_of kind bytes at) depth }
{
    match change_of(kind) {
        Change::Opens => depth + 1,
        Change::Closes => depth.saturating_sub(1),
        Change::Keeps => depth,
    }
}

/// What a token of this kind does to the nesting.
fn change_of(kind: TokenKind) -> Change
    ensures { (bytes : List ℕ) (at : ℕ) → result ≡ terminal_change (terminal_of kind bytes at) }
{
    match kind {
        TokenKind::Keyword(keyword) => keyword_change(keyword),
        TokenKind::Symbol(symbol) => symbol_change(symbol),
        TokenKind::Name | TokenKind::Number(_) | TokenKind::Label | TokenKind::Text =>
            Change::Keeps,
    }
}

fn keyword_change(keyword: Keyword) -> Change
    ensures { result ≡ change_of_keyword keyword }
{
    match keyword {
        Keyword::Element | Keyword::Func | Keyword::While | Keyword::For | Keyword::If =>
            Change::Opens,
        Keyword::End => Change::Closes,
        _ => Change::Keeps,
    }
}

fn symbol_change(symbol: Symbol) -> Change
    ensures { result ≡ change_of_symbol symbol }
{
    match symbol {
        Symbol::OpenParenthesis | Symbol::OpenBracket => Change::Opens,
        Symbol::CloseParenthesis | Symbol::CloseBracket => Change::Closes,
        _ => Change::Keeps,
    }
}
