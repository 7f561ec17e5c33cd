//! A place in the tokens of a text.
ghost use Rattle.std.specs.Prelude.{◌≡◌, ◌<◌, ℕ, [], ◌∷◌, length, option_map, MatchOption, IfSome, IfOk};
ghost use Rattle.lexer.specs.Tokens.{slice_of};
ghost use Rattle.parser.specs.declared.syntax_error.SyntaxError.TheVariants.{Unexpected};
ghost use Rattle.syntax.specs.Terminals.{OfSymbol, OfKeyword, keyword_terminal, terminals_of};
ghost use Rattle.syntax.specs.SourceReading.{after_terminal};
ghost use Rattle.parser.specs.inside.Readers.{terminals, terminal_at, Finds, IsAfter, IsExpected, Passes};
ghost use Rattle.syntax.specs.ExpressionReading.{addition, multiplication, relation, prefix};

use crate::syntax_error::SyntaxError;
use lexer::{Keyword, Span, Symbol, Token, TokenKind};
use syntax::{Addition, Multiplication, Prefix, Relation};

/// A text, and those of its tokens that are left to be read.
#[derive(Clone, Copy)]
pub(crate) struct Cursor<'a> {
    text: &'a [u8],
    tokens: &'a [Token],
}

impl<'a> Cursor<'a> {
    /// At the first of these tokens of a text.
    pub(crate) fn new(text: &'a [u8], tokens: &'a [Token]) -> Cursor<'a>
        ensures left { terminals result ≡ terminals_of text.now tokens.now }
        ensures parts { (result.text.now ≡ text.now) × (result.tokens.now ≡ tokens.now) }
    {
        Cursor { text, tokens }
    }

    /// The next token, and the place after it; `None` at the end.
    pub(crate) fn next(self) -> Option<(Token, Cursor<'a>)>
        ensures terminal { MatchOption result (terminals self.entry ≡ []) (λ x. terminals self.entry ≡ terminal_at self.entry x.0 ∷ terminals x.1) }
        ensures tokens { IfSome result (λ x. (x.1.text.now ≡ self.entry.text.now) × (self.entry.tokens.now ≡ x.0 ∷ x.1.tokens.now)) }
    {
        let (token, tokens) = self.tokens.split_first()?;
        let after = Cursor {
            text: self.text,
            tokens,
        };
        Some((*token, after))
    }

    /// The refusal of the next token.
    pub(crate) fn unexpected(self) -> SyntaxError
        ensures { result ≡ Unexpected (length self.entry.tokens.now) }
    {
        SyntaxError::Unexpected {
            left: self.tokens.len(),
        }
    }

    /// The bytes of the text at a span, as many of them as the text has. They are not copied.
    pub(crate) fn bytes(self, span: Span) -> &'a [u8]
        ensures { result.now ≡ slice_of self.entry.text.now span }
    {
        span.slice_of(self.text)
    }

    /// The place after a symbol, if it is the next token.
    pub(crate) fn after_symbol(self, symbol: Symbol) -> Option<Cursor<'a>>
        ensures is { IsAfter (OfSymbol symbol) (terminals self.entry) result }
        ensures behind { after_terminal (OfSymbol symbol) (terminals self.entry) ≡ option_map terminals result }
        ensures shorter { IfSome result (λ after. length (terminals after) < length (terminals self.entry)) }
    {
        let (token, after) = self.next()?;
        if token.kind == TokenKind::Symbol(symbol) {
            Some(after)
        } else {
            None
        }
    }

    /// The place after a keyword that opens nothing, if it is the next token.
    pub(crate) fn after_keyword(self, keyword: Keyword) -> Option<Cursor<'a>>
        requires { (at : ℕ) → keyword_terminal keyword at ≡ OfKeyword keyword }
        ensures is { IsAfter (OfKeyword keyword) (terminals self.entry) result }
        ensures behind { after_terminal (OfKeyword keyword) (terminals self.entry) ≡ option_map terminals result }
        ensures shorter { IfSome result (λ after. length (terminals after) < length (terminals self.entry)) }
    {
        let (token, after) = self.next()?;
        if token.kind == TokenKind::Keyword(keyword) {
            Some(after)
        } else {
            None
        }
    }

    /// The place after a symbol, or `Unexpected` at the next token, if that is another one.
    pub(crate) fn expect_symbol(self, symbol: Symbol) -> Result<Cursor<'a>, SyntaxError>
        ensures is { IsExpected (OfSymbol symbol) (terminals self.entry) result }
        ensures passes { Passes result (after_terminal (OfSymbol symbol) (terminals self.entry)) }
        ensures shorter { IfOk result (λ after. length (terminals after) < length (terminals self.entry)) }
    {
        match self.after_symbol(symbol) {
            Some(after) => Ok(after),
            None => Err(self.unexpected()),
        }
    }

    /// The place after a keyword that opens nothing, or `Unexpected` at the next token, if that is another one.
    pub(crate) fn expect_keyword(self, keyword: Keyword) -> Result<Cursor<'a>, SyntaxError>
        requires { (at : ℕ) → keyword_terminal keyword at ≡ OfKeyword keyword }
        ensures is { IsExpected (OfKeyword keyword) (terminals self.entry) result }
        ensures passes { Passes result (after_terminal (OfKeyword keyword) (terminals self.entry)) }
        ensures shorter { IfOk result (λ after. length (terminals after) < length (terminals self.entry)) }
    {
        match self.after_keyword(keyword) {
            Some(after) => Ok(after),
            None => Err(self.unexpected()),
        }
    }

    /// The `+` or `-` at the front, and the place after it.
    pub(crate) fn addition(self) -> Option<(Addition, Cursor<'a>)>
        ensures found { Finds result (addition (terminals self.entry)) }
        ensures shorter { IfSome result (λ x. length (terminals x.1) < length (terminals self.entry)) }
    {
        let (token, after) = self.next()?;
        match token.kind {
            TokenKind::Symbol(Symbol::Plus) => Some((Addition::Plus, after)),
            TokenKind::Symbol(Symbol::Minus) => Some((Addition::Minus, after)),
            _ => None,
        }
    }

    /// The `*`, `/` or `%` at the front, and the place after it.
    pub(crate) fn multiplication(self) -> Option<(Multiplication, Cursor<'a>)>
        ensures found { Finds result (multiplication (terminals self.entry)) }
        ensures shorter { IfSome result (λ x. length (terminals x.1) < length (terminals self.entry)) }
    {
        let (token, after) = self.next()?;
        match token.kind {
            TokenKind::Symbol(Symbol::Star) => Some((Multiplication::Times, after)),
            TokenKind::Symbol(Symbol::Slash) => Some((Multiplication::Divide, after)),
            TokenKind::Symbol(Symbol::Percent) => Some((Multiplication::Remainder, after)),
            _ => None,
        }
    }

    /// The relation at the front, and the place after it.
    pub(crate) fn relation(self) -> Option<(Relation, Cursor<'a>)>
        ensures found { Finds result (relation (terminals self.entry)) }
        ensures shorter { IfSome result (λ x. length (terminals x.1) < length (terminals self.entry)) }
    {
        let (token, after) = self.next()?;
        let relation = match token.kind {
            TokenKind::Symbol(Symbol::Equal) => Relation::Equal,
            TokenKind::Symbol(Symbol::NotEqual) => Relation::NotEqual,
            TokenKind::Symbol(Symbol::Less) => Relation::Less,
            TokenKind::Symbol(Symbol::LessOrEqual) => Relation::LessOrEqual,
            TokenKind::Symbol(Symbol::Greater) => Relation::Greater,
            TokenKind::Symbol(Symbol::GreaterOrEqual) => Relation::GreaterOrEqual,
            _ => return None,
        };
        Some((relation, after))
    }

    /// The `-` or `not` at the front, and the place after it.
    pub(crate) fn prefix(self) -> Option<(Prefix, Cursor<'a>)>
        ensures found { Finds result (prefix (terminals self.entry)) }
        ensures shorter { IfSome result (λ x. length (terminals x.1) < length (terminals self.entry)) }
    {
        let (token, after) = self.next()?;
        match token.kind {
            TokenKind::Symbol(Symbol::Minus) => Some((Prefix::Minus, after)),
            TokenKind::Keyword(Keyword::Not) => Some((Prefix::Not, after)),
            _ => None,
        }
    }
}
