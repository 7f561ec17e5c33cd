//! What is at the front of the tokens that are left.
ghost use Rattle.std.specs.Prelude.{◌≡◌, ◌<◌, ◌≤◌, ℕ, ◌∷◌, [], length, map, Some, option_map, IsTrue, IfSome, IfOk};
ghost use Rattle.std.specs.List.{list_all};
ghost use Rattle.syntax.specs.Terminals.{OfKeyword, OfSymbol, keyword_terminal};
ghost use Rattle.parser.specs.inside.Readers.{terminals, Gives, Passes};
ghost use Rattle.syntax.specs.SourceReading.{after_terminals, name_reader, number_at, text_at, label_at, argument_at, after_terminal, expression as expression_at_limit};
ghost use Rattle.syntax.specs.SourceViews.{text_of};
ghost use Rattle.parser.specs.inside.Plain.{is_plain, plain_terminal};

use crate::cursor::Cursor;
use crate::expression::read_expression;
use crate::syntax_error::SyntaxError;
use lexer::{Keyword, Symbol, TokenKind};
use std::alloc::Global;
use syntax::{Expression, NESTING_LIMIT, Name, QuotedText};

impl<'a> Cursor<'a> {
    /// The place after a dot and a keyword that opens nothing, if these are the next two tokens.
    pub(crate) fn after_method(self, keyword: Keyword) -> Option<Cursor<'a>>
        requires { (at : ℕ) → keyword_terminal keyword at ≡ OfKeyword keyword }
        ensures behind { after_terminals (OfSymbol Symbol.Dot ∷ OfKeyword keyword ∷ []) (terminals self.entry) ≡ option_map terminals result }
        ensures shorter { IfSome result (λ after. length (terminals after) < length (terminals self.entry)) }
    {
        let method = self.after_symbol(Symbol::Dot)?;
        method.after_keyword(keyword)
    }

    /// The place after these tokens, or `Unexpected` at the first that is another one. Each is a symbol or a
    /// keyword that opens nothing.
    pub(crate) fn expect_all(self, tokens: &[TokenKind]) -> Result<Cursor<'a>, SyntaxError>
        requires { IsTrue (list_all is_plain tokens.now) }
        ensures passes { Passes result (after_terminals (map plain_terminal tokens.now) (terminals self.entry)) }
        ensures shorter { IfOk result (λ after. length (terminals after) ≤ length (terminals self.entry)) }
    {
        let Some((token, others)) = tokens.split_first() else {
            return Ok(self);
        };
        let after = self.expect(*token)?;
        after.expect_all(others)
    }

    /// The place after a token, or `Unexpected` at the next one, if that is another one.
    fn expect(self, token: TokenKind) -> Result<Cursor<'a>, SyntaxError>
        requires { IsTrue (is_plain token) }
        ensures passes { Passes result (after_terminal (plain_terminal token) (terminals self.entry)) }
        ensures shorter { IfOk result (λ after. length (terminals after) < length (terminals self.entry)) }
    {
        match token {
            TokenKind::Keyword(keyword) => self.expect_keyword(keyword),
            TokenKind::Symbol(symbol) => self.expect_symbol(symbol),
            _ => Err(self.unexpected()),
        }
    }

    /// The name at the front, and the place after it, or `Unexpected` at the next token, if that is no name.
    pub(crate) fn name(self, alloc: Global) -> Result<(Name, Cursor<'a>), SyntaxError>
        ensures reads { Gives (λ n. n) result (name_reader (terminals self.entry)) }
        ensures shorter { IfOk result (λ x. length (terminals x.1) < length (terminals self.entry)) }
    {
        let Some((token, after)) = self.next() else {
            return Err(self.unexpected());
        };
        match token.kind {
            TokenKind::Name => {
                let name = Name::of(alloc, self.bytes(token.span), token.span.start)?;
                Ok((name, after))
            }
            _ => Err(self.unexpected()),
        }
    }

    /// The number at the front, and the place after it.
    pub(crate) fn number(self) -> Result<(i64, Cursor<'a>), SyntaxError>
        ensures reads { Gives (λ n. n) result (number_at (terminals self.entry)) }
        ensures shorter { IfOk result (λ x. length (terminals x.1) < length (terminals self.entry)) }
    {
        let Some((token, after)) = self.next() else {
            return Err(self.unexpected());
        };
        match token.kind {
            TokenKind::Number(number) => Ok((number, after)),
            _ => Err(self.unexpected()),
        }
    }

    /// The text in quotes at the front, and the place after it.
    pub(crate) fn text(self, alloc: Global) -> Result<(QuotedText, Cursor<'a>), SyntaxError>
        ensures reads { Gives text_of result (text_at (terminals self.entry)) }
        ensures shorter { IfOk result (λ x. length (terminals x.1) < length (terminals self.entry)) }
    {
        let Some((token, after)) = self.next() else {
            return Err(self.unexpected());
        };
        match token.kind {
            TokenKind::Text => {
                let bytes = Vec::from_slice(alloc, self.bytes(token.span))?;
                Ok((QuotedText::new(bytes), after))
            }
            _ => Err(self.unexpected()),
        }
    }

    /// The label at the front, where there is one, and the place after it.
    pub(crate) fn label(self, alloc: Global) -> Result<(Option<Name>, Cursor<'a>), SyntaxError>
        ensures reads { Gives (λ l. l) result (Some (label_at (terminals self.entry))) }
        ensures shorter { IfOk result (λ x. length (terminals x.1) ≤ length (terminals self.entry)) }
    {
        let Some((token, after)) = self.next() else {
            return Ok((None, self));
        };
        match token.kind {
            TokenKind::Label => {
                let label = Name::of(alloc, self.bytes(token.span), token.span.start)?;
                Ok((Some(label), after))
            }
            _ => Ok((None, self)),
        }
    }

    /// The name in parentheses, and the place after it.
    pub(crate) fn argument(self, alloc: Global) -> Result<(Name, Cursor<'a>), SyntaxError>
        ensures reads { Gives (λ n. n) result (argument_at (terminals self.entry)) }
        ensures shorter { IfOk result (λ x. length (terminals x.1) ≤ length (terminals self.entry)) }
    {
        let inside = self.expect_symbol(Symbol::OpenParenthesis)?;
        let (name, close) = inside.name(alloc)?;
        let behind = close.expect_symbol(Symbol::CloseParenthesis)?;
        Ok((name, behind))
    }

    /// The expression at the front, and the place after it. Within it no more is nested than may
    /// be open at once.
    pub(crate) fn expression(self, alloc: Global) -> Result<(Expression, Cursor<'a>), SyntaxError>
        ensures reads { Gives (λ e. e) result (expression_at_limit (terminals self.entry)) }
        ensures shorter { IfOk result (λ x. length (terminals x.1) ≤ length (terminals self.entry)) }
    {
        read_expression(alloc, self, NESTING_LIMIT)
    }
}
