//! Tokens, and where they are in their text.
ghost use Rattle.std.specs.Prelude.{◌≡◌, ◌+◌, ◌-◌, ◌≤◌, length, take, drop, MatchOption};
ghost use Rattle.lexer.specs.Tokens.{slice_of, IsSpanWithin};

use crate::keyword::Keyword;
use crate::symbol::Symbol;

/// What a token is.
#[derive(Clone, Copy, Debug, PartialEq, Eq)]
pub enum TokenKind {
    /// A letter or `_`, then letters, digits and `_`, that is no keyword.
    Name,
    /// Decimal digits, with their value.
    Number(i64),
    /// A name between two `#`, with nothing else between them.
    Label,
    /// A text in quotes.
    Text,
    Keyword(Keyword),
    Symbol(Symbol),
}

/// Where a token is in its text: the offsets, in bytes, of its first byte and of the byte after its
/// last.
#[derive(Clone, Copy, Debug, PartialEq, Eq)]
pub struct Span {
    pub start: usize,
    pub end: usize,
}

impl Span {
    /// The bytes of the text at this span, as many of them as the text has. They are not copied.
    pub fn slice_of(self, text: &[u8]) -> &[u8]
        ensures { result.now ≡ slice_of text.now self }
    {
        let tail = text.get(self.start..).unwrap_or(&[]);
        let len = self.end.saturating_sub(self.start);
        tail.get(..len).unwrap_or(tail)
    }
}

/// A token of a text. It does not copy its bytes.
#[derive(Clone, Copy, Debug, PartialEq, Eq)]
pub struct Token {
    pub kind: TokenKind,
    pub span: Span,
}
