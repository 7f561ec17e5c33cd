//! A whole source.
ghost use Rattle.std.specs.Prelude.{◌≡◌, ◌-◌, ◌≤◌, ℕ, List, Result, Ok, Err, drop, length, IfOk};
ghost use Rattle.parser.specs.inside.Readers.{terminals};
ghost use Rattle.syntax.specs.Offsets.{StandWhere};
ghost use Rattle.syntax.specs.SourceReading.{source_at};
ghost use Rattle.syntax.specs.SourceSpelling.{source_terminals};
ghost use Rattle.syntax.specs.SourceTrees.{SourceTree};
ghost use Rattle.parser.specs.declared.error.ParseError.{ParseError};
ghost use Rattle.parser.specs.Outcome.{Answers, Parses, StandsIn, beginning_of, tree_or_error, without_place};
ghost use Rattle.parser.specs.inside.Outcome.{GivesSource};

use crate::cursor::Cursor;
use crate::declaration::declarations;
use crate::error::ParseError;
use crate::schedule::schedule;
use crate::syntax_error::SyntaxError;
use lexer::{Keyword, Token, TokenKind, tokens};
use std::alloc::Global;
use syntax::{Source, first_too_deep};

/// The source that a text is. The text may have any bytes.
///
/// The errors, of which the first that fits is given: `BadByte`, `NumberTooLarge` and `UnfinishedText`
/// where the text has no tokens, at its first fault; `TooDeep` at the first token with which more than
/// [`NESTING_LIMIT`](syntax::NESTING_LIMIT) are open, whether or not the tokens are a source;
/// `Unexpected` where they are none, at the first token after which no text is in the grammar, or at the
/// length of the text where the tokens are all a beginning. `NoMemory` may come at any time.
///
/// The time is in proportion to the length of the text. No call goes deeper than the nesting limit, and
/// names and texts in quotes are copied once.
pub fn parse(alloc: Global, text: &[u8]) -> Result<Source, ParseError>
    ensures answers { Answers text.now (tree_or_error result) }
    ensures length { IfOk result (λ source. source.length ≡ length text.now) }
{
    let tokens = tokens(alloc, text)?;
    let cursor = Cursor::new(text, &tokens);
    if let Some(at) = first_too_deep(&tokens) {
        return Err(ParseError::TooDeep { at });
    }
    match whole(alloc, cursor, text.len()) {
        Ok(source) => Ok(source),
        Err(SyntaxError::Unexpected { left }) => Err(ParseError::Unexpected {
            at: beginning_of_last(text, &tokens, left),
        }),
        Err(SyntaxError::NoMemory) => Err(ParseError::NoMemory),
    }
}

/// The offset at which the last so many tokens of a text begin, or the text's length where there are none.
fn beginning_of_last(text: &[u8], tokens: &[Token], left: usize) -> usize
    ensures { result ≡ beginning_of text.now (drop (length tokens.now - left) tokens.now) }
{
    match tokens.get(tokens.len().saturating_sub(left)) {
        Some(token) => token.span.start,
        None => text.len(),
    }
}

/// The law that a text has one answer: it is one source, or it has one fault and no other, but for the
/// offset at which a text leaves the grammar. The call does nothing.
pub fn one_answer()
    ensures { (text : List ℕ) (answer other : Result SourceTree ParseError) → Parses text answer → Parses text other
        → without_place answer ≡ without_place other }
{}

/// The law that a refusal is in the text, or at its end. The call does nothing.
pub fn refusals_stand_in_the_text()
    ensures { (text : List ℕ) (error : ParseError) → Parses text (Err error) → StandsIn text error }
{}

/// The law that in a source each name, each label, and each keyword that begins a declaration, a statement or a call of
/// the schedule is in the text. The call does nothing.
pub fn sources_stand_in_the_text()
    ensures { (text : List ℕ) (source : SourceTree) → Parses text (Ok source) → StandWhere (λ at. at ≤ length text) (source_terminals source) }
{}

/// With what each source begins.
static ELEMENTS: [TokenKind; 6] = [
    TokenKind::Keyword(Keyword::Element),
    TokenKind::Keyword(Keyword::Vertex),
    TokenKind::Keyword(Keyword::End),
    TokenKind::Keyword(Keyword::Element),
    TokenKind::Keyword(Keyword::Edge),
    TokenKind::Keyword(Keyword::End),
];

/// The source that all tokens are, of a text of this length.
fn whole(alloc: Global, cursor: Cursor<'_>, len: usize) -> Result<Source, SyntaxError>
    ensures reads { GivesSource result (source_at (terminals cursor.entry)) }
    ensures length { IfOk result (λ source. source.length ≡ len) }
{
    let rest = cursor.expect_all(&ELEMENTS)?;
    let (declarations, left) = declarations(alloc, rest)?;
    let (schedule, end) = schedule(alloc, left)?;
    match end.next() {
        Some(_) => Err(end.unexpected()),
        None => Ok(Source {
            declarations,
            schedule,
            length: len,
        }),
    }
}
