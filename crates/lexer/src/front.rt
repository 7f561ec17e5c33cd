//! What is at the front of bytes: the longest piece, or a fault.
ghost use Rattle.std.specs.Prelude.{◌≡◌, ◌≢◌, ◌+◌, ◌^◌, ◌<◌, ℕ, true, List, ◌∷◌, length, slice_index, MatchBool};
ghost use Rattle.std.specs.Char.{is_ascii_digit};
ghost use Rattle.lexer.specs.Spelling.{Every, is_letter, is_word_byte};
ghost use Rattle.lexer.specs.inside.Runs.{Punctuation, class_of, IsFront, IsReduction, IsPair};
ghost use Rattle.lexer.specs.Tokens.{IsWord, IsName};

use crate::bytes::{begins_with, is_letter, is_white, line_len, quotable_len, white_len, word_len};
use crate::keyword::keyword_of;
use crate::symbol::{Symbol, pair_symbol, single_symbol};
use crate::token::TokenKind;
use decimal::leading_digits;

/// What is at the front of bytes. Lengths are in bytes.
#[derive(Clone, Copy, Debug, PartialEq, Eq)]
pub(crate) enum Front {
    /// White bytes, or a comment.
    Gap(usize),
    Token(TokenKind, usize),
    BadByte,
    NumberTooLarge,
    UnfinishedText,
}

/// What is at the front of some bytes.
#[inline]
pub(crate) fn read_front(bytes: &[u8]) -> Front
    requires { 0 < length bytes.now }
    ensures { IsFront bytes.now result }
{
    let first = bytes[0];
    let (_, rest) = bytes.split_at(1);
    if is_white(first) {
        Front::Gap(white_len(bytes))
    } else if is_letter(first) {
        word(bytes)
    } else if first.is_ascii_digit() {
        number(bytes)
    } else if first == b'#' {
        label(rest)
    } else if first == b'"' {
        quoted(rest)
    } else if first == b'/' && begins_with(rest, b'/') {
        Front::Gap(line_len(bytes))
    } else {
        symbol(first, rest)
    }
}

/// A name, a keyword, or `min=` or `max=`.
#[inline]
fn word(bytes: &[u8]) -> Front
    requires some { 0 < length bytes.now }
    requires letter { is_letter (slice_index bytes.now 0) ≡ true }
    ensures { IsFront bytes.now result }
{
    let len = word_len(bytes);
    let (text, rest) = bytes.split_at(len);
    if let Some(symbol) = reduction(text, rest) {
        return Front::Token(TokenKind::Symbol(symbol), len + 1);
    }
    match keyword_of(text) {
        Some(keyword) => Front::Token(TokenKind::Keyword(keyword), len),
        None => Front::Token(TokenKind::Name, len),
    }
}

/// The symbol that the word and the `=` right after it are.
#[inline]
fn reduction(word: &[u8], rest: &[u8]) -> Option<Symbol>
    requires { IsWord word.now }
    ensures { IsReduction word.now rest.now result }
{
    if !begins_with(rest, b'=') {
        return None;
    }
    match word {
        b"min" => Some(Symbol::MinAssign),
        b"max" => Some(Symbol::MaxAssign),
        _ => None,
    }
}

/// A number.
#[inline]
fn number(bytes: &[u8]) -> Front
    requires some { 0 < length bytes.now }
    requires digit { is_ascii_digit (slice_index bytes.now 0) ≡ true }
    ensures { IsFront bytes.now result }
{
    match leading_digits(bytes) {
        Some((value, len)) => match i64::try_from(value) {
            Ok(number) => Front::Token(TokenKind::Number(number), len),
            Err(_) => Front::NumberTooLarge,
        },
        None => Front::NumberTooLarge,
    }
}

/// A label, given what is after its first `#`: a name and another `#`.
#[inline]
fn label(inside: &[u8]) -> Front
    requires { length inside.now + 1 < 2 ^ 64 }
    ensures { IsFront (35 ∷ inside.now) result }
{
    let len = word_len(inside);
    let (name, rest) = inside.split_at(len);
    if begins_with(rest, b'#') && is_name(name) {
        Front::Token(TokenKind::Label, len + 2)
    } else {
        Front::BadByte
    }
}

/// Whether bytes of a word are a name.
#[inline]
fn is_name(bytes: &[u8]) -> bool
    requires { Every is_word_byte bytes.now }
    ensures { MatchBool result (IsName bytes.now) (IsName bytes.now → ⊥) }
{
    match bytes.first() {
        Some(first) => is_letter(*first) && keyword_of(bytes).is_none(),
        None => false,
    }
}

/// A text in quotes, given what is after its first quote.
#[inline]
fn quoted(inside: &[u8]) -> Front
    requires { length inside.now + 1 < 2 ^ 64 }
    ensures { IsFront (34 ∷ inside.now) result }
{
    let len = quotable_len(inside);
    let (_, rest) = inside.split_at(len);
    if begins_with(rest, b'"') {
        Front::Token(TokenKind::Text, len + 2)
    } else {
        Front::UnfinishedText
    }
}

/// A symbol, given its first byte and what is after that, which together begin no comment.
#[inline]
fn symbol(first: u8, rest: &[u8]) -> Front
    requires class { class_of first ≡ Punctuation }
    requires no_comment { (others : List ℕ) → first ∷ rest.now ≢ 47 ∷ 47 ∷ others }
    ensures { IsFront (first ∷ rest.now) result }
{
    if let Some(symbol) = pair_at(first, rest) {
        return Front::Token(TokenKind::Symbol(symbol), 2);
    }
    match single_symbol(first) {
        Some(symbol) => Front::Token(TokenKind::Symbol(symbol), 1),
        None => Front::BadByte,
    }
}

/// The symbol of a byte and of the next one.
#[inline]
fn pair_at(first: u8, rest: &[u8]) -> Option<Symbol>
    ensures { IsPair first rest.now result }
{
    pair_symbol(first, *rest.first()?)
}
