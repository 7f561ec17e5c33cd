//! The pieces of a text between its separators.
ghost use Rattle.std.specs.Prelude.{◌≡◌, ◌<◌, ◌↔◌, ℕ, List, [], ◌∷◌, ◌++◌, ◌+◌, length, take, drop, IsNone, IfSome, MatchOption};
ghost use Rattle.scripts.specs.Commands.{HasNone, lines_of, JoinsAgain, IsFirstPiece, HasLastLine};
ghost use Rattle.scripts.specs.inside.Parsing.{IsCutAt};

use memchr::memchr;

/// The first line, without its line feed, and what is after that line feed; or `None` where the
/// bytes have no line feed, so that they are one line. The time goes by the line, not by the rest.
pub fn split_line(bytes: &[u8]) -> Option<(&[u8], &[u8])>
    // The line feed is byte 10.
    ensures none { IsNone result ↔ HasNone 10 bytes.now }
    ensures cut { IfSome result (λ parts.
        (bytes.now ≡ parts.0.now ++ 10 ∷ parts.1.now) × HasNone 10 parts.0.now) }
    ensures lines { MatchOption result
        (lines_of bytes.now ≡ bytes.now ∷ [])
        (λ parts. lines_of bytes.now ≡ parts.0.now ∷ lines_of parts.1.now) }
    ensures shorter { IfSome result (λ parts. length parts.1.now < length bytes.now) }
{
    split_at_line_feed(bytes)
}

/// What is before the first line feed, and what is after it.
fn split_at_line_feed(bytes: &[u8]) -> Option<(&[u8], &[u8])>
    ensures { IsCutAt 10 bytes.now result }
{
    let end = memchr(b'\n', bytes)?;
    Some(around(bytes, end))
}

/// What is before the first separator, and what is after it. It is for words: short pieces take less time than by `memchr`.
#[inline]
pub(crate) fn split_piece(bytes: &[u8], separator: u8) -> Option<(&[u8], &[u8])>
    ensures { IsCutAt separator bytes.now result }
{
    let end = bytes.iter().position(|byte| *byte == separator)?;
    Some(around(bytes, end))
}

/// What is before an index, and what is after it.
#[inline]
fn around(bytes: &[u8], index: usize) -> (&[u8], &[u8])
    requires { index < length bytes.now }
    ensures before { result.0.now ≡ take index bytes.now }
    ensures after { result.1.now ≡ drop (index + 1) bytes.now }
{
    (&bytes[..index], &bytes[index + 1..])
}

/// The law that the pieces of a text, joined by the separator, are the text again, and that no other
/// parts without the separator are. The call does nothing.
pub fn joined_pieces()
    ensures { (c : ℕ) (text : List ℕ) → JoinsAgain c text }
{}

/// The law that the first piece of a text ends at its first separator. The call does nothing.
pub fn first_piece()
    ensures { (c : ℕ) (front : List ℕ) → HasNone c front → IsFirstPiece c front }
{}

/// The law that the lines of a text are those that a line feed has ended and one more, which stands
/// after the last line feed. The call does nothing.
pub fn last_line()
    ensures { (text : List ℕ) → HasLastLine text }
{}
