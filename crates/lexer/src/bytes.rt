//! The bytes that texts of the language are made of, and runs of them.
ghost use Rattle.std.specs.Prelude.{◌≡◌, ◌≢◌, List, ℕ, ◌∷◌, MatchBool};
ghost use Rattle.lexer.specs.Spelling.{is_white, is_letter, is_word_byte, is_quotable, is_in_line};
ghost use Rattle.lexer.specs.inside.Runs.{IsRun};

/// Whether the byte is a space, a tab, a carriage return or a line feed.
#[inline]
pub fn is_white(byte: u8) -> bool
    ensures { result ≡ is_white byte }
{
    byte == b' ' || byte == b'\t' || byte == b'\r' || byte == b'\n'
}

/// Whether a word may begin with the byte.
#[inline]
pub fn is_letter(byte: u8) -> bool
    ensures { result ≡ is_letter byte }
{
    byte.is_ascii_alphabetic() || byte == b'_'
}

/// Whether a word may continue with the byte.
#[inline]
fn is_word_byte(byte: u8) -> bool
    ensures { result ≡ is_word_byte byte }
{
    is_letter(byte) || byte.is_ascii_digit()
}

/// Whether a text in quotes may have the byte between them.
#[inline]
fn is_quotable(byte: u8) -> bool
    ensures { result ≡ is_quotable byte }
{
    b' ' <= byte && byte <= b'~' && byte != b'"'
}

/// How many white bytes are at the front.
#[inline]
pub fn white_len(bytes: &[u8]) -> usize
    ensures { IsRun is_white bytes.now result }
{
    match bytes.iter().position(|byte| !is_white(*byte)) {
        Some(len) => len,
        None => bytes.len(),
    }
}

/// How many bytes of a word are at the front.
#[inline]
pub fn word_len(bytes: &[u8]) -> usize
    ensures { IsRun is_word_byte bytes.now result }
{
    match bytes.iter().position(|byte| !is_word_byte(*byte)) {
        Some(len) => len,
        None => bytes.len(),
    }
}

/// How many bytes that may be between quotes are at the front.
#[inline]
pub fn quotable_len(bytes: &[u8]) -> usize
    ensures { IsRun is_quotable bytes.now result }
{
    match bytes.iter().position(|byte| !is_quotable(*byte)) {
        Some(len) => len,
        None => bytes.len(),
    }
}

/// How many bytes are before the first line feed, or at all.
#[inline]
pub fn line_len(bytes: &[u8]) -> usize
    ensures { IsRun is_in_line bytes.now result }
{
    match bytes.iter().position(|byte| *byte == b'\n') {
        Some(len) => len,
        None => bytes.len(),
    }
}

/// Whether this is the first of the bytes.
#[inline]
pub fn begins_with(bytes: &[u8], byte: u8) -> bool
    ensures { MatchBool result
        ((others : List ℕ) × (bytes.now ≡ byte ∷ others))
        ((others : List ℕ) → bytes.now ≢ byte ∷ others) }
{
    bytes.first() == Some(&byte)
}
