//! The line and the column of an offset.

ghost use Rattle.std.specs.Prelude.{◌≡◌, ◌+◌, take};
ghost use Rattle.std.specs.List.{count_by, suffix_len};
ghost use Rattle.refusal_text.specs.Places.{ends_line, is_within};

/// Where in a text a byte stands: its line, and its place in that line in bytes, both from 1.
#[derive(Clone, Copy, Debug, PartialEq, Eq)]
pub struct Place {
    pub line: usize,
    pub column: usize,
}

/// The place of the byte at this offset, or of the end of the text where the text is not so long. A line ends after its
/// line feed.
pub fn place_of(text: &[u8], at: usize) -> Place
    ensures line { result.line ≡ count_by ends_line (take at text.now) + 1 }
    ensures column { result.column ≡ suffix_len is_within (take at text.now) + 1 }
{
    let (mut line, mut column) = (1, 1);
    'bytes: for i in 0..at.min(text.len()) {
        if text[i] == b'\n' {
            line += 1;
            column = 1;
        } else {
            column += 1;
        }
    }
    Place { line, column }
}

/// The bytes of the line in which the byte at this offset stands, without its line feed.
pub fn line_at(text: &[u8], at: usize) -> &[u8] {
    let at = at.min(text.len());
    let start = at - (place_of(text, at).column - 1).min(at);
    'bytes: for end in start..text.len() {
        if text[end] == b'\n' {
            return &text[start..end];
        }
    }
    &text[start..]
}
