//! What a text begins and ends with.

pub(crate) fn begins_with(text: &[u8], word: &[u8]) -> bool {
    text.len() >= word.len() && &text[..word.len()] == word
}

pub(crate) fn ends_with(text: &[u8], word: &[u8]) -> bool {
    text.len() >= word.len() && &text[text.len() - word.len()..] == word
}

/// Whether a text begins with a word, and not with a longer one.
pub(crate) fn begins_word(text: &[u8], word: &[u8]) -> bool {
    begins_with(text, word)
        && match text.get(word.len()) {
            Some(byte) => !byte.is_ascii_alphanumeric() && *byte != b'_',
            None => true,
        }
}

/// The word of this index, from 0, in a text of words with one space between two.
pub(crate) fn word(text: &[u8], index: usize) -> Option<&[u8]> {
    let (mut start, mut spaces) = (0, 0usize);
    'bytes: for i in 0..text.len() {
        if text[i] == b' ' {
            if spaces == index {
                return text.get(start..i);
            }
            spaces = spaces.saturating_add(1);
            start = i + 1;
        }
    }
    if spaces == index {
        text.get(start..)
    } else {
        None
    }
}
