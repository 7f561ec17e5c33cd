//! The place of a fault among the tokens of a text.

use crate::words::word;
use lexer::{LexError, Token, TokenKind, tokens};
use std::alloc::{AllocError, Global};

/// The tokens of a text, and the index of the first that begins at a fault or after it.
#[derive(Clone, Copy)]
pub(crate) struct Spot<'t> {
    pub(crate) text: &'t [u8],
    pub(crate) all: &'t [Token],
    pub(crate) index: usize,
}

/// The tokens of a text, or no tokens if a byte in it begins none. The only error is out of memory.
pub(crate) fn tokens_of(alloc: Global, text: &[u8]) -> Result<Vec<Token>, AllocError> {
    match tokens(alloc, text) {
        Ok(all) => Ok(all),
        Err(LexError::NoMemory) => Err(AllocError),
        Err(_) => Ok(Vec::new(alloc)),
    }
}

/// The place at this offset.
pub(crate) fn spot_at<'t>(text: &'t [u8], all: &'t [Token], at: usize) -> Spot<'t> {
    let index = all
        .iter()
        .position(|token| token.span.start >= at)
        .unwrap_or(all.len());
    Spot { text, all, index }
}

impl<'t> Spot<'t> {
    /// The token that is so many tokens before the fault: the one at the fault is 0 before it.
    pub(crate) fn token(&self, before: usize) -> Option<&'t Token> {
        self.all.get(self.index.checked_sub(before)?)
    }

    /// The bytes of that token, or none if there is no such token.
    pub(crate) fn bytes(&self, before: usize) -> &'t [u8] {
        match self.token(before) {
            Some(token) => token.span.slice_of(self.text),
            None => &[],
        }
    }

    /// The bytes of the token of this index, or none if there is no such token.
    pub(crate) fn bytes_at(&self, index: usize) -> &'t [u8] {
        match self.all.get(index) {
            Some(token) => token.span.slice_of(self.text),
            None => &[],
        }
    }

    /// Whether the token that is so many tokens before the fault is this word; `?` is any name.
    pub(crate) fn is(&self, before: usize, wanted: &[u8]) -> bool {
        match self.token(before) {
            Some(token) if wanted == b"?".as_slice() => token.kind == TokenKind::Name,
            Some(token) => token.span.slice_of(self.text) == wanted,
            None => false,
        }
    }

    /// Whether the tokens before the fault end with these words, which are apart by single spaces.
    pub(crate) fn follows(&self, words: &[u8]) -> bool {
        let spaces = words.iter().filter(|byte| **byte == b' ').count();
        'words: for i in 0..=spaces {
            if !self.is(spaces - i + 1, word(words, i).unwrap_or(&[])) {
                return false;
            }
        }
        true
    }
}
