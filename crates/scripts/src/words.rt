//! The words of a line, read from the front.
ghost use Rattle.std.specs.Prelude.{◌≡◌, ◌^◌, ℕ, List, [], ◌∷◌, IsTrue, ◌↔◌, MatchOption};
ghost use Rattle.scripts.specs.Commands.{words_of};
ghost use Rattle.scripts.specs.inside.Parsing.{words_left, IsFirstInteger, IsFirstNumber};

use crate::pieces::split_piece;
use decimal::{integer, leading_digits};
use std::marker::Model;

/// The words of a line that are not read yet. A contract sees them as the list of those words.
#[derive(Drop)]
pub(crate) struct Words<'a> {
    // What is after the space after the last word that was read, or `None` after the last word.
    rest: Option<&'a [u8]>,
}

impl<'a> Model for Words<'a> {
    ghost Value = { List (List ℕ) };

    ghost view = { λ words. words_left words.rest };
}

impl<'a> Words<'a> {
    /// All words of a line.
    #[inline]
    pub(crate) fn new(line: &'a [u8]) -> Self
        ensures { result ≡ words_of line.now }
    {
        Words { rest: Some(line) }
    }

    /// Whether no word is left.
    #[inline]
    pub(crate) fn is_empty(&self) -> bool
        ensures { IsTrue result ↔ (self.now ≡ []) }
    {
        self.rest.is_none()
    }

    /// Reads the next word, if there is one.
    #[inline]
    #[tactic(auto, using(crate::proofs::PieceLaws::pieces_alone, crate::proofs::PieceLaws::pieces_before))]
    pub(crate) fn take_word(&mut self) -> Option<&'a [u8]>
        ensures { MatchOption result (self.old ≡ []) (λ word. self.old ≡ word.now ∷ self.new) }
    {
        let rest = self.rest?;
        match split_piece(rest, b' ') {
            None => {
                self.rest = None;
                Some(rest)
            }
            Some((word, after)) => {
                self.rest = Some(after);
                Some(word)
            }
        }
    }

    /// Reads the next word, where it is a number below 2^64. After `None` the words may be any.
    #[inline]
    pub(crate) fn take_number(&mut self) -> Option<u64>
        ensures { IsFirstNumber (2 ^ 64) self.old self.new result }
    {
        let rest = self.rest?;
        let (number, len) = leading_digits(rest)?;
        if len == 0 {
            return None;
        }
        match rest.get(len) {
            None => self.rest = None,
            Some(b' ') => self.rest = Some(&rest[len + 1..]),
            Some(_) => return None,
        }
        Some(number)
    }

    /// Reads the next word, where it is an integer of 64 bits. After `None` the words may be any.
    #[inline]
    pub(crate) fn take_integer(&mut self) -> Option<i64>
        ensures { IsFirstInteger self.old self.new result }
    {
        integer(self.take_word()?)
    }

    /// Reads the next word, where it is a number below 2^32. After `None` the words may be any.
    #[inline]
    pub(crate) fn take_short_number(&mut self) -> Option<u32>
        ensures { IsFirstNumber (2 ^ 32) self.old self.new result }
    {
        u32::try_from(self.take_number()?).ok()
    }
}
