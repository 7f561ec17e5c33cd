//! A text that is at hand, as a reader.
ghost use Rattle.std.specs.Prelude.{◌≡◌, ◌≤◌, ◌+◌, ◌-◌, true, false, ℕ, List, [], length, take, Some, None};
ghost use Rattle.std.specs.Global.{Vec};

use crate::traits::Feed;
use std::io;
use std::marker::{Brand, PhantomData};

/// The text that a [`TextFeed`] gives, for contracts alone: who makes one picks it by `Brand`.
pub trait Text {
    ghost text: { List ℕ };
}

impl Text for Brand {
    ghost text = { [] };
}

/// A reader of a text that is at hand, from its first byte. It has given a first part of the text, it ends after
/// the whole text, and it never fails. It gives the text's memory back with the last byte.
#[derive(Drop)]
pub struct TextFeed<T: Text> {
    // The text, until its last byte is given.
    text: Option<Vec<u8>>,
    count: usize,
    is_ended: bool,
    of: PhantomData<T>,
    ghost same: { (bytes : Vec ℕ) → text ≡ Some bytes → bytes.items ≡ T.text },
    ghost within: { count ≤ length T.text },
    ghost given: { text ≡ None → length T.text ≤ count },
    ghost whole: { is_ended ≡ true → length T.text ≤ count },
}

impl<T: Text> TextFeed<T> {
    /// A reader that has given nothing of a text.
    pub fn new(text: Vec<u8>) -> TextFeed<T>
        requires { text.items ≡ T.text }
        ensures count { result.count ≡ 0 }
        ensures not_ended { result.is_ended ≡ false }
    {
        TextFeed {
            text: Some(text),
            count: 0,
            is_ended: false,
            of: PhantomData,
        }
    }
}

impl<T: Text> Feed for TextFeed<T> {
    ghost bytes_read = { λ f. take f.count T.text };

    ghost ended = { λ f. f.is_ended };

    ghost failures = { λ _. 0 };

    ghost reads_left = { λ f. length T.text - f.count };

    /// Gives the next bytes of the text, as many as the buffer has room for.
    fn read(&mut self, buffer: &mut [u8]) -> io::Result<usize> {
        let Some(text) = &self.text else {
            self.is_ended = self.is_ended || !buffer.is_empty();
            return Ok(0);
        };
        let rest = &text[self.count..];
        let count = buffer.len().min(rest.len());
        buffer[..count].copy_from_slice(&rest[..count]);
        let is_all = count == rest.len();
        self.is_ended = self.is_ended || (count == 0 && !buffer.is_empty());
        self.count += count;
        if is_all {
            self.text = None;
        }
        Ok(count)
    }
}
