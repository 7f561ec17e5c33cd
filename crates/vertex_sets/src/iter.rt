//! The members in ascending order.

ghost use Rattle.std.specs.Prelude.{◌≡◌, ◌+◌, ◌*◌, ◌^◌, ◌<◌, ◌≤◌, length};
ghost use Rattle.std.specs.Iterator.{YieldsFirst, item_count};
ghost use Rattle.vertex_sets.specs.inside.Words.{flag_members, word_members};

use std::marker::Model;

/// The members of a set that are still to come, ascending.
#[derive(Drop)]
pub struct VertexIter<'a> {
    members: Rest<'a>,
}

/// What is still to come, in each form.
#[derive(Drop)]
pub(crate) enum Rest<'a> {
    Listed(&'a [u32]),
    Flagged(FlagIter<'a>),
    Worded(WordIter<'a>),
}

impl<'a> Model for VertexIter<'a> {
    ghost use Rattle.std.specs.Prelude.{ℕ, List};
    ghost use Rattle.vertex_sets.specs.inside.Remaining.{members_left};

    ghost Value = { List ℕ };

    ghost view = { λ i. members_left i.members };
}

impl<'a> VertexIter<'a> {
    /// The elements of a list.
    #[inline]
    pub(crate) fn of_list(list: &'a [u32]) -> VertexIter<'a>
        ensures { result ≡ list.now }
    {
        VertexIter {
            members: Rest::Listed(list),
        }
    }

    /// The vertices whose flags are true.
    #[inline]
    pub(crate) fn of_flags(flags: &'a [bool]) -> VertexIter<'a>
        requires { length flags.now < 2 ^ 32 }
        ensures { result ≡ flag_members 0 flags.now }
    {
        VertexIter {
            members: Rest::Flagged(FlagIter::new(flags)),
        }
    }

    /// The vertices whose bits are set.
    #[inline]
    pub(crate) fn of_words(words: &'a [u64]) -> VertexIter<'a>
        requires { 64 * length words.now ≤ 2 ^ 32 }
        ensures { result ≡ word_members 0 words.now }
    {
        VertexIter {
            members: Rest::Worded(WordIter::new(words)),
        }
    }
}

impl<'a> Iterator for VertexIter<'a> {
    type Item = u32;

    ghost next_gives = { YieldsFirst (λ i. i) };

    ghost remaining = { item_count (λ i. i) };

    #[inline(always)]
    fn next(&mut self) -> Option<u32> {
        match &mut self.members {
            Rest::Listed(list) => {
                let (first, rest) = list.split_first()?;
                *list = rest;
                Some(*first)
            }
            Rest::Flagged(flags) => flags.next(),
            Rest::Worded(words) => words.next(),
        }
    }
}

/// The vertices of flags that are true, where the first flag is that of vertex `from`.
#[derive(Drop)]
pub(crate) struct FlagIter<'a> {
    from: u32,
    flags: &'a [bool],
}

impl<'a> Model for FlagIter<'a> {
    ghost use Rattle.std.specs.Prelude.{ℕ, List, ◌+◌, ◌^◌, ◌<◌, length};
    ghost use Rattle.vertex_sets.specs.inside.Words.{flag_members};

    ghost Value = { List ℕ };

    ghost view = { λ i. flag_members i.from i.flags.now };

    ghost invariant = { λ i. i.from + length i.flags.now < 2 ^ 32 };
}

impl<'a> FlagIter<'a> {
    #[inline]
    fn new(flags: &'a [bool]) -> FlagIter<'a>
        requires { length flags.now < 2 ^ 32 }
        ensures { result ≡ flag_members 0 flags.now }
    {
        FlagIter { from: 0, flags }
    }
}

impl<'a> Iterator for FlagIter<'a> {
    type Item = u32;

    ghost next_gives = { YieldsFirst (λ i. i) };

    ghost remaining = { item_count (λ i. i) };

    #[inline(always)]
    fn next(&mut self) -> Option<u32> {
        while let Some((flag, flags)) = self.flags.split_first() {
            let vertex = self.from;
            self.flags = flags;
            self.from = vertex + 1;
            if *flag {
                return Some(vertex);
            }
        }
        None
    }
}

/// The vertices of bits that are set: in `word`, whose lowest bit is that of vertex `from`, and then in
/// the words after it.
#[derive(Drop)]
pub(crate) struct WordIter<'a> {
    from: u32,
    word: u64,
    words: &'a [u64],
}

impl<'a> Model for WordIter<'a> {
    ghost use Rattle.std.specs.Prelude.{ℕ, List, ◌+◌, ◌*◌, ◌^◌, ◌≤◌, ◌++◌, length};
    ghost use Rattle.vertex_sets.specs.inside.Words.{bit_members, word_members};

    ghost Value = { List ℕ };

    ghost view = { λ i. bit_members 64 i.from i.word ++ word_members (i.from + 64) i.words.now };

    ghost invariant = { λ i. i.from + 64 + 64 * length i.words.now ≤ 2 ^ 32 };
}

impl<'a> WordIter<'a> {
    #[inline]
    fn new(words: &'a [u64]) -> WordIter<'a>
        requires { 64 * length words.now ≤ 2 ^ 32 }
        ensures { result ≡ word_members 0 words.now }
    {
        match words.split_first() {
            Some((word, words)) => WordIter {
                from: 0,
                word: *word,
                words,
            },
            None => WordIter {
                from: 0,
                word: 0,
                words,
            },
        }
    }
}

impl<'a> Iterator for WordIter<'a> {
    type Item = u32;

    ghost next_gives = { YieldsFirst (λ i. i) };

    ghost remaining = { item_count (λ i. i) };

    #[inline(always)]
    fn next(&mut self) -> Option<u32> {
        while self.word == 0 {
            match self.words.split_first() {
                Some((word, words)) => {
                    self.from += 64;
                    self.word = *word;
                    self.words = words;
                }
                None => return None,
            }
        }
        let bit = self.word.trailing_zeros();
        self.word &= self.word - 1;
        Some(self.from + bit)
    }
}
