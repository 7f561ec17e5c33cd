//! Going over the vertices of a page.

ghost use Rattle.std.specs.Prelude.{◌≡◌};
ghost use Rattle.std.specs.Iterator.{YieldsFirst, item_count};
ghost use Rattle.pages.specs.inside.Entries.{lists_in, AreFrom};

use crate::entry::{ListEntry, list_of};
use crate::neighbours::Neighbours;
use std::marker::Model;

/// The vertices of a page that are still to come, ascending, each with its neighbours.
#[derive(Drop)]
pub struct PageIter<'a> {
    entries: &'a [ListEntry],
    bytes: &'a [u8],
}

impl<'a> Model for PageIter<'a> {
    ghost use Rattle.std.specs.Prelude.{ℕ, ℤ, List};
    ghost use Rattle.pages.specs.inside.Entries.{lists_in, AreFrom};

    ghost Value = { List (ℕ × List (ℕ × ℤ)) };

    ghost view = { λ i. lists_in i.bytes.now i.entries.now };

    ghost invariant = { λ i. AreFrom i.bytes.now i.entries.now };
}

impl<'a> PageIter<'a> {
    /// The vertices of entries with their lists.
    #[inline]
    pub(crate) fn new(entries: &'a [ListEntry], bytes: &'a [u8]) -> PageIter<'a>
        requires { AreFrom bytes.now entries.now }
        ensures { result ≡ lists_in bytes.now entries.now }
    {
        PageIter { entries, bytes }
    }
}

impl<'a> Iterator for PageIter<'a> {
    type Item = (u32, Neighbours<'a>);

    ghost next_gives = { YieldsFirst (λ i. i) };

    ghost remaining = { item_count (λ i. i) };

    #[inline]
    fn next(&mut self) -> Option<(u32, Neighbours<'a>)> {
        let (first, rest) = self.entries.split_first()?;
        self.entries = rest;
        Some((u32::from(first.vertex), list_of(self.bytes, *first)))
    }
}
