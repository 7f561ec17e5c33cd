//! Beginnings of the shared history.

ghost use Rattle.std.specs.Prelude.{◌≡◌, ◌++◌, ◌∷◌, [], length, MatchBool};
ghost use mathlib.Core.List.{IsPrefix};
ghost use Rattle.version_list.specs.Machine.{opened};
ghost use Rattle.version_list.specs.Timeline.{IsLegal};
ghost use Rattle.shared_graph.specs.Histories.{steps_of};
ghost use Rattle.shared_graph.specs.inside.Histories.{MayFollow};

use crate::book::{Add, Added, Book, Law, Nothing};
use crate::entry::Entry;
use crate::naming::Naming;
use logbook::{Offer, Seen};
use std::marker::{Model, PhantomData};
use std::snapshot::Snapshot;
use version_list::Done;

/// A beginning of the shared history that was seen, of which the code keeps the length alone.
/// Contracts see it as its entries.
pub(crate) struct HistoryPrefix<J: Naming> {
    count: u64,
    seen: Seen<Entry, u64, Law>,
    of: PhantomData<J>,
}

impl<J: Naming> Drop for HistoryPrefix<J> {
    fn drop(self) {
        let HistoryPrefix {
            count: _,
            seen: _,
            of: _,
        } = self;
    }
}

impl<J: Naming> Model for HistoryPrefix<J> {
    ghost use Rattle.std.specs.Prelude.{◌≡◌, List, length};
    ghost use Rattle.version_list.specs.Machine.{opened};
    ghost use Rattle.version_list.specs.Timeline.{IsLegal};
    ghost use Rattle.shared_graph.specs.declared.entry.Entry.{Entry};
    ghost use Rattle.shared_graph.specs.Histories.{steps_of};

    ghost Value = { List Entry };

    ghost view = { λ f. f.seen.log };

    ghost invariant = { λ f. (f.count ≡ length f.seen.log) × (f.seen.book ≡ J.book)
        × IsLegal (opened J.vertices J.room) (steps_of f.seen.log) };
}

impl<J: Naming> HistoryPrefix<J> {
    /// The prefix that has seen nothing.
    pub(crate) fn first(seen: Seen<Entry, u64, Law>) -> HistoryPrefix<J>
        requires { (seen.book ≡ J.book) × (seen.log ≡ []) }
        ensures { result ≡ [] }
    {
        HistoryPrefix {
            count: 0,
            seen,
            of: PhantomData,
        }
    }

    /// What was seen of a legal history of n entries.
    pub(crate) fn of_seen(seen: Seen<Entry, u64, Law>, count: u64) -> HistoryPrefix<J>
        requires book { seen.book ≡ J.book }
        requires count { count ≡ length seen.log }
        requires legal { IsLegal (opened J.vertices J.room) (steps_of seen.log) }
        ensures { result ≡ seen.log }
    {
        HistoryPrefix {
            count,
            seen,
            of: PhantomData,
        }
    }

    /// How many entries it has.
    pub(crate) fn len(&self) -> u64
        ensures length { result ≡ length self.now }
        ensures legal { IsLegal (opened J.vertices J.room) (steps_of self.now) }
    {
        self.count
    }

    /// A copy.
    pub(crate) fn again(&self) -> HistoryPrefix<J>
        ensures { result ≡ self.now }
    {
        HistoryPrefix {
            count: self.count,
            seen: self.seen.again(),
            of: PhantomData,
        }
    }

    /// The token that this was seen.
    pub(crate) fn seen(&self) -> Seen<Entry, u64, Law>
        ensures book { result.book ≡ J.book }
        ensures log { result.log ≡ self.now }
    {
        self.seen.again()
    }

    /// Whether the other prefix begins with this one; else this one begins with the other.
    pub(crate) fn begins(&self, other: &HistoryPrefix<J>) -> bool
        ensures { MatchBool result (IsPrefix self.now other.now) (IsPrefix other.now self.now) }
    {
        let mut both = self.seen.again();
        both.learn(&other.seen);
        self.count <= other.count
    }

    /// The longer of two prefixes, which the other begins.
    pub(crate) fn longer(&self, other: &HistoryPrefix<J>) -> HistoryPrefix<J>
        ensures this { IsPrefix self.now result }
        ensures that { IsPrefix other.now result }
        ensures legal { IsLegal (opened J.vertices J.room) (steps_of result) }
    {
        if self.begins(other) {
            other.again()
        } else {
            self.again()
        }
    }

    /// Adds a reader's step to all that was seen, and says whether it did. It did not where the
    /// history is longer.
    pub(crate) fn add(&mut self, book: &Book<J>, by: u64, done: &Done) -> bool
        requires follows { MayFollow (opened J.vertices J.room) self.old done.now }
        ensures { MatchBool result (self.new ≡ self.old ++ record { by = by; done = done.now } ∷ [])
            (self.new ≡ self.old) }
    {
        let mut seen = self.seen.again();
        let added = Added {
            by,
            done: Snapshot::of(done),
        };
        let mut offer: Offer<Entry, u64, Law, Nothing> = seen.plain::<Nothing, Added, Add>(&added);
        let mut pen = seen.no_pen();
        let count = self.count;
        let next = count + 1;
        let found = book
            .count
            .compare_exchange::<Add, Nothing>(count, next, &mut seen, &mut offer, &mut pen);
        if found != count {
            return false;
        }
        self.seen = seen;
        self.count = next;
        true
    }
}
