//! The history that all threads share. Threads share its length alone, one word; its entries are in the proofs.

ghost use Rattle.std.specs.Prelude.{◌≡◌, []};
ghost use Rattle.shared_graph.specs.inside.Book.{count_of};

use crate::entry::Entry;
use crate::history_prefix::HistoryPrefix;
use crate::naming::Naming;
use logbook::{Gain, Plain, Play, Rule, Seen, Start, Word};
use std::marker::{Model, PhantomData};
use std::snapshot::Snapshot;
use version_list::Done;

/// The rule of a book: its word is the length of the history.
pub(crate) struct Law;

impl Rule<Entry, u64> for Law {
    ghost use Rattle.std.specs.Prelude.{[]};
    ghost use base.Fml.{ftrue};
    ghost use Rattle.shared_graph.specs.inside.Book.{IsCounted};

    ghost holds = { λ cells log. IsCounted cells log };

    ghost first = { [] };

    ghost hinted = { λ n log. Unit {0} };

    ghost shows = { λ log. [] };

    ghost keeps = { λ names log. ftrue };

    ghost moves = { λ ask before after answer. Unit {0} };
}

/// Callers trade nothing.
pub(crate) struct Nothing;

impl Gain<Entry, u64> for Nothing {
    ghost use base.Fml.{ftrue};

    ghost after = { λ names about answer. ftrue };
}

/// A step that adds an entry.
pub(crate) struct Add;

impl Play<Entry, u64> for Add {
    ghost use Rattle.shared_graph.specs.inside.Book.{Adds};

    ghost then = { Adds };
}

/// The entry that a step adds. It takes no room: contracts see the step.
#[derive(Drop)]
pub(crate) struct Added {
    pub(crate) by: u64,
    pub(crate) done: Snapshot<Done>,
}

impl Plain<Added, Entry, u64> for Add {
    ghost use Rattle.std.specs.Prelude.{None};

    ghost ask = { λ added. record { by = added.by; done = added.done.value } };

    ghost state = { λ added. None };
}

/// A history that has not begun, of which a shared graph is made. Contracts see it as its book.
pub struct Opening {
    count: Word<Entry, u64, Law>,
    seen: Seen<Entry, u64, Law>,
}

impl Model for Opening {
    ghost use Rattle.std.specs.Prelude.{◌≡◌, []};
    ghost use Rattle.logbook.specs.Pages.{Book};
    ghost use Rattle.shared_graph.specs.inside.Book.{count_of};

    ghost Value = { Book };

    ghost view = { λ o. o.seen.book };

    ghost invariant = { λ o. (o.seen.log ≡ []) × (o.count ≡ count_of o.seen.book) };
}

impl Drop for Opening {
    fn drop(self) {
        let Opening { count: _, seen: _ } = self;
    }
}

impl Opening {
    /// A history of its own. It takes no memory.
    pub fn new() -> Opening {
        let (seen, mut first, _second) = Seen::open(Start::alone(), 0, 0);
        Opening {
            count: Word::tracked(0, &mut first),
            seen,
        }
    }

    /// The history under a name: its word, and the prefix that has seen nothing.
    pub(crate) fn named<J: Naming>(self) -> (Book<J>, HistoryPrefix<J>)
        requires { self ≡ J.book }
        ensures { result.1 ≡ [] }
    {
        let Opening { count, seen } = self;
        let book = Book {
            count,
            of: PhantomData,
        };
        (book, HistoryPrefix::first(seen))
    }
}

/// The word that all threads share: the length of the history.
#[derive(Drop)]
pub(crate) struct Book<J: Naming> {
    pub(crate) count: Word<Entry, u64, Law>,
    of: PhantomData<J>,
    pub(crate) ghost count_is: { count ≡ count_of J.book },
}
