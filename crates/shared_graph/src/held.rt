//! Versions that are held.

ghost use Rattle.std.specs.Prelude.{◌≡◌};
ghost use Rattle.std.specs.Arc.{arc_value};
ghost use Rattle.shared_graph.specs.Histories.{IsVersionOf};

use crate::error::SharedError;
use crate::history_prefix::HistoryPrefix;
use crate::naming::Naming;
use crate::reader::Token;
use crate::snapshot::Snapshot;
use std::marker::Model;
use version_list::Ticket;

/// A version that is held by a ticket, and the history at whose end it was held, of which it is a
/// version. It is not dropped: give it to [`SharedGraph::release`](crate::SharedGraph::release), or
/// spend it by [`Held::into_snapshot`].
pub struct Held<J: Naming> {
    ticket: Ticket,
    snapshot: Snapshot,
    history: HistoryPrefix<J>,
}

impl<J: Naming> Model for Held<J> {
    ghost use Rattle.std.specs.Arc.{arc_value};
    ghost use Rattle.shared_graph.specs.Holding.{Hold};
    ghost use Rattle.shared_graph.specs.Histories.{IsVersionOf};

    ghost Value = { Hold };

    ghost view = { λ h. record { ticket = h.ticket.number; version = h.snapshot.number; graph = arc_value h.snapshot.graph; history = h.history } };

    ghost invariant = { λ h. IsVersionOf J.vertices h.history h.snapshot.number (arc_value h.snapshot.graph) };
}

impl<J: Naming> Held<J> {
    pub(crate) fn new(ticket: Ticket, snapshot: Snapshot, history: &HistoryPrefix<J>) -> Held<J>
        requires { IsVersionOf J.vertices history.now snapshot.number (arc_value snapshot.graph) }
        ensures { result ≡ record { ticket = ticket.number; version = snapshot.number; graph = arc_value snapshot.graph; history = history.now } }
    {
        Held {
            ticket,
            snapshot,
            history: history.again(),
        }
    }

    /// The ticket's number.
    pub fn ticket(&self) -> Ticket
        ensures { result.number ≡ self.now.ticket }
    {
        self.ticket
    }

    /// The version that is held: its graph is the fold of the first batches of the history at whose
    /// end it was held, as many as its number says. Takes no memory.
    pub fn snapshot(&self) -> &Snapshot
        ensures number { result.now.number ≡ self.now.version }
        ensures graph { arc_value result.now.graph ≡ self.now.graph }
        ensures version { IsVersionOf J.vertices self.now.history self.now.version self.now.graph }
    {
        &self.snapshot
    }

    /// The history at whose end it was held, as a token. Takes no memory.
    pub fn history(&self) -> Token<J>
        ensures { result ≡ self.now.history }
    {
        Token::of(&self.history)
    }

    /// The version that is held, which stays kept, since nobody can release its ticket any more.
    /// Takes no memory.
    pub fn into_snapshot(self) -> Snapshot
        ensures number { result.number ≡ self.version }
        ensures graph { arc_value result.graph ≡ self.graph }
        ensures version { IsVersionOf J.vertices self.history self.version self.graph }
    {
        let Held {
            ticket: _,
            snapshot,
            history: _,
        } = self;
        snapshot
    }
}

/// A release that was refused: why, and what was to be released.
pub struct Unreleased<J: Naming> {
    pub error: SharedError,
    pub held: Held<J>,
}
