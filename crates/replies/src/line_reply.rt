//! The replies of one line.

/// A reply of one line to a line of a script.
#[derive(Clone, Copy, Debug, PartialEq, Eq)]
pub enum LineReply {
    /// A graph of n vertices is open.
    Open(u32),
    /// The number of a new version.
    Version(u64),
    /// A new ticket's number, and that of the version that it holds.
    Ticket(u64, u64),
    /// The number of a ticket that is closed.
    Released(u64),
    /// How many edges there are; a line for each follows.
    Edges(u64),
    /// The number of a refusal.
    Refused(u16),
}
