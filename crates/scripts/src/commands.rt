//! The commands of a script.

/// The chunk size of a `vertices` line that gives none.
pub const DEFAULT_CHUNK_SIZE: u32 = 64;

/// What a line asks for.
#[derive(Clone, Copy, Debug, PartialEq, Eq)]
pub enum Command {
    /// `vertices N` or `vertices N B`: a number of vertices, and a chunk size.
    Vertices {
        vertices: u32,
        chunk_size: u32,
    },
    /// `add U V` or `add U V W`: an edge to add, and its weight, which is 1 where none is given.
    Add {
        source: u32,
        destination: u32,
        weight: i64,
    },
    /// `del U V`: an edge to remove.
    Remove {
        source: u32,
        destination: u32,
    },
    /// `grow N`: a number of vertices to grow to.
    Grow {
        vertices: u32,
    },
    /// `commit`
    Commit,
    /// `hold` or `hold at K`: the newest version, or the one of this number, to hold by a ticket.
    Hold {
        version: Option<u64>,
    },
    /// `release T`: a ticket to close.
    Release {
        ticket: u64,
    },
    /// `edges` or `edges T`: the edges of the newest version, or of the one that a ticket holds.
    Edges {
        ticket: Option<u64>,
    },
    /// `run P TURNS W` or `run P TURNS W T`: a program's number, a bound of turns, a number of workers,
    /// and the ticket that holds the version to run on, or none for the newest.
    Run {
        program: u64,
        turns: u64,
        workers: u64,
        ticket: Option<u64>,
    },
}
