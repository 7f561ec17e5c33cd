//! Entries of the history of a shared graph.

use version_list::Done;

/// An accepted step with its reply, and the number of the reader that made it. The history of a
/// shared graph is a list of these, which contracts alone see: no value of it is made.
pub struct Entry {
    pub by: u64,
    pub done: Done,
}
