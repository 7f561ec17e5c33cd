//! Maps from `u32`, as balanced trees whose nodes owners and threads share.
//!
//! A contract sees a [`Tree`] as the list of its entries, which are pairs of a key and a value in
//! ascending order of keys, and as its depth in nodes. Each call is that of a finite map, said on
//! that list: `find` is the look-up, `split` gives what is below a key, the value there and what
//! is above, `join` and `join2` put trees together, `from_sorted` and `from_ascending` make trees
//! of entries in order, and `change_all` makes changes of the values at many keys in one pass:
//! what a [`ValueChange`] is makes the new value of the old one, comes with a value where there
//! was none, or leaves none. The sides of each node differ by at most one in depth, so that
//! `2^depth <= (len + 1)^2`.
//!
//! No call changes a tree that another owner sees. A call takes a tree by reference, or owns it; a
//! node on its way that has another owner is copied, with its sides shared, and one that has none
//! is used again in its own block. A node is one block of memory: its count, its value and the
//! links to its sides. A link has the depth below it and the key of its node, so that a search and
//! a change read no node beside their way. Where there is no memory, or a count of owners is full,
//! a call answers out of memory; what it owned is dropped, and nothing else is changed.
//!
//! Values are of a type that is [`Share`]. The balance is that of Adelson-Velsky and Landis (1962),
//! and `join` as the call on which others rest is from Blelloch, Ferizovic and Sun, "Just Join for
//! Parallel Ordered Sets" (SPAA 2016). Sets in chunks and graphs depend on this crate.
#![tactic(auto)]

mod change_all;
mod error;
mod iter;
mod joins;
mod nodes;
mod share;
mod sorted;
mod split;
mod tree;
mod value_change;

pub use change_all::{Changed, join_around};
pub use error::TreeError;
pub use iter::Iter;
pub use joins::{join, join2};
pub use share::Share;
pub use tree::Tree;
pub use value_change::ValueChange;
