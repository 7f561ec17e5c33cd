//! Readers and writers that tell which bytes went through them, and how often they failed.
//!
//! A reader that tells its bytes is a `Feed`, and a writer that does is a `Drain`. Their contracts
//! speak of a history: all the bytes given or taken so far, in order, and the number of failures.
//! `Device` keeps such a history for any reader or writer of std, also for standard input, standard
//! output and files, of whose bytes std's contracts know nothing.
//!
//! The promise: a history grows by exactly the bytes that a call answers for, and by none at an
//! error. An error is a counted failure, and no failure is counted without one. So code that is
//! generic over a `Feed` and a `Drain` can say what it wrote as a function of what it read.
//! The history is in contracts alone: it takes no memory, and has no bound.
//!
//! A history says what the reader or writer inside answered. That those bytes reached a disk or a
//! screen is more than a contract can know.
//!
//! `TextFeed` is the reader of a text that is at hand. It gives the text's memory back with the last byte.
//!
//! Who uses it: code that runs scripts from one device to another.
#![tactic(auto)]

mod account;
mod adapter;
mod text_feed;
mod traits;

pub use adapter::Device;
pub use text_feed::{Text, TextFeed};
pub use traits::{Drain, Feed, write_all};
