//! Ascending lists of entries, pairs of a number below 2^32 and a weight, kept as the bytes of the
//! numbers' differences and of the weights.
//!
//! A contract sees a [`Tail`] as a `BasedList`: its entries, and the base above which their keys stand
//! if there is one. `specs/Spelling.antt` says which bytes spell which list. `Tail::encode` and
//! `Tail::from_bytes` make a tail of the one or of the other, and refuse keys that do not ascend and
//! bytes that spell none; `bytes` and `iter` give them back, and `entries` in columns. A
//! [`TailWriter`] makes one tail after another, and a [`TailIter`] reads the entries where the bytes
//! lie. `share` gives one more owner of the same bytes. `bytes_spell_one_list` and
//! `lists_have_one_spelling` are laws of the spelling, and do nothing when called.
//!
//! [`Entries`] lends keys and weights in columns, and an [`EntryList`] owns them; a contract sees the
//! list of pairs. Where all weights are 1 there need be no column of them. `cut_entries` cuts entries
//! at a key, and `merge_entries` gives the union or the difference of two maps, as a [`MapOperation`]
//! says.
//!
//! `Tail::cut` gives what a tail has below a key and above it. `over` and `followed_by` write a tail
//! over another base, and one tail after another. One list may also be put together in its bytes: those
//! of a tail, then by `append_entry` those of the next entry, whose key is counted from
//! `Tail::least_after` on, then those of a tail over that key.
//!
//! A tail is 32 bytes beside its bytes. No entries take no memory, up to 127 bytes one allocation, and
//! more bytes two. An entry of weight 1 takes 1 to 5 bytes, another one up to 15.
//!
//! Sets in chunks, in which graphs keep the neighbours of a vertex that has many, depend on this crate.
//! The byte code is the one of Aspen (Dhulipala, Blelloch, Shun, PLDI 2019), with weights and one spelling
//! for each list.
#![tactic(auto)]

mod base;
mod entries;
mod entry_list;
mod error;
mod iter;
mod laws;
mod merging;
mod operation;
mod reading;
mod rewrite;
mod shared_bytes;
mod tail;
mod weight;
mod writer;

pub use entries::{Entries, cut_entries};
pub use entry_list::EntryList;
pub use error::TailError;
pub use iter::TailIter;
pub use laws::{bytes_spell_one_list, lists_have_one_spelling};
pub use merging::merge_entries;
pub use operation::MapOperation;
pub use rewrite::TailCut;
pub use tail::Tail;
pub use writer::{TailWriter, append_entry};
