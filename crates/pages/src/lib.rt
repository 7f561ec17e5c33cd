//! Pages: the neighbours of 64 vertices of a graph, each with a weight, packed in one array of bytes.
//!
//! A contract sees a [`Page`] as the ascending list of the vertices that are present, each with the list
//! of its entries: its neighbours, ascending, of which it has 1 to 256 ([`MAX_PACKED`]), each with a weight
//! of 64 bits. `specs/Vertices.antt` says what is a page. A vertex goes by its number in the page, 0 to 63,
//! and neighbours are numbers below 2^32. Longer lists stand apart: a [`PackedList`] is the list of one
//! vertex, of 1 to 2,048 neighbours ([`MAX_LONG`]), in an array of its own that is packed as a page packs
//! a list.
//!
//! `list` of a page, and `lend` of a list of its own, give the [`Neighbours`] of a vertex where they
//! lie: one by one by index, as look-ups that give the weight, or as walks upward and downward that fill
//! blocks ([`Ascending`], [`Descending`]), with the neighbours alone or with a second block for the
//! weights. `iter` goes over the vertices. `push` and `push_run` build a page up, vertex by vertex and
//! by runs of another page, whose bytes are copied whole. `apply` makes a new page of an old one and a list of
//! updates, the `Updates` of `edge_updates`, which may be a run of a longer list; the old page stays as it is,
//! and an added edge gets the update's weight, also if it was there. [`merge`] makes the new list of
//! one vertex, and [`run_length`] finds its updates. `specs/Updates.antt` says what updates make of a
//! list. [`changes_decide`], [`blocks_ascend`] and [`pages_are_their_lists`] are laws of updates and of
//! pages, and do nothing when called.
//!
//! Lists come and go in columns: neighbours, and their weights beside them ([`EntryColumns`]). Where the
//! column of weights is over, all weights are 1. So data without weights has an empty column, and costs no
//! memory and no time for it.
//!
//! The layout: a word of 64 bits says which vertices are present. Each of them has an entry of 8 bytes,
//! which is at its rank, the number of vertices present below it: where its list starts, the index of
//! its last neighbour, and how many bytes each offset and each weight takes. The lists stand one after the
//! other in one array of bytes. A list is its first neighbour in 4 bytes, the low byte first, for each other
//! one how far it is above the first, all in the list's own width of 1, 2, 3 or 4 bytes, and after them the
//! weights, all in a width of 1, 2, 4 or 8 bytes; where all are 1 they take none. Weights of 1 and of 2 bytes
//! have no sign: 7 of weight 5, 9 of 300, 300 of 1 is `07 00 00 00`, `02 00`, `25 01`, `05 00`, `2c 01`,
//! `01 00`. Three bytes of padding are at the end, so that each offset may be read as four bytes, of which
//! a mask cuts out its own. So reading has no branch, the neighbour and the weight at an index take constant
//! time, a look-up is a binary search and one read, and a walk downward costs what one upward does.
//!
//! [`rank`], [`width_of`] and [`weight_width_of`] serve blocks of vertices too. The widths are those of a frame of reference
//! (Goldstein, Ramakrishnan, Shaft, ICDE 1998), and the ranks are Jacobson's (Space-efficient Static Trees
//! and Graphs, FOCS 1989).
#![tactic(auto)]

mod appending;
mod applying;
mod blocks;
mod columns;
mod entry;
mod index;
mod iter;
mod laws;
mod neighbours;
mod offsets;
mod packed_list;
mod page;
mod updates;
mod walks;
mod weight_blocks;
mod weights;
mod writing;

pub use columns::EntryColumns;
pub use index::{rank, rank_below};
pub use iter::PageIter;
pub use laws::{blocks_ascend, changes_decide, pages_are_their_lists};
pub use neighbours::{ByWidth, Neighbours};
pub use packed_list::{MAX_LONG, PackedList};
pub use page::{BLOCK_SIZE, MAX_PACKED, Page};
pub use updates::{merge, run_length};
pub use walks::{Ascending, Descending};
pub use weights::weight_width_of;
pub use writing::width_of;
