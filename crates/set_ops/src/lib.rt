//! Union and difference of sets in chunks whose elements have weights.
//!
//! `union` and `difference` take two sets of one chunk size and give a set of that chunk size; a
//! contract sees the answer's entries as the union or the difference of the two lists of entries, which
//! `ascending_lists` defines by cases, with laws on their keys and on the weight at each key. Where both
//! sets have a key, a union keeps the second's weight. As a C-tree has one chunking for each list of
//! entries, that says how the answer is cut, whatever chunks the two had. The two sets stay as they were.
//!
//! Both sets are cut at the head at the first's root; what lies below it and above it is done each by
//! itself, and joined. `specs/inside/Answers.antt` says what that gives. Where one side has nothing in a
//! range, the other's chunks there are shared. The recursion counts the keys that both have, so the
//! answer's number of entries takes no walk. Sets of k and n entries take the heads of the smaller and
//! of what lies beside them, about `k log(n / k + 1)` nodes, beside the chunks that both sets reach into.
//!
//! Where both sides have few heads, and about as many, and lie in one another's ranges, both are read
//! as lists, the lists are merged, and the answer's chunks are made anew, which is faster than a cut at
//! each head.
//!
//! `insert_all` takes entries in place of the second set, `remove_all` ascending keys, and both refuse
//! keys that do not ascend; `insert_ascending` and `remove_ascending` take keys of which the caller knows
//! that they do. The list is cut at the heads of the set, so that only the way down to the
//! chunks that it reaches is made anew. A second set that has no head is taken as such a list too, and
//! so is a first one: a union then continues with the two exchanged, and keeps the first's weights.
//!
//! `union_forked` and `difference_forked` give the same answers, with the halves on two threads at the
//! first levels; a `Fork` is called with each half that begins. `same_size_union_forked` and
//! `same_size_difference_forked` take sets of which the caller knows that they have one chunk size. Only
//! these four need a handle of threads.
//!
//! Graphs depend on this crate, where a batch changes the neighbours of a vertex that has many. The recursion
//! is that of "Just Join for Parallel Ordered Sets" (Blelloch, Ferizovic, Sun, SPAA 2016) as Aspen has it
//! on C-trees (PLDI 2019).
#![tactic(auto)]

mod combine;
mod combined;
mod error;
mod fork;
mod forked;
mod halves;
mod interleaving;
mod lists;
mod sets;
mod with_list;

pub use error::SetError;
pub use fork::{Fork, Forking, Quiet};
pub use lists::{insert_all, insert_ascending, remove_all, remove_ascending};
pub use sets::{
    MAX_FORKS, difference, difference_forked, same_size_difference_forked, same_size_union_forked,
    union, union_forked,
};
