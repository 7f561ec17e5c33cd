//! Tests of the bytes of tails, of sets in chunks, their unions and differences, of the lists in pages, and of sorts: values
//! that were worked out outside the program.
//!
//! They are in a crate of their own since a crate with tests is proved twice.
#![tactic(auto)]

#[cfg(test)]
mod chunked_trees;
#[cfg(test)]
mod page_lists;
#[cfg(test)]
mod sorts;
#[cfg(test)]
mod tails;
#[cfg(test)]
mod unions;
