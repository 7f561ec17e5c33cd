//! The vectors of a run, and what an apply changes in them.
//!
//! [`Vectors`] are seen as a list of vectors, each a list with an entry for each vertex, and a list of groups, each a
//! list of the indices of its vectors. A vector has an array of its own, or it is in a group: one array with a row
//! for each vertex, in which the j-th vector of g has its entry at vertex v at index `v * g + j`. What is read and
//! written is by index and vertex and the same in either layout.
//!
//! A [`Lane`] is one vector, lent: its base, its stride and how many vertices it has are known before a loop begins,
//! and an entry costs one multiplication. [`Changes`] are the new entries that an apply found, written in time in
//! proportion to them.
//!
//! That entries read together stand together is the array of structures of GraphIt's `fuseFields` (Zhang and others,
//! OOPSLA 2018). Kernels read vectors; the engines and the runs of plans depend on this crate.
#![tactic(auto)]

mod changes;
mod error;
mod grouping;
mod lane;
mod location;
mod vectors;

pub use changes::{Changes, EntryChange, VectorChanges};
pub use error::GroupError;
pub use lane::Lane;
pub use vectors::Vectors;
