//! What an edge apply folds: the new entries of the vectors that it writes, from the edges that it goes over.
//!
//! A run keeps one [`Scratch`] and lends it to each apply. [`Scratch::begin`] forgets the apply before, in constant
//! time. An engine then lends it edges in any order: [`Scratch::fold`] takes a source with up to `PAIRS` of its
//! destinations, and [`Scratch::fold_into`] a destination with up to `PAIRS` of its sources. [`Scratch::changes`] says at
//! the end what has changed, for each vector once, by ascending vertices.
//!
//! If a function reads weights ([`reads_weights`]), an engine lends them too, to [`Scratch::fold_weighted`] and
//! [`Scratch::fold_into_weighted`]. If none does, what is given does not depend on weights: no weight is lent, kept or
//! read, and what is promised holds for edges with any weights.
//! A contribution made of the source's entry and the weight, such as `dist[src] + weight`, is not collected in blocks: a row
//! joins its numbers to the destinations in one loop, and a column is first reduced to one number ([`reduce_entries`], [`EntryWith`]).
//!
//! A worker that does a piece of an apply lets new entries begin with the unit of the reduction ([`FoldStart`]).
//! [`Scratch::gathered`] then says what its edges give, as numbers for vertices, and [`Scratch::join_gathered`] joins that
//! to the entries of the whole, piece by piece in any order. [`Gathered::between`] cuts out what goes to a range of vertices,
//! so that several workers may join what pieces give, each for its own range.
//!
//! `HasFolded` (`specs/Folded.antt`) says which edges a scratch has folded: for each vector to which the functions give
//! by one reduction, the new entries, reduced with what the edges that still wait give, are the old entries reduced with
//! what those edges give. Where new entries begin with the unit, a number that is
//! reduced with one is that number reduced with what those edges give (`specs/FoldStarts.antt`). `changes` then promises the
//! entries after an apply of them (`after_edges` of
//! `algorithm_meaning`), for each vector that has an entry for each vertex. The functions read the vectors that are
//! lent, which stay as they are until the changes are written.
//!
//! A slot has the new entries of one vector, at vertices that are marked (`vertex_marks`). The marks of an apply are cleared
//! when the next one begins. So an apply takes time in proportion to its edges, and to the vertices only for memory that
//! is new. Slots keep their memory: 8 bytes and a little more than a bit a vertex for each vector that one apply writes.
//! An apply of many edges begins with a slot that is filled with the old entries of all vertices ([`Scratch::begin_whole`]):
//! then no edge reads or sets a mark, and the changes are found by comparing 64 entries at a time.
//!
//! What depends on the source alone, as an entry of the source with a constant added, is worked out once for a source and
//! joined to its destinations in one loop. Where it comes from several sources to one destination, it is first reduced to
//! one number, with no store, and joined once. Other edges wait until they fill a block, and the kernels of one or two
//! functions run over them. The numbers that they give are joined column by column and not edge by edge, which the
//! laws of reductions allow.
//!
//! An end of an edge that a filter makes is tested in blocks too ([`Scratch::keep_passing`]). Destinations are
//! tested at the end, each once.
#![tactic(auto)]

mod accumulator;
mod apply_changes;
mod apply_context;
mod by_destination;
mod changes;
mod compared;
mod entry_contributions;
mod entry_numbers;
mod gathered;
mod gathered_ranges;
mod initial_entries;
mod joins;
mod neighbour_entries;
mod old_entries;
mod pairs;
mod passing;
mod reduced_contributions;
mod run;
mod scratch;
mod source_contributions;
mod source_numbers;
mod statements;
mod vector_accumulator;
mod vector_accumulators;
mod weighted;
mod whole_changes;

pub use apply_changes::has_vector;
pub use apply_context::{ApplyContext, FoldStart, reads_weights};
pub use changes::push_change;
pub use compared::compared_set;
pub use entry_numbers::{EntryWith, reduce_columns, reduce_entries};
pub use gathered::{Gathered, GatheredIn};
pub use neighbour_entries::NeighbourEntries;
pub use scratch::Scratch;
pub use source_numbers::{
    OneNumber, OwnEntry, OwnEntryPlus, OwnNumber, SourceNumbers, reduce_sources,
};
