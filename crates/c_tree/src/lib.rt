//! Sets of entries, pairs of a key below 2^32 and a weight, kept in chunks of bytes in a tree that owners
//! share. No two entries have one key.
//!
//! A contract sees a [`CTree`] as a `ChunkedSet`: its entries in ascending order of keys, its chunk
//! size, and the depth of its tree. `specs/Heads.antt` says which keys are heads, and
//! `specs/Chunks.antt` how entries are cut at their heads into a prefix and chunks, each a head with its
//! weight and its tail. That is said of whole lists, and `lists_have_one_chunking` is the law that a list
//! has one such cut, which put together gives the list back; it does nothing when called.
//! `CTree::from_sorted` cuts a list, and refuses one whose keys do not ascend; `prefix` and `heads` give
//! the cut, `get`, `contains`, `len` and `iter` are those of the list, and an [`Iter`] reads the entries
//! one by one, their keys by blocks, or keys and weights by two blocks. `append_spelling` writes the
//! whole list as one, in the bytes of one tail, after other bytes.
//!
//! A [`View`] is a set that is lent, or what is in it before a head or after one: the tail of a
//! head and the chunks to the right of it are in chunks as a set is, so `root` takes a view apart into
//! two views and a head with its weight, and takes no memory. A [`Part`] has owners of its own and is
//! made of views: `share` and `cut` give parts, `join` and `join2` put them together. What is before
//! the heads of the second then becomes a tail of the first. So an entry that a head of another set
//! takes over, or that loses its head, goes to the right chunk by these four calls alone. The number of
//! a part's entries is not kept; with it a part becomes a set, by `into_set`.
//!
//! Whether a key is a head depends on the key and on the chunk size alone, so two sets of one chunk size
//! are cut at the same keys, and a chunk in whose range the other has nothing may be shared as it is. A
//! set is 64 bytes beside its tails and its tree, which has 8 bytes for the weight of each head. One with
//! no entry takes no memory, and one that is all prefix takes that of its prefix.
//!
//! Operations on sets depend on this crate, and graphs, which keep the neighbours of a vertex that has
//! many in such a set, each with the weight of its edge. C-trees are those of
//! Aspen (Dhulipala, Blelloch, Shun, PLDI 2019), with a balanced tree of chunks and a hash of our own.
#![tactic(auto)]

mod building;
mod chunk_size;
mod ctree;
mod cut;
mod error;
mod heads;
mod iter;
mod join;
mod laws;
mod lookup;
mod part;
mod spelling;
mod tail;
mod view;

pub use chunk_size::ChunkSize;
pub use ctree::CTree;
pub use cut::Cut;
pub use error::CTreeError;
pub use heads::Heads;
pub use iter::Iter;
pub use laws::lists_have_one_chunking;
pub use part::Part;
pub use view::View;
