//! Ascending lists of numbers below 2^32, and ascending lists of entries with such numbers as keys.
//!
//! `specs/Ascending.antt` says which lists ascend, and `specs/Sets.antt` defines the union and the
//! difference of two of them, and what a list has below a number and above it. `ascends` tells whether
//! a list ascends, `cut_list` cuts one, and `merge` gives the union or the difference, as an
//! [`Operation`] says. `unions_have_what_either_has` and `differences_have_what_one_lacks` are laws on
//! the elements.
//!
//! `specs/Maps.antt` defines a finite map as the list of its entries, pairs of a key and a value, in
//! ascending order of keys. `specs/MapOperations.antt` defines the same operations on such lists. A
//! union keeps the value of the second list where both have a key, or that of the first; a difference
//! takes away keys. `unions_keep_the_second_value`, `unions_keep_the_first_value`,
//! `differences_lack_the_keys` and `cuts_keep_values` say each by its keys, as on lists of numbers, and
//! by what it gives at a key. A law does nothing when called.
//!
//! Lists in bytes, trees, sets in chunks and graphs depend on this crate.
#![tactic(auto)]

mod ascending_list;
mod laws;
mod map_laws;
mod set_operation;

pub use ascending_list::{ascends, cut_list, least_over};
pub use laws::{differences_have_what_one_lacks, unions_have_what_either_has};
pub use map_laws::{
    cuts_keep_values, differences_lack_the_keys, keys_of_maps_ascend, maps_are_their_values,
    unions_keep_the_first_value, unions_keep_the_second_value,
};
pub use set_operation::{Operation, merge};
