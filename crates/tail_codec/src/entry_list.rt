//! Owned entries in columns.

ghost use Rattle.std.specs.Prelude.{◌≡◌, ℕ, None, List, length, IsTrue, IfOk};
ghost use Rattle.std.specs.List.{zip};
ghost use Rattle.tail_codec.specs.Columns.{entries_in};

use crate::entries::Entries;
use std::alloc::{AllocError, Global};
use std::marker::Model;

/// Keys in a list, each with a weight. A contract sees the list of pairs. As long as all weights are 1
/// no memory is taken for them.
pub struct EntryList {
    keys: Vec<u32>,
    weights: Option<Vec<i64>>,
}

// By hand: a derived drop would be written out, and proved again, in each function that lets one go.
impl Drop for EntryList {
    fn drop(self) {
        let EntryList {
            keys: _,
            weights: _,
        } = self;
    }
}

impl Model for EntryList {
    ghost use Rattle.std.specs.Prelude.{ℕ, ℤ, List};
    ghost use Rattle.std.specs.Option.{option_map};
    ghost use Rattle.tail_codec.specs.inside.Columns.{AreColumns};
    ghost use Rattle.tail_codec.specs.Columns.{entries_in};

    ghost Value = { List (ℕ × ℤ) };

    ghost view = { λ e. entries_in e.keys.items (option_map (λ w. w.items) e.weights) };

    ghost invariant = { λ e. AreColumns e.keys.items (option_map (λ w. w.items) e.weights) };
}

impl EntryList {
    /// These keys, each with the weight at its position. The weights are dropped where all of them are 1.
    pub fn new(keys: Vec<u32>, weights: Vec<i64>) -> EntryList
        requires { length weights.items ≡ length keys.items }
        ensures { result ≡ zip keys.items weights.items }
    {
        if are_ones(&weights) {
            return EntryList {
                keys,
                weights: None,
            };
        }
        EntryList {
            keys,
            weights: Some(weights),
        }
    }

    /// These keys, each with weight 1.
    pub(crate) fn of_keys(keys: Vec<u32>) -> EntryList
        ensures { result ≡ entries_in keys.items None }
    {
        EntryList {
            keys,
            weights: None,
        }
    }

    /// Pairs of a key and a weight in columns.
    ///
    /// The only error is out of memory.
    pub fn from_pairs(alloc: Global, pairs: &[(u32, i64)]) -> Result<EntryList, AllocError>
        ensures { IfOk result (λ l. l ≡ pairs.now) }
    {
        let mut keys = Vec::new(alloc);
        keys.resize(pairs.len(), 0)?;
        let mut weights = Vec::new(alloc);
        weights.resize(pairs.len(), 1)?;
        for position in 0..pairs.len() {
            let (key, weight) = pairs[position];
            keys[position] = key;
            weights[position] = weight;
        }
        Ok(EntryList::new(keys, weights))
    }

    /// The entries, lent.
    #[inline]
    pub fn lent(&self) -> Entries<'_>
        ensures { result ≡ self.now }
    {
        match &self.weights {
            None => Entries::of_keys(&self.keys),
            Some(weights) => Entries::new(&self.keys, weights),
        }
    }
}

/// Whether all weights are 1.
fn are_ones(weights: &[i64]) -> bool
    ensures { IsTrue result → (keys : List ℕ) → length weights.now ≡ length keys
        → entries_in keys None ≡ zip keys weights.now }
{
    for weight in weights {
        if *weight != 1 {
            return false;
        }
    }
    true
}
