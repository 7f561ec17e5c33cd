//! Lent entries in columns.

ghost use Rattle.std.specs.Prelude.{◌≡◌, ◌↔◌, ◌<◌, ◌≤◌, ℤ, pos, Some, None, [], length, take, drop, get_or, IsTrue, OnOk};
ghost use Rattle.std.specs.Map.{keys_of};
ghost use Rattle.ascending_lists.specs.Ascending.{Ascends};
ghost use Rattle.tail_codec.specs.Columns.{entries_in};
ghost use Rattle.tail_codec.specs.inside.Columns.{AreAppended};
ghost use Rattle.tail_codec.specs.EntryCuts.{CutsEntries};

use ascending_lists::cut_list;
use std::alloc::AllocError;
use std::marker::Model;

/// Lent keys, each with a weight. A contract sees the list of pairs. Where all weights are 1 there may
/// be no column of them.
#[derive(Drop)]
pub struct Entries<'a> {
    keys: &'a [u32],
    weights: Option<&'a [i64]>,
}

impl<'a> Model for Entries<'a> {
    ghost use Rattle.std.specs.Prelude.{ℕ, ℤ, List};
    ghost use Rattle.std.specs.Option.{option_copied};
    ghost use Rattle.tail_codec.specs.inside.Columns.{AreColumns};
    ghost use Rattle.tail_codec.specs.Columns.{entries_in};

    ghost Value = { List (ℕ × ℤ) };

    ghost view = { λ e. entries_in e.keys.now (option_copied e.weights) };

    ghost invariant = { λ e. AreColumns e.keys.now (option_copied e.weights) };
}

impl<'a> Entries<'a> {
    /// These keys, each with weight 1.
    #[inline]
    pub fn of_keys(keys: &'a [u32]) -> Entries<'a>
        ensures { result ≡ entries_in keys.now None }
    {
        Entries {
            keys,
            weights: None,
        }
    }

    /// These keys, each with the weight at its position.
    #[inline]
    pub fn new(keys: &'a [u32], weights: &'a [i64]) -> Entries<'a>
        requires { length weights.now ≡ length keys.now }
        ensures { result ≡ entries_in keys.now (Some weights.now) }
    {
        Entries {
            keys,
            weights: Some(weights),
        }
    }

    /// How many entries there are.
    #[inline]
    pub fn len(&self) -> usize
        ensures { result ≡ length self.now }
    {
        self.keys.len()
    }

    /// Whether there is no entry.
    #[inline]
    pub fn is_empty(&self) -> bool
        ensures { IsTrue result ↔ (self.now ≡ []) }
    {
        self.len() == 0
    }

    /// The keys alone.
    #[inline]
    pub fn keys(&self) -> &'a [u32]
        ensures { result.now ≡ keys_of self.now }
    {
        self.keys
    }

    /// Whether there is no column of weights, so that each is 1.
    #[inline]
    pub(crate) fn has_only_ones(&self) -> bool
        ensures { IsTrue result → self.now ≡ entries_in (keys_of self.now) None }
    {
        self.weights.is_none()
    }

    /// Writes the entries after those of two columns.
    ///
    /// The only error is out of memory.
    pub(crate) fn append_to(
        &self,
        keys: &mut Vec<u32>,
        weights: &mut Vec<i64>,
    ) -> Result<(), AllocError>
        requires { length weights.old.items ≡ length keys.old.items }
        ensures { OnOk result (AreAppended keys.old.items weights.old.items self.now keys.new.items
            weights.new.items) }
    {
        keys.extend_from_slice(self.keys)?;
        match self.weights {
            None => weights.resize(keys.len(), 1),
            Some(column) => weights.extend_from_slice(column),
        }
    }

    /// The first entries, so many.
    #[inline]
    pub fn up_to(&self, position: usize) -> Entries<'a>
        requires { position ≤ length self.now }
        ensures { result ≡ take position self.now }
    {
        prove!(position <= self.keys.len());
        match self.weights {
            None => Entries::of_keys(&self.keys[..position]),
            Some(weights) => {
                prove!(position <= weights.len());
                Entries::new(&self.keys[..position], &weights[..position])
            }
        }
    }

    /// The entries from a position on.
    #[inline]
    pub fn from(&self, position: usize) -> Entries<'a>
        requires { position ≤ length self.now }
        ensures { result ≡ drop position self.now }
    {
        prove!(position <= self.keys.len());
        match self.weights {
            None => Entries::of_keys(&self.keys[position..]),
            Some(weights) => {
                prove!(position <= weights.len());
                Entries::new(&self.keys[position..], &weights[position..])
            }
        }
    }

    /// The weight at a position.
    #[inline]
    pub fn weight(&self, position: usize) -> i64
        requires { position < length self.now }
        ensures { result ≡ (get_or self.now position (0, pos 0)).1 }
    {
        match self.weights {
            None => 1,
            Some(weights) => {
                prove!(position < weights.len());
                weights[position]
            }
        }
    }
}

/// What entries with ascending keys have below a key, the weight of the key if they have it, and what
/// they have above. Takes logarithmic time and no memory.
pub fn cut_entries<'a>(entries: &Entries<'a>, key: u32) -> (Entries<'a>, Option<i64>, Entries<'a>)
    requires { Ascends None (keys_of entries.now) }
    ensures { CutsEntries key entries.now result.0 result.1 result.2 }
{
    let (below, found, _) = cut_list(entries.keys(), key);
    let position = below.len();
    let front = entries.up_to(position);
    if found {
        return (
            front,
            Some(entries.weight(position)),
            entries.from(position + 1),
        );
    }
    (front, None, entries.from(position))
}
