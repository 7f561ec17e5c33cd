//! Lists of entries in columns of their own.

ghost use Rattle.std.specs.Prelude.{◌≡◌, ◌∷◌, ◌++◌, [], IfOk};
ghost use Rattle.edge_updates.specs.Weighted.{weighted};
ghost use Rattle.pages.specs.inside.Weights.{column_of};

use std::alloc::{AllocError, Global};
use std::marker::Model;

/// A list of neighbours with their weights, in two columns. A contract sees the list of pairs. Where the
/// column of weights is over, all weights are 1: as long as all are 1, no memory is taken for them.
pub struct EntryColumns {
    pub(crate) keys: Vec<u32>,
    pub(crate) weights: Vec<i64>,
}

// By hand: a derived drop would be written out, and proved again, in each function that lets columns go.
impl Drop for EntryColumns {
    fn drop(self) {
        let EntryColumns {
            keys: _,
            weights: _,
        } = self;
    }
}

impl Model for EntryColumns {
    ghost use Rattle.std.specs.Prelude.{ℕ, ℤ, List};
    ghost use Rattle.edge_updates.specs.Weighted.{weighted};

    ghost Value = { List (ℕ × ℤ) };

    ghost view = { λ c. weighted c.keys.items c.weights.items };
}

impl EntryColumns {
    /// No entry, with room in advance for n neighbours.
    ///
    /// The only error is out of memory.
    pub fn with_capacity(alloc: Global, count: usize) -> Result<EntryColumns, AllocError>
        ensures { IfOk result (λ c. c ≡ []) }
    {
        Ok(EntryColumns {
            keys: Vec::with_capacity(alloc, count)?,
            weights: Vec::new(alloc),
        })
    }

    /// The neighbours, and their weights: where these are over, all are 1.
    #[inline]
    pub fn columns(&self) -> (&[u32], &[i64])
        ensures { weighted result.0.now result.1.now ≡ self.now }
    {
        (&self.keys, &self.weights)
    }

    /// Lets all entries go, and keeps the room.
    #[inline]
    pub fn clear(&mut self)
        ensures { self.new ≡ [] }
    {
        self.keys.clear();
        self.weights.clear();
    }

    /// Adds an entry after the others. The only error is out of memory.
    #[inline]
    pub fn push(&mut self, neighbour: u32, weight: i64) -> Result<(), AllocError>
        ensures { IfOk result (λ _. self.new ≡ self.old ++ (neighbour, weight) ∷ []) }
    {
        if weight == 1 && self.weights.is_empty() {
            self.keys.push(neighbour)?;
            return Ok(());
        }
        self.push_weighted(neighbour, weight)
    }

    /// Like `push`, also if not all weights are 1. It is apart, so that callers without weights have little code.
    #[inline(never)]
    fn push_weighted(&mut self, neighbour: u32, weight: i64) -> Result<(), AllocError>
        ensures { IfOk result (λ _. self.new ≡ self.old ++ (neighbour, weight) ∷ []) }
    {
        let len = self.keys.len();
        if weight == 1 {
            self.weights.truncate(len);
            self.keys.push(neighbour)?;
            return Ok(());
        }
        pad(&mut self.weights, len)?;
        self.weights.push(weight)?;
        self.keys.push(neighbour)?;
        Ok(())
    }
}

/// Makes a column one of n weights. The only error is out of memory.
pub(crate) fn pad(weights: &mut Vec<i64>, count: usize) -> Result<(), AllocError>
    ensures { IfOk result (λ _. weights.new.items ≡ column_of count weights.old.items) }
{
    weights.truncate(count);
    weights.resize(count, 1)?;
    Ok(())
}
