//! Updates and their weights apart.

ghost use Rattle.std.specs.Prelude.{◌≡◌, [], IfOk};
ghost use Rattle.edge_updates.specs.Weighted.{weighted};
ghost use Rattle.edge_updates.specs.WeightedUpdates.{pairs_in};

use crate::edge_update::EdgeUpdate;
use crate::updates::Updates;
use crate::weighted_update::WeightedUpdate;
use std::alloc::{AllocError, Global};
use std::marker::Model;

/// Updates, and in a column of their own the weights of the edges that they add. A contract sees the
/// list of pairs. If the column is shorter, the other weights are 1.
pub struct Columns {
    updates: Vec<EdgeUpdate>,
    weights: Vec<i64>,
}

impl Drop for Columns {
    fn drop(self) {
        let Columns {
            updates: _,
            weights: _,
        } = self;
    }
}

impl Model for Columns {
    ghost use Rattle.std.specs.Prelude.{ℤ, List};
    ghost use Rattle.edge_updates.specs.declared.edge_update.EdgeUpdate.{EdgeUpdate};
    ghost use Rattle.edge_updates.specs.Weighted.{weighted};

    ghost Value = { List (EdgeUpdate × ℤ) };

    ghost view = { λ c. weighted c.updates.items c.weights.items };
}

impl Columns {
    /// These updates, each of whose edges has weight 1. It takes no memory.
    pub fn unweighted(alloc: Global, updates: Vec<EdgeUpdate>) -> Columns
        ensures { result ≡ weighted updates.items [] }
    {
        Columns {
            updates,
            weights: Vec::new(alloc),
        }
    }

    /// The columns of these updates. The only error is out of memory.
    pub fn of(alloc: Global, pairs: &[WeightedUpdate]) -> Result<Columns, AllocError>
        ensures { IfOk result (λ c. c ≡ pairs_in pairs.now) }
    {
        let mut updates = Vec::with_capacity(alloc, pairs.len())?;
        let mut weights = Vec::with_capacity(alloc, pairs.len())?;
        for pair in pairs {
            updates.push(pair.update)?;
            weights.push(pair.weight)?;
        }
        Ok(Columns { updates, weights })
    }

    /// The updates, lent with their weights. It takes no memory.
    pub fn lend(&self) -> Updates<'_>
        ensures { result ≡ self.now }
    {
        Updates::new(&self.updates, &self.weights)
    }
}
