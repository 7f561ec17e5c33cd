//! Lent updates with the weights of the edges that they add.

ghost use Rattle.std.specs.Prelude.{◌≡◌, ◌↔◌, ◌<◌, ◌≤◌, ◌∷◌, [], ℤ, pos, List, length, take, drop, get_or, IsTrue, MatchOption};
ghost use Rattle.edge_updates.specs.declared.edge_update.EdgeUpdate.{EdgeUpdate};
ghost use Rattle.edge_updates.specs.Weighted.{weighted};

use crate::edge_update::EdgeUpdate;
use std::marker::Model;

/// Lent updates, each with a weight for the edge if it is added. A contract sees the list of pairs.
///
/// The weights are in a column of their own. Where it is over, all weights are 1: where all are 1 it
/// may be empty.
#[derive(Drop)]
pub struct Updates<'a> {
    updates: &'a [EdgeUpdate],
    weights: &'a [i64],
}

impl<'a> Model for Updates<'a> {
    ghost use Rattle.std.specs.Prelude.{ℤ, List};
    ghost use Rattle.edge_updates.specs.declared.edge_update.EdgeUpdate.{EdgeUpdate};
    ghost use Rattle.edge_updates.specs.Weighted.{weighted};

    ghost Value = { List (EdgeUpdate × ℤ) };

    ghost view = { λ u. weighted u.updates.now u.weights.now };
}

impl<'a> Updates<'a> {
    /// These updates, each with the weight at its index, or with 1 where the weights are over.
    #[inline]
    pub fn new(updates: &'a [EdgeUpdate], weights: &'a [i64]) -> Updates<'a>
        ensures { result ≡ weighted updates.now weights.now }
    {
        Updates { updates, weights }
    }

    /// A second view of these updates.
    #[inline]
    pub fn lend(&self) -> Updates<'a>
        ensures { result ≡ self.now }
    {
        Updates::new(self.updates, self.weights)
    }

    /// The updates and the column of their weights, as they are lent. It takes constant time.
    #[inline]
    pub fn columns(&self) -> (&'a [EdgeUpdate], &'a [i64])
        ensures { weighted result.0.now result.1.now ≡ self.now }
    {
        (self.updates, self.weights)
    }

    /// How many updates there are. It takes constant time.
    #[inline]
    pub fn len(&self) -> usize
        ensures { result ≡ length self.now }
    {
        self.updates.len()
    }

    /// Whether there is no update. It takes constant time.
    #[inline]
    pub fn is_empty(&self) -> bool
        ensures { IsTrue result ↔ (self.now ≡ []) }
    {
        self.len() == 0
    }

    /// The update at an index. It takes constant time.
    #[inline]
    pub fn update(&self, index: usize) -> EdgeUpdate
        requires { index < length self.now }
        ensures { (d : EdgeUpdate × ℤ) → result ≡ (get_or self.now index d).0 }
    {
        prove!(index < self.updates.len());
        self.updates[index]
    }

    /// The weight at an index. It takes constant time.
    #[inline]
    pub fn weight(&self, index: usize) -> i64
        requires { index < length self.now }
        ensures { (d : EdgeUpdate × ℤ) → result ≡ (get_or self.now index d).1 }
    {
        if index < self.weights.len() {
            self.weights[index]
        } else {
            1
        }
    }

    /// The first update, if there is one. It takes constant time.
    #[inline]
    pub fn first(&self) -> Option<EdgeUpdate>
        ensures { MatchOption result (self.now ≡ []) (λ u. (weight : ℤ) × (rest : List (EdgeUpdate × ℤ))
            × (self.now ≡ (u, weight) ∷ rest)) }
    {
        self.updates.first().copied()
    }

    /// The first updates, so many, and those after them. It takes constant time.
    #[inline]
    pub fn split_at(&self, count: usize) -> (Updates<'a>, Updates<'a>)
        requires { count ≤ length self.now }
        ensures front { result.0 ≡ take count self.now }
        ensures back { result.1 ≡ drop count self.now }
    {
        prove!(count <= self.updates.len());
        let (front, back) = self.updates.split_at(count);
        let (weights, others) = self.weights.split_at(count.min(self.weights.len()));
        (Updates::new(front, weights), Updates::new(back, others))
    }
}
