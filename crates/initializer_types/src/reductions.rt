//! Reductions of an edge function: the vectors that it reduces, found by a hash.
ghost use Rattle.std.specs.Prelude.{◌≡◌, ◌++◌, ◌∷◌, [], None, nat_eq, OnErr, OnOk};
ghost use Rattle.std.specs.Map.{lookup};

use apply_options::Reduction;
use indexmap::IndexMap;
use std::alloc::{AllocError, Global};
use std::marker::Model;

/// The vectors that an edge function writes, by their indices, in the order of the text, each with its
/// reduction.
#[derive(Drop)]
pub struct Reductions {
    entries: IndexMap<usize, Reduction>,
}

impl Model for Reductions {
    ghost use Rattle.std.specs.Prelude.{ℕ, List};
    ghost use Rattle.apply_options.specs.declared.reduction.Reduction.{Reduction as OneReduction};

    ghost Value = { List (ℕ × OneReduction) };

    ghost view = { λ r. r.entries.entries };
}

impl Reductions {
    /// No vector.
    pub fn new(alloc: Global) -> Reductions
        ensures { result ≡ [] }
    {
        Reductions {
            entries: IndexMap::new(alloc),
        }
    }

    /// The reduction of a vector, or `None` where it is not written.
    pub fn get(&self, vector: usize) -> Option<Reduction>
        ensures { result ≡ lookup (nat_eq vector) self.now }
    {
        self.entries.get(&vector).copied()
    }

    /// Puts a vector after the others. After out of memory nothing is changed.
    pub fn push(&mut self, vector: usize, reduction: Reduction) -> Result<(), AllocError>
        requires { lookup (nat_eq vector) self.old ≡ None }
        ensures err { OnErr result (self.new ≡ self.old) }
        ensures ok { OnOk result (self.new ≡ self.old ++ (vector, reduction) ∷ []) }
    {
        self.entries.insert(vector, reduction)?;
        Ok(())
    }
}
