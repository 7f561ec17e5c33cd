//! Name tables: names in the order in which they came, found by a hash.
ghost use Rattle.std.specs.Prelude.{◌≡◌, ◌<◌, ◌^◌, ◌++◌, ◌∷◌, [], None, length, take, OnErr, OnOk};
ghost use Rattle.expression_types.specs.ScopeTree.{found};

use indexmap::IndexMap;
use std::alloc::{AllocError, Global};
use std::marker::Model;

/// Names in the order in which they came, each with what it means. A look-up takes the time of the name,
/// however many there are.
pub struct Names<T> {
    entries: IndexMap<Vec<u8>, T>,
}

impl<T: Drop> Drop for Names<T> {
    fn drop(self) {
        let Names { entries: _ } = self;
    }
}

impl<T> Model for Names<T> {
    ghost use Rattle.std.specs.Prelude.{ℕ, List};
    ghost use Rattle.expression_types.specs.inside.Names.{shown};

    ghost Value = { List (List ℕ × T) };

    ghost view = { λ n. shown n.entries.entries };
}

impl<T: Copy> Names<T> {
    /// No name.
    pub fn new(alloc: Global) -> Names<T>
        ensures { result ≡ [] }
    {
        Names {
            entries: IndexMap::new(alloc),
        }
    }

    /// What a name means, or `None` if it is not there.
    pub fn get(&self, name: &[u8]) -> Option<T>
        ensures { result ≡ found name.now self.now }
    {
        self.entries.get(name).copied()
    }

    /// How many names there are.
    pub fn len(&self) -> usize
        ensures len { result ≡ length self.now }
        ensures small { result < 2 ^ 63 }
    {
        self.entries.len()
    }

    /// Puts a name after the others, a copy of which it keeps. After out of memory nothing is changed.
    pub fn push(&mut self, alloc: Global, name: &[u8], item: T) -> Result<(), AllocError>
        requires { found name.now self.old ≡ None }
        ensures err { OnErr result (self.new ≡ self.old) }
        ensures ok { OnOk result (self.new ≡ self.old ++ (name.now, item) ∷ []) }
    {
        let name = Vec::from_slice(alloc, name)?;
        self.entries.insert(name, item)?;
        Ok(())
    }

    /// Forgets all names but the first so many.
    pub fn truncate(&mut self, len: usize)
        ensures { self.new ≡ take len self.old }
    {
        self.entries.truncate(len);
    }
}
