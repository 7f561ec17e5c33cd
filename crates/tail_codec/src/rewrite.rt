//! Tails that are made of other tails.

ghost use Rattle.std.specs.Prelude.{◌≡◌, ◌++◌, length, IfOk};
ghost use Rattle.std.specs.Map.{keys_of};
ghost use Rattle.ascending_lists.specs.Ascending.{Ascends};
ghost use Rattle.tail_codec.specs.EntryCuts.{CutsEntries};
ghost use Rattle.tail_codec.specs.Spelling.{based_list};

use crate::entries::{Entries, cut_entries};
use crate::entry_list::EntryList;
use crate::tail::Tail;
use std::alloc::{AllocError, Global};

/// What a tail has below a key, the weight of the key if the tail has it, and what it has above.
#[derive(Drop)]
pub struct TailCut {
    pub below: Tail,
    pub found: Option<i64>,
    pub above: Tail,
}

impl Tail {
    /// The tail of these entries over another base, which is below them. A tail that is over this base already
    /// is not written anew.
    ///
    /// The only error is out of memory.
    pub fn over(self, alloc: Global, base: Option<u32>) -> Result<Tail, AllocError>
        requires { Ascends base (keys_of self.entries) }
        ensures { IfOk result (λ t. t ≡ based_list base self.entries) }
    {
        if self.base() == base {
            return Ok(self);
        }
        let entries = self.entries(alloc)?;
        Tail::from_ascending(alloc, base, &entries.lent())
    }

    /// The entries of this tail and then those of another, over a base below them.
    ///
    /// The only error is out of memory.
    pub fn followed_by(
        &self,
        alloc: Global,
        base: Option<u32>,
        more: &Tail,
    ) -> Result<Tail, AllocError>
        requires { Ascends base (keys_of (self.now.entries ++ more.now.entries)) }
        ensures { IfOk result (λ t. t ≡ based_list base (self.now.entries ++ more.now.entries)) }
    {
        let len = self.len() + more.len();
        let mut keys = Vec::new(alloc);
        keys.resize(len, 0)?;
        let mut weights = Vec::new(alloc);
        weights.resize(len, 1)?;
        let position = self.read_into(&mut keys, &mut weights, 0);
        more.read_into(&mut keys, &mut weights, position);
        let entries = EntryList::new(keys, weights);
        Tail::from_ascending(alloc, base, &entries.lent())
    }

    /// The tail cut at a key, each side over some base below it. A tail that lies on one side is
    /// shared.
    ///
    /// The only error is out of memory.
    pub fn cut(&self, alloc: Global, key: u32) -> Result<TailCut, AllocError>
        ensures { IfOk result (λ c. CutsEntries key self.now.entries c.below.entries c.found
            c.above.entries) }
    {
        let base = self.base();
        let entries = self.entries(alloc)?;
        let (below, found, above) = cut_entries(&entries.lent(), key);
        let below = self.side(alloc, base, &below)?;
        let above = self.side(alloc, Some(key), &above)?;
        Ok(TailCut {
            below,
            found,
            above,
        })
    }

    /// The tail of the entries on one side of a key, over a base below them. Where they are all entries
    /// this tail is shared.
    fn side(
        &self,
        alloc: Global,
        base: Option<u32>,
        entries: &Entries<'_>,
    ) -> Result<Tail, AllocError>
        requires over { Ascends base (keys_of entries.now) }
        requires whole { length entries.now ≡ length self.now.entries → entries.now ≡ self.now.entries }
        ensures { IfOk result (λ t. t.entries ≡ entries.now) }
    {
        if entries.len() == self.len() {
            return self.share();
        }
        Tail::from_ascending(alloc, base, entries)
    }
}
