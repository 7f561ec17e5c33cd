//! The open tickets, and the versions that they hold.

ghost use Rattle.std.specs.Prelude.{◌≡◌, ℕ, ◌+◌, ◌<◌, ◌^◌, ◌==◌, if◌then◌else◌, nat_eq, None, Some, is_some, IsSome, OnOk};
ghost use Rattle.std.specs.Option.{option_map, option_copied};
ghost use Rattle.indexmap.specs.IndexMap.{IsEmpty, IsUnchanged, get, index_map_len};
ghost use Rattle.version_list.specs.declared.held.HeldVersion.{HeldVersion};
ghost use Rattle.version_list.specs.inside.Held.{one_more, one_fewer, HasRoom};

use indexmap::IndexMap;
use std::alloc::{AllocError, Global};
use tree_batch::Graph;

/// A version's graph, and how many open tickets hold it.
#[derive(Debug, Drop)]
pub(crate) struct HeldVersion {
    graph: Graph,
    holders: u64,
}

/// The open tickets, each with the number of its version, and the versions that they hold.
#[derive(Debug, Drop)]
pub(crate) struct HeldVersions {
    tickets: IndexMap<u64, u64>,
    versions: IndexMap<u64, HeldVersion>,
}

impl HeldVersions {
    pub(crate) fn new(alloc: Global) -> HeldVersions
        ensures tickets { IsEmpty result.tickets }
        ensures versions { IsEmpty result.versions }
    {
        HeldVersions {
            tickets: IndexMap::new(alloc),
            versions: IndexMap::new(alloc),
        }
    }

    /// How many tickets are open.
    pub(crate) fn ticket_count(&self) -> usize
        ensures { result ≡ index_map_len self.now.tickets }
    {
        self.tickets.len()
    }

    /// Whether the ticket is open.
    pub(crate) fn is_open(&self, ticket: u64) -> bool
        ensures { result ≡ is_some (get nat_eq self.now.tickets ticket) }
    {
        self.tickets.contains_key(&ticket)
    }

    /// The number of the version that the ticket holds.
    pub(crate) fn version(&self, ticket: u64) -> Option<u64>
        ensures { result ≡ get nat_eq self.now.tickets ticket }
    {
        self.tickets.get(&ticket).copied()
    }

    /// The graph of a version that a ticket holds.
    pub(crate) fn graph(&self, version: u64) -> Option<&Graph>
        ensures { option_copied result
            ≡ option_map (λ held. held.graph) (get nat_eq self.now.versions version) }
    {
        match self.versions.get(&version) {
            Some(held) => Some(&held.graph),
            None => None,
        }
    }

    /// Makes room for one more ticket and one more version.
    pub(crate) fn reserve(&mut self) -> Result<(), AllocError>
        ensures tickets { IsUnchanged self.old.tickets self.new.tickets }
        ensures versions { IsUnchanged self.old.versions self.new.versions }
        ensures ok { OnOk result (HasRoom self.new) }
        ensures err { HasRoom self.old → HasRoom self.new }
    {
        self.tickets.reserve(1)?;
        self.versions.reserve(1)
    }

    /// Opens a ticket on a version, whose graph this is. The graph is kept where no other ticket holds the
    /// version. Takes no memory.
    pub(crate) fn open(&mut self, ticket: u64, version: u64, graph: Graph)
        requires room { HasRoom self.old }
        requires few { (held : HeldVersion) → get nat_eq self.old.versions version ≡ Some held
            → held.holders + 1 < 2 ^ 64 }
        ensures tickets { (q : ℕ) → get nat_eq self.new.tickets q
            ≡ (if ticket == q then Some version else get nat_eq self.old.tickets q) }
        ensures count { get nat_eq self.old.tickets ticket ≡ None
            → index_map_len self.new.tickets ≡ index_map_len self.old.tickets + 1 }
        ensures versions { (q : ℕ) → get nat_eq self.new.versions q
            ≡ (if version == q then Some (one_more graph (get nat_eq self.old.versions version))
            else get nat_eq self.old.versions q) }
    {
        match self.versions.get_mut(&version) {
            Some(held) => held.holders += 1,
            None => {
                let held = HeldVersion { graph, holders: 1 };
                self.versions.insert(version, held).unwrap();
            }
        }
        self.tickets.insert(ticket, version).unwrap();
    }

    /// Closes an open ticket, and answers its version, which goes where no other ticket holds it.
    pub(crate) fn close(&mut self, ticket: u64) -> Option<u64>
        ensures version { result ≡ get nat_eq self.old.tickets ticket }
        ensures tickets { (q : ℕ) → get nat_eq self.new.tickets q
            ≡ (if ticket == q then None else get nat_eq self.old.tickets q) }
        ensures count { IsSome result
            → index_map_len self.new.tickets + 1 ≡ index_map_len self.old.tickets }
        ensures versions { (version : ℕ) → result ≡ Some version → (q : ℕ)
            → get nat_eq self.new.versions q
            ≡ (if version == q then one_fewer (get nat_eq self.old.versions version)
            else get nat_eq self.old.versions q) }
    {
        let version = self.tickets.swap_remove(&ticket)?;
        match self.versions.get_mut(&version) {
            Some(held) if held.holders > 1 => held.holders -= 1,
            _ => {
                self.versions.swap_remove(&version);
            }
        }
        Some(version)
    }
}
