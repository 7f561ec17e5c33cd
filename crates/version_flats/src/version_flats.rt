//! The flats of versions, by the versions' numbers.
ghost use Rattle.std.specs.Prelude.{◌≡◌, ℕ, ◌==◌, ◌&&◌, not, if◌then◌else◌, None, Some, IfOk, OnOk};
ghost use Rattle.std.specs.Option.{option_map};
ghost use Rattle.tree_batch.specs.Digraph.{Digraph};
ghost use Rattle.version_list.specs.Machine.{State, is_kept, newest_graph};
ghost use Rattle.version_flats.specs.VersionFlats.{flat_of, AreOf, IsKept, IsMade, Follows, MayGain};

use flat_snapshot::Flat;
use indexmap::IndexMap;
use std::alloc::{AllocError, Global};
use std::sync::Arc;
use tree_batch::Graph;
use version_list::Versions;

/// A list of edges is worth to follow if the graph has so many edges for each of them.
const EDGES_FOR_EACH_LISTED: usize = 100;

/// The flat of a version.
pub(crate) struct VersionFlat {
    version: u64,
    flat: Arc<Flat>,
}

// By hand: a derived drop would be written out, and proved again, in each function that lets a flat go.
impl Drop for VersionFlat {
    fn drop(self) {
        let VersionFlat {
            version: _,
            flat: _,
        } = self;
    }
}

/// The flats of versions, by the versions' numbers.
pub struct VersionFlats {
    flats: IndexMap<u64, Arc<Flat>>,
    /// The last flat that was made of a version that was the newest then. It stays until the next one, also if the version is
    /// no longer kept.
    last: Option<VersionFlat>,
}

// By hand: a derived drop would be written out, and proved again, in each function that lets flats go.
impl Drop for VersionFlats {
    fn drop(self) {
        let VersionFlats { flats: _, last: _ } = self;
    }
}

impl VersionFlats {
    /// No flat. It takes no memory.
    pub fn new(alloc: Global) -> VersionFlats
        ensures none { (k : ℕ) → flat_of result k ≡ None }
        ensures are_of { (s : State) → AreOf s result }
    {
        VersionFlats {
            flats: IndexMap::new(alloc),
            last: None,
        }
    }

    /// The flat of a version that is kept, whose graph this is; it is made where there is none. That of the newest version
    /// shares with the last one that was made of a newest version, if the edges that were named since are at most a hundredth
    /// of its edges. The only error is out of memory.
    pub fn flat(
        &mut self,
        alloc: Global,
        versions: &Versions,
        version: u64,
        graph: &Graph,
    ) -> Result<Arc<Flat>, AllocError>
        requires flats { AreOf versions.now.state self.old }
        requires graph { IsKept versions.now.state version graph.now }
        ensures flat { IfOk result (λ flat. flat.value ≡ graph.now) }
        ensures there { OnOk result (flat_of self.new version ≡ Some graph.now) }
        ensures gains { MayGain self.old version graph.now self.new }
        ensures are_of { AreOf versions.now.state self.new }
    {
        if let Some(flat) = self.flats.get(&version) {
            return flat.clone();
        }
        let flat = Arc::new(alloc, self.made(alloc, versions, version, graph)?)?;
        self.keep_last(versions, version, &flat)?;
        self.keep(version, &flat)?;
        Ok(flat)
    }

    /// A new flat of a version. The only error is out of memory.
    fn made(
        &self,
        alloc: Global,
        versions: &Versions,
        version: u64,
        graph: &Graph,
    ) -> Result<Flat, AllocError>
        requires flats { AreOf versions.now.state self.now }
        requires graph { IsKept versions.now.state version graph.now }
        ensures { IfOk result (λ flat. flat ≡ graph.now) }
    {
        let (newest, _) = versions.newest();
        match &self.last {
            Some(last) if version == newest => following(alloc, versions, last, graph),
            _ => Flat::of(alloc, graph),
        }
    }

    /// Keeps the flat of a version as the last one, if the version is the newest. The only error is out of memory.
    fn keep_last(
        &mut self,
        versions: &Versions,
        version: u64,
        flat: &Arc<Flat>,
    ) -> Result<(), AllocError>
        requires flats { AreOf versions.now.state self.old }
        requires flat { IsKept versions.now.state version flat.now.value }
        ensures flats { (k : ℕ) → flat_of self.new k ≡ flat_of self.old k }
        ensures are_of { AreOf versions.now.state self.new }
    {
        let (newest, _) = versions.newest();
        if version != newest {
            return Ok(());
        }
        let flat = flat.clone()?;
        self.last = Some(VersionFlat { version, flat });
        Ok(())
    }

    /// Keeps the flat of a version. The only error is out of memory.
    fn keep(&mut self, version: u64, flat: &Arc<Flat>) -> Result<(), AllocError>
        ensures there { OnOk result (flat_of self.new version ≡ Some flat.now.value) }
        ensures gains { MayGain self.old version flat.now.value self.new }
        ensures are_of { (s : State) → AreOf s self.old → IsKept s version flat.now.value → AreOf s self.new }
    {
        let shared = flat.clone()?;
        match self.flats.insert(version, shared) {
            Ok(_) => Ok(()),
            Err(_) => Err(AllocError),
        }
    }

    /// Lets the flat of a version go where the version is no longer kept, after a step that let no other version
    /// go. The last flat of a newest version stays. It takes no memory.
    pub fn let_go(&mut self, versions: &Versions, version: u64)
        ensures flats { (k : ℕ) → flat_of self.new k
            ≡ (if (version == k) && not (is_kept versions.now.state version) then None
            else flat_of self.old k) }
        ensures are_of { (s : State) → AreOf s self.old → Follows s versions.now.state version
            → AreOf versions.now.state self.new }
    {
        if !versions.is_kept(version) {
            self.flats.swap_remove(&version);
        }
    }
}

/// The flat of the newest version, which shares with that of a former one if few edges were named since. The only error is out
/// of memory.
fn following(
    alloc: Global,
    versions: &Versions,
    former: &VersionFlat,
    graph: &Graph,
) -> Result<Flat, AllocError>
    requires former { IsMade versions.now.state former.now.version former.now.flat.value }
    requires newest { graph.now ≡ newest_graph versions.now.state }
    ensures { IfOk result (λ flat. flat ≡ graph.now) }
{
    let most = graph.edge_count() / EDGES_FOR_EACH_LISTED;
    match versions.edges_since(alloc, former.version, most)? {
        Some(edges) => Flat::following(alloc, &former.flat, graph, &edges),
        None => Flat::of(alloc, graph),
    }
}
