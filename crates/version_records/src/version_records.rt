//! The records of runs, by programs and by versions.
ghost use Rattle.std.specs.Prelude.{IfSome};
ghost use Rattle.version_records.specs.VersionRecords.{HasRecord, HaveNone, IsOfFormer, IsOfHeld, MayKeep, MayLose};
ghost use Rattle.version_records.specs.inside.Versions.{IsFormerOfNewest};

use indexmap::IndexMap;
use std::alloc::Global;
use version_list::Versions;

/// A list of edges is worth to follow if the graph has so many edges for each of them.
const EDGES_FOR_EACH_LISTED: usize = 100;

/// The record of a program's run on a version.
#[derive(Drop)]
pub(crate) struct VersionRecord<R> {
    version: u64,
    run_record: R,
}

/// The last run on a version that a ticket holds: its program, and its record if that was not the first run of it.
#[derive(Drop)]
pub(crate) struct HeldRun<R> {
    program: u64,
    run_record: Option<R>,
}

/// The record of a former run of a program, and the ends of all edges in which the graph of a later run may differ.
#[derive(Drop)]
pub struct Predecessor<'a, R> {
    pub run_record: &'a R,
    pub edges: Vec<(u32, u32)>,
}

/// The records of runs: of each program's last run on the newest version, and of the last run on each version that a ticket holds, if
/// the run before it was of the same program.
pub struct VersionRecords<R> {
    /// By the numbers of the programs.
    last: IndexMap<u64, VersionRecord<R>>,
    /// By the numbers of the versions.
    held: IndexMap<u64, HeldRun<R>>,
    /// How many entries were committed since a record was kept.
    committed: usize,
}

// By hand: a derived drop would be written out, and proved again, in each function that lets records go.
impl<R: Drop> Drop for VersionRecords<R> {
    fn drop(self) {
        let VersionRecords {
            last: _,
            held: _,
            committed: _,
        } = self;
    }
}

impl<R: Drop> VersionRecords<R> {
    /// No record. It takes no memory.
    pub fn new(alloc: Global) -> VersionRecords<R>
        ensures { HaveNone result }
    {
        VersionRecords {
            last: IndexMap::new(alloc),
            held: IndexMap::new(alloc),
            committed: 0,
        }
    }

    /// The record that a run of a program on a version follows: one of that version, or the last one of the program if the
    /// version is the newest and the edges that were named since are at most a hundredth of its edges. It takes the time of a walk
    /// over the history since that version. Where memory is refused for the list there is none.
    pub fn predecessor(
        &self,
        alloc: Global,
        versions: &Versions,
        program: u64,
        version: u64,
    ) -> Option<Predecessor<'_, R>>
        ensures { IfSome result (IsOfFormer versions.now.state self.now program version) }
    {
        if let Some(run_record) = self.of_version(program, version) {
            let edges = Vec::new(alloc);
            return Some(Predecessor { run_record, edges });
        }
        let (newest, graph) = versions.newest();
        if version != newest {
            return None;
        }
        let former = self.last.get(&program)?;
        let most = graph.edge_count() / EDGES_FOR_EACH_LISTED;
        let edges = edges_since(alloc, versions, former.version, most)?;
        let run_record = &former.run_record;
        Some(Predecessor { run_record, edges })
    }

    /// The record of a program's run on this version, if it is kept.
    fn of_version(&self, program: u64, version: u64) -> Option<&R>
        ensures { IfSome result (λ r. HasRecord self.now program version r.now) }
    {
        let found = self.last.get(&program);
        match found {
            Some(last) if last.version == version => Some(&last.run_record),
            _ => self.of_held(program, version),
        }
    }

    /// The record of a program's run on a version that a ticket holds, if it is kept.
    fn of_held(&self, program: u64, version: u64) -> Option<&R>
        ensures { IfSome result (λ r. IsOfHeld self.now program version r.now) }
    {
        let held = self.held.get(&version)?;
        if held.program != program {
            return None;
        }
        held.run_record.as_ref()
    }

    /// Keeps the record of a run of a program on a version in place of the one that it follows, or none. If memory is refused for
    /// it, it is dropped.
    pub fn keep(&mut self, versions: &Versions, program: u64, version: u64, run_record: Option<R>)
        ensures { MayKeep self.old program version run_record self.new }
    {
        let (newest, _) = versions.newest();
        if version == newest {
            self.keep_last(program, version, run_record);
        } else {
            self.keep_held(program, version, run_record);
        }
    }

    /// Keeps the record of a program's last run on the newest version, which is this one, or none.
    fn keep_last(&mut self, program: u64, version: u64, run_record: Option<R>)
        ensures { MayKeep self.old program version run_record self.new }
    {
        self.committed = 0;
        match run_record {
            None => {
                self.last.swap_remove(&program);
            }
            Some(run_record) => {
                let kept = VersionRecord {
                    version,
                    run_record,
                };
                let _ = self.last.insert(program, kept);
            }
        }
    }

    /// Keeps which program was run on a version that a ticket holds, and the record if that was the last one there already.
    fn keep_held(&mut self, program: u64, version: u64, run_record: Option<R>)
        ensures { MayKeep self.old program version run_record self.new }
    {
        let is_again = self.was_run(program, version);
        let held = HeldRun {
            program,
            run_record: if is_again { run_record } else { None },
        };
        let _ = self.held.insert(version, held);
    }

    /// Whether the last run on a version that a ticket holds was of this program.
    fn was_run(&self, program: u64, version: u64) -> bool {
        match self.held.get(&version) {
            Some(held) => held.program == program,
            None => false,
        }
    }

    /// Counts the entries of a commit, and drops the programs' last records if more entries were committed since the last run than a
    /// hundredth of the edges: no run will follow these records. It takes no memory.
    pub fn after_commit(&mut self, versions: &Versions, entries: usize)
        ensures { MayLose self.old self.new }
    {
        self.committed = self.committed.saturating_add(entries);
        let (_, graph) = versions.newest();
        if self.committed > graph.edge_count() / EDGES_FOR_EACH_LISTED {
            self.last.clear();
        }
    }

    /// Drops the record of a version after a release, if the version is no longer kept. It takes no memory.
    pub fn after_release(&mut self, versions: &Versions, version: u64)
        ensures { MayLose self.old self.new }
    {
        if !versions.is_kept(version) {
            self.held.swap_remove(&version);
        }
    }
}

/// The ends of the edges that were named since a version, if these are at most so many and there is memory for them.
fn edges_since(
    alloc: Global,
    versions: &Versions,
    version: u64,
    most: usize,
) -> Option<Vec<(u32, u32)>>
    ensures { IfSome result (λ edges. IsFormerOfNewest versions.now.state edges.items version) }
{
    match versions.edges_since(alloc, version, most) {
        Ok(found) => found,
        Err(_) => None,
    }
}
