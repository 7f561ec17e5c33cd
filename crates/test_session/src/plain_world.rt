//! The world of a session, as a plain program: a version is a number of vertices and a table of the weights between
//! pairs, and a job a count of steps that are done afresh each time.

use crate::programs::VERTICES;
use algorithm_meaning::Outcome;
use flat_snapshot::Flat;
use plans::Plan;
use runner::{Job, SerialApplier, Stand};
use session::{SessionError, SessionReply, SessionStep};
use std::alloc::{AllocError, Global};
use std::sync::Arc;
use std::test::Fail;
use tree_batch::{Batch, Entry, Graph};
use version_list::{Reply, Which};

/// The most vertices that a graph grows to.
pub(crate) const MOST_VERTICES: u32 = 12;

// How many pairs there are.
const PAIRS: usize = 144;

// A job: the index of its program, the number of its version, its turns, and how many steps were asked of it.
#[derive(Clone, Copy)]
struct PlainJob {
    program: usize,
    version: usize,
    turns: u64,
    count: u32,
}

/// The numbers of vertices of all versions, the weights of the pairs that are edges in each, one version after another, the
/// versions that tickets hold, and the jobs.
pub(crate) struct PlainWorld {
    vertices: Vec<u32>,
    weights: Vec<Option<i64>>,
    tickets: Vec<Option<usize>>,
    jobs: Vec<PlainJob>,
}

impl Drop for PlainWorld {
    fn drop(self) {
        let PlainWorld {
            vertices: _,
            weights: _,
            tickets: _,
            jobs: _,
        } = self;
    }
}

const fn refused(number: u16) -> SessionReply {
    SessionReply::Of(Reply::Refused(number))
}

// Where the weights of a version tell of a pair.
fn pair_of(version: usize, source: u32, destination: u32) -> usize {
    let pair = source.wrapping_mul(MOST_VERTICES).wrapping_add(destination);
    version.wrapping_mul(PAIRS).wrapping_add(pair as usize)
}

// How many vertices there are after entries.
fn vertices_after(before: u32, entries: &[Entry]) -> u32 {
    let mut after = before;
    for entry in entries {
        if let Entry::Grow(vertices) = *entry {
            after = after.max(vertices);
        }
    }
    after
}

// Whether an entry may be one of those by which so many vertices become so many.
fn fits(entry: Entry, before: u32, after: u32) -> bool {
    match entry {
        Entry::Add(source, destination, _) | Entry::Remove(source, destination) => {
            source < after && destination < after
        }
        Entry::Grow(vertices) => vertices >= before,
    }
}

// The index of what has this number, which counts from 1.
fn index_of(number: u64) -> Option<usize> {
    usize::try_from(number.checked_sub(1)?).ok()
}

impl PlainWorld {
    /// Version 0, with no edge, and no job.
    pub(crate) fn new(alloc: Global) -> Result<PlainWorld, AllocError> {
        Ok(PlainWorld {
            vertices: vec![in alloc; VERTICES; 1]?,
            weights: vec![in alloc; None; PAIRS]?,
            tickets: Vec::new(alloc),
            jobs: Vec::new(alloc),
        })
    }

    fn newest(&self) -> usize {
        self.vertices.len().saturating_sub(1)
    }

    fn vertices_of(&self, version: usize) -> u32 {
        self.vertices.get(version).copied().unwrap_or(0)
    }

    fn weight(&self, index: usize) -> Option<i64> {
        self.weights.get(index).copied().flatten()
    }

    // The version that a ticket holds.
    fn held(&self, ticket: u64) -> Option<usize> {
        self.tickets.get(index_of(ticket)?).copied().flatten()
    }

    // The job of this number.
    fn job(&self, number: u64) -> Option<PlainJob> {
        self.jobs.get(index_of(number)?).copied()
    }

    // Answers a commit.
    fn commit(&mut self, entries: &[Entry]) -> Result<SessionReply, AllocError> {
        let newest = self.newest();
        let before = self.vertices_of(newest);
        let after = vertices_after(before, entries);
        if !entries.iter().all(|entry| fits(*entry, before, after)) {
            return Ok(refused(111));
        }
        for pair in 0..PAIRS {
            let weight = self.weight(pair_of(newest, 0, 0).wrapping_add(pair));
            self.weights.push(weight)?;
        }
        self.vertices.push(after)?;
        for entry in entries {
            self.note(*entry);
        }
        Ok(SessionReply::Of(Reply::Version(self.newest() as u64)))
    }

    // Notes an entry in the newest version.
    fn note(&mut self, entry: Entry) {
        let newest = self.newest();
        if let Some((source, destination)) = entry.ends()
            && let Some(cell) = self.weights.get_mut(pair_of(newest, source, destination))
        {
            *cell = match entry {
                Entry::Add(_, _, weight) => Some(weight),
                Entry::Remove(..) | Entry::Grow(_) => None,
            };
        }
    }

    // Answers a hold.
    fn acquire(&mut self, which: Which) -> Result<SessionReply, AllocError> {
        let version = match which {
            Which::Newest => self.newest(),
            Which::At(number) => number as usize,
        };
        let is_held = self.tickets.iter().any(|held| *held == Some(version));
        if !is_held && version != self.newest() {
            return Ok(refused(121));
        }
        self.tickets.push(Some(version))?;
        let ticket = self.tickets.len() as u64;
        Ok(SessionReply::Of(Reply::Ticket(ticket, version as u64)))
    }

    // Answers a release.
    fn release(&mut self, ticket: u64) -> SessionReply {
        if self.held(ticket).is_some()
            && let Some(index) = index_of(ticket)
            && let Some(held) = self.tickets.get_mut(index)
        {
            *held = None;
            return SessionReply::Of(Reply::Released);
        }
        refused(122)
    }

    // Answers a start of one of so many programs.
    fn start(
        &mut self,
        programs: usize,
        (program, ticket, turns): (u64, u64, u64),
    ) -> Result<SessionReply, AllocError> {
        let program = match index_of(program) {
            Some(index) if index < programs => index,
            _ => return Ok(refused(412)),
        };
        let Some(version) = self.held(ticket) else {
            return Ok(refused(122));
        };
        self.jobs.push(PlainJob {
            program,
            version,
            turns,
            count: 0,
        })?;
        Ok(SessionReply::Job(self.jobs.len() as u64))
    }

    // Counts a step of a job.
    fn count(&mut self, number: u64) {
        if let Some(index) = index_of(number)
            && let Some(job) = self.jobs.get_mut(index)
        {
            job.count = job.count.wrapping_add(1);
        }
    }

    /// What a step is answered.
    pub(crate) fn answer(
        &mut self,
        alloc: Global,
        plans: &[Arc<Plan>],
        step: &SessionStep,
    ) -> Result<SessionReply, Fail> {
        match step {
            SessionStep::Commit(batch) => {
                let entries = entries_of(alloc, batch)?;
                Ok(self.commit(&entries)?)
            }
            SessionStep::Acquire(which) => Ok(self.acquire(*which)?),
            SessionStep::Release(ticket) => Ok(self.release(*ticket)),
            SessionStep::Start {
                program,
                ticket,
                turns,
            } => Ok(self.start(plans.len(), (*program, *ticket, *turns))?),
            SessionStep::JobStep(number) => {
                self.count(*number);
                match self.afresh(alloc, plans, *number)? {
                    Some((stand, _outcome)) => Ok(SessionReply::Stands(stand)),
                    None => Ok(refused(413)),
                }
            }
        }
    }

    // The graph of a version, which never grew.
    fn graph_of(&self, alloc: Global, version: usize) -> Result<Flat, Fail> {
        let vertices = self.vertices_of(version);
        let mut batch = Batch::new(alloc);
        for source in 0..vertices {
            for destination in 0..vertices {
                if let Some(weight) = self.weight(pair_of(version, source, destination)) {
                    batch.push(Entry::Add(source, destination, weight))?;
                }
            }
        }
        let graph = Graph::new(vertices, 64)?.apply(alloc, &batch)?;
        Ok(Flat::of(alloc, &graph)?)
    }

    /// How a job stands and what it shows: its program is run from the beginning, on the graph of its version alone.
    pub(crate) fn afresh(
        &self,
        alloc: Global,
        plans: &[Arc<Plan>],
        number: u64,
    ) -> Result<Option<(Stand, Outcome)>, Fail> {
        let Some(asked) = self.job(number) else {
            return Ok(None);
        };
        let Some(plan) = plans.get(asked.program) else {
            return Ok(None);
        };
        let graph = self.graph_of(alloc, asked.version)?;
        Ok(Some(run_afresh(alloc, plan, graph, asked)?))
    }
}

// How a run of a plan on a graph is after as many steps as were asked of a job, and what it shows.
fn run_afresh(
    alloc: Global,
    plan: &Arc<Plan>,
    graph: Flat,
    asked: PlainJob,
) -> Result<(Stand, Outcome), SessionError> {
    let graph = Arc::new(alloc, graph)?;
    let mut job = Job::new(alloc, plan.clone()?, graph, asked.turns)?;
    let mut alone = SerialApplier::new(alloc);
    let mut stand = Stand::Going;
    for _step in 0..asked.count {
        stand = job.step(alloc, &mut alone)?;
    }
    Ok((stand, job.outcome(alloc)?))
}

// The entries of a batch.
fn entries_of(alloc: Global, batch: &Batch) -> Result<Vec<Entry>, AllocError> {
    let mut entries = Vec::with_capacity(alloc, batch.len())?;
    for entry in batch.iter() {
        entries.push(entry)?;
    }
    Ok(entries)
}
