//! Jobs that are finished, on streams of small edits, beside runs from nothing.

use algorithm_meaning::Outcome;
use bench_support::{Random, random_weight};
use compiler::compile;
use flat_snapshot::Flat;
use plans::Plan;
use runner::{Stand, run_alone};
use session::{Session, SessionReply, SessionStep};
use std::alloc::{AllocError, Global};
use std::test::Fail;
use test_helpers::{Checked, check};
use test_oracle::{PROGRAMS, Scheduled, check_same};
use tree_batch::{Batch, Entry, Graph};
use version_list::{Reply, Which};

const VERTICES: u32 = 40;

// How many entries the first batch has, so that few edits are a hundredth of the edges.
const FIRST: u64 = 900;

// How many streams each program has, and how many rounds a stream has.
const STREAMS: u64 = 1;

const ROUNDS: u64 = 10;

// At most so many turns of a job: some jobs end by their turns.
const TURNS: [u64; 3] = [2, 5, 60];

// A ticket, and the number of the version that it holds.
type Held = (u64, u64);

// A session of one program, the flat snapshots of its versions, and its tickets.
struct Stream {
    session: Session,
    plan: Plan,
    graph: Graph,
    flats: Vec<Flat>,
    tickets: Vec<Held>,
    jobs: u64,
}

impl Drop for Stream {
    fn drop(self) {
        let Stream {
            session: _,
            plan: _,
            graph: _,
            flats: _,
            tickets: _,
            jobs: _,
        } = self;
    }
}

const REFUSED: SessionReply = SessionReply::Of(Reply::Refused(413));

fn random_vertex(random: &mut Random) -> u32 {
    random.below(u64::from(VERTICES)) as u32
}

fn random_entry(random: &mut Random) -> Entry {
    let (source, destination) = (random_vertex(random), random_vertex(random));
    match random.below(4) {
        0 => Entry::Remove(source, destination),
        _ => Entry::Add(source, destination, random_weight(random)),
    }
}

// A batch of so many entries. Some batches ask for a vertex more.
fn random_batch(
    alloc: Global,
    random: &mut Random,
    count: u64,
    vertices: u32,
) -> Result<Batch, Fail> {
    let mut batch = Batch::new(alloc);
    for _ in 0..count {
        batch.push(random_entry(random))?;
    }
    if random.below(8) == 0 {
        batch.push(Entry::Grow(vertices.saturating_add(1)))?;
    }
    Ok(batch)
}

// The plan of a program.
fn plan_of(alloc: Global, (_, program, schedule): &Scheduled) -> Result<Plan, Fail> {
    let mut text = String::new(alloc);
    text.push_str(program)?;
    text.push_str(schedule)?;
    Ok(compile(alloc, text.as_bytes())?)
}

impl Stream {
    // A session of two programs. The tested one has the number 2.
    fn new(alloc: Global, scheduled: &Scheduled) -> Result<Stream, Fail> {
        let mut plans = Vec::new(alloc);
        plans.push(plan_of(alloc, &PROGRAMS[0])?)?;
        plans.push(plan_of(alloc, scheduled)?)?;
        Ok(Stream {
            session: Session::new(alloc, VERTICES, 64, plans)?,
            plan: plan_of(alloc, scheduled)?,
            graph: Graph::new(VERTICES, 64)?,
            flats: Vec::new(alloc),
            tickets: Vec::new(alloc),
            jobs: 0,
        })
    }

    // Commits a batch of so many entries.
    fn commit(&mut self, alloc: Global, random: &mut Random, count: u64) -> Result<Checked, Fail> {
        let batch = random_batch(alloc, random, count, self.graph.vertices())?;
        self.graph = self.graph.apply(alloc, &batch)?;
        self.flats.push(Flat::of(alloc, &self.graph)?)?;
        let reply = self.session.step(alloc, SessionStep::Commit(batch))?;
        let number = self.flats.len() as u64;
        Ok(check(
            reply == SessionReply::Of(Reply::Version(number)),
            "the commit",
        ))
    }

    // Holds the newest version.
    fn hold(&mut self, alloc: Global) -> Result<Checked, Fail> {
        let reply = self
            .session
            .step(alloc, SessionStep::Acquire(Which::Newest))?;
        let SessionReply::Of(Reply::Ticket(ticket, version)) = reply else {
            return Ok(Err("the hold"));
        };
        self.tickets.push((ticket, version))?;
        Ok(check(
            version == self.flats.len() as u64,
            "the version that is held",
        ))
    }

    // Releases the ticket at an index.
    fn release(&mut self, alloc: Global, index: usize) -> Result<Checked, Fail> {
        let Some((ticket, _)) = self.tickets.get(index).copied() else {
            return Ok(Err("the ticket"));
        };
        self.tickets.swap_remove(index);
        let reply = self.session.step(alloc, SessionStep::Release(ticket))?;
        Ok(check(reply == SessionReply::Of(Reply::Released), "the release"))
    }

    // Starts a job of a program on a version that is held, and gives its number.
    fn start(
        &mut self,
        alloc: Global,
        program: u64,
        ticket: u64,
        turns: u64,
    ) -> Result<Checked, Fail> {
        let step = SessionStep::Start {
            program,
            ticket,
            turns,
        };
        self.jobs = self.jobs.saturating_add(1);
        let reply = self.session.step(alloc, step)?;
        Ok(check(reply == SessionReply::Job(self.jobs), "the start"))
    }

    // Takes so many steps of the last job.
    fn step(&mut self, alloc: Global, count: u64) -> Result<(), Fail> {
        for _ in 0..count {
            self.session.step(alloc, SessionStep::JobStep(self.jobs))?;
        }
        Ok(())
    }

    // What a run from nothing on a version shows.
    fn wanted(
        &self,
        alloc: Global,
        version: u64,
        turns: u64,
    ) -> Result<Option<Outcome>, AllocError> {
        match self.flats.get((version as usize).wrapping_sub(1)) {
            Some(flat) => Ok(Some(run_alone(alloc, &self.plan, flat, turns)?)),
            None => Ok(None),
        }
    }

    // Finishes the last job. Checks that the reply is the end of this outcome, and that the job shows the outcome.
    fn check_finish(&mut self, alloc: Global, wanted: &Outcome) -> Result<Checked, Fail> {
        let (session, job) = (&mut self.session, self.jobs);
        let reply = session.finish(alloc, job)?;
        let Some(finished) = session.job(job) else {
            return Ok(Err("the job"));
        };
        let shown = finished.outcome(alloc)?;
        let ended = SessionReply::Stands(Stand::Ended(wanted.end));
        Ok(check(reply == ended, "the reply").and(check_same(&shown, wanted)))
    }

    // Checks that no job is finished that there is not.
    fn check_refusals(&mut self, alloc: Global) -> Result<Checked, Fail> {
        let none = self.session.finish(alloc, 0)?;
        let next = self.session.finish(alloc, self.jobs.saturating_add(1))?;
        Ok(check(none == REFUSED, "job 0").and(check(next == REFUSED, "the job after the last")))
    }

    // Starts a job of the tested program on the ticket at an index, takes some steps of it, and checks that it ends as a run from
    // nothing. Its ticket may be released before.
    fn check_job(
        &mut self,
        alloc: Global,
        random: &mut Random,
        index: usize,
    ) -> Result<Checked, Fail> {
        let Some((ticket, version)) = self.tickets.get(index).copied() else {
            return Ok(Err("the ticket"));
        };
        let turns = TURNS[random.below(3) as usize];
        let mut checked = self.start(alloc, 2, ticket, turns)?;
        if random.below(4) == 0 {
            self.step(alloc, random.below(9))?;
        }
        if random.below(5) == 0 {
            checked = checked.and(self.release(alloc, index)?);
        }
        let Some(wanted) = self.wanted(alloc, version, turns)? else {
            return Ok(Err("the version"));
        };
        for _ in 0..2 {
            checked = checked.and(self.check_finish(alloc, &wanted)?);
        }
        Ok(checked)
    }

    // Finishes a job of the other program.
    fn finish_other(&mut self, alloc: Global, index: usize) -> Result<Checked, Fail> {
        let Some((ticket, _)) = self.tickets.get(index).copied() else {
            return Ok(Err("the ticket"));
        };
        let checked = self.start(alloc, 1, ticket, 60)?;
        let reply = self.session.finish(alloc, self.jobs)?;
        let has_ended = matches!(reply, SessionReply::Stands(Stand::Ended(_)));
        Ok(checked.and(check(has_ended, "the end of the other program")))
    }

    // Some commits, a hold, and some jobs on versions that are held.
    fn check_round(&mut self, alloc: Global, random: &mut Random) -> Result<Checked, Fail> {
        let mut checked = self.hold(alloc)?;
        for _ in 0..random.below(4) {
            let last = self.tickets.len().saturating_sub(1);
            let index = match random.below(3) {
                0 => random.below(self.tickets.len().max(1) as u64) as usize,
                _ => last,
            };
            checked = checked.and(self.check_job(alloc, random, index)?);
            if self.tickets.is_empty() {
                checked = checked.and(self.hold(alloc)?);
            }
        }
        if random.below(3) == 0 {
            checked = checked.and(self.finish_other(alloc, 0)?);
        }
        for _ in 0..random.below(3) {
            let count = random.below(3);
            checked = checked.and(self.commit(alloc, random, count)?);
        }
        Ok(checked)
    }
}

// Checks a stream of a program.
fn check_stream(alloc: Global, scheduled: &Scheduled, seed: u64) -> Result<Checked, Fail> {
    let mut random = Random::new(seed);
    let mut stream = Stream::new(alloc, scheduled)?;
    let mut checked = stream.commit(alloc, &mut random, FIRST)?;
    for _ in 0..ROUNDS {
        checked = checked.and(stream.check_round(alloc, &mut random)?);
    }
    Ok(checked.and(stream.check_refusals(alloc)?))
}

// Checks the streams of a program.
fn check_program(alloc: Global, scheduled: &Scheduled) -> Result<Checked, Fail> {
    let mut checked = Ok(());
    for seed in 0..STREAMS {
        checked = checked.and(check_stream(alloc, scheduled, seed)?);
    }
    Ok(checked)
}

#[test]
fn finished_jobs_show_what_runs_from_nothing_show(rt: HostRuntime) -> Result<(), Fail> {
    for scheduled in &PROGRAMS {
        let checked = check_program(rt.alloc(), scheduled)?;
        assert!(rt; checked == Ok(()), "{}: {checked:?}", scheduled.0);
    }
    Ok(())
}
