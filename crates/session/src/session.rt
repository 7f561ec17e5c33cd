//! The session: versions, plans and jobs, and its steps.
ghost use Rattle.std.specs.Prelude.{◌≡◌, ◌+◌, IfErr, IfOk, List, MatchOption, OnErr, map};
ghost use Rattle.std.specs.Arc.{arc_value};
ghost use Rattle.std.specs.Option.{option_copied};
ghost use Rattle.plans.specs.Operation.{ArePairwise};
ghost use Rattle.version_list.specs.declared.step.Step.TheVariants as versions;
ghost use Rattle.session.specs.declared.error.SessionError.TheVariants.{NoMemory};
ghost use Rattle.session.specs.declared.step.SessionStep.TheVariants.{Start, JobStep};
ghost use Rattle.session.specs.World.{ScheduledProgram, World, step_answer, first_world, nth_from_one};
ghost use Rattle.session.specs.Standing.{Finishes, IsAt, IsPlanOf, Opens, Runs, Takes};
ghost use Rattle.session.specs.inside.Attempts.{Attempts, FinishesOrNot, StepsVersions, told_of};

use crate::error::SessionError;
use crate::started_job::{JobOrigin, StartedJob};
use crate::step::{SessionReply, SessionStep};
use plans::Plan;
use run_records::RunRecord;
use runner::{Job, SerialApplier, Stand};
use std::alloc::Global;
use std::marker::Model;
use std::sync::Arc;
use tree_batch::Batch;
use version_flats::VersionFlats;
use version_list::{Reply, Ticket, Versions, Which};
use version_records::VersionRecords;

/// The versions of a graph, and jobs that run programs on those that are held.
pub struct Session {
    plans: Vec<Arc<Plan>>,
    versions: Versions,
    flats: VersionFlats,
    jobs: Vec<StartedJob>,
    records: VersionRecords<RunRecord>,
    alone: SerialApplier,
}

// By hand: a derived drop would be written out, and proved again, in each function that lets a session go.
impl Drop for Session {
    fn drop(self) {
        let Session {
            plans: _,
            versions: _,
            flats: _,
            jobs: _,
            records: _,
            alone: _,
        } = self;
    }
}

impl Model for Session {
    ghost use Rattle.std.specs.Prelude.{map};
    ghost use Rattle.std.specs.Arc.{arc_value};
    ghost use Rattle.std.specs.Coded.{codes};
    ghost use Rattle.plans.specs.contracts.plan.Plan as plan_contract;
    ghost use Rattle.session.specs.Standing.{SessionValue};

    ghost Value = { SessionValue };

    ghost coded = { Prim.hlevel (codes, plan_contract.the_row.coded) };

    ghost view = { λ s. record {
      plans = map arc_value s.plans.items;
      versions = s.versions.state;
      jobs = map (λ j. j.job) s.jobs.items;
    } };

    ghost use Rattle.session.specs.inside.Records.{AreOfVersions};

    ghost invariant = { λ s. AreOfVersions (map arc_value s.plans.items) s.versions.state s.flats s.records s.jobs.items };
}

impl Session {
    /// Version 0 of a graph with this many vertices, 1 to 16,777,216, and no edges, with the programs of these plans, numbered
    /// from 1 in this order, and no job. The chunk size is that of [`Graph::new`](tree_batch::Graph::new).
    ///
    /// Errors: `VertexRange` for another number of vertices, else `BadChunkSize` for another chunk size, else `NoMemory`.
    pub fn new(
        alloc: Global,
        vertices: u32,
        chunk_size: u32,
        plans: Vec<Plan>,
    ) -> Result<Session, SessionError>
        ensures opens { Opens vertices chunk_size plans.items result }
        ensures world { IfOk result (λ s. (programs : List ScheduledProgram)
            → ArePairwise IsPlanOf plans.items programs → IsAt programs (first_world vertices) s) }
    {
        let versions = Versions::new(alloc, vertices, chunk_size)?;
        let plans = shared(alloc, plans)?;
        Ok(Session {
            plans,
            versions,
            flats: VersionFlats::new(alloc),
            jobs: Vec::new(alloc),
            records: VersionRecords::new(alloc),
            alone: SerialApplier::new(alloc),
        })
    }

    /// Takes a step, and answers it: a commit, a hold or a release as [`Versions`] answers it; a start with the number of the new
    /// job; a job's step with how the job is after it. A step that is refused changes nothing, and is answered
    /// `Of(Refused(number))`: a start with 412 where no program has the number, else with 122 where the ticket is not open; a
    /// job's step with 413 where no job has the number. The step of a job that has ended changes nothing.
    ///
    /// The only error is `NoMemory`, and then nothing is changed.
    ///
    /// # Example
    ///
    /// ```
    /// session.step(alloc, SessionStep::JobStep(job))?;
    /// ```
    pub fn step(&mut self, alloc: Global, step: SessionStep) -> Result<SessionReply, SessionError>
        ensures takes { IfOk result (λ reply. (programs : List ScheduledProgram) (w : World)
            → IsAt programs w self.old → Takes programs (step_answer programs w step) reply self.new) }
        ensures err { OnErr result (self.new ≡ self.old) }
        ensures only_memory { IfErr result (λ e. e ≡ NoMemory) }
    {
        told(self.attempt(alloc, step))
    }

    /// Steps a job until it has ended, and answers as the last of these steps is answered: how the job has ended, or
    /// `Of(Refused(413))` if no job has the number, which changes nothing. A job that has ended stays as it is.
    ///
    /// A job that has done nothing follows the record of a former run of its program, if there is one on a version of which few
    /// edges differ. It does the same instructions, and may take less time.
    ///
    /// The only error is `NoMemory`, after which the session is where it is after some number of these steps.
    ///
    /// # Example
    ///
    /// ```
    /// let reply = session.finish(alloc, job)?;
    /// ```
    pub fn finish(&mut self, alloc: Global, job: u64) -> Result<SessionReply, SessionError>
        ensures finishes { (programs : List ScheduledProgram) (w : World) → IsAt programs w self.old
            → Finishes programs w job self.old result self.new }
        ensures only_memory { IfErr result (λ e. e ≡ NoMemory) }
    {
        told(self.finish_job(alloc, job))
    }

    /// Takes steps one after another, and answers what each is answered. A step that is refused changes nothing, and the next
    /// one follows.
    ///
    /// The only error is `NoMemory`, after which the session is where it is after the steps before some step.
    pub fn run(
        &mut self,
        alloc: Global,
        steps: &[SessionStep],
    ) -> Result<Vec<SessionReply>, SessionError>
        ensures runs { (programs : List ScheduledProgram) (w : World) → IsAt programs w self.old
            → Runs programs w steps.now (λ v. v.items) result self.new }
        ensures only_memory { IfErr result (λ e. e ≡ NoMemory) }
    {
        let mut replies = Vec::with_capacity(alloc, steps.len())?;
        for step in steps {
            let reply = self.step(alloc, step.clone()?)?;
            replies.push_reserved(reply);
        }
        Ok(replies)
    }

    /// The job of this number, or `None` where there is none. Takes no memory.
    pub fn job(&self, number: u64) -> Option<&Job>
        ensures { option_copied result ≡ nth_from_one self.now.jobs number }
    {
        Some(&numbered_in(&self.jobs, number)?.job)
    }

    /// Takes a step; a refusal is an error, and changes nothing.
    fn attempt(&mut self, alloc: Global, step: SessionStep) -> Result<SessionReply, SessionError>
        ensures attempts { (programs : List ScheduledProgram) (w : World) → IsAt programs w self.old
            → Attempts programs w (step_answer programs w step) self.old result self.new }
        ensures err { OnErr result (self.new ≡ self.old) }
    {
        match step {
            SessionStep::Commit(batch) => self.commit(alloc, batch),
            SessionStep::Acquire(which) => self.acquire(which),
            SessionStep::Release(ticket) => self.release(ticket),
            SessionStep::Start {
                program,
                ticket,
                turns,
            } => self.start(alloc, program, ticket, turns),
            SessionStep::JobStep(job) => self.step_job(alloc, job),
        }
    }

    fn commit(&mut self, alloc: Global, batch: Batch) -> Result<SessionReply, SessionError>
        ensures { StepsVersions self.old (versions.Commit batch) result self.new }
    {
        let (before, _) = self.versions.newest();
        let entries = batch.len();
        let number = self.versions.commit(alloc, batch)?;
        self.flats.let_go(&self.versions, before);
        self.records.after_commit(&self.versions, entries);
        Ok(SessionReply::Of(Reply::Version(number)))
    }

    fn acquire(&mut self, which: Which) -> Result<SessionReply, SessionError>
        ensures { StepsVersions self.old (versions.Acquire which) result self.new }
    {
        let prepared = self.versions.prepare_acquire(which)?;
        let version = prepared.version;
        let (ticket, _) = self.versions.finish_acquire(prepared);
        Ok(SessionReply::Of(Reply::Ticket(ticket.number, version)))
    }

    fn release(&mut self, number: u64) -> Result<SessionReply, SessionError>
        ensures { StepsVersions self.old (versions.Release number) result self.new }
    {
        let ticket = Ticket { number };
        let Some((version, _)) = self.versions.kept(ticket) else {
            return Err(SessionError::NotHeld);
        };
        self.versions.release(ticket)?;
        self.flats.let_go(&self.versions, version);
        self.records.after_release(&self.versions, version);
        Ok(SessionReply::Of(Reply::Released))
    }

    /// Starts a job. It shares the plan, and the flat snapshot of its version.
    fn start(
        &mut self,
        alloc: Global,
        program: u64,
        ticket: u64,
        turns: u64,
    ) -> Result<SessionReply, SessionError>
        ensures attempts { (programs : List ScheduledProgram) (w : World) → IsAt programs w self.old
            → Attempts programs w (step_answer programs w (Start program ticket turns)) self.old result self.new }
        ensures err { OnErr result (self.new ≡ self.old) }
    {
        let Some(plan) = numbered_in(&self.plans, program) else {
            return Err(SessionError::NoProgram);
        };
        let Some((version, graph)) = self.versions.kept(Ticket { number: ticket }) else {
            return Err(SessionError::NotHeld);
        };
        let flat = self.flats.flat(alloc, &self.versions, version, graph)?;
        let job = Job::new(alloc, plan.clone()?, flat, turns)?;
        let origin = Some(JobOrigin { program, version });
        self.jobs.push(StartedJob { origin, job })?;
        Ok(SessionReply::Job(self.jobs.len() as u64))
    }

    /// Does one instruction of a job, and tells how the job is after it.
    fn step_job(&mut self, alloc: Global, number: u64) -> Result<SessionReply, SessionError>
        ensures attempts { (programs : List ScheduledProgram) (w : World) → IsAt programs w self.old
            → Attempts programs w (step_answer programs w (JobStep number)) self.old result self.new }
        ensures err { OnErr result (self.new ≡ self.old) }
    {
        let Some(index) = index_of(number) else {
            return Err(SessionError::NoJob);
        };
        let Some(started) = self.jobs.get_mut(index) else {
            return Err(SessionError::NoJob);
        };
        let stand = started.step(alloc, &mut self.alone)?;
        Ok(SessionReply::Stands(stand))
    }

    /// Steps a job until it has ended, and tells how it has ended; a refusal is an error.
    fn finish_job(&mut self, alloc: Global, number: u64) -> Result<SessionReply, SessionError>
        ensures { (programs : List ScheduledProgram) (w : World) → IsAt programs w self.old
            → FinishesOrNot programs w number self.old result self.new }
    {
        let Some(index) = index_of(number) else {
            return Err(SessionError::NoJob);
        };
        let Some(started) = self.jobs.get_mut(index) else {
            return Err(SessionError::NoJob);
        };
        let end = started.finish(alloc, &self.versions, &mut self.records, &mut self.alone)?;
        Ok(SessionReply::Stands(Stand::Ended(end)))
    }
}

/// What is reported of a step: a refusal is a reply, and want of memory none.
fn told(answer: Result<SessionReply, SessionError>) -> Result<SessionReply, SessionError>
    ensures { result ≡ told_of answer }
{
    match answer {
        Ok(reply) => Ok(reply),
        Err(SessionError::NoMemory) => Err(SessionError::NoMemory),
        Err(refusal) => Ok(SessionReply::Of(Reply::Refused(refusal.number()))),
    }
}

/// The plans, each to be shared. The only error is out of memory.
fn shared(alloc: Global, plans: Vec<Plan>) -> Result<Vec<Arc<Plan>>, SessionError>
    ensures plans { IfOk result (λ shared. map arc_value shared.items ≡ plans.items) }
    ensures only_memory { IfErr result (λ e. e ≡ NoMemory) }
{
    let mut shared = Vec::with_capacity(alloc, plans.len())?;
    for plan in plans {
        shared.push(Arc::new(alloc, plan)?)?;
    }
    Ok(shared)
}

/// The index, from 0, of what has this number, which counts from 1.
fn index_of(number: u64) -> Option<usize>
    ensures { MatchOption result (number ≡ 0) (λ index. number ≡ index + 1) }
{
    usize::try_from(number.checked_sub(1)?).ok()
}

/// What has this number, which counts from 1.
fn numbered_in<T>(items: &[T], number: u64) -> Option<&T>
    ensures { option_copied result ≡ nth_from_one items.now number }
{
    items.get(index_of(number)?)
}
