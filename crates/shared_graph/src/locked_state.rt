//! The state under the lock: the versions and the log.

ghost use Rattle.std.specs.Prelude.{◌≡◌, ◌++◌, [], IfOk, IfErr, true};
ghost use Rattle.version_list.specs.declared.step.Step.TheVariants.{Commit, Acquire, Release, Trim};
ghost use Rattle.version_list.specs.declared.step.Reply.TheVariants as reply;
ghost use Rattle.std.specs.Arc.{arc_value};
ghost use Rattle.version_list.specs.Machine.{committed_by, opened, is_open};
ghost use Rattle.version_list.specs.Prepared.{IsPrepared, IsPreparedAcquire};
ghost use Rattle.version_list.specs.Timeline.{beginning};
ghost use Rattle.shared_graph.specs.declared.error.SharedError.TheVariants.{NoMemory};
ghost use Rattle.shared_graph.specs.Histories.{state_at};
ghost use Rattle.shared_graph.specs.Holding.{HoldsVersion};
ghost use Rattle.shared_graph.specs.inside.Locked.{IsTimelineOf};
ghost use Rattle.shared_graph.specs.inside.Recent.{AreRecent, IsNewestVersion};
ghost use Rattle.shared_graph.specs.Outcome.{Answers, AnswersRelease, Refuses};

use crate::error::SharedError;
use crate::held::{Held, Unreleased};
use crate::naming::Naming;
use crate::newest_version::NewestVersion;
use crate::published_log::PublishedLog;
use crate::reader::Reader;
use crate::snapshot::Snapshot;
use std::alloc::Global;
use std::marker::Model;
use std::sync::{Arc, Wait};
use std::thread::Threads;
use tree_batch::{Batch, Graph};
use version_list::{Done, Prepared, PreparedAcquire, Reply, Step, VersionError, Versions, Which};

/// From how many entries on a batch is worth the start of threads.
const MANY_ENTRIES: usize = 4096;

/// At how many levels such a batch goes by halves on two threads.
const FORKS: u32 = 2;

/// The history as the log has it, and the versions, which are in its replay, and whose own
/// history has its last entries, those since the last trim. Contracts see it as the history.
pub(crate) struct LockedState<J: Naming, R: Wait + Drop> {
    versions: Versions,
    published_log: PublishedLog<J, R>,
}

impl<J: Naming, R: Wait + Drop> Drop for LockedState<J, R> {
    fn drop(self) {
        let LockedState {
            versions: _,
            published_log: _,
        } = self;
    }
}

impl<J: Naming, R: Wait + Drop> Model for LockedState<J, R> {
    ghost use Rattle.std.specs.Prelude.{List};
    ghost use Rattle.version_list.specs.Machine.{opened};
    ghost use Rattle.shared_graph.specs.declared.entry.Entry.{Entry};
    ghost use Rattle.shared_graph.specs.inside.Locked.{IsTimelineOf};

    ghost Value = { List Entry };

    ghost view = { λ d. d.published_log };

    ghost invariant = { λ d. IsTimelineOf (opened J.vertices J.room) d.published_log d.versions };
}

impl<J: Naming, R: Wait + Drop> LockedState<J, R> {
    /// Versions that were just opened, and the log of no step.
    pub(crate) fn new(versions: Versions, published_log: PublishedLog<J, R>) -> LockedState<J, R>
        requires versions { versions ≡ beginning (opened J.vertices J.room) }
        requires published_log { published_log ≡ [] }
    {
        LockedState {
            versions,
            published_log,
        }
    }

    /// Commits a batch in the name of a reader. All growth comes before the step.
    pub(crate) fn commit<T: Threads + Wait + Sync>(
        &mut self,
        rt: &T,
        alloc: Global,
        me: &mut Reader<J>,
        batch: Batch,
    ) -> Result<u64, SharedError>
        ensures answer { Answers (opened J.vertices J.room) me.old (Commit batch) reply.Version result me.new }
        ensures log { IfOk result (λ _. me.new.shown ≡ self.new) }
        ensures err { IfErr result (λ _. self.new ≡ self.old) }
    {
        let (prepared, newest) = prepare_commit(
            &mut self.versions,
            &self.published_log,
            rt,
            alloc,
            me,
            batch,
        )?;
        self.published_log.record(rt, me, &prepared.done, newest);
        Ok(self.versions.finish(prepared))
    }

    /// Holds a version in the name of a reader. All growth comes before the step.
    pub(crate) fn hold<T: Wait>(
        &mut self,
        rt: &T,
        alloc: Global,
        me: &mut Reader<J>,
        which: Which,
    ) -> Result<Held<J>, SharedError>
        ensures answer { Answers (opened J.vertices J.room) me.old (Acquire which) (λ h. reply.Ticket h.ticket h.version) result me.new }
        ensures version { IfOk result (HoldsVersion (state_at (opened J.vertices J.room) me.new.shown) which) }
        ensures history { IfOk result (λ h. h.history ≡ me.new.shown) }
        ensures log { IfOk result (λ _. me.new.shown ≡ self.new) }
        ensures err { IfErr result (λ _. self.new ≡ self.old) }
    {
        let (prepared, newest, graph) = prepare_hold(
            &mut self.versions,
            &self.published_log,
            rt,
            alloc,
            me,
            which,
        )?;
        let done = Done {
            step: Step::Acquire(which),
            reply: Reply::Ticket(prepared.ticket.number, prepared.version),
        };
        self.published_log.record(rt, me, &done, newest);
        let number = prepared.version;
        let (ticket, _) = self.versions.finish_acquire(prepared);
        Ok(Held::new(ticket, Snapshot { number, graph }, me.history_prefix()))
    }

    /// Closes the ticket of a held version in the name of a reader. Memory runs out only for an open ticket.
    pub(crate) fn release<T: Wait>(
        &mut self,
        rt: &T,
        me: &mut Reader<J>,
        held: Held<J>,
    ) -> Result<(), Unreleased<J>>
        ensures answer { AnswersRelease (opened J.vertices J.room) me.old held result me.new }
        ensures log { IfOk result (λ _. me.new.shown ≡ self.new) }
        ensures err { IfErr result (λ _. self.new ≡ self.old) }
        ensures memory { IfErr result (λ u. u.error ≡ NoMemory → is_open (state_at (opened J.vertices J.room) self.old) held.ticket ≡ true) }
    {
        let ticket = held.ticket();
        if !self.versions.is_open(ticket) {
            let error = self.published_log.refuse(rt, me, VersionError::NotHeld);
            return Err(Unreleased { error, held });
        }
        let newest = match self.published_log.newest() {
            Ok(newest) => newest,
            Err(_) => {
                let error = SharedError::NoMemory;
                return Err(Unreleased { error, held });
            }
        };
        let done = Done {
            step: Step::Release(ticket.number),
            reply: Reply::Released,
        };
        self.published_log.record(rt, me, &done, newest);
        self.versions.release(ticket).unwrap();
        held.into_snapshot();
        Ok(())
    }

    /// Drops the entries that the versions have, in the name of a reader, and answers how many. All
    /// growth comes before the step.
    pub(crate) fn trim<T: Wait>(&mut self, rt: &T, me: &mut Reader<J>) -> Result<u64, SharedError>
        ensures answer { Answers (opened J.vertices J.room) me.old Trim reply.Trimmed result me.new }
        ensures log { IfOk result (λ _. me.new.shown ≡ self.new) }
        ensures err { IfErr result (λ _. self.new ≡ self.old) }
    {
        let prepared = match self.versions.prepare_trim() {
            Ok(prepared) => prepared,
            Err(error) => return Err(self.published_log.refuse(rt, me, error)),
        };
        let newest = self.published_log.newest()?;
        let done = Done {
            step: Step::Trim,
            reply: Reply::Trimmed(prepared.count),
        };
        self.published_log.record(rt, me, &done, newest);
        Ok(self.versions.finish_trim(prepared))
    }
}

// Prepares the commit of a batch, and the version that it makes, to be published. A refusal is shown
// to the reader.
fn prepare_commit<J: Naming, R: Wait + Drop, T: Threads + Wait + Sync>(
    versions: &mut Versions,
    published_log: &PublishedLog<J, R>,
    rt: &T,
    alloc: Global,
    me: &mut Reader<J>,
    batch: Batch,
) -> Result<(Prepared, NewestVersion), SharedError>
    requires { IsTimelineOf (opened J.vertices J.room) published_log.now versions.old }
    ensures timeline { IsTimelineOf (opened J.vertices J.room) published_log.now versions.new }
    ensures prepared { IfOk result (λ r. IsPrepared versions.new batch r.0) }
    ensures number { IfOk result (λ r. r.1.snapshot.number ≡ r.0.number) }
    ensures graph { IfOk result (λ r. arc_value r.1.snapshot.graph ≡ r.0.graph) }
    ensures recent { IfOk result (λ r. AreRecent ((state_at (opened J.vertices J.room) published_log.now).batches ++ committed_by r.0.done.step)
        (arc_value r.1.recent)) }
    ensures same { IfOk result (λ _. me.new ≡ me.old) }
    ensures err { IfErr result (λ e. Refuses (opened J.vertices J.room) me.old (Commit batch) e me.new) }
{
    let forks = if batch.len() < MANY_ENTRIES { 0 } else { FORKS };
    let prepared = match versions.prepare(rt, alloc, batch, forks) {
        Ok(prepared) => prepared,
        Err(error) => return Err(published_log.refuse(rt, me, error)),
    };
    let graph = Arc::new(alloc, prepared.graph.clone()?)?;
    let number = prepared.number;
    let recent = published_log.recent_after(alloc, number, &prepared.done.step)?;
    let snapshot = Snapshot { number, graph };
    Ok((prepared, NewestVersion { snapshot, recent }))
}

// Prepares the hold of a version, the newest version to be published again, and the held graph once
// more. A refusal is shown to the reader.
fn prepare_hold<J: Naming, R: Wait + Drop, T: Wait>(
    versions: &mut Versions,
    published_log: &PublishedLog<J, R>,
    rt: &T,
    alloc: Global,
    me: &mut Reader<J>,
    which: Which,
) -> Result<(PreparedAcquire, NewestVersion, Arc<Graph>), SharedError>
    requires { IsTimelineOf (opened J.vertices J.room) published_log.now versions.old }
    ensures timeline { IsTimelineOf (opened J.vertices J.room) published_log.now versions.new }
    ensures prepared { IfOk result (λ r. IsPreparedAcquire versions.new which r.0) }
    ensures newest { IfOk result (λ r. IsNewestVersion (state_at (opened J.vertices J.room) published_log.now) r.1) }
    ensures graph { IfOk result (λ r. arc_value r.2 ≡ r.0.graph) }
    ensures same { IfOk result (λ _. me.new ≡ me.old) }
    ensures err { IfErr result (λ e. Refuses (opened J.vertices J.room) me.old (Acquire which) e me.new) }
{
    let prepared = match versions.prepare_acquire(which) {
        Ok(prepared) => prepared,
        Err(error) => return Err(published_log.refuse(rt, me, error)),
    };
    let (newest, graph) = published_log.before_hold(alloc, &prepared.graph)?;
    Ok((prepared, newest, graph))
}
