//! Laws of sessions, each the contract of a call that does nothing.
ghost use Rattle.std.specs.Prelude.{◌≡◌, ◌≢◌, ℕ, false, Some, List, All, count_by};
ghost use Rattle.std.specs.Option.{IsSomeAnd};
ghost use Rattle.plans.specs.declared.plan.Plan.{Plan};
ghost use Rattle.plans.specs.PlanOf.{IsCompiled};
ghost use Rattle.runner.specs.Resting.{JobValue};
ghost use Rattle.session.specs.declared.step.SessionStep.{SessionStep};
ghost use Rattle.session.specs.declared.step.SessionStep.TheVariants.{JobStep};
ghost use Rattle.session.specs.World.{ScheduledProgram, WorldJob, World, nth_from_one, world_after, first_world};
ghost use Rattle.session.specs.Standing.{SessionValue, StandsAt, IsAt};
ghost use Rattle.session.specs.Laws.{is_step_of, GoesOnAlone, RunsAlone, ShowsItsOwnRun, MayChangePlaces, committed_batches, HasFolds, HasPrograms};

/// The state of a job depends on its own steps alone. Whatever steps are taken, it keeps its program, its graph and its bound
/// of turns, and has the configuration of its program's machine on that graph after as many instructions more as there are
/// steps of this job: no commit, hold, release, start or step of another job changes that. This holds in the world, and in a
/// session whose state is the world's.
pub fn jobs_go_by_their_own_steps()
    ensures world { (programs : List ScheduledProgram) (w : World) (steps : List SessionStep) (number : ℕ) (job : WorldJob)
        → nth_from_one w.jobs number ≡ Some job
        → IsSomeAnd (nth_from_one (world_after programs w steps).jobs number) (GoesOnAlone job (count_by (is_step_of number) steps)) }
    ensures session { (programs : List ScheduledProgram) (w : World) (steps : List SessionStep) (s : SessionValue) (number : ℕ) (job : WorldJob)
        → nth_from_one w.jobs number ≡ Some job → IsAt programs (world_after programs w steps) s
        → IsSomeAnd (nth_from_one s.jobs number) (RunsAlone job (count_by (is_step_of number) steps)) }
{}

/// A job of a session shows what its program's run shows on the job's graph after the job's own count of instructions; and
/// once it has ended, what the program means on that graph within the bound of turns.
pub fn jobs_show_their_own_runs()
    ensures { (j : JobValue) (job : WorldJob) → StandsAt j job → ShowsItsOwnRun job j }
{}

/// From the opening of a session on, there are as many versions beside version 0 as batches that were accepted, and the graph
/// of each, held or the newest, is the fold of the batches up to it.
pub fn versions_are_folds_of_their_batches()
    ensures { (programs : List ScheduledProgram) (n : ℕ) (steps : List SessionStep)
        → HasFolds n (committed_batches programs (first_world n) steps) (world_after programs (first_world n) steps) }
{}

/// The step of a job may change places with any step that is not of this job, once the job is there; and the steps of two jobs
/// may change places in any case: the replies and the world after both are the same.
pub fn steps_of_jobs_change_places()
    ensures any_step { (programs : List ScheduledProgram) (w : World) (number : ℕ) (job : WorldJob) (other : SessionStep)
        → nth_from_one w.jobs number ≡ Some job → is_step_of number other ≡ false → MayChangePlaces programs w (JobStep number) other }
    ensures two_jobs { (programs : List ScheduledProgram) (w : World) (one other : ℕ) → one ≢ other
        → MayChangePlaces programs w (JobStep one) (JobStep other) }
{}

/// Plans that were compiled are plans of some programs, so that a session of them is where a world stands.
pub fn compiled_plans_have_their_programs()
    ensures { (plans : List Plan) → All IsCompiled plans → HasPrograms plans }
{}
