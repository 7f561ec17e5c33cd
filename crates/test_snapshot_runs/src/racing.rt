//! Races of the search with a script, and one without a program.

use crate::failure::{Answer, Failure, need};
use crate::programs::{Program, TURNS};
use plans::Plan;
use races::{CommitReply, Race, RaceScript, VersionRun, race, race_script};
use std::alloc::Global;
use std::sync::{Arc, Wait};
use std::test::Fail;
use std::thread::Threads;

/// Makes three versions of the path, and one that is refused.
pub(crate) const RACE: &[u8] =
    b"vertices 4\nadd 0 1 7\ncommit\nadd 1 2 -3\ncommit\ngrow 3\ncommit\ngrow 4\nadd 2 3\ncommit\n";

// What its commits are answered.
const REPLIES: [CommitReply; 4] = [
    CommitReply::Version(1),
    CommitReply::Version(2),
    CommitReply::Refused(111),
    CommitReply::Version(3),
];

// Checks that a run of a race shows the path of its version.
fn check_run(run: &VersionRun) -> Result<(), Failure> {
    need(run.version <= 3, Failure::Version)?;
    Program::OnPaths.check(run.version, &run.outcome)
}

// Checks that a race is that of the script with so many programs, all the search.
fn check_race(raced: &Race, programs: usize) -> Result<(), Failure> {
    for runs in raced.runs.as_slice() {
        need(runs.late.version == 3, Failure::Version)?;
        check_run(&runs.late)?;
        check_run(&runs.early)?;
    }
    need(raced.vertices == 4, Failure::Vertices)?;
    need(
        raced.replies.as_slice() == REPLIES.as_slice(),
        Failure::Replies,
    )?;
    need(raced.runs.len() == programs, Failure::Programs)
}

/// How a race is answered: by 0 if it is what it must be.
pub(crate) fn run_race<R: Threads + Wait + Sync>(
    rt: &R,
    alloc: Global,
    order: RaceScript,
    plans: &[&Arc<Plan>],
    workers: usize,
) -> Answer {
    match race(rt, alloc, order, plans, workers, TURNS) {
        Ok(raced) => {
            check_race(&raced, plans.len())?;
            Ok(0)
        }
        Err(error) => Err(Failure::Refused(error.number())),
    }
}

// A race without a program has no run, for which no workers would be too few.
#[test]
fn a_race_of_no_program_is_done(rt: HostRuntime) -> Result<(), Fail> {
    for workers in [0, 2, 65] {
        let order = race_script(rt.alloc(), RACE)?;
        let raced = run_race(&rt, rt.alloc(), order, &[], workers);
        assert_eq!(rt; raced, Ok(0), "by {workers}");
    }
    Ok(())
}
