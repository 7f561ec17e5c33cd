//! Tests of sessions: tables of steps whose replies were worked out by hand, two jobs in every order of their first steps, random
//! steps beside a plain world, jobs that are finished on streams of small edits, and steps that memory may run out for.
#![tactic(auto)]

#[cfg(test)]
mod finished_jobs;
#[cfg(test)]
mod interleavings;
#[cfg(test)]
mod plain_world;
#[cfg(test)]
mod programs;
#[cfg(test)]
mod random_steps;
#[cfg(test)]
mod refused_growths;
#[cfg(test)]
mod rows;
#[cfg(test)]
mod tables;
