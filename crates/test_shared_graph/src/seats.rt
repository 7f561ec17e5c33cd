//! Readers with their roles, each on a thread of its own.

use crate::failure::Answer;
use crate::roles::act;
use shared_graph::{Naming, Reader, SharedGraph};
use std::alloc::Global;
use std::rt::Clock;
use std::sync::Wait;
use std::thread::{Threads, for_each_mut};

/// What a reader does beside others.
#[derive(Clone, Copy)]
pub(crate) enum Role {
    Idle,
    /// Commits so many empty batches. Answered by the sum of the cubes of their numbers.
    Commit(u64),
    /// Makes the versions up to this one, and trims after each of which this divides the number. Answered by how many entries
    /// its trims dropped.
    Write(u64, u64),
    /// Holds, trims, releases and trims so many times. Answered by how many entries its trims dropped.
    Hold(u64),
    /// Looks at each version that comes, up to this one.
    Watch(u64),
    /// Makes a call of each kind, after a trim.
    GoOn,
}

/// A reader, its role beside others, and how that is answered.
pub(crate) struct Seat<J: Naming> {
    pub(crate) reader: Reader<J>,
    role: Role,
    answer: Answer,
}

impl<J: Naming> Drop for Seat<J> {
    fn drop(self) {
        let Seat {
            reader: _,
            role: _,
            answer: _,
        } = self;
    }
}

/// Seats for these readers.
pub(crate) fn seats<J: Naming>(alloc: Global, readers: Vec<Reader<J>>) -> Vec<Seat<J>> {
    let mut seats = Vec::new(alloc);
    for reader in readers {
        let seat = Seat {
            reader,
            role: Role::Idle,
            answer: Ok(0),
        };
        if seats.push(seat).is_err() {
            return seats;
        }
    }
    seats
}

/// Has all readers do these roles beside one another, each on a thread of its own; those that have none, the last. The answer is the
/// sum of theirs, or the first that is refused.
pub(crate) fn act_all<J: Naming + Send + Sync, R: Threads + Wait + Clock + Sync>(
    rt: &R,
    alloc: Global,
    graph: &SharedGraph<J, &R>,
    seats: &mut Vec<Seat<J>>,
    roles: &[Role],
) -> Answer {
    let seats = seats.as_mut_slice();
    let mut role = Role::Idle;
    for (at, seat) in seats.iter_mut().enumerate() {
        role = match roles.get(at) {
            Some(next) => *next,
            None => role,
        };
        seat.role = role;
    }
    for_each_mut(
        rt,
        seats,
        64,
        &|_, seat: &mut Seat<J>| {
            seat.answer = act(rt, alloc, graph, &mut seat.reader, seat.role)
        },
    );
    let mut sum = 0u64;
    for seat in seats.iter() {
        sum = sum.wrapping_add(seat.answer?);
    }
    Ok(sum)
}
