//! The times of work that is done again and again.

use std::alloc::Global;
use std::io;
use std::rt::Clock;
use std::time::Instant;

/// Work of one kind or of several, which is done again and again.
pub trait Benchmark {
    /// Its kinds, each a row of a table.
    type Row: Copy;

    /// How many items a kind goes over.
    fn items(&self, row: Self::Row) -> u64;

    /// Makes ready for the work, which is not timed.
    fn begin(&mut self, _rt: &HostRuntime, _row: Self::Row) -> io::Result<()> {
        Ok(())
    }

    /// Does the work once, and gives a number that depends on all of it.
    fn run(&mut self, rt: &HostRuntime, row: Self::Row) -> io::Result<u64>;
}

/// How often work is timed, and how often it is done each time.
#[derive(Clone, Copy)]
pub struct Samples {
    pub count: u64,
    pub rounds: u64,
}

/// How long the work took in the shortest and in the middle one of some samples, in nanoseconds, and what it came to last.
#[derive(Clone, Copy)]
pub struct Times {
    pub best: u64,
    pub median: u64,
    pub found: u64,
}

/// The nanoseconds of samples, and what the last one came to.
pub struct Taken {
    nanos: Vec<u64>,
    found: u64,
}

impl Drop for Taken {
    fn drop(self) {
        let Taken { nanos: _, found: _ } = self;
    }
}

impl Taken {
    /// No sample so far.
    pub fn new(alloc: Global) -> Taken {
        Taken {
            nanos: Vec::new(alloc),
            found: 0,
        }
    }

    /// Adds a sample that began at this time, did its work so often and came to this.
    pub fn add(
        &mut self,
        rt: &HostRuntime,
        start: Instant,
        rounds: u64,
        found: u64,
    ) -> io::Result<()> {
        let nanos = nanos_since(rt, start)?;
        self.push(nanos, rounds, found)
    }

    /// Adds a sample that took so many nanoseconds, did its work so often and came to this.
    pub fn push(&mut self, nanos: u64, rounds: u64, found: u64) -> io::Result<()> {
        self.found = found;
        Ok(self.nanos.push(nanos / rounds.max(1))?)
    }

    /// The times of the samples.
    pub fn times(&mut self) -> io::Result<Times> {
        self.nanos.sort()?;
        Ok(Times {
            best: at(&self.nanos, 0),
            median: at(&self.nanos, self.nanos.len() / 2),
            found: self.found,
        })
    }
}

// The number at an index, 0 where there is none.
fn at(numbers: &[u64], index: usize) -> u64 {
    numbers.get(index).copied().unwrap_or(0)
}

/// How many nanoseconds went by.
pub fn nanos_since<C: Clock>(clock: &C, start: Instant) -> io::Result<u64> {
    let taken = start.elapsed(clock)?;
    Ok(u64::try_from(taken.as_nanos()).unwrap_or(u64::MAX))
}

/// Does a row of a benchmark so often.
pub fn times_of<B: Benchmark>(
    rt: &HostRuntime,
    samples: Samples,
    benchmark: &mut B,
    row: B::Row,
) -> io::Result<Times> {
    let mut taken = Taken::new(rt.alloc());
    for _ in 0..samples.count {
        add_sample(rt, samples.rounds, benchmark, row, &mut taken)?;
    }
    taken.times()
}

fn add_sample<B: Benchmark>(
    rt: &HostRuntime,
    rounds: u64,
    benchmark: &mut B,
    row: B::Row,
    taken: &mut Taken,
) -> io::Result<()> {
    benchmark.begin(rt, row)?;
    let start = Instant::now(rt)?;
    let found = done(rt, rounds, benchmark, row)?;
    taken.add(rt, start, rounds, found)
}

fn done<B: Benchmark>(
    rt: &HostRuntime,
    rounds: u64,
    benchmark: &mut B,
    row: B::Row,
) -> io::Result<u64> {
    let mut found = 0;
    for _ in 0..rounds {
        found = benchmark.run(rt, row)?;
    }
    Ok(found)
}
