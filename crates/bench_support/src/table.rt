//! Tables of times.

use crate::timing::{Benchmark, Samples, Times, times_of};
use std::io;

/// Prints the head of a table: what its rows are, and what `print_times` prints of each.
pub fn print_head(rt: &HostRuntime, rows: &str) -> io::Result<()> {
    print!(rt; "{rows:<30}          items        best ns")?;
    println!(rt; "      median ns          found    ps an item")
}

/// Prints a row of a table: a name, how many items it goes over, its best and its median time in nanoseconds, what it
/// came to, and the best time an item, in picoseconds.
pub fn print_times(rt: &HostRuntime, name: &str, items: u64, times: Times) -> io::Result<()> {
    let each = times.best.saturating_mul(1000) / items.max(1);
    print!(rt; "{name:<30} {items:>14} {:>14}", times.best)?;
    println!(rt; " {:>14} {:>14} {each:>14}", times.median, times.found)
}

/// Times some kinds of a benchmark and prints a row for each.
pub fn print_rows<B: Benchmark>(
    rt: &HostRuntime,
    rows: &[(&str, B::Row)],
    samples: Samples,
    benchmark: &mut B,
) -> io::Result<()> {
    for (name, row) in rows {
        print_row(rt, name, samples, benchmark, *row)?;
    }
    Ok(())
}

/// Times a kind of a benchmark and prints its row. Gives what it came to.
pub fn print_row<B: Benchmark>(
    rt: &HostRuntime,
    name: &str,
    samples: Samples,
    benchmark: &mut B,
    row: B::Row,
) -> io::Result<u64> {
    let times = times_of(rt, samples, benchmark, row)?;
    print_times(rt, name, benchmark.items(row), times)?;
    Ok(times.found)
}
