//! What the benchmark programs share: random numbers and graphs, the same on every machine, times of work that is done
//! again and again, tables, sums over tails, and the words of a command line.
//!
//! It promises to be safe and to end, and no more. Benchmarks and three crates of tests depend on it.
#![tactic(auto)]

mod arguments;
mod graphs;
mod random;
mod table;
mod tails;
mod timing;

pub use arguments::{is_printed, run_words};
pub use graphs::{
    random_batch, random_graph, random_weight, random_weighted_batch, rmat_edge, rmat_graph, told,
};
pub use random::Random;
pub use table::{print_head, print_row, print_rows, print_times};
pub use tails::{sum_by_blocks, sum_of, sum_of_tails, tail_error};
pub use timing::{Benchmark, Samples, Taken, Times, nanos_since, times_of};
