//! What several crates of tests share: facts with their names, the lines by which `bench/refused-growths` knows where a call begins
//! and how it was answered, and the chunk size of the neighbours of vertices.
//!
//! A test asserts that what a helper checks is `Ok(())`. Where it is not, the assertion prints the name of the first fact that does
//! not hold.
//!
//! It promises to be safe and to end, and no more; only tests depend on it.
#![tactic(auto)]

mod checked;
mod chunks;
mod refused_growth;

pub use checked::{Checked, check};
pub use chunks::stand_in_chunks;
pub use refused_growth::{ask, tell};
