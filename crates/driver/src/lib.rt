//! What the program `gsnap` does, as a library: it reads a command line and does what that asks for.
//!
//! [`run`] reads the words (crate `requests`), does the request over any files, readers and writers, tells a refusal, and answers
//! the exit status. [`serve`] does a request.
//!
//! Contracts see a request as the words that it means, files as a relation between a name and
//! what a read may answer, and readers and writers by the bytes that they gave and took. The promise
//! is that what was written is the replies of the script (crate `scripts`), with the programs that
//! the files hold, or `ok` where the file to check holds a program, or the text of the plan of the
//! program that the file holds (crate `lowering`), or the text of a race of the script and the
//! programs (crate `races`), and that the status says how the request ended.
//! What is written to standard error about a program's text after the first line (crate `refusal_text`) is for people, and
//! no contract speaks of it.
//!
//! `gsnap` hands in the real files and streams, and `test_cases` a folder of tests.
#![tactic(auto)]

mod compiled_plan;
mod error;
mod files;
mod first_fault;
mod programs;
mod racing;
mod refused_lines;
mod running;
mod serving;
mod status;
mod telling;

pub use error::ServeError;
pub use files::{Disk, Files};
pub use requests::{Request, RequestError};
pub use running::{refusal_status, run};
pub use scripts::ScriptState;
pub use serving::serve;
