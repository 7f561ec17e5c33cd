//! Runs the programs of the cases beside the slow run.
//!
//! The cases are the files in `data`: a folder for each subject, and in it scripts, programs and command lines with the answers that
//! they must get. `tests/cases` runs them as processes of the built program and says how their files are named. Here each file
//! `FOLDER/NAME.program` is run by its plan and by `plain_run`, whatever its case asks for (`beside.rt`).
//!
//! The program prints each difference and last `N programs agree, M differ`. Its status is 1 if a program differs, and 2 if a file
//! cannot be read.
#![tactic(auto)]

mod beside;
mod listing;

use std::process::ExitCode;
use std::{fs, io};

fn main(rt: HostRuntime) -> ExitCode {
    match compare_all(&rt) {
        Ok(0) => ExitCode::SUCCESS,
        Ok(_) => ExitCode::from(1),
        Err(error) => {
            // If this fails too, the exit status alone tells.
            let _ = eprintln!(rt; "test_cases: {error}");
            ExitCode::from(2)
        }
    }
}

// Compares the programs in the folders of the folder that it is run in, and answers how many differ.
fn compare_all(rt: &HostRuntime) -> io::Result<usize> {
    let mut agree = 0usize;
    let mut differ = 0usize;
    for path in listing::programs(rt)? {
        let text = fs::read(rt, path.as_str())?;
        let differences = beside::differences(rt.alloc(), path.as_str(), &text)?;
        print!(rt; "{differences}")?;
        if differences.is_empty() {
            agree = agree.saturating_add(1);
        } else {
            differ = differ.saturating_add(1);
        }
    }
    println!(rt; "{agree} programs agree, {differ} differ")?;
    Ok(differ)
}
