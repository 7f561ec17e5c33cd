//! Which programs there are.

use std::io::ErrorKind;
use std::{fs, io};

/// The paths `FOLDER/NAME.program` in the folders of this folder, in their order. The errors are those of the listing, and `NotFound`
/// if there is none.
pub fn programs(rt: &HostRuntime) -> io::Result<Vec<String>> {
    let mut paths = Vec::new(rt.alloc());
    for entry in fs::read_dir(rt, ".")? {
        let entry = entry?;
        if entry.path().is_dir(rt) {
            add_programs(rt, entry.file_name(), &mut paths)?;
        }
    }
    if paths.is_empty() {
        return Err(io::Error::from(ErrorKind::NotFound));
    }
    paths.sort()?;
    Ok(paths)
}

// Adds the programs in this folder.
fn add_programs(rt: &HostRuntime, folder: &str, paths: &mut Vec<String>) -> io::Result<()> {
    for entry in fs::read_dir(rt, folder)? {
        let entry = entry?;
        if entry.file_name().ends_with(".program") {
            paths.push(format!(in rt.alloc(); "{folder}/{}", entry.file_name())?)?;
        }
    }
    Ok(())
}
