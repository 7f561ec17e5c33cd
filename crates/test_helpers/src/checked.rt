//! Facts that a test checks, each with its name.

/// `Ok`, or the name of what is not as a test wants it.
pub type Checked = Result<(), &'static str>;

/// `Ok` if a fact holds, and else its name.
pub fn check(holds: bool, fact: &'static str) -> Checked {
    if holds { Ok(()) } else { Err(fact) }
}
