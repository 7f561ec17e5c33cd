//! The lines between which `bench/refused-growths` refuses a request for memory.

use crate::checked::{Checked, check};

/// Says that the requests for memory are those of a call from now on. Fails if that could not be printed.
pub fn ask<R: Print>(rt: &R) -> Checked {
    check(println!(rt; "asked").is_ok(), "the line before the call")
}

/// Says that the call was answered, and whether by 900. Fails if that could not be printed.
pub fn tell<R: Print>(rt: &R, is_refused: bool) -> Checked {
    let answer = if is_refused { "900" } else { "whole" };
    check(println!(rt; "{answer}").is_ok(), "the line after the call")
}
