//! Decimal digits: numbers read and written as text.
//!
//! In the contracts a word of digits means a number, most significant digit first, with leading
//! zeros allowed in any count and no sign (`specs/Numbers.antt`). `leading_digits` reads the digits at
//! the front of bytes and takes no memory, `push_number` writes a number and `push_integer` one with a
//! sign, and `read_back` is the law that what `push_number` writes is read as the same number.
//!
//! The crates that read the text of scripts and of programs depend on this one.
#![tactic(auto)]

mod numbers;

pub use numbers::{
    integer, integer_read_back, leading_digits, push_integer, push_number, read_back,
};
