// Bytes as lines of hexadecimal digits, and lines of digits as bytes.
#![tactic(auto)]

mod digit;
mod digits;
mod lines;

pub use digits::{Digits, decode, encode};
pub use lines::{Lines, length_to, next_line};
