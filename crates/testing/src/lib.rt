// What the test program shares: the parts of a line, lines that take a number, and how answers are printed.
#![tactic(auto)]

mod print;
mod template;
mod words;

pub use print::{byte, bytes, none, number, output, rest, shown, text};
pub use template::{fill, put};
pub use words::{before, behind, find, front, key, numbers, value};
