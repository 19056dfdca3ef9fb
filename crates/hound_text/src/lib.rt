//! Numbers as text: how the program `hound_tool` reads them from its input, and makes lines of them for its output.
#![tactic(auto)]

mod lines;
mod numbers;

pub use lines::{Lines, write_text};
pub use numbers::{TextError, digits, read_numbers};
