//! The commands of the program `hound_tool`, over any reader and writers: `pack`, `show` and `append`.
#![tactic(auto)]

mod commands;
mod error;
mod showing;

pub use commands::{run, run_append};
