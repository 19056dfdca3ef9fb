//! A medium whose flushed bytes survive a loss of power.
//!
//! A loss of power may keep any of the writes since the last flush and lose any other, sector by sector. [`Durable`]
//! wraps a medium and flushes it before each step back, so that between two flushes the bytes are written at ascending
//! places.
#![tactic(auto)]

mod durable;
mod file;
mod laws;
mod target;

pub use durable::Durable;
pub use file::SyncedFile;
pub use laws::a_durable_medium_ascends;
pub use target::Target;
