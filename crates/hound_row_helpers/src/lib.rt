//! What the rows of `hound_rows` are made of: words, bytes, the line of a result, and readers and writers that do
//! what a row says.
#![tactic(auto)]

mod bytes;
mod crc;
pub mod feed;
pub mod line;
pub mod recorded;
pub mod row;
pub mod sink;
pub mod sweep;
