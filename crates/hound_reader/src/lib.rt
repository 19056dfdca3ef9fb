//! Reading the samples of WAV files.
//!
//! A [`WavReader`] takes exactly what is before the data, by the walk of `hound_walk`, and then gives the samples, one
//! container for each.
#![tactic(auto)]

mod blocks;
mod file;
mod item;
mod laws;
mod reader;
mod samples;

pub use laws::{
    a_block_is_its_items, a_reader_is_where_it_counts, a_seek_leads_to_its_frame,
    an_iterator_gives_what_it_hints, items_are_of_the_file, written_is_read,
};
pub use reader::WavReader;
pub use samples::{WavIntoSamples, WavSamples};
