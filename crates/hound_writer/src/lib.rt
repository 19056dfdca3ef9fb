//! Writing WAV files: a [`WavWriter`] accepts samples, one by one or in batches, and publishes them by writing the two
//! sizes into the header.
#![tactic(auto)]

pub(crate) mod append;
mod batch;
mod block;
mod effects;
mod end;
mod file;
mod laws;
mod machine;
mod output;
mod recorder;
mod resuming;
mod write;

pub use batch::SampleWriter16;
pub use effects::{Action, BeginningEffect, Effect, Report, beginning_effect, part_from};
pub use end::{patch as patch_sizes, put_all_at};
pub use laws::{
    a_block_is_its_samples, a_cut_is_ignored, a_recorder_directs, an_effect_may_be_repeated,
    one_append_answer,
};
pub use recorder::{Health, Phase, Recorder, RecorderError};
pub use resuming::{FoundFile, RepairState};
pub use write::WavWriter;
