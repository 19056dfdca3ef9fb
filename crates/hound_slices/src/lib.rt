//! WAV files in slices of memory, as the calls for C need them: what each call does to the caller's slices, the structs
//! that C has, and the numbers that it gets.
//!
//! There is no state, no allocation and no call back. `hound_c` exports these calls to C.
#![tactic(auto)]

mod effect;
mod error;
mod following;
mod reading;
mod recording;
mod repairer;
mod scaling;
mod searching;
mod spec;
mod value;
mod walking;
mod writing;

pub use effect::{HoundEffect, beginning_for_c, effect_for_c, report_of};
pub use error::{CallError, code_of, code_of_error, error_of};
pub use following::{HoundFollower, step_follower};
pub use reading::{decode_block, read_block};
pub use recording::{HoundRecorder, found_file, mends, overwrites, recorder_for_c, recorder_of};
pub use repairer::{HoundRepairer, begin_repairer, find_file_damage, repair_file, step_repairer};
pub use scaling::{encode_floats, encode_with_noise, narrow_floats, widen_floats};
pub use searching::{file_kind, guess_data, whole_frames};
pub use spec::{HoundInfo, HoundRepair, HoundSpec, HoundWalk, info_for_c, spec_from_c};
pub use value::{container_of, value_of};
pub use walking::step_walk;
pub use writing::{
    append_block, encode_block, file_size, write_file, write_filler, write_header, write_sizes,
};
