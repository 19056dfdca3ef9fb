//! What a user builds over the public items of `hound` alone: a sample type, and functions that prove something of
//! their own from its contracts.
#![tactic(auto)]

mod callers;
mod example;
mod following;
mod reading;
mod recorder;
mod recording;
mod repairer;
mod twelve;

pub use callers::{
    a_repair_by_hand_is_done_again, finish, look_and_repair, open_written, publish,
    repair_recording, sample_at, samples_of, store_two_blocks, through_a_float,
};
pub use example::record_and_read;
pub use following::follow_meanwhile;
pub use reading::{opened_meanwhile, read_block, read_from, read_memory, reopen, written_and_read};
pub use recorder::{
    a_cut_recording_counts, append_by_effects, begin_by_effects, continue_by_effects,
    record_by_effects, record_in_parts,
};
pub use recording::{
    append_blocks, finish_durable, pack_one, publish_and_continue, record, record_at_once,
    record_batch, record_checkpoints, record_steps, write_if_short,
};
pub use repairer::repair_by_requests;
pub use twelve::Twelve;
