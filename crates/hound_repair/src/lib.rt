//! Repair of WAV files whose recording was cut off.
//!
//! The two sizes of such a file say less than it holds, nothing, or are torn, and half a frame may be at its end, so no
//! reader takes it. [`repair`] gives back every whole frame that the file holds; [`find_damage`] says what it would do
//! and writes nothing.
#![tactic(auto)]

mod bytes;
mod file;
mod laws;
mod look;
mod machine;
pub(crate) mod mend;
mod stages;

pub use bytes::{find_damage_in_bytes, repair_bytes, set_sizes};
pub use file::{find_damage_in_file, repair_file, repair_file_to_end};
pub use hound_writer::RepairState;
pub use laws::{
    a_look_finds_what_a_repair_does, a_repair_ends, a_repair_keeps_stored_samples,
    a_repairer_repairs, a_second_repair_writes_nothing, a_stopped_repair_is_done_again,
    effects_mend,
};
pub use look::{Damage, Repair, SeenHead, find_damage};
pub use machine::{FailedAction, RepairError, RepairStep, Repairing, repair_next};
pub use mend::{part_at, repair, repair_to_end};
pub use stages::{Stage, Task, Unrepairable};
