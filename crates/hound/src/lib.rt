//! WAV audio, written and read: a port of the crate `hound` with every function proved.
//!
//! Reads PCMWAVEFORMAT, WAVEFORMATEX and WAVEFORMATEXTENSIBLE; writes the first and the third. Integers have 8, 16, 24
//! (in three bytes or in four) or 32 bits, floats 32, which stay as their patterns; there are up to 65535 channels.
//! Places and sizes count bytes, a sample is of one channel, and a frame has a sample of each.
//!
//! To write a file: [`WavWriter`] (`create` on disk, `create_durable` if each `flush` has to sync, `new` into any
//! [`Medium`], `append` and `new_append` to append to one), `write_sample`, `write_samples` of a slice or a batch of
//! `get_i16_writer`, `flush` for a checkpoint, and `finalize`. A whole run as one call: [`run_session`],
//! [`run_sessions`].
//!
//! To read one: [`WavReader`] (`open`, or `new` over any reader), `samples` or `into_samples`, `read_samples` for many
//! at once, `seek`; [`read_wave_header`] for only the first twelve bytes. Over bytes in memory `from_bytes` and
//! `decode_samples`, over a [`Source`] `try_new` and `try_read_samples` say by contract why each `IoError` comes.
//!
//! To mend a file whose recording was cut off: [`repair_file`], or [`repair`] in any medium; [`find_damage_in_file`]
//! and [`find_damage`] only look; [`repair_file_to_end`] and [`repair_to_end`] take all after the data header for
//! samples. A caller who reads and writes the file itself asks [`repair_next`] what to do.
//!
//! A recorder that needs to know which samples were accepted calls a whole run at once:
//!
//! ```
//! use hound::{Begin, End, Step, Tape, run_session, run_sessions};
//! use std::alloc::Global;
//!
//! fn record(alloc: Global) -> hound::Result<([bool; 4], Vec<u8>)> {
//!     let steps = [
//!         Step::Whole(2),
//!         Step::Whole(40_000),
//!         Step::Batch(&[5, -7]),
//!         Step::Flush,
//!     ];
//!     let mut marks = [false; 4];
//!     let tape = Tape::new(Vec::new(alloc));
//!     let begin = Begin::New(SPEC);
//!     let (tape, answer) = run_session(alloc, tape, begin, &steps, &mut marks, End::Finalize);
//!     answer?;
//!     Ok((marks, tape.into_bytes()))
//! }
//! ```
//!
//! If `SPEC` is mono, with 16 bits in two bytes, the marks are true, false, true and true, since 40000 is too wide, and
//! the bytes are the file of 2, 5 and -7.
//!
//! A converter that has no use for half of a file calls [`run_sessions`], which ends at the first error:
//!
//! ```
//! fn record_twice(alloc: Global, steps: &[Step]) -> hound::Result<Vec<u8>> {
//!     let tape = Tape::new(Vec::new(alloc));
//!     let (tape, answer) = run_sessions(alloc, tape, SPEC, &[&steps[..], &steps[..]]);
//!     answer?;
//!     Ok(tape.into_bytes())
//! }
//! ```
//!
//! The steps 2 and a batch of 5 and -7 give the file of 2, 5, -7, 2, 5 and -7; with 40000 among them the result is
//! `TooWide`.
//!
//! What a file is: [`WavSpec`], [`WavSpecEx`], [`SampleFormat`]; what a sample is: [`Sample`], for `i8`, `i16`, `i32`,
//! [`FloatBits`] and types of your own; the first four are [`Decode`], too. Why a call failed: [`Error`]. What takes
//! memory takes an `alloc`, which is `rt.alloc()`, and what opens a file takes `rt`, which `main` gets.
//!
//! Memory to write into and to read from: [`Tape`]; the same with every byte written recorded, and faults on request:
//! [`Journal`]. The traits that these and files have: [`Placed`], [`Source`], [`Medium`].
//!
//! The functions without a body are laws: a call of one costs nothing, and what it ensures is known after it.
#![tactic(auto)]

mod laws;
mod runs;
mod session;

pub use hound_durable::Durable;
pub use hound_durable::SyncedFile;
pub use hound_durable::Target;
pub use hound_durable::a_durable_medium_ascends;
pub use hound_follow::FollowError;
pub use hound_follow::FollowStep;
pub use hound_follow::Follower;
pub use hound_follow::Look;
pub use hound_follow::Recording;
pub use hound_follow::a_look_ends;
pub use hound_follow::a_look_takes_the_last_byte_first;
pub use hound_medium::Journal;
pub use hound_medium::Medium;
pub use hound_medium::Placed;
pub use hound_medium::Source;
pub use hound_medium::Tape;
pub use hound_medium::put_all;
pub use hound_reader::WavIntoSamples;
pub use hound_reader::WavReader;
pub use hound_reader::WavSamples;
pub use hound_reader::a_block_is_its_items;
pub use hound_reader::a_reader_is_where_it_counts;
pub use hound_reader::a_seek_leads_to_its_frame;
pub use hound_reader::an_iterator_gives_what_it_hints;
pub use hound_reader::items_are_of_the_file;
pub use hound_reader::written_is_read;
pub use hound_repair::Damage;
pub use hound_repair::FailedAction;
pub use hound_repair::Repair;
pub use hound_repair::RepairError;
pub use hound_repair::RepairStep;
pub use hound_repair::Repairing;
pub use hound_repair::SeenHead;
pub use hound_repair::Stage;
pub use hound_repair::Task;
pub use hound_repair::Unrepairable;
pub use hound_repair::a_look_finds_what_a_repair_does;
pub use hound_repair::a_repair_ends;
pub use hound_repair::a_repair_keeps_stored_samples;
pub use hound_repair::a_repairer_repairs;
pub use hound_repair::a_second_repair_writes_nothing;
pub use hound_repair::a_stopped_repair_is_done_again;
pub use hound_repair::effects_mend;
pub use hound_repair::find_damage;
pub use hound_repair::find_damage_in_file;
pub use hound_repair::part_at;
pub use hound_repair::repair;
pub use hound_repair::repair_file;
pub use hound_repair::repair_file_to_end;
pub use hound_repair::repair_next;
pub use hound_repair::repair_to_end;
pub use hound_sample::Amplitude;
pub use hound_sample::Decode;
pub use hound_sample::FloatBits;
pub use hound_sample::Sample;
pub use hound_sample::change_bits;
pub use hound_sample::float_to_int;
pub use hound_sample::i16s_are_kept;
pub use hound_sample::int_to_float;
pub use hound_sample::integers_come_back;
pub use hound_sample::noise_continues;
pub use hound_sample::scaled_integers_come_back;
pub use hound_sample::store_with_noise;
pub use hound_spec::Error;
pub use hound_spec::Result;
pub use hound_spec::SampleFormat;
pub use hound_spec::WavSpec;
pub use hound_spec::WavSpecEx;
pub use hound_spec::header_of;
pub use hound_walk::one_answer;
pub use hound_walk::read_wave_header;
pub use hound_walk::written_is_head;
pub use hound_writer::Action;
pub use hound_writer::BeginningEffect;
pub use hound_writer::Effect;
pub use hound_writer::FoundFile;
pub use hound_writer::Health;
pub use hound_writer::Phase;
pub use hound_writer::Recorder;
pub use hound_writer::RecorderError;
pub use hound_writer::RepairState;
pub use hound_writer::Report;
pub use hound_writer::SampleWriter16;
pub use hound_writer::WavWriter;
pub use hound_writer::a_block_is_its_samples;
pub use hound_writer::a_cut_is_ignored;
pub use hound_writer::a_recorder_directs;
pub use hound_writer::an_effect_may_be_repeated;
pub use hound_writer::beginning_effect;
pub use hound_writer::one_append_answer;
pub use hound_writer::part_from;
pub use hound_writer::put_all_at;
pub use laws::a_batch_is_its_values;
pub use laws::a_checkpoint_holds;
pub use laws::a_follower_reads_accepted_samples;
pub use laws::a_recording_is_kept;
pub use laws::a_repair_loses_no_published_sample;
pub use laws::a_request_ends;
pub use laws::a_run_leaves_its_calls;
pub use laws::a_write_is_marked_by_its_ok;
pub use laws::a_writer_holds_its_calls;
pub use laws::an_append_keeps_the_front;
pub use laws::an_ok_flush_is_kept;
pub use laws::calls_are_a_run;
pub use laws::sessions_leave_one_file;
pub use laws::what_a_loss_leaves;
pub use laws::what_is_kept;
pub use laws::what_is_known;
pub use runs::run_session;
pub use runs::run_sessions;
pub use session::Begin;
pub use session::End;
pub use session::Step;
