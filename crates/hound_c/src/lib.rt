//! WAV files in a C caller's memory: read, written and appended to, with no state, no allocation and no call back.
//!
//! `hound.h` declares what is exported, and says what a caller must keep. What the calls do is in `hound_slices`, since
//! each build of a static library proves all of it anew, and takes libraries as they were proved.
#![tactic(auto)]

ghost use Rattle.std.specs.Prelude.{◌≡◌, ℕ, ◌*◌, None, false, length, pos, take, true};
ghost use Rattle.std.specs.Option.{option_len};
ghost use Rattle.std.specs.Result.{result_unwrap_or};
ghost use Rattle.hound_number.specs.{bytes_of};
ghost use Rattle.hound_walk.specs.{Readable, Unreadable};
ghost use Rattle.hound_sample.specs.{double_of_int, float_of_int, int_container, pattern_container, float_rejection, int_meaning, int_rejection, pattern, with_noise};
ghost use Rattle.hound_spec.specs.declared.spec.SampleFormat.TheVariants.{Float, Int};
ghost use Rattle.hound_walk.specs.declared.cause.Cause.{Cause};
ghost use Rattle.hound_writer.specs.{Advances, AsksForBlock, AsksForCheckpoint, BeginsRecorder, LeavesRoom, Resumes};
ghost use Rattle.hound_slices.specs.{AppendsInPlace, BeginsForC, BeginsRepairer, CountsWhole, Decodes, Encodes, EncodesFloats, FindsInFile, GivesBeginning, GivesFiller, GivesHeader, GivesSizes, GuessesData, HasRecorderNumbers, IsDamageError, IsExplicit, IsKind, MakesContainer, NarrowsFloats, ReadsInto, Records, RepairsFile, Returns, Sizes, StepsFollower, StepsRepairer, TakesNumbers, TakesPart, WidensFloats, WritesFile, effect_of, error_code, found_file, mends, overwrites, recorder_of, report_of, spec_from_c};
ghost use Rattle.hound_slices.specs.declared.error.CallError.{CallError as AnyError};
ghost use Rattle.hound_slices.specs.declared.error.CallError.TheVariants.{Head};

use hound_repair::Task;
use hound_sample::{FloatBits, UnitDouble, UnitFloat};
use hound_slices::{
    CallError, HoundEffect, HoundFollower, HoundInfo, HoundRecorder, HoundRepair, HoundRepairer,
    HoundSpec, HoundWalk, append_block, begin_repairer, beginning_for_c, code_of, code_of_error,
    container_of, decode_block, encode_block, encode_floats, encode_with_noise, file_kind,
    file_size, find_file_damage, found_file, guess_data, info_for_c, mends, narrow_floats,
    overwrites, read_block, recorder_for_c, recorder_of, repair_file, report_of, spec_from_c,
    step_follower, step_repairer, step_walk, value_of, whole_frames, widen_floats, write_file,
    write_filler, write_header, write_sizes,
};
use hound_spec::SampleFormat;
use hound_walk::find_samples;
use hound_writer::{Recorder, beginning_effect};

/// What is before the data: 0, or why it can't be read.
#[unsafe(no_mangle)]
pub extern "C" fn hound_info(file: &[u8], info: &mut HoundInfo) -> i32
    ensures found { result ≡ pos 0
        → Readable file.now (spec_from_c info.new.spec) info.new.samples info.new.data_start }
    ensures explicit { result ≡ pos 0 → IsExplicit info.new.spec }
    ensures rejected { (result ≡ pos 0 → ⊥) → (info.new ≡ info.old)
        × ((cause : Cause) × (result ≡ error_code (Head cause)) × Unreadable file.now cause) }
{
    match find_samples(file) {
        Ok((head, samples)) => {
            *info = info_for_c(head, samples);
            0
        }
        Err(cause) => code_of_error(CallError::Head(cause)),
    }
}

/// Takes the part of a file that a walk asked for: 1 if the walk asks for a part, 0 if the data begin there, or why
/// there are none. A read that failed changes nothing.
#[unsafe(no_mangle)]
pub extern "C" fn hound_walk_next(walk: &mut HoundWalk, info: &mut HoundInfo) -> i32
    ensures { TakesPart true result walk.old walk.new info.old info.new }
{
    step_walk(walk, info, true)
}

/// The same of a stream, whose header may count any length.
#[unsafe(no_mangle)]
pub extern "C" fn hound_walk_to_end(walk: &mut HoundWalk, info: &mut HoundInfo) -> i32
    ensures { TakesPart false result walk.old walk.new info.old info.new }
{
    step_walk(walk, info, false)
}

/// Reads integers into sixteen bits.
#[unsafe(no_mangle)]
pub extern "C" fn hound_read_i16(file: &[u8], first: u64, out: &mut [i16]) -> i64
    ensures { Returns result (ReadsInto (int_rejection 2) (λ _. int_meaning) file.now first out.old out.new) }
{
    code_of(read_block::<i16>(file, first, out))
}

/// Reads integers.
#[unsafe(no_mangle)]
pub extern "C" fn hound_read_i32(file: &[u8], first: u64, out: &mut [i32]) -> i64
    ensures { Returns result (ReadsInto (int_rejection 4) (λ _. int_meaning) file.now first out.old out.new) }
{
    code_of(read_block::<i32>(file, first, out))
}

/// Reads floats, as their bits.
#[unsafe(no_mangle)]
pub extern "C" fn hound_read_f32(file: &[u8], first: u64, out: &mut [FloatBits]) -> i64
    ensures { Returns result
        (ReadsInto float_rejection (λ _ _ _ c. record { 0 = pattern c }) file.now first out.old out.new) }
{
    code_of(read_block::<FloatBits>(file, first, out))
}

/// How many bytes the file of so many samples has.
#[unsafe(no_mangle)]
pub extern "C" fn hound_size(spec: &HoundSpec, samples: u64) -> i64
    ensures { Returns result (Sizes (spec_from_c spec.now) samples) }
{
    code_of(file_size(spec_from_c(*spec), samples))
}

/// Writes the header of the file of so many samples.
#[unsafe(no_mangle)]
pub extern "C" fn hound_header(spec: &HoundSpec, samples: u64, out: &mut [u8]) -> i64
    ensures { Returns result (GivesHeader (spec_from_c spec.now) samples out.old out.new) }
{
    code_of(write_header(spec_from_c(*spec), samples, out))
}

/// Writes the RIFF size and the data length of the file of so many samples, whose data begin at a place.
#[unsafe(no_mangle)]
pub extern "C" fn hound_sizes(
    spec: &HoundSpec,
    data_start: u64,
    samples: u64,
    out: &mut [u8],
) -> i64
    ensures { Returns result (GivesSizes (spec_from_c spec.now) data_start samples out.old out.new) }
{
    code_of(write_sizes(spec_from_c(*spec), data_start, samples, out))
}

/// Writes a chunk that says nothing, where the data length would otherwise lie across two sectors: its length, or 0.
#[unsafe(no_mangle)]
pub extern "C" fn hound_filler(data_start: u64, out: &mut [u8]) -> i64
    ensures { Returns result (GivesFiller data_start out.old out.new) }
{
    code_of(write_filler(data_start, out))
}

/// Writes the whole file of these samples.
#[unsafe(no_mangle)]
pub extern "C" fn hound_write_i16(spec: &HoundSpec, samples: &[i16], out: &mut [u8]) -> i64
    ensures { Returns result (WritesFile Int int_container (spec_from_c spec.now) samples.now out.old out.new) }
{
    code_of(write_file::<i16>(spec_from_c(*spec), SampleFormat::Int, samples, out))
}

/// Writes the whole file of these samples.
#[unsafe(no_mangle)]
pub extern "C" fn hound_write_i32(spec: &HoundSpec, samples: &[i32], out: &mut [u8]) -> i64
    ensures { Returns result (WritesFile Int int_container (spec_from_c spec.now) samples.now out.old out.new) }
{
    code_of(write_file::<i32>(spec_from_c(*spec), SampleFormat::Int, samples, out))
}

/// Writes the whole file of these floats, given as their bits.
#[unsafe(no_mangle)]
pub extern "C" fn hound_write_f32(spec: &HoundSpec, samples: &[FloatBits], out: &mut [u8]) -> i64
    ensures { Returns result (WritesFile Float (λ v. pattern_container v.0)
        (spec_from_c spec.now) samples.now out.old out.new) }
{
    code_of(write_file::<FloatBits>(spec_from_c(*spec), SampleFormat::Float, samples, out))
}

/// Appends samples after those of the file in the first `used` bytes.
#[unsafe(no_mangle)]
pub extern "C" fn hound_append_i16(file: &mut [u8], used: usize, samples: &[i16]) -> i64
    ensures { Returns result (AppendsInPlace Int int_container samples.now used file.old file.new) }
{
    code_of(append_block::<i16>(file, used, SampleFormat::Int, samples))
}

/// The same for integers of up to 32 bits.
#[unsafe(no_mangle)]
pub extern "C" fn hound_append_i32(file: &mut [u8], used: usize, samples: &[i32]) -> i64
    ensures { Returns result (AppendsInPlace Int int_container samples.now used file.old file.new) }
{
    code_of(append_block::<i32>(file, used, SampleFormat::Int, samples))
}

/// The same for floats, given as their bits.
#[unsafe(no_mangle)]
pub extern "C" fn hound_append_f32(file: &mut [u8], used: usize, samples: &[FloatBits]) -> i64
    ensures { Returns result (AppendsInPlace Float (λ v. pattern_container v.0) samples.now used file.old file.new) }
{
    code_of(append_block::<FloatBits>(file, used, SampleFormat::Float, samples))
}

/// Looks at a file as a repair does, and changes nothing of it: 0, or why it can't be repaired.
#[unsafe(no_mangle)]
pub extern "C" fn hound_find_damage(file: &[u8], found: &mut HoundRepair) -> i32
    ensures found { result ≡ pos 0 → FindsInFile file.now found.new }
    ensures rejected { (result ≡ pos 0 → ⊥) → (found.new ≡ found.old)
        × ((error : AnyError) × (result ≡ error_code error) × IsDamageError file.now error) }
{
    match find_file_damage(file) {
        Ok(repair) => {
            *found = repair;
            0
        }
        Err(error) => code_of_error(error),
    }
}

/// Repairs the file in the first `used` bytes.
#[unsafe(no_mangle)]
pub extern "C" fn hound_repair(file: &mut [u8], used: usize, found: &mut HoundRepair) -> i64
    ensures { Returns result (RepairsFile true used file.old file.new found.old found.new) }
{
    code_of(repair_file(file, used, Task::Repair, found))
}

/// The same where all that follows the header of the data is samples, whatever it looks like.
#[unsafe(no_mangle)]
pub extern "C" fn hound_repair_to_end(file: &mut [u8], used: usize, found: &mut HoundRepair) -> i64
    ensures { Returns result (RepairsFile false used file.old file.new found.old found.new) }
{
    code_of(repair_file(file, used, Task::RepairToEnd, found))
}

/// Begins to look at a file of so many bytes, or to repair it, which the caller reads and writes.
#[unsafe(no_mangle)]
pub extern "C" fn hound_repairer_begin(length: u64, mode: u32, repairer: &mut HoundRepairer)
    ensures { BeginsRepairer length mode repairer.new }
{
    *repairer = begin_repairer(length, mode);
}

/// Takes how the effect was reported: 1 for the next effect, 0 if all is done, or why there is none.
#[unsafe(no_mangle)]
pub extern "C" fn hound_repairer_next(repairer: &mut HoundRepairer, found: &mut HoundRepair) -> i32
    ensures { Returns result (StepsRepairer repairer.old repairer.new found.old found.new) }
{
    match step_repairer(repairer, found) {
        Ok(asks) => asks as i32,
        Err(error) => code_of_error(error),
    }
}

/// Takes how a read of a recording that is followed was reported: 1 for the next read, 0 where the look found more,
/// 2 where it found nothing new, or why it has ended.
#[unsafe(no_mangle)]
pub extern "C" fn hound_follower_next(follower: &mut HoundFollower) -> i32
    ensures { Returns result (StepsFollower follower.old follower.new) }
{
    match step_follower(follower) {
        Ok(step) => step as i32,
        Err(error) => code_of_error(error),
    }
}

/// How many of so many bytes of a stream are whole frames.
#[unsafe(no_mangle)]
pub extern "C" fn hound_whole_frames(spec: &HoundSpec, length: u64) -> i64
    ensures { Returns result (CountsWhole (spec_from_c spec.now) length) }
{
    code_of(whole_frames(spec_from_c(*spec), length))
}

/// Where the data may begin in a file whose header is damaged.
#[unsafe(no_mangle)]
pub extern "C" fn hound_guess_data(file: &[u8]) -> i64
    ensures { Returns result (GuessesData file.now) }
{
    code_of(guess_data(file))
}

/// The version of the library: its three numbers, of eight bits each.
#[unsafe(no_mangle)]
pub extern "C" fn hound_version() -> i32
    ensures { result ≡ pos 512 }
{
    512
}

/// What a file is, by its first bytes.
#[unsafe(no_mangle)]
pub extern "C" fn hound_kind(file: &[u8]) -> i32
    ensures { (kind : ℕ) × IsKind file.now kind × (result ≡ pos kind) }
{
    file_kind(file) as i32
}

/// Decodes samples of a spec, of eight bits.
#[unsafe(no_mangle)]
pub extern "C" fn hound_decode_i8(spec: &HoundSpec, bytes: &[u8], out: &mut [i8]) -> i64
    ensures { Returns result
        (Decodes (int_rejection 1) (λ _. int_meaning) (spec_from_c spec.now) bytes.now out.old out.new) }
{
    code_of(decode_block::<i8>(spec_from_c(*spec), bytes, out))
}

/// Encodes samples of a spec.
#[unsafe(no_mangle)]
pub extern "C" fn hound_encode_i8(spec: &HoundSpec, samples: &[i8], out: &mut [u8]) -> i64
    ensures { Returns result (Encodes Int int_container (spec_from_c spec.now) samples.now out.old out.new) }
{
    code_of(encode_block::<i8>(spec_from_c(*spec), SampleFormat::Int, samples, out))
}

/// Decodes samples of a spec.
#[unsafe(no_mangle)]
pub extern "C" fn hound_decode_i16(spec: &HoundSpec, bytes: &[u8], out: &mut [i16]) -> i64
    ensures { Returns result
        (Decodes (int_rejection 2) (λ _. int_meaning) (spec_from_c spec.now) bytes.now out.old out.new) }
{
    code_of(decode_block::<i16>(spec_from_c(*spec), bytes, out))
}

/// Encodes samples of a spec.
#[unsafe(no_mangle)]
pub extern "C" fn hound_encode_i16(spec: &HoundSpec, samples: &[i16], out: &mut [u8]) -> i64
    ensures { Returns result (Encodes Int int_container (spec_from_c spec.now) samples.now out.old out.new) }
{
    code_of(encode_block::<i16>(spec_from_c(*spec), SampleFormat::Int, samples, out))
}

/// Decodes samples of a spec.
#[unsafe(no_mangle)]
pub extern "C" fn hound_decode_i32(spec: &HoundSpec, bytes: &[u8], out: &mut [i32]) -> i64
    ensures { Returns result
        (Decodes (int_rejection 4) (λ _. int_meaning) (spec_from_c spec.now) bytes.now out.old out.new) }
{
    code_of(decode_block::<i32>(spec_from_c(*spec), bytes, out))
}

/// Encodes samples of a spec.
#[unsafe(no_mangle)]
pub extern "C" fn hound_encode_i32(spec: &HoundSpec, samples: &[i32], out: &mut [u8]) -> i64
    ensures { Returns result (Encodes Int int_container (spec_from_c spec.now) samples.now out.old out.new) }
{
    code_of(encode_block::<i32>(spec_from_c(*spec), SampleFormat::Int, samples, out))
}

/// Decodes samples of a spec.
#[unsafe(no_mangle)]
pub extern "C" fn hound_decode_f32(spec: &HoundSpec, bytes: &[u8], out: &mut [FloatBits]) -> i64
    ensures { Returns result (Decodes float_rejection (λ _ _ _ c. record { 0 = pattern c })
        (spec_from_c spec.now) bytes.now out.old out.new) }
{
    code_of(decode_block::<FloatBits>(spec_from_c(*spec), bytes, out))
}

/// Encodes samples of a spec.
#[unsafe(no_mangle)]
pub extern "C" fn hound_encode_f32(spec: &HoundSpec, samples: &[FloatBits], out: &mut [u8]) -> i64
    ensures { Returns result (Encodes Float (λ v. pattern_container v.0)
        (spec_from_c spec.now) samples.now out.old out.new) }
{
    code_of(encode_block::<FloatBits>(spec_from_c(*spec), SampleFormat::Float, samples, out))
}

/// The integer of one container of 8 bits, which is the low byte of a number.
#[unsafe(no_mangle)]
pub extern "C" fn hound_value_8(container: u32) -> i32
    ensures { result ≡ int_meaning 1 8 (take 1 (bytes_of 4 container)) }
{
    value_of(container, 8, 1)
}

/// The same of 16 bits.
#[unsafe(no_mangle)]
pub extern "C" fn hound_value_16(container: u32) -> i32
    ensures { result ≡ int_meaning 2 16 (take 2 (bytes_of 4 container)) }
{
    value_of(container, 16, 2)
}

/// The same of 24 bits, in three bytes or four.
#[unsafe(no_mangle)]
pub extern "C" fn hound_value_24(container: u32) -> i32
    ensures three { result ≡ int_meaning 3 24 (take 3 (bytes_of 4 container)) }
    ensures four { result ≡ int_meaning 4 24 (bytes_of 4 container) }
{
    value_of(container, 24, 4)
}

/// The same of 32 bits.
#[unsafe(no_mangle)]
pub extern "C" fn hound_value_32(container: u32) -> i32
    ensures { result ≡ int_meaning 4 32 (bytes_of 4 container) }
{
    value_of(container, 32, 4)
}

/// The container of an integer, in the low bytes of a number.
#[unsafe(no_mangle)]
pub extern "C" fn hound_container_8(value: i32) -> i64
    ensures { Returns result (MakesContainer (int_container value 8 1)) }
{
    code_of(container_of(value, 8, 1))
}

/// The same of 16 bits.
#[unsafe(no_mangle)]
pub extern "C" fn hound_container_16(value: i32) -> i64
    ensures { Returns result (MakesContainer (int_container value 16 2)) }
{
    code_of(container_of(value, 16, 2))
}

/// The same of 24 bits, in three bytes or four.
#[unsafe(no_mangle)]
pub extern "C" fn hound_container_24(value: i32) -> i64
    ensures three { Returns result (MakesContainer (int_container value 24 3)) }
    ensures four { Returns result (MakesContainer (int_container value 24 4)) }
{
    code_of(container_of(value, 24, 4))
}

/// The same of 32 bits.
#[unsafe(no_mangle)]
pub extern "C" fn hound_container_32(value: i32) -> i64
    ensures { Returns result (MakesContainer (int_container value 32 4)) }
{
    code_of(container_of(value, 32, 4))
}

/// Decodes integers of a spec to floats whose full scale is 1.
#[unsafe(no_mangle)]
pub extern "C" fn hound_to_f32(spec: &HoundSpec, bytes: &[u8], out: &mut [UnitFloat]) -> i64
    ensures { Returns result (Decodes (int_rejection 4)
        (λ _ width bits c. record { 0 = float_of_int bits (int_meaning width bits c) })
        (spec_from_c spec.now) bytes.now out.old out.new) }
{
    code_of(decode_block::<UnitFloat>(spec_from_c(*spec), bytes, out))
}

/// The same to floats of 64 bits, which are exact.
#[unsafe(no_mangle)]
pub extern "C" fn hound_to_f64(spec: &HoundSpec, bytes: &[u8], out: &mut [UnitDouble]) -> i64
    ensures { Returns result (Decodes (int_rejection 4)
        (λ _ width bits c. record { 0 = double_of_int bits (int_meaning width bits c) })
        (spec_from_c spec.now) bytes.now out.old out.new) }
{
    code_of(decode_block::<UnitDouble>(spec_from_c(*spec), bytes, out))
}

/// Encodes floats whose full scale is 1 as integers of a spec, and counts those that were clipped.
#[unsafe(no_mangle)]
pub extern "C" fn hound_from_f32(
    spec: &HoundSpec,
    samples: &[f32],
    out: &mut [u8],
    clipped: &mut u64,
) -> i64
    ensures { Returns result (EncodesFloats (λ x. x) (spec_from_c spec.now) samples.now out.old out.new
        clipped.old clipped.new) }
{
    code_of(encode_floats::<f32>(spec_from_c(*spec), samples, out, clipped))
}

/// The same of floats of 64 bits.
#[unsafe(no_mangle)]
pub extern "C" fn hound_from_f64(
    spec: &HoundSpec,
    samples: &[f64],
    out: &mut [u8],
    clipped: &mut u64,
) -> i64
    ensures { Returns result (EncodesFloats (λ x. x) (spec_from_c spec.now) samples.now out.old out.new
        clipped.old clipped.new) }
{
    code_of(encode_floats::<f64>(spec_from_c(*spec), samples, out, clipped))
}

/// Encodes floats with noise, whose state becomes that for the next floats.
#[unsafe(no_mangle)]
pub extern "C" fn hound_dither_f32(
    spec: &HoundSpec,
    samples: &[f32],
    state: &mut u64,
    out: &mut [u8],
    clipped: &mut u64,
) -> i64
    ensures encodes { let s = spec_from_c spec.now in Returns result (EncodesFloats (λ x. x) s
        (with_noise (λ x. x) s.spec.bits_per_sample state.old samples.now) out.old out.new clipped.old clipped.new) }
    ensures takes { Returns result (TakesNumbers (length samples.now) state.old state.new) }
{
    code_of(encode_with_noise::<f32>(spec_from_c(*spec), samples, state, out, clipped))
}

/// The same of floats of 64 bits.
#[unsafe(no_mangle)]
pub extern "C" fn hound_dither_f64(
    spec: &HoundSpec,
    samples: &[f64],
    state: &mut u64,
    out: &mut [u8],
    clipped: &mut u64,
) -> i64
    ensures encodes { let s = spec_from_c spec.now in Returns result (EncodesFloats (λ x. x) s
        (with_noise (λ x. x) s.spec.bits_per_sample state.old samples.now) out.old out.new clipped.old clipped.new) }
    ensures takes { Returns result (TakesNumbers (length samples.now) state.old state.new) }
{
    code_of(encode_with_noise::<f64>(spec_from_c(*spec), samples, state, out, clipped))
}

/// Widens floats to 64 bits, which changes none.
#[unsafe(no_mangle)]
pub extern "C" fn hound_f32_to_f64(samples: &[f32], out: &mut [f64]) -> i64
    ensures { Returns result (WidensFloats samples.now out.old out.new) }
{
    code_of(widen_floats(samples, out))
}

/// Narrows floats to 32 bits, to the nearest, and counts those that become infinite.
#[unsafe(no_mangle)]
pub extern "C" fn hound_f64_to_f32(samples: &[f64], out: &mut [f32], infinite: &mut u64) -> i64
    ensures { Returns result (NarrowsFloats samples.now out.old out.new infinite.old infinite.new) }
{
    code_of(narrow_floats(samples, out, infinite))
}

/// The effect with this number, from 0, with which a new file begins: 1, or 0 after the last.
#[unsafe(no_mangle)]
pub extern "C" fn hound_beginning(spec: &HoundSpec, number: u32, effect: &mut HoundEffect) -> i32
    ensures { Records result option_len (GivesBeginning (spec_from_c spec.now) number effect.old effect.new) }
{
    let spec_ex = spec_from_c(*spec);
    match beginning_effect(spec_ex, number) {
        Ok(next) => {
            *effect = beginning_for_c(spec_ex, next);
            if next.is_some() { 1 } else { 0 }
        }
        Err(error) => code_of_error(CallError::Recorder(error)),
    }
}

/// Begins to record a new file, which the caller has begun.
#[unsafe(no_mangle)]
pub extern "C" fn hound_recorder_begin(spec: &HoundSpec, recorder: &mut HoundRecorder) -> i32
    ensures { Records result (λ _. 0) (λ begun. BeginsRecorder (spec_from_c spec.now) begun
        × BeginsForC begun recorder.old recorder.new) }
{
    match Recorder::begin(spec_from_c(*spec)) {
        Ok(begun) => {
            *recorder = recorder_for_c(begun, None);
            0
        }
        Err(error) => code_of_error(CallError::Recorder(error)),
    }
}

/// Begins to append to a file that was found.
#[unsafe(no_mangle)]
pub extern "C" fn hound_recorder_resume(
    found: &HoundRepair,
    allowed: u32,
    recorder: &mut HoundRecorder,
) -> i32
    ensures { Records result (λ _. 0)
        (λ begun. Resumes (found_file found.now) (mends allowed) (overwrites allowed) begun
        × BeginsForC begun recorder.old recorder.new) }
{
    match Recorder::resume(found_file(found), mends(allowed), overwrites(allowed)) {
        Ok(begun) => {
            *recorder = recorder_for_c(begun, None);
            0
        }
        Err(error) => code_of_error(CallError::Recorder(error)),
    }
}

/// Requests that a block of so many samples is written.
#[unsafe(no_mangle)]
pub extern "C" fn hound_recorder_write(recorder: &mut HoundRecorder, samples: u64) -> i32
    ensures asks { Records result (λ _. 0) (AsksForBlock (report_of recorder.old.effect) samples
        (recorder_of recorder.old) (recorder_of recorder.new)) }
    ensures none { recorder.new.effect ≡ effect_of None }
    ensures numbers { HasRecorderNumbers recorder.new }
{
    let mut asked = recorder_of(recorder);
    let result = asked.write(report_of(recorder.effect), samples);
    *recorder = recorder_for_c(asked, None);
    match result {
        Ok(()) => 0,
        Err(error) => code_of_error(CallError::Recorder(error)),
    }
}

/// Requests a checkpoint.
#[unsafe(no_mangle)]
pub extern "C" fn hound_recorder_checkpoint(recorder: &mut HoundRecorder)
    ensures asks { AsksForCheckpoint (report_of recorder.old.effect)
        (recorder_of recorder.old) (recorder_of recorder.new) }
    ensures none { recorder.new.effect ≡ effect_of None }
    ensures numbers { HasRecorderNumbers recorder.new }
{
    let mut asked = recorder_of(recorder);
    asked.checkpoint(report_of(recorder.effect));
    *recorder = recorder_for_c(asked, None);
}

/// How many frames have room after those that are written.
#[unsafe(no_mangle)]
pub extern "C" fn hound_recorder_frames_left(recorder: &HoundRecorder) -> i64
    ensures { (n : ℕ) × (result ≡ pos n) × LeavesRoom (recorder_of recorder.now) n }
{
    recorder_of(recorder).frames_left() as i64
}

/// The next effect of what was requested: 1, or 0 if all of it is done.
#[unsafe(no_mangle)]
pub extern "C" fn hound_recorder_next(recorder: &mut HoundRecorder) -> i32
    ensures next { Records result option_len (λ next.
        Advances (report_of recorder.old.effect) (recorder_of recorder.old) (recorder_of recorder.new) next
        × (recorder.new.effect ≡ effect_of (result_unwrap_or next None))) }
    ensures numbers { HasRecorderNumbers recorder.new }
{
    let mut asked = recorder_of(recorder);
    let result = asked.next(report_of(recorder.effect));
    *recorder = recorder_for_c(asked, result.unwrap_or(None));
    match result {
        Ok(Some(_)) => 1,
        Ok(None) => 0,
        Err(error) => code_of_error(CallError::Recorder(error)),
    }
}
