// The functions of `callers` and `reading`, each run once.
use hound::{Decode, Source, Task, WavReader, WavWriter, store_with_noise};
use hound_callers::{
    look_and_repair, open_written, publish, read_block, read_from, read_memory, record_at_once,
    reopen, repair_by_requests, sample_at, samples_of, store_two_blocks, through_a_float,
    written_and_read,
};
use hound_test_helpers::{
    FOUR_SAMPLES, NO_SAMPLES, empty_tape, name_of_answer, sixteen, tape_of, without_medium,
};
use std::alloc::Global;
use std::test::Fail;

// Stereo, 44100 Hz, 16 bits: 2, -3, 5, -7.
const STEREO: &[u8] = b"RIFF\x2c\0\0\0WAVEfmt \x10\0\0\0\
    \x01\0\x02\0\x44\xac\0\0\x10\xb1\x02\0\x04\0\x10\0\
    data\x08\0\0\0\x02\0\xfd\xff\x05\0\xf9\xff";

// The same file, cut off before its sizes were written.
const CUT_OFF: &[u8] = b"RIFF\0\0\0\0WAVEfmt \x10\0\0\0\
    \x01\0\x02\0\x44\xac\0\0\x10\xb1\x02\0\x04\0\x10\0\
    data\0\0\0\0\x02\0\xfd\xff\x05\0\xf9\xff";

#[test]
fn a_recorder_publishes_each_sample(rt: HostRuntime) -> Result<(), Fail> {
    let mut writer = WavWriter::new(empty_tape(rt.alloc()), sixteen(1))?;
    for sample in [2i16, -3, 5, -7] {
        record_at_once(&mut writer, &[sample])?;
    }
    let published = publish(&mut writer)?;
    let tape = writer.drop_into();
    let is_whole = tape.bytes() == FOUR_SAMPLES.as_slice();
    assert_eq!(rt; (published, is_whole), (4, true));
    Ok(())
}

#[test]
fn a_written_file_is_opened(rt: HostRuntime) -> Result<(), Fail> {
    let reader = open_written(&FOUR_SAMPLES)?;
    let count = reader.len();
    let is_at_data = reader.into_inner() == [2u8, 0, 0xfd, 0xff, 5, 0, 0xf9, 0xff].as_slice();
    assert_eq!(rt; (count, is_at_data), (4, true));
    Ok(())
}

// The name of the error for which a file in memory isn't read.
fn why_not_read<S: Decode + Copy>(alloc: Global, bytes: &[u8], silence: S) -> &'static str {
    name_of_answer(&read_memory(alloc, bytes, silence))
}

#[test]
fn a_file_in_memory_is_read(rt: HostRuntime) -> Result<(), Fail> {
    let alloc = rt.alloc();
    let (spec_ex, samples) = read_memory(alloc, &FOUR_SAMPLES, 85i16)?;
    assert!(rt;
        samples.as_slice() == [2i16, -3, 5, -7].as_slice() && spec_ex.bytes_per_sample == 2
    );
    let (_, samples) = read_memory(alloc, &NO_SAMPLES, 85i8)?;
    assert_eq!(rt; samples.len(), 0);
    Ok(())
}

#[test]
fn a_file_in_memory_is_not_read(rt: HostRuntime) -> Result<(), Fail> {
    let alloc = rt.alloc();
    let causes = [
        why_not_read(alloc, &FOUR_SAMPLES, 85i8),
        why_not_read(alloc, &FOUR_SAMPLES[..51], 85i16),
        why_not_read(alloc, &FOUR_SAMPLES[..43], 85i16),
        why_not_read(alloc, &FOUR_SAMPLES[1..], 85i16),
    ];
    assert_eq!(rt;
        causes,
        ["TooWide", "IoError", "IoError", "no RIFF tag found"]
    );
    Ok(())
}

#[test]
fn an_integer_comes_back(rt: HostRuntime) -> Result<(), Fail> {
    let read = [
        written_and_read(-128, 8, 1)?,
        written_and_read(8_388_607, 24, 4)?,
        written_and_read(i32::MIN, 32, 4)?,
    ];
    assert_eq!(rt; read, [-128, 8_388_607, i32::MIN]);
    assert!(rt; written_and_read(128, 8, 1).is_err());
    Ok(())
}

#[test]
fn an_integer_comes_back_from_a_float(rt: HostRuntime) -> Result<(), Fail> {
    let back = (
        through_a_float(-8_388_608, 24),
        through_a_float(8_388_607, 24),
        through_a_float(-1, 8),
    );
    assert_eq!(rt; back, (-8_388_608, 8_388_607, -1));
    Ok(())
}

#[test]
fn two_blocks_have_the_noise_of_one(rt: HostRuntime) -> Result<(), Fail> {
    let amplitudes = [0.25_f64, -0.5, 0.125, 1.0];
    let (mut whole, mut first, mut second) = ([0; 8], [0; 2], [0; 6]);
    let (mut state, mut later) = (7, 7);
    store_with_noise(&mut whole, &amplitudes, 16, 2, &mut state);
    store_two_blocks(
        &mut first,
        &mut second,
        &amplitudes[..1],
        &amplitudes[1..],
        16,
        2,
        &mut later,
    );
    assert_eq!(rt; (&first[..], &second[..]), (&whole[..2], &whole[2..]));
    assert_eq!(rt; later, state);
    Ok(())
}

#[test]
fn a_file_is_looked_at_and_repaired(rt: HostRuntime) -> Result<(), Fail> {
    let tape = tape_of(rt.alloc(), CUT_OFF)?;
    let (tape, found) = without_medium(look_and_repair(tape))?;
    assert!(rt; found.frames == 2 && tape.bytes() == STEREO);
    Ok(())
}

#[test]
fn a_file_is_repaired_by_requests(rt: HostRuntime) -> Result<(), Fail> {
    let mut tape = tape_of(rt.alloc(), CUT_OFF)?;
    let length = tape.bytes().len() as u64;
    let lost = [false, true, false, false, false, true, true];
    let frames = match repair_by_requests(&mut tape, length, Task::Repair, &lost) {
        Ok(found) => found.frames,
        Err(_) => 0,
    };
    assert!(rt; frames == 2 && tape.bytes() == STEREO);
    Ok(())
}

#[test]
fn samples_are_collected(rt: HostRuntime) -> Result<(), Fail> {
    let samples: Vec<i32> = samples_of(rt.alloc(), WavReader::new(STEREO)?)?;
    assert_eq!(rt; samples.as_slice(), [2, -3, 5, -7].as_slice());
    Ok(())
}

// The first sample of a frame of the stereo file.
fn sample_of_frame(alloc: Global, frame: u32) -> Result<Option<i16>, Fail> {
    let mut reader = WavReader::new(tape_of(alloc, STEREO)?)?;
    Ok(sample_at(&mut reader, frame)?)
}

#[test]
fn a_sample_is_found(rt: HostRuntime) -> Result<(), Fail> {
    assert_eq!(rt; sample_of_frame(rt.alloc(), 1)?, Some(5));
    assert_eq!(rt; sample_of_frame(rt.alloc(), 2)?, None);
    Ok(())
}

#[test]
fn a_block_is_read(rt: HostRuntime) -> Result<(), Fail> {
    let mut reader = WavReader::new(STEREO)?;
    let mut block = [0i16; 3];
    let count = read_block(&mut reader, &mut block)?;
    assert_eq!(rt; (count, block), (3, [2, -3, 5]));
    Ok(())
}

#[test]
fn what_follows_a_block_is_left(rt: HostRuntime) -> Result<(), Fail> {
    let reader = WavReader::new(tape_of(rt.alloc(), STEREO)?)?;
    let mut block = [0i32; 1];
    let (count, mut rest) = read_from(reader, 1, &mut block)?;
    let mut left = [0; 4];
    let left_count = rest.get(&mut left)?;
    assert_eq!(rt;
        (count, block, left_count, left),
        (1, [5], 2, [0xf9, 0xff, 0, 0])
    );
    Ok(())
}

#[test]
fn a_written_file_is_opened_again(rt: HostRuntime) -> Result<(), Fail> {
    let tape = tape_of(rt.alloc(), &FOUR_SAMPLES)?;
    let writer = without_medium(reopen(tape))?;
    assert_eq!(rt; writer.len(), 4);
    Ok(())
}

#[test]
fn a_file_that_is_opened_again_takes_samples(rt: HostRuntime) -> Result<(), Fail> {
    let tape = tape_of(rt.alloc(), &NO_SAMPLES)?;
    let mut writer = without_medium(reopen(tape))?;
    record_at_once(&mut writer, &[2i16, -3, 5, -7])?;
    let tape = writer.drop_into();
    assert!(rt; tape.bytes() == FOUR_SAMPLES.as_slice());
    Ok(())
}
