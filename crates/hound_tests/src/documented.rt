// The examples of the public items' documentation, each run: scripts/check_docs.py looks that each of
// them is here.
use hound::{
    Begin, End, FloatBits, Journal, RepairState, SampleFormat, Step, Tape, WavReader, WavSpec,
    WavSpecEx, WavWriter, change_bits, float_to_int, int_to_float, repair, run_session,
    run_sessions,
};
use hound_test_helpers::{FOUR_SAMPLES, sixteen, tape_of};
use std::alloc::Global;
use std::io::Cursor;
use std::test::Fail;

// Writes the four samples by each call that accepts some.
fn write(alloc: Global) -> hound::Result<Vec<u8>> {
    let spec = WavSpec {
        channels: 1,
        sample_rate: 44100,
        bits_per_sample: 16,
        sample_format: SampleFormat::Int,
    };
    let mut writer = WavWriter::new(Tape::new(Vec::new(alloc)), spec)?;
    writer.write_sample(2i16)?;
    writer.flush()?; // A reader finds one sample now.
    writer.write_samples(&[-3i16])?; // All of a slice, or nothing.
    let mut batch = writer.get_i16_writer(alloc, 2)?;
    batch.write_sample(5i16);
    batch.write_sample(-7i16);
    batch.flush()?;
    let (tape, result) = writer.finalize_into();
    result?;
    Ok(tape.into_bytes())
}

#[test]
fn what_is_written_by_each_call(rt: HostRuntime) -> Result<(), Fail> {
    let bytes = write(rt.alloc())?;
    assert_eq!(rt; bytes.as_slice(), &FOUR_SAMPLES[..]);
    Ok(())
}

// The sum of all samples, one at a time.
fn sum_of(bytes: &[u8]) -> hound::Result<i64> {
    let mut sum = 0i64;
    let mut reader = WavReader::new(bytes)?;
    for sample in reader.samples::<i32>() {
        sum = sum.wrapping_add(i64::from(sample?));
    }
    Ok(sum)
}

// The same by blocks.
fn sum_of_blocks(bytes: &[u8]) -> hound::Result<i64> {
    let mut sum = 0i64;
    let mut reader = WavReader::new(bytes)?;
    let mut block = [0i32; 3];
    for _ in 0..u64::MAX {
        let (count, result) = reader.read_samples(&mut block);
        for sample in &block[..count] {
            sum = sum.wrapping_add(i64::from(*sample));
        }
        result?; // Ok, or why no more samples came.
        if count < block.len() {
            break;
        }
    }
    Ok(sum)
}

// The same in memory, by one block.
fn sum_in_memory(bytes: &[u8]) -> hound::Result<i64> {
    let mut sum = 0i64;
    let mut block = [0i32; 6];
    let mut reader = WavReader::from_bytes(bytes)?;
    let (count, result) = reader.decode_samples(&mut block);
    for sample in &block[..count] {
        sum = sum.wrapping_add(i64::from(*sample));
    }
    result?;
    Ok(sum)
}

// The third sample.
fn third(bytes: &[u8]) -> hound::Result<Option<i16>> {
    let mut reader = WavReader::new(Cursor::new(bytes))?;
    reader.seek(2)?;
    reader.into_samples::<i16>().next().transpose()
}

#[test]
fn what_is_read_by_each_call(rt: HostRuntime) -> Result<(), Fail> {
    let sums = (
        sum_of(&FOUR_SAMPLES)?,
        sum_of_blocks(&FOUR_SAMPLES)?,
        sum_in_memory(&FOUR_SAMPLES)?,
    );
    assert_eq!(rt; sums, (-3, -3, -3));
    assert_eq!(rt; third(&FOUR_SAMPLES)?, Some(5));
    Ok(())
}

// A file of 24 bits in four bytes.
fn write_wide(alloc: Global) -> hound::Result<u16> {
    let spec = sixteen(1);
    let spec_ex = WavSpecEx {
        spec: WavSpec {
            bits_per_sample: 24,
            ..spec
        },
        bytes_per_sample: 4, // `WavSpecEx::from(spec)` has 3.
    };
    let mut tape = Tape::new(Vec::new(alloc));
    let mut writer = WavWriter::new_with_spec_ex(&mut tape, spec_ex)?;
    writer.write_sample(-70_000)?;
    writer.finalize()?;
    let reader = WavReader::new(tape.bytes())?;
    Ok(reader.spec_ex().bytes_per_sample)
}

// A float that was written is read.
fn write_float(alloc: Global) -> hound::Result<Option<f32>> {
    let spec = WavSpec {
        bits_per_sample: 32,
        sample_format: SampleFormat::Float,
        ..sixteen(1)
    };
    let mut tape = Tape::new(Vec::new(alloc));
    let mut writer = WavWriter::new(&mut tape, spec)?;
    writer.write_sample(FloatBits::from(0.5))?;
    writer.finalize()?;
    let mut reader = WavReader::new(tape.bytes())?;
    let sample = reader.samples::<FloatBits>().next().transpose()?;
    Ok(sample.map(FloatBits::to_f32))
}

#[test]
fn what_a_wide_container_and_a_float_are(rt: HostRuntime) -> Result<(), Fail> {
    assert_eq!(rt; write_wide(rt.alloc())?, 4);
    assert_eq!(rt; write_float(rt.alloc())?, Some(0.5));
    assert_eq!(rt; FloatBits::from(0.5), FloatBits(0x3f00_0000));
    assert!(rt; FloatBits(0xbfc0_0000).to_f32() == -1.5);
    Ok(())
}

// The contents in the middle of the first patch, of a journal whose calls all fail from now on.
fn half(alloc: Global, journal: &mut Journal) -> hound::Result<Vec<u8>> {
    if journal.taken() < 46 {
        return Ok(Vec::new(alloc));
    }
    journal.fail(0, u64::MAX); // Every call fails from now on.
    let before = journal.bytes_after(alloc, 46)?; // A header, and half of the data.
    Ok(before)
}

// How many samples a reader finds there, and once every call fails.
fn find_after_faults(alloc: Global) -> hound::Result<(u32, u32)> {
    let mut journal = Journal::new(alloc, Vec::new(alloc))?;
    let mut writer = WavWriter::new(&mut journal, sixteen(1))?;
    writer.write_samples(&[2i16, -3])?;
    writer.flush()?;
    drop(writer);
    let before = half(alloc, &mut journal)?;
    let after = journal.bytes_after(alloc, journal.taken())?;
    Ok((
        WavReader::new(before.as_slice())?.len(),
        WavReader::new(after.as_slice())?.len(),
    ))
}

// A recording whose sizes still say that it is empty.
fn mend(alloc: Global, bytes: &[u8]) -> Result<(RepairState, u32), Fail> {
    let tape = tape_of(alloc, bytes)?;
    match repair(tape) {
        Ok((tape, found)) => {
            let samples = WavReader::new(tape.bytes())?.len(); // As many as were found.
            Ok((found.state, samples))
        }
        Err((_, error)) => Err(error.into()),
    }
}

// Two samples more, at the end of a file.
fn append(alloc: Global, bytes: &[u8]) -> Result<u32, Fail> {
    let mut tape = tape_of(alloc, bytes)?;
    let mut writer = WavWriter::new_append(&mut tape)?;
    writer.write_samples(&[11i16, -13])?;
    writer.finalize()?;
    Ok(WavReader::new(tape.bytes())?.len())
}

#[test]
fn what_is_found_mended_and_appended(rt: HostRuntime) -> Result<(), Fail> {
    assert_eq!(rt; find_after_faults(rt.alloc())?, (0, 2));
    let mut cut = FOUR_SAMPLES;
    cut[40] = 0;
    let mended = mend(rt.alloc(), &cut)?;
    assert_eq!(rt; mended, (RepairState::CutOff, 4));
    assert_eq!(rt; append(rt.alloc(), &FOUR_SAMPLES)?, 6);
    Ok(())
}

const SPEC: WavSpecEx = WavSpecEx {
    spec: WavSpec {
        channels: 1,
        sample_rate: 44100,
        bits_per_sample: 16,
        sample_format: SampleFormat::Int,
    },
    bytes_per_sample: 2,
};

// A whole run as one call.
fn record(alloc: Global) -> hound::Result<([bool; 4], Vec<u8>)> {
    let steps = [
        Step::Whole(2),
        Step::Whole(40_000),
        Step::Batch(&[5, -7]),
        Step::Flush,
    ];
    let mut marks = [false; 4];
    let tape = Tape::new(Vec::new(alloc));
    let begin = Begin::New(SPEC);
    let (tape, answer) = run_session(alloc, tape, begin, &steps, &mut marks, End::Finalize);
    answer?;
    Ok((marks, tape.into_bytes()))
}

fn record_twice(alloc: Global, steps: &[Step]) -> hound::Result<Vec<u8>> {
    let tape = Tape::new(Vec::new(alloc));
    let (tape, answer) = run_sessions(alloc, tape, SPEC, &[&steps[..], &steps[..]]);
    answer?;
    Ok(tape.into_bytes())
}

#[test]
fn what_runs_leave(rt: HostRuntime) -> Result<(), Fail> {
    let (marks, bytes) = record(rt.alloc())?;
    assert_eq!(rt; (marks, bytes.len()), ([true, false, true, true], 50));
    let twice = record_twice(rt.alloc(), &[Step::Whole(2), Step::Batch(&[5, -7])])?;
    assert_eq!(rt; twice.len(), 56);
    Ok(())
}

#[test]
fn samples_in_another_scale(rt: HostRuntime) -> Result<(), Fail> {
    let half = int_to_float(16384, 16); // 0.5
    assert_eq!(rt; half == 0.5, true);
    let (sample, is_clipped) = float_to_int(1.0, 16); // 32767, true
    assert_eq!(rt; (sample, is_clipped), (32767, true));
    let (sample, is_clipped) = change_bits(0x123480, 24, 16); // 0x1235, false
    assert_eq!(rt; (sample, is_clipped), (0x1235, false));
    Ok(())
}

// Each integer of 16 bits, and each of 24 that is a multiple of 251 from the lowest on.
#[test]
fn integers_come_back_from_floats(rt: HostRuntime) -> Result<(), Fail> {
    let mut changed = 0u32;
    for sample in -32768..=32767i32 {
        let back = float_to_int(int_to_float(sample, 16), 16);
        changed = changed.saturating_add(u32::from(back != (sample, false)));
    }
    for step in 0..66_842i32 {
        let sample = step.wrapping_mul(251).wrapping_sub(8_388_608);
        let back = float_to_int(int_to_float(sample, 24), 24);
        changed = changed.saturating_add(u32::from(back != (sample, false)));
    }
    assert_eq!(rt; changed, 0);
    Ok(())
}
