// The recorders of `hound_callers`, each run once.
use hound::{
    Durable, FoundFile, Journal, Recorder, RepairState, Step, Tape, WavReader, WavSpecEx, WavWriter,
};
use hound_callers::{
    Twelve, append_blocks, append_by_effects, begin_by_effects, continue_by_effects, finish,
    finish_durable, opened_meanwhile, pack_one, publish_and_continue, record, record_at_once,
    record_batch, record_by_effects, record_checkpoints, record_in_parts, record_steps, samples_of,
    write_if_short,
};
use hound_test_helpers::{FOUR_SAMPLES, empty_tape, integers, sixteen, tape_of, without_medium};
use std::alloc::Global;
use std::test::Fail;

// Blocks of twelve-bit samples, the third of which has one that is too wide; four are followed by a
// flush.
const BLOCKS: [&[Twelve]; 5] = [
    &[Twelve(1), Twelve(-2)],
    &[Twelve(3)],
    &[Twelve(4), Twelve(2048)],
    &[Twelve(2047), Twelve(-2048)],
    &[Twelve(5)],
];

// The samples of the blocks that were accepted.
const ACCEPTED: [i16; 6] = [1, -2, 3, 2047, -2048, 5];

// Whether a file of 16 bits has these samples.
fn holds(alloc: Global, bytes: &[u8], samples: &[i16]) -> hound::Result<bool> {
    let found: Vec<i16> = samples_of(alloc, WavReader::new(bytes)?)?;
    Ok(found.as_slice() == samples)
}

// The samples of 16 bits that are read of what a journal holds.
fn read_back(alloc: Global, journal: &Journal) -> hound::Result<Vec<i16>> {
    let bytes = journal.bytes_after(alloc, journal.taken())?;
    samples_of(alloc, WavReader::new(&bytes[..])?)
}

fn records(alloc: Global, blocks: &[&[Twelve]]) -> hound::Result<bool> {
    let recorded = record(empty_tape(alloc), integers(1, 44100, 16, 2), blocks);
    let tape = without_medium(recorded)?;
    holds(alloc, tape.bytes(), &ACCEPTED)
}

// A file with a chunk before its two samples, and the same file with those of the blocks after them.
const TAGGED: &[u8] = b"RIFF\x34\0\0\0WAVEfmt \x10\0\0\0\x01\0\x01\0\x44\xac\0\0\
    \x88\x58\x01\0\x02\0\x10\0LIST\x04\0\0\0INFOdata\x04\0\0\0\x02\0\xfd\xff";

const APPENDED: &[u8] = b"RIFF\x40\0\0\0WAVEfmt \x10\0\0\0\x01\0\x01\0\x44\xac\0\0\
    \x88\x58\x01\0\x02\0\x10\0LIST\x04\0\0\0INFOdata\x10\0\0\0\x02\0\xfd\xff\
    \x01\0\xfe\xff\x03\0\xff\x07\0\xf8\x05\0";

fn appends(alloc: Global, blocks: &[&[Twelve]]) -> Result<bool, Fail> {
    let tape = without_medium(append_blocks(tape_of(alloc, TAGGED)?, blocks))?;
    Ok(tape.bytes() == APPENDED)
}

// How many samples the first blocks have.
const SIZES: [usize; 3] = [0, 2, 3];

// Records over a medium whose calls fail from this one on, and returns how many blocks were
// published, if the file was begun: at least their samples are read, and none that wasn't accepted.
fn published(
    alloc: Global,
    blocks: &[&[Twelve]],
    fail_from: u64,
) -> hound::Result<Option<(usize, bool)>> {
    let mut journal = Journal::new(alloc, Vec::new(alloc))?;
    journal.fail(fail_from, u64::MAX);
    let Ok((journal, count)) = record_checkpoints(journal, integers(1, 44100, 16, 2), blocks) else {
        return Ok(None);
    };
    let found = read_back(alloc, &journal)?;
    let is_prefix = ACCEPTED.starts_with(found.as_slice());
    Ok(Some((count, is_prefix && found.len() >= SIZES[count.min(2)])))
}

// Whether this holds wherever the medium fails: none of the blocks is published first, then one, and
// in the end the two before the sample that is too wide.
fn publishes(alloc: Global, blocks: &[&[Twelve]]) -> hound::Result<bool> {
    let mut last = 0;
    for fail_from in 2..40u64 {
        if let Some((count, holds)) = published(alloc, blocks, fail_from)? {
            if !holds || count < last || count.abs_diff(last) > 1 {
                return Ok(false);
            }
            last = count;
        }
    }
    Ok(last == 2)
}

// The samples of `FOUR_SAMPLES`, in blocks of whole containers.
const CONTAINERS: [&[u8]; 3] = [&[2, 0], &[0xfd, 0xff, 5, 0], &[0xf9, 0xff]];

// Three samples of 8 bits, and the file that sox makes of them.
const ODD: [&[u8]; 2] = [&[0x80, 0x81], &[0x7f]];

const ODD_FILE: &[u8] = b"RIFF\x28\0\0\0WAVEfmt \x10\0\0\0\x01\0\x01\0\x44\xac\0\0\
    \x44\xac\0\0\x01\0\x08\0data\x03\0\0\0\x80\x81\x7f\0";

// Whether all blocks are saved and synced where the reports of these effects are lost, and are this file, for which so
// many bytes were written.
fn saves(
    alloc: Global,
    spec_ex: WavSpecEx,
    blocks: &[&[u8]],
    lost: &[bool],
    wanted: (&[u8], usize),
) -> hound::Result<bool> {
    let mut journal = Journal::new(alloc, Vec::new(alloc))?;
    let count = record_by_effects(&mut journal, spec_ex, blocks, lost)?;
    let taken = journal.taken();
    let bytes = journal.bytes_after(alloc, taken)?;
    let is_saved = count == blocks.len() && journal.flushed() == taken;
    Ok(is_saved && (bytes.as_slice(), taken) == wanted)
}

// The samples of three parts of a recording, of four bytes at most each, and how many blocks were saved. The calls of
// the second file fail from this one on.
fn in_parts(
    alloc: Global,
    blocks: &[&[u8]],
    fail_from: u64,
) -> hound::Result<(Vec<Vec<i16>>, usize)> {
    let mut media = [
        Journal::new(alloc, Vec::new(alloc))?,
        Journal::new(alloc, Vec::new(alloc))?,
        Journal::new(alloc, Vec::new(alloc))?,
    ];
    media[1].fail(fail_from, u64::MAX);
    let count = record_in_parts(&mut media, integers(1, 44100, 16, 2), blocks, 4, &[]);
    let mut parts = Vec::new(alloc);
    for medium in &media {
        parts.push(read_back(alloc, medium).unwrap_or(Vec::new(alloc)))?;
    }
    Ok((parts, count))
}

// Whether a new recording has room for as many frames as the RIFF size counts: it counts all but 8 of 4,294,967,303
// bytes, of which the header has 44, and a pad byte follows data of an odd length.
fn has_room() -> bool {
    match Recorder::begin(integers(2, 44100, 16, 2)) {
        Ok(recorder) => recorder.frames_left() == 4_294_967_258 / 4,
        Err(_) => false,
    }
}

// Whether the parts have these samples.
fn have(parts: &[Vec<i16>], samples: &[&[i16]]) -> bool {
    for i in 0..parts.len() {
        if i >= samples.len() || parts[i].as_slice() != samples[i] {
            return false;
        }
    }
    parts.len() == samples.len()
}

// Whether a part takes the next blocks whole, and what one that fails doesn't take is in the next one.
fn continues_in_parts(alloc: Global) -> hound::Result<bool> {
    let blocks: &[&[u8]] = &[b"\x02\0", b"\xfd\xff", b"\x05\0\xf9\xff", b"\x0b\0"];
    let (parts, count) = in_parts(alloc, blocks, u64::MAX)?;
    let whole = have(&parts, &[&[2, -3], &[5, -7], &[11]]);
    let (parts, saved) = in_parts(alloc, blocks, 0)?;
    let failed = have(&parts, &[&[2, -3], &[], &[5, -7]]);
    Ok(whole && count == 4 && failed && saved == 3)
}

// The header of a new file, as hound writes it.
const HEADER: &[u8] = b"RIFF\0\0\0\0WAVEfmt \x10\0\0\0\x01\0\x01\0\x44\xac\0\0\
    \x88\x58\x01\0\x02\0\x10\0data\0\0\0\0";

// Whether a file begins with its header, and has less of it where one of the calls fails.
fn begins(alloc: Global) -> hound::Result<bool> {
    let mut last = false;
    for fail_from in 0..7u64 {
        let mut journal = Journal::new(alloc, Vec::new(alloc))?;
        journal.fail(fail_from, u64::MAX);
        let has_begun = begin_by_effects(&mut journal, integers(1, 44100, 16, 2)).is_ok();
        let bytes = journal.bytes_after(alloc, journal.taken())?;
        if !HEADER.starts_with(&bytes) || has_begun != (bytes.len() == 44) || last && !has_begun {
            return Ok(false);
        }
        last = has_begun;
    }
    Ok(last)
}

// Whether the blocks that were saved are read, and nothing else than samples of the blocks, wherever
// the medium fails.
fn keeps(alloc: Global, blocks: &[&[u8]]) -> hound::Result<bool> {
    let mut last = 0;
    for fail_from in 0..50u64 {
        let mut journal = Journal::new(alloc, Vec::new(alloc))?;
        journal.fail(fail_from, u64::MAX);
        let recorded = record_by_effects(&mut journal, integers(1, 44100, 16, 2), blocks, &[]);
        let Ok(count) = recorded else {
            if last > 0 || journal.taken() > 44 {
                return Ok(false);
            }
            continue;
        };
        let found = read_back(alloc, &journal)?;
        let least = [0, 1, 3, 4][count.min(3)];
        if ![2i16, -3, 5, -7].starts_with(found.as_slice()) || found.len() < least || count < last {
            return Ok(false);
        }
        last = count;
    }
    Ok(last == 3)
}

// The samples that are read once blocks were appended to a file in a medium that fails from this call
// on, and how many blocks were saved, if the file could be appended to.
fn appended(
    alloc: Global,
    file: &[u8],
    blocks: &[&[u8]],
    fail_from: u64,
) -> hound::Result<(Vec<i16>, usize)> {
    let mut journal = Journal::new(alloc, file.to_vec(alloc)?)?;
    journal.fail(fail_from, u64::MAX);
    let count = append_by_effects(&mut journal, file, blocks, &[]).unwrap_or(0);
    Ok((read_back(alloc, &journal)?, count))
}

// Whether the samples of the file stay, and those of the blocks that were saved follow, wherever the
// medium fails; and nothing is written to a file without its last byte.
fn resumes(alloc: Global, file: &[u8], blocks: &[&[u8]]) -> hound::Result<bool> {
    let mut last = 0;
    for fail_from in 0..40u64 {
        let (found, count) = appended(alloc, file, blocks, fail_from)?;
        let all = [2i16, -3, 5, -7, 2, -3, 5, -7];
        let least = [4, 5, 7, 8][count.min(3)];
        if !all.starts_with(found.as_slice()) || found.len() < least || count < last {
            return Ok(false);
        }
        last = count;
    }
    let cut = &file[..file.len().saturating_sub(1)];
    let mut journal = Journal::new(alloc, cut.to_vec(alloc)?)?;
    let rejected = append_by_effects(&mut journal, cut, blocks, &[]).is_err();
    Ok(last == 3 && rejected && journal.taken() == 0)
}

// A recording of four samples of 16 bits that was cut off within the fifth, whose header counts none.
const CUT_OFF: &[u8] = b"RIFF\0\0\0\0WAVEfmt \x10\0\0\0\x01\0\x01\0\x44\xac\0\0\
    \x88\x58\x01\0\x02\0\x10\0data\0\0\0\0\x02\0\xfd\xff\x05\0\xf9\xff\x09";

// Whether it is continued by these blocks.
fn mends(alloc: Global, blocks: &[&[u8]], lost: &[bool]) -> hound::Result<bool> {
    let found = FoundFile {
        spec_ex: integers(1, 44100, 16, 2),
        data_start: 44,
        data_length: 0,
        length: 53,
        frames: 4,
        state: RepairState::CutOff,
    };
    let mut journal = Journal::new(alloc, CUT_OFF.to_vec(alloc)?)?;
    let count = continue_by_effects(&mut journal, found, blocks, lost);
    let all = read_back(alloc, &journal)?;
    Ok(count == Ok(3) && all.as_slice() == [2i16, -3, 5, -7, 2, -3, 5, -7].as_slice())
}

// After a sample of another type.
fn takes_a_batch(alloc: Global) -> hound::Result<bool> {
    let mut writer = WavWriter::new(empty_tape(alloc), sixteen(1))?;
    writer.write_sample(-8i8)?;
    record_batch(alloc, &mut writer, &[300, -301])?;
    let (tape, result) = writer.finalize_into();
    result?;
    holds(alloc, tape.bytes(), &[-8, 300, -301])
}

// 40000 needs more than sixteen bits.
fn takes_i16s(alloc: Global) -> hound::Result<bool> {
    let mut writer = WavWriter::new(empty_tape(alloc), sixteen(1))?;
    let mut batch = writer.get_i16_writer(alloc, 2)?;
    let marks = [
        write_if_short(&mut batch, 40_000),
        batch.remaining() >= 1 && write_if_short(&mut batch, 32_767),
        batch.remaining() >= 1 && write_if_short(&mut batch, -32_768),
    ];
    if batch.remaining() != 0 {
        return Ok(false);
    }
    batch.flush()?;
    let (tape, result) = writer.finalize_into();
    result?;
    Ok(marks == [false, true, true] && holds(alloc, tape.bytes(), &[32_767, -32_768])?)
}

fn ended_durably(alloc: Global) -> hound::Result<Journal> {
    let journal = Journal::new(alloc, Vec::new(alloc))?;
    let mut writer = WavWriter::new(Durable::new(journal), sixteen(1))?;
    record_at_once(&mut writer, &[2i16, -3])?;
    writer.write_samples(&[5i16, -7])?;
    writer.flush()?;
    let (journal, result) = finish_durable(writer);
    result?;
    Ok(journal)
}

fn ends_durably(alloc: Global) -> hound::Result<bool> {
    let journal = ended_durably(alloc)?;
    let taken = journal.taken();
    let bytes = journal.bytes_after(alloc, taken)?;
    Ok(journal.flushed() == taken && bytes.as_slice() == FOUR_SAMPLES.as_slice())
}

fn packs(alloc: Global) -> hound::Result<bool> {
    let packed = pack_one(Tape::new(Vec::new(alloc)), integers(1, 44100, 16, 2), -301);
    let tape = without_medium(packed)?;
    holds(alloc, tape.bytes(), &[-301])
}

fn takes_steps(alloc: Global) -> hound::Result<bool> {
    let steps = [Step::Whole(7), Step::Flush, Step::Batch(&[300, -301])];
    let mut marks = [false; 3];
    let spec_ex = integers(1, 44100, 16, 2);
    let recorded = record_steps(alloc, empty_tape(alloc), spec_ex, &steps, &mut marks);
    let tape = without_medium(recorded)?;
    Ok(marks == [true; 3] && holds(alloc, tape.bytes(), &[7, 300, -301])?)
}

// Publishes two samples and continues with a third.
fn continued(alloc: Global) -> hound::Result<Journal> {
    let journal = Journal::new(alloc, Vec::new(alloc))?;
    let mut writer = WavWriter::new(journal, sixteen(1))?;
    writer.write_samples(&[300i16, -301])?;
    publish_and_continue(&mut writer, &[7i16])?;
    let (journal, result) = finish(writer);
    result?;
    Ok(journal)
}

// Whether who opens that file just before the sizes of the end are written finds the two, and then all three.
fn continues(alloc: Global) -> hound::Result<bool> {
    let journal = continued(alloc)?;
    let taken = journal.taken();
    let before = opened_meanwhile(alloc, &journal, taken.saturating_sub(8))?;
    let after = opened_meanwhile(alloc, &journal, taken)?;
    Ok(holds(alloc, &before, &[300, -301])? && holds(alloc, &after, &[300, -301, 7])?)
}

#[test]
fn recorders_leave_what_they_accepted(rt: HostRuntime) -> Result<(), Fail> {
    let alloc = rt.alloc();
    let blocks: &[&[Twelve]] = &BLOCKS;
    let found = [
        records(alloc, blocks)?,
        appends(alloc, blocks)?,
        publishes(alloc, blocks)?,
    ];
    assert_eq!(rt; found, [true; 3]);
    Ok(())
}

#[test]
fn effects_leave_what_was_saved(rt: HostRuntime) -> Result<(), Fail> {
    let alloc = rt.alloc();
    let blocks: &[&[u8]] = &CONTAINERS;
    let odd: &[&[u8]] = &ODD;
    let mono = integers(1, 44100, 16, 2);
    // The header, the blocks, and two sizes for each.
    let written = 44 + 8 + 3 * 8;
    let plain = saves(alloc, mono, blocks, &[], (&FOUR_SAMPLES, written))?;
    // Again the first block twice and a size three times.
    let lost = [true, true, false, false, true, true, true];
    let repeated = written + 2 * 2 + 3 * 4;
    let with_losses = saves(alloc, mono, blocks, &lost, (&FOUR_SAMPLES, repeated))?;
    // And a pad byte.
    let written = 44 + 3 + 2 * 8 + 1;
    let eight = integers(1, 44100, 8, 1);
    let padded = saves(alloc, eight, odd, &[], (ODD_FILE, written))?;
    assert_eq!(rt; [plain, with_losses, padded], [true; 3]);
    Ok(())
}

#[test]
fn effects_that_fail_leave_what_was_saved(rt: HostRuntime) -> Result<(), Fail> {
    let alloc = rt.alloc();
    let blocks: &[&[u8]] = &CONTAINERS;
    let found = [
        begins(alloc)?,
        keeps(alloc, blocks)?,
        resumes(alloc, &FOUR_SAMPLES, blocks)?,
        // Two syncs, and then a size twice: a sync whose report is lost would have failed.
        mends(alloc, blocks, &[false, false, true, true])?,
        continues_in_parts(alloc)?,
        has_room(),
    ];
    assert_eq!(rt; found, [true; 6]);
    Ok(())
}

#[test]
fn batches_steps_and_single_calls_are_recorded(rt: HostRuntime) -> Result<(), Fail> {
    let alloc = rt.alloc();
    let found = [
        takes_a_batch(alloc)?,
        takes_i16s(alloc)?,
        packs(alloc)?,
        takes_steps(alloc)?,
        continues(alloc)?,
        ends_durably(alloc)?,
    ];
    assert_eq!(rt; found, [true; 6]);
    Ok(())
}
