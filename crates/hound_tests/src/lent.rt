// What is left of a medium that was lent, after the calls that don't return it, and of one over which no writer or
// reader is made: the contracts don't say where it is. The journal shows that nothing was written besides, and where it
// is by what it gives next.
use hound::{Journal, Source, WavReader, WavSpec, WavWriter};
use hound_test_helpers::{FOUR_SAMPLES, name_of, sixteen};
use std::alloc::Global;
use std::test::Fail;

// Whether a journal has these bytes, of which so many were written and so many flushed, and gives these
// next.
fn has(
    alloc: Global,
    journal: Journal,
    bytes: &[u8],
    written: (usize, usize),
    next: [u8; 2],
) -> hound::Result<bool> {
    let mut journal = journal;
    let taken = journal.taken();
    let is_same = journal.bytes_after(alloc, taken)?.as_slice() == bytes;
    let mut given = [0; 2];
    let count = journal.get(&mut given)?;
    Ok(is_same && (taken, journal.flushed()) == written && count == 2 && given == next)
}

// Whether the header, the samples and the two sizes are written, and the journal is at the data, where the writer
// is finalized or dropped.
fn is_written(alloc: Global, is_finalized: bool) -> hound::Result<bool> {
    let mut journal = Journal::new(alloc, Vec::new(alloc))?;
    let mut writer = WavWriter::new(&mut journal, sixteen(1))?;
    writer.write_samples(&[2i16, -3, 5, -7])?;
    if is_finalized {
        writer.finalize()?;
    } else {
        drop(writer);
    }
    has(alloc, journal, &FOUR_SAMPLES, (60, 60), [2, 0])
}

// A spec that can't be written leaves the journal as it was, and a fault a beginning of the header.
fn is_not_begun(alloc: Global) -> hound::Result<bool> {
    let spec = WavSpec {
        bits_per_sample: 12,
        ..sixteen(1)
    };
    let mut journal = Journal::new(alloc, FOUR_SAMPLES.to_vec(alloc)?)?;
    let is_error = WavWriter::new(&mut journal, spec).is_err();
    Ok(is_error && has(alloc, journal, &FOUR_SAMPLES, (0, 0), [0x52, 0x49])?)
}

fn is_begun_in_part(alloc: Global) -> hound::Result<bool> {
    let mut journal = Journal::new(alloc, FOUR_SAMPLES.to_vec(alloc)?)?;
    journal.most(10);
    journal.fail(3, 3);
    let is_error = WavWriter::new(&mut journal, sixteen(1)).is_err();
    let mut bytes = FOUR_SAMPLES;
    bytes[4] = 0; // The RIFF size is 0 at first.
    Ok(is_error && has(alloc, journal, &bytes, (20, 0), [1, 0])?)
}

// The four samples with another tag in front, which a walk takes.
fn with_wrong_tag() -> [u8; 52] {
    let mut bytes = FOUR_SAMPLES;
    bytes[3] = 0x58;
    bytes
}

fn is_not_appended_to(alloc: Global) -> hound::Result<bool> {
    let bytes = with_wrong_tag();
    let mut journal = Journal::new(alloc, bytes.to_vec(alloc)?)?;
    let is_error = WavWriter::new_append(&mut journal).is_err();
    Ok(is_error && has(alloc, journal, &bytes, (0, 0), [0x2c, 0])?)
}

// Whether the source of these bytes comes back where no reader is made of it, since this call fails or for another
// error, and gives these next.
fn is_returned(
    alloc: Global,
    bytes: &[u8],
    failing: u64,
    name: &str,
    next: [u8; 2],
) -> hound::Result<bool> {
    let mut journal = Journal::new(alloc, bytes.to_vec(alloc)?)?;
    journal.fail(failing, failing);
    match WavReader::try_new(journal) {
        Ok(_) => Ok(false),
        Err((journal, error)) => {
            Ok(name_of(&error) == name && has(alloc, journal, bytes, (0, 0), next)?)
        }
    }
}

#[test]
fn what_is_left_of_a_lent_medium(rt: HostRuntime) -> Result<(), Fail> {
    let alloc = rt.alloc();
    assert_eq!(rt;
        (is_written(alloc, true)?, is_written(alloc, false)?),
        (true, true)
    );
    assert_eq!(rt;
        (is_not_begun(alloc)?, is_begun_in_part(alloc)?),
        (true, true)
    );
    Ok(())
}

#[test]
fn what_is_left_where_no_writer_or_reader_is_made(rt: HostRuntime) -> Result<(), Fail> {
    let alloc = rt.alloc();
    assert!(rt; is_not_appended_to(alloc)?);
    let bytes = with_wrong_tag();
    assert!(rt; is_returned(alloc, &bytes, u64::MAX, "no RIFF tag found", [0x2c, 0])?);
    assert!(rt; is_returned(alloc, &FOUR_SAMPLES, 1, "IoError", [0x52, 0x49])?);
    Ok(())
}
