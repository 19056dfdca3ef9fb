// faulty: tests a recorder over a medium whose calls fail, each in turn.
//
// It prints how many runs there were, and how many of them were wrong: `64 runs, 0 wrong`. `record`
// stands for a recorder of yours. It runs over a `Journal` whose calls fail from one on, for each call
// in turn. After a run the file is read as it was after every byte that was written: it has to have the
// first samples that were recorded, and at the end at least those that the recorder reported as
// published. A recorder that reports a checkpoint before it made it is wrong in some runs.
use hound::{Journal, Medium, SampleFormat, WavReader, WavSpec, WavWriter};
use std::alloc::Global;
use std::process::ExitCode;

// How many bytes the header of such a file has.
const HEADER: usize = 44;

pub fn main(rt: HostRuntime) -> hound::Result<ExitCode> {
    let mut wrong = 0u32;
    for call in 0..64u64 {
        if !is_right(rt.alloc(), call)? {
            wrong = wrong.saturating_add(1);
        }
    }
    println!(rt; "64 runs, {wrong} wrong")?;
    Ok(ExitCode::from(if wrong == 0 { 0 } else { 1 }))
}

// Records twenty numbers from 0 on, with a checkpoint after each five, up to the first error: how many
// were published.
fn record<M: Medium>(mut writer: WavWriter<M>) -> u32 {
    let mut published = 0;
    for sample in 0..20i16 {
        if writer.write_sample(sample).is_err() {
            break;
        }
        if writer.len() % 5 == 0 {
            if writer.flush().is_err() {
                break;
            }
            published = writer.len();
        }
    }
    published
}

// Whether the recorder leaves what it should where all calls fail from this one on.
fn is_right(alloc: Global, call: u64) -> hound::Result<bool> {
    let spec = WavSpec {
        channels: 1,
        sample_rate: 44100,
        bits_per_sample: 16,
        sample_format: SampleFormat::Int,
    };
    let mut journal = Journal::new(alloc, Vec::new(alloc))?;
    journal.fail(call, u64::MAX);
    let mut published = 0;
    if let Ok(writer) = WavWriter::new(&mut journal, spec) {
        published = record(writer);
    }
    let end = journal.taken();
    let mut found = 0;
    for length in HEADER..end {
        match samples_of(&journal.bytes_after(alloc, length)?) {
            Some(_) => {}
            None => return Ok(false),
        }
    }
    if end >= HEADER {
        found = match samples_of(&journal.bytes_after(alloc, end)?) {
            Some(count) => count,
            None => return Ok(false),
        };
    }
    Ok(found >= published)
}

// How many samples the file has, if they count up from 0.
fn samples_of(bytes: &[u8]) -> Option<u32> {
    let mut reader = WavReader::new(bytes).ok()?;
    let mut expected = 0i32;
    for sample in reader.samples::<i32>() {
        if sample.ok()? != expected {
            return None;
        }
        expected = expected.wrapping_add(1);
    }
    Some(reader.len())
}
