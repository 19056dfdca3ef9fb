// What docs/USING.md says passes the check, in functions without a proof file: scripts/check_docs.py
// looks that each of its lines is here.
ghost use Rattle.std.specs.Prelude.{◌≡◌};
ghost use Rattle.hound.specs.{IsSixteen};

use hound::{Error, Medium, SampleFormat, SampleWriter16, WavReader, WavWriter};
use std::alloc::Global;
use std::io;
use std::num::saturating_f32_to_i16;

fn loops(reader: &mut WavReader<&[u8]>) -> u32 {
    let mut turns = 0u32;
    for _ in (0..reader.samples_left()).step_by(64) {
        turns = turns.saturating_add(1);
    }
    turns
}

fn sums(
    samples: &[i32],
    begin: i32,
    end: i32,
    length: u32,
    channels: u16,
) -> (i64, u32, Option<u32>) {
    let mut sum = 0i64;
    for sample in samples {
        sum = sum.wrapping_add(i64::from(*sample));
    }
    (
        sum,
        end.abs_diff(begin),
        length.checked_div(u32::from(channels)),
    )
}

fn magnitude(sample: i32) -> u32 {
    sample.unsigned_abs()
}

fn second(samples: &[i32]) -> i64 {
    let mut sum = 0i64;
    for frame in samples.chunks_exact(2) {
        sum = sum.wrapping_add(i64::from(frame[1]));
    }
    sum
}

fn front(samples: &[i32], count: usize) -> &[i32] {
    &samples[..count.min(samples.len())]
}

fn as_number(sample: i32) -> f64 {
    f64::from(sample)
}

fn clipped(sample: i32) -> i16 {
    sample.clamp(-32768, 32767) as i16
}

fn of_level(level: f32) -> i16 {
    saturating_f32_to_i16(level * 32767.0)
}

#[derive(Drop)]
struct Meter {
    peak: i32,
}

fn peak_of(samples: &[i32]) -> i32 {
    let mut meter = Meter { peak: 0 };
    for sample in samples {
        meter.peak = meter.peak.max(*sample);
    }
    meter.peak
}

fn count<R: io::Read + Drop>(reader: WavReader<R>) -> u32 {
    reader.len()
}

fn memory(rt: &HostRuntime, sample: i16) -> hound::Result<Vec<i16>> {
    let block = vec![in rt.alloc(); 0i16; 512]?;
    let mut samples = Vec::new(rt.alloc());
    samples.push(sample)?;
    samples.extend_from_slice(&block)?;
    Ok(samples)
}

fn number_of(error: &Error) -> u8 {
    match error {
        Error::IoError(_) => 1,
        Error::FormatError(_) => 2,
        Error::TooWide => 3,
        Error::UnfinishedSample => 4,
        Error::Unsupported => 5,
        Error::InvalidSampleFormat => 6,
        Error::TooLong | Error::OutOfMemory => 7,
    }
}

fn squares(reader: &mut WavReader<&[u8]>) -> hound::Result<f64> {
    let mut sum = 0.0;
    for sample in reader.samples::<i16>() {
        let sample = f64::from(sample?);
        sum += sample * sample;
    }
    Ok(sum)
}

fn batches<M: Medium>(
    writer: &mut WavWriter<M>,
    alloc: Global,
    samples: &[i16],
) -> hound::Result<()> {
    let spec = writer.spec();
    if spec.bits_per_sample == 16 && spec.sample_format == SampleFormat::Int {
        let mut batch = writer.get_i16_writer(alloc, 2)?;
        for sample in samples {
            if batch.remaining() > 0 {
                batch.write_sample(*sample);
            }
        }
    }
    Ok(())
}

fn printed(rt: &HostRuntime, sum: i32) -> io::Result<()> {
    println!(rt; "{sum}")?;
    Ok(())
}

#[test]
fn adds(rt: HostRuntime) {
    let sum = sums(&[1, 2], 0, 0, 0, 0).0;
    assert_eq!(rt; sum, 3);
}
