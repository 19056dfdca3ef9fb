// convert IN OUT BITS: writes a file of integers or floats as integers of 8, 16, 24 or 32 bits.
//
// It prints how many samples were clipped: `1240 samples clipped`. `change_bits` and `float_to_int` say
// how they round: of integers a half goes up, of floats to the even number. What then passes the largest
// sample is clipped to it. Of a file that ends early the whole frames before that are converted.
ghost use Rattle.std.specs.Prelude.{◌<◌, ◌≤◌};

use hound::{
    FloatBits, Medium, SampleFormat, WavReader, WavSpec, WavSpecEx, WavWriter, change_bits,
    float_to_int,
};
use std::alloc::Global;
use std::path::Path;
use std::process::ExitCode;
use std::{env, io};

pub fn main(rt: HostRuntime) -> hound::Result<ExitCode> {
    let words: Vec<String> = env::args(&rt)?.collect(rt.alloc())?;
    run(&rt, &words)
}

fn run(rt: &HostRuntime, words: &[String]) -> hound::Result<ExitCode> {
    let [_, from, to, bits] = words else {
        return reject(rt, "usage: convert IN OUT BITS", 2);
    };
    let Ok(bits @ (8 | 16 | 24 | 32)) = bits.parse::<u16>() else {
        return reject(rt, "usage: convert IN OUT BITS", 2);
    };
    if from == to {
        return reject(rt, "a file can't be read and written at once", 1);
    }
    let (from, to) = (Path::new(from.as_str()), Path::new(to.as_str()));
    let (clipped, end) = convert(rt, from, to, bits)?;
    println!(rt; "{clipped} samples clipped")?;
    end?;
    Ok(ExitCode::SUCCESS)
}

// Prints why nothing is done, and returns a status.
fn reject(rt: &HostRuntime, why: &str, status: u8) -> hound::Result<ExitCode> {
    eprintln!(rt; "{why}")?;
    Ok(ExitCode::from(status))
}

// How many samples were clipped, and whether the file ended early.
fn convert(
    rt: &HostRuntime,
    from: Path<'_>,
    to: Path<'_>,
    bits: u16,
) -> hound::Result<(u32, hound::Result<()>)> {
    let mut reader = WavReader::open(rt, rt.alloc(), from)?;
    let new = converted(reader.spec_ex(), bits);
    let mut writer = WavWriter::create_with_spec_ex(rt, rt.alloc(), to, new)?;
    let answer = copy(rt.alloc(), &mut reader, &mut writer)?;
    writer.finalize()?;
    Ok(answer)
}

fn copy<R: io::Read + Drop, W: Medium>(
    alloc: Global,
    reader: &mut WavReader<R>,
    writer: &mut WavWriter<W>,
) -> hound::Result<(u32, hound::Result<()>)> {
    let (old, bits) = (reader.spec(), writer.spec().bits_per_sample.clamp(1, 32));
    let channels = usize::from(old.channels.max(1));
    let length = channels * (4096 / channels).max(1);
    let mut block = vec![in alloc; 0i32; length]?;
    let mut floats = vec![in alloc; FloatBits(0); length]?;
    let mut clipped = 0u32;
    // Up to a block that isn't full, the last one. A `for` is known to end; a `loop` needs a proof.
    for _ in 0..u64::MAX {
        let (count, result) = match old.sample_format {
            SampleFormat::Int => reader.read_samples(&mut block),
            SampleFormat::Float => reader.read_samples(&mut floats),
        };
        let count = (count - count % channels).min(block.len());
        let frames = &mut block[..count];
        clipped = clipped.saturating_add(convert_block(frames, &floats, old, bits));
        writer.write_samples(frames)?;
        if count < block.len() {
            return Ok((clipped, result));
        }
    }
    Ok((clipped, Ok(())))
}

// The spec of the new file. The width of the containers stays where the bits do.
fn converted(old: WavSpecEx, bits: u16) -> WavSpecEx {
    if old.spec.bits_per_sample == bits && old.spec.sample_format == SampleFormat::Int {
        return old;
    }
    WavSpecEx::from(WavSpec {
        bits_per_sample: bits,
        sample_format: SampleFormat::Int,
        ..old.spec
    })
}

// Gives integers, or the floats that are to take their place, so many bits: how many were clipped.
fn convert_block(samples: &mut [i32], floats: &[FloatBits], old: WavSpec, bits: u16) -> u32
    requires some { 0 < bits }
    requires most { bits ≤ 32 }
{
    let mut clipped = 0u32;
    for (sample, float) in samples.iter_mut().zip(floats) {
        let (value, is_clipped) = match old.sample_format {
            SampleFormat::Int => change_bits(*sample, old.bits_per_sample.clamp(1, 32), bits),
            SampleFormat::Float => float_to_int(float.to_f32(), bits),
        };
        *sample = value;
        clipped = clipped.saturating_add(u32::from(is_clipped));
    }
    clipped
}
