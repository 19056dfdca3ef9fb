// levels FILE: prints how loud each channel of a file is in each tenth of a second.
//
// A line is `0.1 s  channel 1  RMS -4.20 dBFS, peak -1.86 dBFS`. `seek` leads to the first frame of each
// tenth, and one call reads it. The root mean square (RMS) and the peak are in decibels relative to full
// scale (dBFS): 0 is the largest, silence is -inf. Of a file that ends early the last lines are those of
// the samples before that.
ghost use Rattle.std.specs.Prelude.{◌<◌, ◌≤◌};

use hound::{WavReader, int_to_float};
use std::path::Path;
use std::process::ExitCode;
use std::{env, io};

pub fn main(rt: HostRuntime) -> hound::Result<ExitCode> {
    let Some(file) = env::args(&rt)?.nth(1) else {
        eprintln!(rt; "usage: levels FILE")?;
        return Ok(ExitCode::from(2));
    };
    show(&rt, Path::new(file.as_str()))?;
    Ok(ExitCode::SUCCESS)
}

fn show(rt: &HostRuntime, path: Path<'_>) -> hound::Result<()> {
    let mut reader = WavReader::open(rt, rt.alloc(), path)?;
    let spec = reader.spec();
    let channels = usize::from(spec.channels.max(1));
    let tenth = (spec.sample_rate / 10).max(1) as usize;
    let most = (tenth * channels).min(reader.len() as usize);
    let mut samples = vec![in rt.alloc(); 0i32; most]?;
    for frame in (0..reader.duration()).step_by(tenth) {
        reader.seek(frame)?;
        let (count, result) = reader.read_samples(&mut samples);
        let seconds = f64::from(frame) / f64::from(spec.sample_rate);
        show_tenth(
            rt,
            seconds,
            &samples[..count],
            channels,
            spec.bits_per_sample,
        )?;
        result?;
    }
    Ok(())
}

// A line for each channel.
fn show_tenth(
    rt: &HostRuntime,
    seconds: f64,
    samples: &[i32],
    channels: usize,
    bits: u16,
) -> io::Result<()> {
    for channel in 0..channels.min(samples.len()) {
        let (square, peak) = level_of(&samples[channel..], channels, bits.clamp(1, 32));
        let rms = 10.0 * square.log10();
        let peak = 20.0 * peak.log10();
        println!(rt;
            "{seconds:.1} s  channel {}  RMS {rms:.2} dBFS, peak {peak:.2} dBFS",
            channel + 1
        )?;
    }
    Ok(())
}

// The mean square of each so many-th sample, and the largest of these, the first one among them; full
// scale is 1.
fn level_of(samples: &[i32], step: usize, bits: u16) -> (f64, f64)
    requires some { 0 < bits }
    requires most { bits ≤ 32 }
{
    let mut peak = 0f64;
    let mut squares = 0f64;
    let mut count = 0f64;
    for sample in samples.iter().step_by(step.max(1)) {
        let sample = f64::from(int_to_float(*sample, bits));
        peak = peak.max(sample.abs());
        squares += sample * sample;
        count += 1.0;
    }
    (squares / count, peak)
}
