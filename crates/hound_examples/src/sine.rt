// sine FILE: writes a second of a sine of 440 Hz, in sixteen bits.
//
// It prints nothing. This is the shortest writer: `create`, a `write_sample` for each sample, and
// `finalize`, whose Ok says that the file is whole. Calls that open a file take `rt`, the runtime that
// `main` gets; those that take memory take its allocator, `rt.alloc()`; a name of a file is a `Path`.
//
// The sine is the C library's, as in Rust: over one C library the file is the same, byte for byte,
// whatever compiled the program, and over another a few samples may differ by one.
use hound::{SampleFormat, WavSpec, WavWriter};
use std::env;
use std::f32::consts::PI;
use std::num::saturating_f32_to_i16;
use std::path::Path;
use std::process::ExitCode;

pub fn main(rt: HostRuntime) -> hound::Result<ExitCode> {
    let Some(file) = env::args(&rt)?.nth(1) else {
        eprintln!(rt; "usage: sine FILE")?;
        return Ok(ExitCode::from(2));
    };
    let spec = WavSpec {
        channels: 1,
        sample_rate: 44100,
        bits_per_sample: 16,
        sample_format: SampleFormat::Int,
    };
    let path = Path::new(file.as_str());
    let mut writer = WavWriter::create(&rt, rt.alloc(), path, spec)?;
    let amplitude = f32::from(i16::MAX);
    for frame in 0..44100u16 {
        let seconds = f32::from(frame) / 44100.0;
        let sample = (seconds * 440.0 * 2.0 * PI).sin();
        writer.write_sample(saturating_f32_to_i16(sample * amplitude))?;
    }
    writer.finalize()?;
    Ok(ExitCode::SUCCESS)
}
