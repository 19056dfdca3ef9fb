//! What tests share: specs, files in memory, and the names of results.
#![tactic(auto)]

ghost use Rattle.std.specs.Prelude.{◌≡◌, IfOk};
ghost use Rattle.hound.specs.{MediumState};
ghost use Rattle.hound.specs.declared.SampleFormat.TheVariants.{Int};

use hound::{Error, Placed, SampleFormat, Tape, WavSpec, WavSpecEx};
use std::alloc::Global;
use std::io::ErrorKind;
use std::path::PathBuf;
use std::test::Fail;
use std::{env, process};

// Integers with these bits and bytes of a sample.
pub fn integers(channels: u16, sample_rate: u32, bits: u16, bytes_per_sample: u16) -> WavSpecEx {
    WavSpecEx {
        spec: WavSpec {
            channels,
            sample_rate,
            bits_per_sample: bits,
            sample_format: SampleFormat::Int,
        },
        bytes_per_sample,
    }
}

// Integers of 16 bits at 44100 Hz.
pub fn sixteen(channels: u16) -> WavSpec
    ensures { (result.sample_format ≡ Int) × (result.bits_per_sample ≡ 16) }
{
    WavSpec {
        channels,
        sample_rate: 44100,
        bits_per_sample: 16,
        sample_format: SampleFormat::Int,
    }
}

// Mono, 44100 Hz, 16 bits: 2, -3, 5, -7.
pub const FOUR_SAMPLES: [u8; 52] =
    *b"RIFF\x2c\0\0\0WAVEfmt \x10\0\0\0\x01\0\x01\0\x44\xac\0\0\x88\x58\x01\0\
    \x02\0\x10\0data\x08\0\0\0\x02\0\xfd\xff\x05\0\xf9\xff";

// The same without samples.
pub const NO_SAMPLES: [u8; 44] =
    *b"RIFF\x24\0\0\0WAVEfmt \x10\0\0\0\x01\0\x01\0\x44\xac\0\0\x88\x58\x01\0\
    \x02\0\x10\0data\0\0\0\0";

// A tape without bytes.
pub fn empty_tape(alloc: Global) -> Tape
    ensures { (⟦<Tape as Placed>⟧.state result).place ≡ 0 }
{
    Tape::new(Vec::new(alloc))
}

// A tape of these bytes, at the first of them.
pub fn tape_of(alloc: Global, bytes: &[u8]) -> Result<Tape, Fail>
    ensures { IfOk result (λ t. (⟦<Tape as Placed>⟧.state t).place ≡ 0) }
{
    Ok(Tape::new(bytes.to_vec(alloc)?))
}

// The path of a file for the tests of this name, which no other process uses.
pub fn path_of(rt: &HostRuntime, name: &str) -> Result<PathBuf, Fail> {
    let id = process::id(rt.process());
    let name = format!(in rt.alloc(); "{name}_{id}.wav")?;
    Ok(env::temp_dir(rt)?.join(rt.alloc(), name.as_str())?)
}

// The name of an `IoError` where there was no memory.
pub const NO_MEMORY: &str = "IoError of kind OutOfMemory";

// The name of an error, or of an ill-formed file the reason.
pub fn name_of(error: &Error) -> &'static str {
    match error {
        Error::IoError(fault) if fault.kind() == ErrorKind::OutOfMemory => NO_MEMORY,
        Error::IoError(_) => "IoError",
        Error::FormatError(reason) => *reason,
        Error::TooWide => "TooWide",
        Error::UnfinishedSample => "UnfinishedSample",
        Error::Unsupported => "Unsupported",
        Error::InvalidSampleFormat => "InvalidSampleFormat",
        Error::TooLong => "TooLong",
        Error::OutOfMemory => "OutOfMemory",
    }
}

// The answer of a call that hands its medium back with an error, without that medium.
pub fn without_medium<T: Drop, M: Drop>(answer: Result<T, (M, Error)>) -> hound::Result<T> {
    match answer {
        Ok(value) => Ok(value),
        Err((_, error)) => Err(error),
    }
}

// The name of the error that a call returned, or "ok".
pub fn name_of_answer<T>(answer: &hound::Result<T>) -> &'static str {
    match answer {
        Ok(_) => "ok",
        Err(error) => name_of(error),
    }
}
