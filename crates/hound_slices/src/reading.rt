// Blocks of samples that are read.
ghost use Rattle.std.specs.Prelude.{◌≡◌, ◌≤◌, IfOk, IsOk, None, length};
ghost use Rattle.hound_reader.specs.{rejection_at};
ghost use Rattle.hound_slices.specs.Reading.{Decodes, DecodesSamples, ReadsInto, read_check};

use crate::error::CallError;
use hound_sample::{Decode, decode_containers};
use hound_spec::{Error, WavSpecEx};
use hound_walk::find_samples;

// Whether samples of a spec are read as a type.
fn check_read<S: Decode>(spec_ex: WavSpecEx) -> Result<(), CallError>
    ensures check { result ≡ read_check (S.decode_rejection spec_ex.spec.sample_format
        spec_ex.bytes_per_sample spec_ex.spec.bits_per_sample) }
    ensures some { IsOk result → 1 ≤ spec_ex.bytes_per_sample }
{
    let spec = spec_ex.spec;
    let width = spec_ex.bytes_per_sample;
    match S::check(spec.sample_format, width, spec.bits_per_sample) {
        Ok(()) => Ok(()),
        Err(Error::InvalidSampleFormat) => Err(CallError::OtherFormat),
        Err(Error::TooWide) => Err(CallError::TooWide),
        Err(_) => Err(CallError::NotWritable),
    }
}

// Decodes containers into the front of `out`, as many as there are and fit, and returns how many.
fn decode_front<S: Decode>(spec_ex: WavSpecEx, bytes: &[u8], out: &mut [S]) -> usize
    requires taken { rejection_at S.decode_rejection spec_ex ≡ None }
    requires some { 1 ≤ spec_ex.bytes_per_sample }
    ensures { DecodesSamples S.decode_rejection S.value spec_ex bytes.now result out.old out.new }
{
    let width = spec_ex.bytes_per_sample as usize;
    let count = out.len().min(bytes.len() / width);
    let (format, bits) = (spec_ex.spec.sample_format, spec_ex.spec.bits_per_sample);
    let front = &mut out[..count];
    decode_containers(
        &bytes[..count * width],
        front,
        format,
        spec_ex.bytes_per_sample,
        bits,
    );
    count
}

/// Reads samples from one on into the front of `out`, and returns how many.
pub fn read_block<S: Decode>(file: &[u8], first: u64, out: &mut [S]) -> Result<usize, CallError>
    ensures { ReadsInto S.decode_rejection S.value file.now first out.old out.new result }
{
    let (head, samples) = find_samples(file)?;
    let spec_ex = head.spec_ex;
    check_read::<S>(spec_ex)?;
    if first >= samples as u64 || out.is_empty() {
        return Ok(0);
    }
    let first = first as usize;
    let width = spec_ex.bytes_per_sample as usize;
    let data = &file[head.data_start as usize..];
    let stored = (samples as usize).min(data.len() / width);
    if first >= stored {
        return Err(CallError::Truncated);
    }
    let start = first * width;
    let end = start + (stored - first) * width;
    Ok(decode_front(spec_ex, &data[start..end], out))
}

/// Decodes containers of a spec, which lie one after the other, and returns how many.
pub fn decode_block<S: Decode>(
    spec_ex: WavSpecEx,
    bytes: &[u8],
    out: &mut [S],
) -> Result<usize, CallError>
    ensures decodes { Decodes S.decode_rejection S.value spec_ex bytes.now out.old out.new result }
    ensures within { IfOk result (λ n. n ≤ length out.old) }
{
    check_read::<S>(spec_ex)?;
    Ok(decode_front(spec_ex, bytes, out))
}
