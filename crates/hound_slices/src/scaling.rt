// Floats whose full scale is 1 as integers of a file; and floats of 32 bits as those of 64, and back.
ghost use Rattle.std.specs.Prelude.{◌≡◌, ◌*◌, ◌≤◌, IfErr, IfOk, length};
ghost use Rattle.std.specs.Float.{round_to_format};
ghost use lib.Ieee.{binary32};
ghost use Rattle.hound_sample.specs.{int_container, with_noise};
ghost use Rattle.hound_spec.specs.{IsPair};
ghost use Rattle.hound_spec.specs.declared.spec.SampleFormat.TheVariants.{Int};
ghost use Rattle.hound_slices.specs.Writing.{Encodes};
ghost use Rattle.hound_slices.specs.Scaling.{CountsClipped, IsNoInteger, NarrowsFloats, TakesNumbers, WidensFloats, becomes_infinite, clipped_among, integers};

use crate::error::CallError;
use hound_sample::{Amplitude, store_amplitudes, store_with_noise};
use hound_spec::{SampleFormat, WavSpecEx, is_pair};
use std::num::{f32_to_f64_with_nan, nearest_f64_to_f32_with_nan};

// How many bytes so many integers of a spec take, if they are written and there is room for them.
fn size_of_integers(spec_ex: WavSpecEx, count: usize, room: usize) -> Result<usize, CallError>
    ensures format { IfOk result (λ _. spec_ex.spec.sample_format ≡ Int) }
    ensures pair { IfOk result (λ _. IsPair Int spec_ex.spec.bits_per_sample spec_ex.bytes_per_sample) }
    ensures size { IfOk result (λ n. n ≡ count * spec_ex.bytes_per_sample) }
    ensures room { IfOk result (λ n. n ≤ room) }
    ensures error { IfErr result (IsNoInteger spec_ex count room) }
{
    let spec = spec_ex.spec;
    let width = spec_ex.bytes_per_sample;
    if spec.sample_format != SampleFormat::Int {
        return Err(CallError::OtherFormat);
    }
    if !is_pair(SampleFormat::Int, spec.bits_per_sample, width) {
        return Err(CallError::NotWritable);
    }
    if count > room / width as usize {
        return Err(CallError::NoRoom);
    }
    Ok(count * width as usize)
}

/// Encodes floats as integers of a spec, one after the other, counts those that were clipped, and returns how many
/// bytes.
pub fn encode_floats<S: Amplitude>(
    spec_ex: WavSpecEx,
    samples: &[S],
    out: &mut [u8],
    clipped: &mut u64,
) -> Result<usize, CallError>
    ensures encodes { Encodes Int int_container spec_ex
        (integers S.amplitude spec_ex samples.now) out.old out.new result }
    ensures counts { CountsClipped (clipped_among S.amplitude spec_ex samples.now)
        clipped.old clipped.new result }
    ensures within { IfOk result (λ n. n ≤ length out.old) }
{
    let end = size_of_integers(spec_ex, samples.len(), out.len())?;
    let (bits, width) = (spec_ex.spec.bits_per_sample, spec_ex.bytes_per_sample);
    *clipped = store_amplitudes(&mut out[..end], samples, bits, width);
    Ok(end)
}

/// The same with noise, whose state becomes that for the next floats.
pub fn encode_with_noise<S: Amplitude>(
    spec_ex: WavSpecEx,
    samples: &[S],
    state: &mut u64,
    out: &mut [u8],
    clipped: &mut u64,
) -> Result<usize, CallError>
    ensures encodes { Encodes Int int_container spec_ex (integers (λ x. x) spec_ex
        (with_noise S.amplitude spec_ex.spec.bits_per_sample state.old samples.now)) out.old out.new result }
    ensures counts { CountsClipped (clipped_among (λ x. x) spec_ex
        (with_noise S.amplitude spec_ex.spec.bits_per_sample state.old samples.now)) clipped.old clipped.new result }
    ensures takes { TakesNumbers (length samples.now) state.old state.new result }
    ensures within { IfOk result (λ n. n ≤ length out.old) }
{
    let end = size_of_integers(spec_ex, samples.len(), out.len())?;
    let (bits, width) = (spec_ex.spec.bits_per_sample, spec_ex.bytes_per_sample);
    *clipped = store_with_noise(&mut out[..end], samples, bits, width, state);
    Ok(end)
}

/// Widens floats to 64 bits, which changes none, and returns how many.
pub fn widen_floats(samples: &[f32], out: &mut [f64]) -> Result<usize, CallError>
    ensures widens { WidensFloats samples.now out.old out.new result }
    ensures within { IfOk result (λ n. n ≤ length out.old) }
{
    if samples.len() > out.len() {
        return Err(CallError::NoRoom);
    }
    for i in 0..samples.len() {
        out[i] = f32_to_f64_with_nan(samples[i]);
    }
    Ok(samples.len())
}

// The nearest float of 32 bits, and whether it is infinite though the number isn't.
#[inline(always)]
fn narrowed(number: f64) -> (f32, bool)
    ensures value { result.0 ≡ round_to_format binary32 number }
    ensures is_infinite { result.1 ≡ becomes_infinite number }
{
    let nearest = nearest_f64_to_f32_with_nan(number);
    let is_infinite = number.is_finite() && !nearest.is_finite();
    (nearest, is_infinite)
}

/// Narrows floats to 32 bits, to the nearest, counts those that become infinite, and returns how many there are in all.
pub fn narrow_floats(
    samples: &[f64],
    out: &mut [f32],
    infinite: &mut u64,
) -> Result<usize, CallError>
    ensures narrows { NarrowsFloats samples.now out.old out.new infinite.old infinite.new result }
    ensures within { IfOk result (λ n. n ≤ length out.old) }
{
    if samples.len() > out.len() {
        return Err(CallError::NoRoom);
    }
    let mut count = 0;
    for i in 0..samples.len() {
        let (sample, is_infinite) = narrowed(samples[i]);
        out[i] = sample;
        count += is_infinite as u64;
    }
    *infinite = count;
    Ok(samples.len())
}
