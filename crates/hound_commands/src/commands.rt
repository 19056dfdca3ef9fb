// What the program does, over any reader and writers.
ghost use Rattle.std.specs.Prelude.{◌≡◌, ◌≤◌, ◌↔◌, ◌⊎◌, ℤ, List, IfErr, IfSome, IsNone, MatchResult, OnOk, IfOk};
ghost use Rattle.hound_spec.specs.{with_default_width};
ghost use Rattle.hound_spec.specs.declared.spec.SampleFormat.TheVariants.{Int};
ghost use Rattle.hound_spec.specs.declared.spec.WavSpec.{WavSpec};
ghost use Rattle.hound_commands.specs.Commands.{AreNumbersOf, IsCommand, IsPackCommand, IsShowCommand, Packs, PacksUntil, SaySpec, IsPacked, IsPackFailure, Shows, ShowsUntil};
ghost use Rattle.hound_commands.specs.declared.error.CommandError.{CommandError};

use crate::error::CommandError;
use crate::showing::show;
use hound_medium::{Placed, Tape};
use hound_spec::{SampleFormat, WavSpec};
use hound_text::{digits, read_numbers, write_text};
use hound_writer::WavWriter;
use std::alloc::Global;
use std::fmt::Display;
use std::io::Write;
use std::path::Path;
use std::rt::Files;
use std::{fs, io};

// More bytes than a line on standard error has.
const LINE_LENGTH: usize = 256;

const USAGE: &str = "usage: hound_tool pack CHANNELS RATE BITS | show | append FILE";

/// Carries out the words, and returns the status: 0 for success, 1 where it failed, 2 for words that it doesn't know.
///
/// `pack CHANNELS RATE BITS` reads numbers from the input and writes a WAV file of them to the output, which stays
/// empty where it fails. `show` reads a WAV file from the input and writes its spec and its samples, a line each; what
/// was written before it fails stays. A failure has one line on `errors`; a fault while that is written isn't reported.
/// `append` gets the usage line here: [`run_append`] carries it out.
pub fn run<R: io::Read, O: io::Write, E: io::Write>(
    alloc: Global,
    words: &[&str],
    input: &mut R,
    output: &mut O,
    errors: &mut E,
) -> u8
    ensures status { result ≤ 2 }
    ensures usage { result ≡ 2 ↔ (IsCommand words.now → ⊥) }
    ensures success { result ≡ 0 → IsShowCommand words.now ⊎ ((spec : WavSpec) × IsPackCommand words.now spec
        × Packs (with_default_width spec) (R.remaining input.old) (O.contents output.old) (O.contents output.new)) }
    ensures shown { result ≡ 0 → IsShowCommand words.now → Shows (R.remaining input.old)
        (O.contents output.old) (O.contents output.new) }
    ensures failed { result ≡ 1 → (failure : CommandError) × ((IsShowCommand words.now
        × ShowsUntil (R.remaining input.old) failure (O.contents output.old)
        (O.contents output.new)) ⊎ ((spec : WavSpec) × IsPackCommand words.now spec
        × PacksUntil O.contents (with_default_width spec) (R.remaining input.old) failure output.old output.new)) }
    ensures kept { result ≡ 2 → output.new ≡ output.old }
{
    let result = match words {
        ["pack", channels, rate, bits] => match spec_of(channels, rate, bits) {
            Some(spec) => pack(alloc, spec, input, output),
            None => return usage(errors),
        },
        ["show"] => show(input, output),
        _ => return usage(errors),
    };
    status_of(result, errors)
}

/// Carries out `append FILE`, and returns the status: 0 for success, 1 where it failed.
///
/// Reads numbers from the input, all of them before the file is opened, and appends them as samples to a WAV file that
/// is there. The first that can't be written ends it: those before it are kept. A failure has one line on `errors`; a
/// fault while that is written isn't reported.
pub fn run_append<R: io::Read, E: io::Write>(
    rt: &impl Files<File = fs::File>,
    alloc: Global,
    path: Path<'_>,
    input: &mut R,
    errors: &mut E,
) -> u8
    ensures status { result ≤ 1 }
    ensures success { result ≡ 0 → (numbers : List ℤ) × AreNumbersOf (R.remaining input.old) numbers }
{
    let result = append(rt, alloc, path, input);
    status_of(result, errors)
}

// The status of a result; a failure has its line on `errors`.
fn status_of<E: io::Write>(outcome: Result<(), CommandError>, errors: &mut E) -> u8
    ensures { MatchResult outcome (λ _. result ≡ 0) (λ _. result ≡ 1) }
{
    match outcome {
        Ok(()) => 0,
        Err(failure) => {
            tell(&failure, errors);
            1
        }
    }
}

// Writes a line to `errors`, in one write, so that those of two runs at a time don't mix.
fn tell<T: Display, E: io::Write>(text: &T, errors: &mut E) {
    let mut line = io::Cursor::new([0; LINE_LENGTH]);
    let _ = writeln!(line, "{text}");
    let length = line.position() as usize;
    let _ = errors.write_all(&line.get_ref()[..length.min(LINE_LENGTH)]);
}

fn usage<E: io::Write>(errors: &mut E) -> u8
    ensures { result ≡ 2 }
{
    tell(&USAGE, errors);
    2
}

// The spec of three words, if they are digits within range.
fn spec_of(channels: &str, rate: &str, bits: &str) -> Option<WavSpec>
    ensures said { IfSome result (SaySpec channels.now rate.now bits.now) }
    ensures none { IsNone result → (spec : WavSpec) → SaySpec channels.now rate.now bits.now spec → ⊥ }
{
    Some(WavSpec {
        channels: digits(channels, 65535)? as u16,
        sample_rate: digits(rate, u32::MAX)?,
        bits_per_sample: digits(bits, 65535)? as u16,
        sample_format: SampleFormat::Int,
    })
}

// Writes the file of the numbers that are read.
fn pack<R: io::Read, O: io::Write>(
    alloc: Global,
    spec: WavSpec,
    input: &mut R,
    output: &mut O,
) -> Result<(), CommandError>
    requires integers { spec.sample_format ≡ Int }
    ensures packed { OnOk result (Packs (with_default_width spec) (R.remaining input.old)
        (O.contents output.old) (O.contents output.new)) }
    ensures until { IfErr result (λ failure. PacksUntil O.contents (with_default_width spec)
        (R.remaining input.old) failure output.old output.new) }
{
    let numbers = read_numbers(alloc, input)?;
    let file = file_of(alloc, spec, &numbers)?;
    write_text(output, Tape::bytes(&file))?;
    output.flush()?;
    Ok(())
}

fn append<R: io::Read>(
    rt: &impl Files<File = fs::File>,
    alloc: Global,
    path: Path<'_>,
    input: &mut R,
) -> Result<(), CommandError>
    ensures { OnOk result ((numbers : List ℤ) × AreNumbersOf (R.remaining input.old) numbers) }
{
    let numbers = read_numbers(alloc, input)?;
    let mut writer = WavWriter::append(rt, alloc, path)?;
    for number in &numbers {
        writer.write_sample(*number)?;
    }
    writer.finalize()?;
    Ok(())
}

/// The whole file of these samples, or the first cause for which there is none: the spec, a number that is too wide,
/// the length, an unfinished frame.
pub fn file_of(alloc: Global, spec: WavSpec, numbers: &[i32]) -> Result<Tape, CommandError>
    requires integers { spec.sample_format ≡ Int }
    ensures made { IfOk result (λ file. IsPacked (with_default_width spec) numbers.now
        (⟦<Tape as Placed>⟧.state file).contents) }
    ensures rejected { IfErr result (IsPackFailure (with_default_width spec) numbers.now) }
{
    let tape = Tape::new(Vec::new(alloc));
    let mut writer = WavWriter::new(tape, spec)?;
    writer.write_samples(numbers)?;
    let (file, result) = writer.finalize_into();
    result?;
    Ok(file)
}
