// A file to lines.
ghost use Rattle.std.specs.Prelude.{◌≡◌, ◌+◌, ◌<◌, ◌++◌, ℕ, List, IfErr, OnOk, length};
ghost use Rattle.std.specs.List.{flat_map};
ghost use Rattle.hound_reader.specs.{meaning_at, rejection_at};
ghost use Rattle.hound_commands.specs.Commands.{ReportsSamples, PushesOut, Shows, ShowsUntil, sample_line, show_rejection, spec_line};
ghost use Rattle.hound_text.specs.{HasLineRoom, integer_line, pattern_line};

use crate::error::CommandError;
use hound_reader::WavReader;
use hound_sample::{FloatBits, Sample};
use hound_spec::{SampleFormat, WavSpec};
use hound_text::Lines;
use std::io;
use std::io::Write;

// How many samples are read at once.
const BLOCK_LENGTH: usize = 1024;

/// Writes the lines of a file, that of its spec and those of its samples, as far as it can be read.
pub fn show<R: io::Read, O: io::Write>(input: &mut R, output: &mut O) -> Result<(), CommandError>
    ensures shown { OnOk result (Shows (R.remaining input.old) (O.contents output.old) (O.contents output.new)) }
    ensures until { IfErr result (λ failure. ShowsUntil (R.remaining input.old) failure
        (O.contents output.old) (O.contents output.new)) }
{
    let mut reader = WavReader::new(input)?;
    let mut lines = Lines::new();
    push_spec(&mut lines, reader.spec(), reader.len())?;
    let result = show_samples(&mut reader, &mut lines, output);

    // Those before a failure are shown.
    let written = lines.write_to(output);
    let flushed = output.flush();
    written?;
    result?;
    flushed?;
    Ok(())
}

// The line of a spec.
fn push_spec(lines: &mut Lines, spec: WavSpec, samples: u32) -> io::Result<()>
    ensures { OnOk result (lines.new ≡ lines.old ++ spec_line spec samples) }
{
    let channels = spec.channels;
    let rate = spec.sample_rate;
    let bits = spec.bits_per_sample;
    let format = match spec.sample_format {
        SampleFormat::Float => "float",
        SampleFormat::Int => "int",
    };
    writeln!(
        lines,
        "channels {channels} rate {rate} bits {bits} format {format} samples {samples}"
    )
}

// A type of samples that have lines.
trait Line: Sample + Copy {
    // The line of a sample.
    ghost line: { Self → List ℕ };

    // Appends the line of the sample.
    fn push_to(self, lines: &mut Lines)
        requires { HasLineRoom lines.old }
        ensures { lines.new ≡ lines.old ++ line self };
}

impl Line for i32 {
    ghost line = { integer_line };

    #[inline(always)]
    fn push_to(self, lines: &mut Lines) {
        lines.push_integer(self);
    }
}

impl Line for FloatBits {
    ghost line = { λ bits. pattern_line bits.0 };

    #[inline(always)]
    fn push_to(self, lines: &mut Lines) {
        lines.push_pattern(self.0);
    }
}

// The lines of the samples of a file: some go to the output, and the last ones are buffered.
fn show_samples<R: io::Read, O: io::Write>(
    reader: &mut WavReader<&mut R>,
    lines: &mut Lines,
    output: &mut O,
) -> Result<(), CommandError>
    requires fresh { reader.old.samples_read ≡ 0 }
    ensures { ReportsSamples reader.old.spec_ex reader.old.num_samples result
        (R.remaining reader.old.reader.now) (O.contents output.old) (O.contents output.new) lines.old lines.new }
{
    match reader.spec().sample_format {
        SampleFormat::Int => show_blocks(reader, &mut [0i32; BLOCK_LENGTH], lines, output),
        SampleFormat::Float => {
            show_blocks(reader, &mut [FloatBits(0); BLOCK_LENGTH], lines, output)
        }
    }
}

// The lines of all samples, a block at a time.
fn show_blocks<S: Line, R: io::Read, O: io::Write>(
    reader: &mut WavReader<&mut R>,
    block: &mut [S],
    lines: &mut Lines,
    output: &mut O,
) -> Result<(), CommandError>
    requires fresh { reader.old.samples_read ≡ 0 }
    requires some { 0 < length block.old }
    requires rejection { rejection_at S.rejection reader.old.spec_ex ≡ show_rejection reader.old.spec_ex }
    requires line { (c : List ℕ) → S.line (meaning_at S.meaning reader.old.spec_ex c)
        ≡ sample_line reader.old.spec_ex c }
    ensures { ReportsSamples reader.old.spec_ex reader.old.num_samples result
        (R.remaining reader.old.reader.now) (O.contents output.old) (O.contents output.new) lines.old lines.new }
{
    loop {
        let (count, result) = reader.read_samples(block);
        push_lines(&block[..count], lines, output)?;
        result?;
        if count == 0 {
            return Ok(());
        }
    }
}

// Appends the lines of samples, and writes what there is no room for.
fn push_lines<S: Line, O: io::Write>(
    samples: &[S],
    lines: &mut Lines,
    output: &mut O,
) -> io::Result<()>
    ensures { PushesOut result (O.contents output.old) (O.contents output.new) lines.new
        (lines.old ++ flat_map S.line samples.now) }
{
    for sample in samples {
        make_room(lines, output)?;
        sample.push_to(lines);
    }
    Ok(())
}

// Writes the lines where there is no room for one more.
#[inline(always)]
fn make_room<O: io::Write>(lines: &mut Lines, output: &mut O) -> io::Result<()>
    ensures room { OnOk result (HasLineRoom lines.new) }
    ensures moved { PushesOut result (O.contents output.old) (O.contents output.new) lines.new lines.old }
{
    if lines.has_room() {
        return Ok(());
    }
    lines.write_to(output)
}
